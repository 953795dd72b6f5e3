// What a load limit is asked for.
use crate::amounts::SUPPLIES;

// A weight for each supply, and the largest load. Whether they are in range is judged where the limit is laid.
#[derive(Clone, Copy, PartialEq, Eq, Debug)]
pub struct LoadRequest {
    pub limit: u64,
    pub weights: [u32; SUPPLIES],
}
