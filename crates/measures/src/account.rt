// What a measure looks at of one house.
use crate::holding::Holding;
use crate::past_record::PastRecord;

#[derive(Clone, Copy, PartialEq, Eq, Debug)]
pub struct Account {
    pub past: PastRecord,
    pub holding: Holding,
}
