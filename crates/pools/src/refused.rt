// A layer that was refused.
use crate::fault::PoolFault;

// Why the layer was refused, and the pool that was to lie below it, as it was. (That it is the caller's pool each
// constructor says of its own argument: no type can.)
#[derive(Drop)]
pub struct RefusedLayer<P> {
    pub fault: PoolFault,
    pub pool: P,
}
