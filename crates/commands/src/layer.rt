// A layer that is still to be laid, and why it was not.
ghost use Rattle.std.specs.Prelude.{◌≡◌};
ghost use Rattle.commands.specs.declared.layer.Obstacle.TheVariants.{Refused};

use pools::amounts::Amounts;
use pools::fault::PoolFault;
use pools::load_request::LoadRequest;
use pools::refused::RefusedLayer;

#[derive(Clone, Copy, PartialEq, Eq, Debug)]
pub enum NewLayer {
    Reserve(Amounts),
    LoadLimit(LoadRequest),
}

#[derive(Clone, Copy, PartialEq, Eq, Debug)]
pub enum Obstacle {
    // There is no place for one layer more.
    NoPlace,
    Refused(PoolFault),
}

// Why a layer was not laid, and the stack as it was.
#[derive(Drop)]
pub struct NotLaid<S> {
    pub obstacle: Obstacle,
    pub stack: S,
}

impl<S> From<RefusedLayer<S>> for NotLaid<S> {
    ghost from_gives = { λ layer r. (r.obstacle ≡ Refused layer.fault) × (r.stack ≡ layer.pool) };

    fn from(layer: RefusedLayer<S>) -> NotLaid<S> {
        NotLaid {
            obstacle: Obstacle::Refused(layer.fault),
            stack: layer.pool,
        }
    }
}
