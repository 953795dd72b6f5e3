// Why a pool refuses, and which layer of the scheduler a refusal comes from.
ghost use Rattle.std.specs.Prelude.{◌≡◌};
ghost use Rattle.pools.specs.Faults.{code_of};

// The layer of the scheduler in which a fault arises. (The layers that are laid over a pool are another matter.)
#[derive(Clone, Copy, PartialEq, Eq, Debug)]
pub enum Layer {
    Reader,
    Books,
    Pool,
}

// Each case has the number by which the refusal is told.
#[derive(Clone, Copy, PartialEq, Eq, Debug)]
pub enum PoolFault {
    // A layer's numbers are out of range, or a reserve does not fit below.
    BadLayer = 9,
    // More is given back than is in use.
    MoreThanUsed = 28,
    // The pool has amounts in use, where an unused one is wanted.
    InUse = 29,
    // The used total plus the demand is not permitted.
    DoesNotFit = 30,
}

impl PoolFault {
    // The number by which the refusal is told.
    pub fn number(self) -> u8
        ensures number_of_the_fault { result ≡ (code_of self).number }
    {
        self as u8
    }

    pub fn layer(self) -> Layer
        ensures layer_of_the_fault { result ≡ (code_of self).layer }
    {
        match self {
            PoolFault::BadLayer
            | PoolFault::MoreThanUsed
            | PoolFault::InUse
            | PoolFault::DoesNotFit => Layer::Pool,
        }
    }
}
