// A request for a load limit, judged.
ghost use Rattle.pools.specs.Rules.{MadeExactlyWhenInRange};

use crate::amounts::{Amounts, SUPPLIES};
use crate::fault::PoolFault;
use crate::load_limit::{MAX_LIMIT, MAX_WEIGHT};
use crate::load_request::LoadRequest;
use crate::load_rule::LoadRule;

const MAX_WEIGHTS: Amounts = Amounts {
    each: [MAX_WEIGHT; SUPPLIES],
};

impl TryFrom<LoadRequest> for LoadRule {
    type Error = PoolFault;

    ghost try_from_gives = { MadeExactlyWhenInRange };

    fn try_from(request: LoadRequest) -> Result<LoadRule, PoolFault> {
        let LoadRequest { limit, weights } = request;
        if limit <= MAX_LIMIT && (Amounts { each: weights }).is_within(MAX_WEIGHTS) {
            Ok(LoadRule { weights, limit })
        } else {
            Err(PoolFault::BadLayer)
        }
    }
}
