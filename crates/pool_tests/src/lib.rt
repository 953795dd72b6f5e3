// Pools on examples: what the contracts promise, seen to run.
#![tactic(auto)]

#[cfg(test)]
mod extremes;
#[cfg(test)]
mod layers;
#[cfg(test)]
mod refusals;

#[cfg(test)]
use pools::load_request::LoadRequest;

#[cfg(test)]
fn load(limit: u64, weights: [u32; 4]) -> LoadRequest {
    LoadRequest { limit, weights }
}
