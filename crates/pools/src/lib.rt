// Pools: what may be used of each supply at once, and what is in use.
#![tactic(auto)]

pub mod amounts;
pub mod bench;
pub mod fault;
pub mod load_limit;
pub mod load_request;
mod load_rule;
pub mod pool;
pub mod refused;
pub mod reserve;
