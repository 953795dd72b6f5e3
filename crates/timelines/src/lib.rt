// A house over time, under any measure: its account at each tick, its levels, and what more would make of them.
#![tactic(auto)]

pub mod compare;
pub mod curve;
pub mod span;
pub mod stretch;
pub mod timeline;
