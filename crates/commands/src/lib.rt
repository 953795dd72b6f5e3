// What can be asked at the desk, and what each command does to the site that is laid out there.
#![tactic(auto)]

pub mod command;
pub mod layer;
pub mod session;
pub mod slot;
pub mod stack;
