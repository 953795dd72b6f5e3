// The house that is followed at the desk, under a measure that is chosen as the program runs.
#![tactic(auto)]

pub mod command;
pub mod house;
pub mod kind;
pub mod watch;
