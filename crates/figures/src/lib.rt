// The figures worked by hand in docs/RULES.md, proved of the code that answers them.
#![tactic(auto)]

pub mod measure_figures;
pub mod pool_figures;
