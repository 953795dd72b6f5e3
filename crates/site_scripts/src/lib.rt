// Scripts about a site: lines of text, read as commands, and what is told of them.
#![tactic(auto)]

pub mod mistake;
pub mod numbers;
pub mod program;
pub mod site_words;
pub mod told;
pub mod words;
