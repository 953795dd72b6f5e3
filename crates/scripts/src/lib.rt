// The script of the desk: lines of text, read as what they ask for.
#![tactic(auto)]

pub mod house_words;
pub mod mistake;
pub mod request;
pub mod script;
