// The words of the codes, as mathematics: which changes each code notices, and which checks make a message a word.
#![tactic(auto)]

pub mod membership;
pub mod noticing;
