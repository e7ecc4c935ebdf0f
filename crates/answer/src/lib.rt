// Answers: what can be refused, by which layer and at which place.
#![tactic(auto)]

pub mod fault;
pub mod reading;
pub mod rules;
pub mod shown;
