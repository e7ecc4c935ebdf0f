// The bank of kinds 1 to 3, over new engines of one type.
#![tactic(auto)]

pub mod three;
