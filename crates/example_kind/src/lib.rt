// A kind of one's own, as an example.
#![tactic(auto)]

pub mod longitudinal;
pub mod numbering;
