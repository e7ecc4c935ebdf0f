// Kind 3, the weighted sum.
#![tactic(auto)]

mod tuple_sums;
mod weighted;
pub mod weighted_kind;
