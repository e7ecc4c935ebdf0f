// The engines and the period call for callers in C. Every name begins with pukhtamo_.
// An engine is a value of the caller's: `new` gives one, and the other calls take a pointer to it.
#![tactic(auto)]

pub mod bitwise_exports;
mod calls;
pub mod fast_exports;
pub mod period_exports;
pub mod ready_made_exports;
pub mod slicing_exports;
pub mod table_exports;
