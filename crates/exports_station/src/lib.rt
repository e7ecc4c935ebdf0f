// Kinds 1 to 3 over the table engine, and stations over them, for callers in C. Every name begins with pukhtamo_.
// A station does not cross to C, so each call makes one from the changes that the caller has made so far. Calls can be made
// several times over in one go: all give the same answer.
#![tactic(auto)]

mod change;
mod checking;
pub mod form;
pub mod kind_exports;
pub mod station_exports;
mod stationing;
mod telling;
