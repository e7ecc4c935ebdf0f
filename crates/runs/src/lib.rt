// Lists of calls on a new station, and what stations promise.
#![tactic(auto)]

pub mod run;
