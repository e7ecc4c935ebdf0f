// What the programs `report` and `survey` both print: the published generators and codes, by the engines that each names.
// A function that only prints has no contract: none can say what a terminal gets. What the programs print is compared with what
// `reference` writes.
#![tactic(auto)]

pub mod asked;
pub mod codes;
pub mod engines;
pub mod frames;
pub mod generators;
pub mod lines;
mod messages;
pub mod refusals;
