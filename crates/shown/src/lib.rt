// Numbers and bytes as the programs print them.
#![tactic(auto)]

pub mod bytes;
pub mod hex;
