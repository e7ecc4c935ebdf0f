// Kinds 1 and 2, the CRC and the CRC with parity, over any engine.
#![tactic(auto)]

pub mod admitted_crc;
pub mod crc_kind;
mod form;
pub mod over_engine;
pub mod parity_kind;
