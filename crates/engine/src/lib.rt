// Engines that work out remainders byte by byte, and running checks over them.
#![tactic(auto)]

pub mod bitwise;
pub mod bitwise_engine;
pub mod engine;
pub mod fast;
pub mod fast_engine;
pub mod filling;
mod ieee;
mod look_up;
mod product;
pub mod ready_made;
pub mod ready_made_engine;
pub mod register;
pub mod remainder;
pub mod running;
pub mod stepping;
pub mod table;
pub mod table_engine;
