// The line program's library.
#![tactic(auto)]

mod answers;
pub mod console;
mod decode;
pub mod line;
mod lines;
mod orders;
mod print;
pub mod transcript;
