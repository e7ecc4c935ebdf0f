// Stations: frames, the book, and the calls over them.
#![tactic(auto)]

pub mod book;
pub mod call;
mod ccitt;
mod checking;
mod difference;
pub mod entry;
mod head;
mod layout;
mod parts;
mod place;
pub mod run;
mod sealing;
pub mod station;
mod taking;
pub mod trial;
