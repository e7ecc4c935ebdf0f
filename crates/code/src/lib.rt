// Kinds of code: descriptions, sheets, the trait of kinds, banks, how kinds compare, and the catalogue.
#![tactic(auto)]

pub mod bank;
pub mod by_hand;
pub mod bytes;
pub mod catalogue;
mod coded;
pub mod compared;
pub mod description;
pub mod fields;
pub mod for_callers;
pub mod kind;
pub mod numbering;
pub mod relations;
pub mod shown;
