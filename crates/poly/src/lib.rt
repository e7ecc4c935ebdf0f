// Polynomials modulo 2: generators, remainders and periods.
#![tactic(auto)]

pub mod claims;
pub mod generator;
pub mod long_division;
pub mod period;
pub mod rules;
pub mod walk;
