#![tactic(auto)]

// The example of every row of the table of answers, through the call that gives it. There is no code here but the tests.
// What is asked and what is expected stand side by side, also where `survey` or `listing` ask the same: those print what they are answered, and
// one table for both would be no plainer.
// Rows of tables are tuples, so that a row stays a line: as structs they have a line for each field. Each table names its columns.
#[cfg(test)]
mod by_kinds;
#[cfg(test)]
mod engines;
#[cfg(test)]
mod lines;
#[cfg(test)]
mod refusal;
#[cfg(test)]
mod station_rows;
#[cfg(test)]
mod stations;
