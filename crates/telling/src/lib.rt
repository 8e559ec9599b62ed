// What is told of a run of events: the line of each in one number, and the tally of all.
#![tactic(auto)]

pub mod lines;
pub mod tally;
