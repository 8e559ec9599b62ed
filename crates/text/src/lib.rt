// The text of a printout, in a lent array (01, "Scripts and the printout"): decimal fields, and the lines of events and of labels.
#![tactic(auto)]

pub mod fields;
pub mod lines;
