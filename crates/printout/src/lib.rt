// The rehearsal of a script, from its bytes to the printout's bytes (01, "Scripts and the printout").
#![tactic(auto)]

pub mod rehearsal;
