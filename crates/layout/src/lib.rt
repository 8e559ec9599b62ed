// The memory in bytes (docs/LAYOUT.md): what the bytes of the layout read as, what a network is written as, and which bytes have a meaning.
#![tactic(auto)]

pub mod meaning;
pub mod memory;
pub mod places;
