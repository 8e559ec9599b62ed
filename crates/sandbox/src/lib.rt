// The sandbox's public functions: the calls on any memory, draining the air, previews, events, and runs of events.
#![tactic(auto)]

pub mod calls;
pub mod events;
