// The calls (01, "What each call does") on memory in range, in place: an event, and a run of events.
#![tactic(auto)]

use network::Memory;

mod changing;
pub mod cutting;
pub mod drain;
pub mod happening;
pub mod parting;
pub mod running;
mod setting;
pub mod single;
pub mod source;
mod walking;

// What a call gives: the memory after it, its answer (the number of a refusal or of an outcome, 0 if it has neither), and how many
// packets it sent. A refused call gives back the memory (`Called`), so that an Err would have less to say.
#[derive(Clone, Copy)]
pub struct Done {
    pub memory: Memory,
    pub answer: u32,
    pub sent: u8,
}

// What an event gives: the memory after it, its answer, how many packets it sent, and the hops of a Trace. The answer as in `Done`.
#[derive(Clone, Copy)]
pub struct Happened {
    pub memory: Memory,
    pub answer: u32,
    pub sent: u8,
    pub hops: u8,
}

// The same where the memory is lent. The answer is a number here too: `outcome` holds it beside that of the model's step.
#[derive(Clone, Copy)]
pub struct Outcome {
    pub answer: u32,
    pub sent: u8,
    pub hops: u8,
}

// What a run of events gives: the memory after it; how many events it made, and how many packets it lost where it drained the air.
#[derive(Clone, Copy)]
pub struct Run {
    pub memory: Memory,
    pub events: usize,
    pub losses: u32,
}

// What draining the air gives: the memory after it, its answer, and the packets delivered and lost. The answer as in `Done`.
#[derive(Clone, Copy)]
pub struct Drained {
    pub memory: Memory,
    pub answer: u32,
    pub deliveries: u32,
    pub losses: u32,
}

// What Trace gives: its answer and its hops. The answer is a number, as demand 3 tells of 131 and 132 (`traced`).
#[derive(Clone, Copy)]
pub struct Traced {
    pub answer: u32,
    pub hops: u8,
}
