// What the receiver of a request or a reply does (01, "Request R from j", "Reply V from j"), on small values. What a packet and
// its receiver have to do with each other (`Ready`, `Holds`, `LastRequest`) stands in each contract: the pages name the functions with the two apart.
#![tactic(auto)]

use label::Label;
use network::{Packet, Record};
use rows::Row;

pub mod reacting;
pub mod receiving;
pub mod replies;
pub mod requests;
pub mod sending;

// What a packet may change of its receiver: the label and row for the packet's destination, the record for its source, and whether
// the station is active.
#[derive(Clone, Copy)]
pub struct Holding {
    pub label: Label,
    pub row: Row,
    pub kept: Record,
    pub active: bool,
}

// What a station does with a packet: what it holds afterwards, its answer, and the packet that it sends, not numbered, to nobody (scope 0),
// to the packet's receiver (1), or a copy to each of its up neighbours (2). The answer is the number that the call ends with (`Done`), and the scope a
// number that `copies` takes; an enum of either would be turned into the number wherever a contract names it.
#[derive(Clone, Copy)]
pub struct Reaction {
    pub holding: Holding,
    pub packet: Packet,
    pub answer: u32,
    pub scope: u8,
}
