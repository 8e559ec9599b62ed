// The network's memory by value (01, "The network's memory"). specs/View.antt reads it as the model's network.
#![tactic(auto)]

use label::Label;
use rows::Row;
use validation::AIR_LIMIT;

pub mod links;
pub mod opening;
pub mod packets;
pub mod places;
pub mod range;

// A source's request number.
#[derive(Clone, Copy)]
pub struct RequestNumber(pub u32);

// What a station keeps of a source's last request: its label as C, its number and destination, the last hop, and whether a reply
// was passed on.
#[derive(Clone, Copy)]
pub struct Record {
    pub cached: Label,
    pub number: RequestNumber,
    pub destination: u8,
    pub last_hop: u8,
    pub passed: bool,
}

// A packet, with the serial number of its sending. Kind 1 is a request, 2 a reply (no mask and no reset bit), 3 an error (the mask alone); a number,
// since memory that no call made may have any, which `in_range` finds.
#[derive(Clone, Copy)]
pub struct Packet {
    pub label: Label,
    pub serial: u64,
    pub number: RequestNumber,
    pub mask: u16,
    pub kind: u8,
    pub sender: u8,
    pub receiver: u8,
    pub source: u8,
    pub destination: u8,
    pub reset: bool,
}

// The packets in the air, in the order they were sent: the first `count`. There is no heap, so that the places and the count stand side by side.
#[derive(Clone, Copy)]
pub struct Air {
    pub packets: [Packet; AIR_LIMIT as usize],
    pub count: u8,
}

// The memory. What station i holds for station t stands at 16·i + t, and the link of two stations where the lower one holds the other. A
// station's sendings are numbered; serials[i] is the number of its last. At most `limit` packets are in the air after a call. A table for each field, as
// 01 names s, m and d. No type says that memory is in range: a call is made on any, and `in_range` is its first test.
#[derive(Clone, Copy)]
pub struct Memory {
    pub s: [u64; 256],
    pub m: [u32; 256],
    pub d: [u32; 256],
    pub serials: [u64; 16],
    pub rows: [Row; 256],
    pub records: [Record; 256],
    pub numbers: [RequestNumber; 16],
    pub sought: [u8; 16],
    pub active: [bool; 16],
    pub links: [bool; 256],
    pub air: Air,
    pub n: u8,
    pub limit: u8,
}
