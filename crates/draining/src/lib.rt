// Draining the air, as decisions on small values: when packet 0 is lost, what is done next, and when it is over.
#![tactic(auto)]

ghost use Rattle.std.specs.Prelude.{◌≡◌, ltb};
ghost use Rattle.draining.specs.Draining.{loses_packet, AllDrain};
ghost use Rattle.draining.specs.Following.{Follows};

// The kinds of event that a turn is.
const DELIVER: u8 = 6;

const LOSE: u8 = 7;

// The packet that is delivered or lost.
const FIRST: u8 = 0;

// An event: its kind and its operands, the numbers that a script has (`Follows`); and how many packets it loses because Deliver was turned down.
#[derive(Clone, Copy)]
pub struct Event {
    pub kind: u8,
    pub a: u8,
    pub b: u8,
    pub losses: u32,
}

// Whether packet 0 is lost where Deliver gives this answer; and that draining ends (specs/Draining.antt).
pub fn loses(answer: u32) -> bool
    ensures { (result ≡ loses_packet answer) × AllDrain }
{
    matches!(answer, 7 | 13)
}

// What follows on this answer: packet 0 is lost, or delivered.
pub fn turn_after(answer: u32) -> Event
    ensures { Follows answer result }
{
    let lost = loses(answer);
    Event {
        kind: if lost { LOSE } else { DELIVER },
        a: FIRST,
        b: 0,
        losses: u32::from(lost),
    }
}

// Whether a packet is left in the air.
pub fn packet_left(count: u8) -> bool
    ensures { result ≡ ltb 0 count }
{
    0 < count
}
