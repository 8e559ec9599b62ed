// What a call changes at one station: Up, Give up and Expire; Solicit, Lose, Duplicate, and the delivery of a request or a reply.
// Kinds are numbers here, as C and scripts give them and as the contracts take any (`event_of`); `class_of` makes the one choice that all share.
ghost use Rattle.std.specs.Prelude.{◌≡◌, ◌≢◌, true, false, ◌+◌, ◌%◌, ◌<◌, eqb, if◌then◌else◌};
ghost use Rattle.base.specs.Numbers.{max_u32, max_u64};
ghost use Rattle.model.specs.Calls.{count_on};
ghost use Rattle.network.specs.View.{numbered};
ghost use Rattle.station.specs.Replying.{Ready};
ghost use Rattle.decisions.specs.Changing.{class_of, Solicits, Reacts, Loses, Doubles};

use network::packets::{numbered, request};
use network::{Packet, RequestNumber};
use station::Holding;
use station::receiving::react;

// What an event works on: what a station has of itself, its links and its rows (Up, Give up and Expire), rows alone (Trace), rows that are cut (Down, and
// an error delivered), or what a station holds (every other).
#[derive(Clone, Copy, Debug, PartialEq, Eq)]
pub enum Class {
    Setting,
    Tracing,
    Cutting,
    Changing,
}

// The class of an event, by its kind and that of the packet that it names.
#[tactic(auto, unfolding(crate::specs::Changing::class_of))]
pub fn class_of(kind: u8, carried: u8) -> Class
    ensures { result ≡ class_of kind carried }
{
    match kind {
        1 | 4 | 5 => Class::Setting,
        9 => Class::Tracing,
        2 => Class::Cutting,
        6 if carried == 3 => Class::Cutting,
        _ => Class::Changing,
    }
}

// A station, what it holds for a destination, and its record for a source.
#[derive(Clone, Copy)]
pub struct Spot {
    pub station: u8,
    pub destination: u8,
    pub source: u8,
}

// Where an event looks: at a and b, or where the receiver of p holds what p may change.
pub fn spot_of(kind: u8, a: u8, b: u8, p: Packet) -> Spot
    ensures call { kind ≢ 6 → (result.station ≡ a % 16) × (result.destination ≡ b % 16) × (result.source ≡ 0) }
    ensures packet { kind ≡ 6 → (result.station ≡ p.receiver % 16) × (result.destination ≡ p.destination % 16) × (result.source ≡ p.source % 16) }
    ensures inside { (result.station < 16) × (result.destination < 16) × (result.source < 16) }
{
    let i = p.receiver;
    let t = p.destination;
    let s = p.source;
    if kind == 6 {
        return Spot {
            station: i % 16,
            destination: t % 16,
            source: s % 16,
        };
    }
    Spot {
        station: a % 16,
        destination: b % 16,
        source: 0,
    }
}

// The number of successors after Expire, or as it was.
pub fn expired(kind: u8, count: u8) -> u8
    ensures { result ≡ (if eqb kind 5 then 0 else count) }
{
    if kind == 5 { 0 } else { count }
}

// What a call does at a station: what it holds then, its last request, whether the packet that the call names goes, its answer, and the
// packet that it sends, with its scope. Answer and scope are numbers, as in `Reaction`.
#[derive(Clone, Copy)]
pub struct Change {
    pub holding: Holding,
    pub packet: Packet,
    pub number: RequestNumber,
    pub answer: u32,
    pub sought: u8,
    pub scope: u8,
    pub drops: bool,
}

// Solicit, by station a for t.
fn soliciting(held: Holding, last: RequestNumber, a: u8, t: u8) -> Change
    requires { last.0 < max_u32 }
    ensures { Solicits held last.0 a t result }
{
    let label = held.label;
    let asked = RequestNumber(last.0 + 1);
    let mut next = held;
    next.active = true;
    Change {
        holding: next,
        packet: request(a, asked, t, label, false),
        number: asked,
        answer: 0,
        sought: t,
        scope: 2,
        drops: false,
    }
}

// The delivery of p, a request or a reply.
fn reacting(p: Packet, held: Holding, last: RequestNumber, sought: u8, links: [bool; 256]) -> Change
    requires { (0 < p.kind) × (p.kind < 3) × Ready p held }
    ensures { Reacts p held last sought links result }
{
    let reaction = react(p, held, last, sought, links);
    let holding = reaction.holding;
    let packet = reaction.packet;
    Change {
        holding,
        packet,
        number: last,
        answer: reaction.answer,
        sought,
        scope: reaction.scope,
        drops: true,
    }
}

// Lose, and Duplicate: packet p goes, or is sent once more as it is.
fn carrying(kind: u8, p: Packet, held: Holding, last: RequestNumber, sought: u8) -> Change
    ensures loses { kind ≡ 7 → Loses held last sought result }
    ensures doubles { kind ≢ 7 → Doubles p held last sought result }
{
    if kind == 7 {
        return Change {
            holding: held,
            packet: p,
            number: last,
            answer: 0,
            sought,
            scope: 0,
            drops: true,
        };
    }
    Change {
        holding: held,
        packet: p,
        number: last,
        answer: 0,
        sought,
        scope: 1,
        drops: false,
    }
}

// What the call of a kind does.
pub fn change_of(
    kind: u8,
    p: Packet,
    held: Holding,
    last: RequestNumber,
    sought: u8,
    links: [bool; 256],
    a: u8,
    t: u8,
) -> Change
    requires { (kind ≡ 3 → last.0 < max_u32) × (kind ≡ 6 → (0 < p.kind) × (p.kind < 3) × Ready p held) }
    ensures solicits { kind ≡ 3 → Solicits held last.0 a t result }
    ensures reacts { kind ≡ 6 → Reacts p held last sought links result }
    ensures loses { kind ≡ 7 → Loses held last sought result }
    ensures doubles { kind ≡ 8 → Doubles p held last sought result }
{
    match kind {
        3 => soliciting(held, last, a, t),
        6 => reacting(p, held, last, sought, links),
        _ => carrying(kind, p, held, last, sought),
    }
}

// How many of the packets sent are told: a duplicate is nobody's sending.
pub fn told(kind: u8, sent: u8) -> u8
    ensures { result ≡ (if eqb kind 8 then 0 else sent) }
{
    if kind == 8 { 0 } else { sent }
}

// The last serial number of a station that sends so many packets: one number for all of them, none where there is none.
#[tactic(auto, unfolding(model::specs::Calls::count_on))]
pub fn count_on(serial: u64, sent: u8) -> u64
    requires { 0 < sent → serial < max_u64 }
    ensures { result ≡ count_on serial sent }
{
    if sent == 0 {
        return serial;
    }
    serial + 1
}

// The packet as it is sent: with this serial number, but a duplicate keeps its own.
pub fn outgoing(kind: u8, p: Packet, serial: u64) -> Packet
    ensures own { kind ≡ 8 → result ≡ p }
    ensures numbered { kind ≢ 8 → result ≡ numbered p serial }
{
    if kind != 8 {
        return numbered(p, serial);
    }
    p
}
