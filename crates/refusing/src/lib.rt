// Which number turns an event down (01, "Numbers for calls turned down").
#![tactic(auto)]

ghost use Rattle.std.specs.Prelude.{◌≡◌, ◌&&◌, ◌||◌, ltb, leb, eqb, if◌then◌else◌};
ghost use Rattle.base.specs.Numbers.{max_u32, max_u64};
ghost use Rattle.model.specs.Memory.{Network};
ghost use Rattle.model.specs.Events.{event_of};
ghost use Rattle.validation.specs.Refusal.{refusal_number};
ghost use Rattle.refusing.specs.Refusing.{Seen, Tests, sending_refusal};

use network::RequestNumber;
use validation::{Refusal, not_event, not_pair, not_station};

// Whether a station that sends so many packets has used up its serial numbers: its last one is this.
fn used_up(serial: u64, sent: u8) -> bool
    ensures { result ≡ leb max_u64 serial && ltb 0 sent }
{
    (u64::MAX <= serial) & (0 < sent)
}

// 13, then 7: what turns a call down after which so many packets are in the air. Two stations send; of each its last serial number and how many
// packets it sends.
#[tactic(auto, unfolding(crate::specs::Refusing::sending_refusal))]
pub fn sending_refusal(
    limit: u8,
    air: u8,
    first: u64,
    sent: u8,
    second: u64,
    more: u8,
) -> Result<(), Refusal>
    ensures { refusal_number result ≡ sending_refusal limit air first sent second more }
{
    if used_up(first, sent) | used_up(second, more) {
        return Err(Refusal::NoSerialNumber);
    }
    if limit < air {
        return Err(Refusal::AirFull);
    }
    Ok(())
}

// Expire and Trace: 2.
fn pair_refusal(n: u8, a: u8, b: u8) -> Result<(), Refusal>
    ensures { refusal_number result ≡ (if leb n a || leb n b || eqb a b then 2 else 0) }
{
    if not_pair(n, a as usize, b as usize) {
        return Err(Refusal::NotStations);
    }
    Ok(())
}

// Up and Down: 2, then 3.
fn link_refusal(n: u8, a: u8, b: u8, already: bool) -> Result<(), Refusal>
    ensures { refusal_number result ≡ (if leb n a || leb n b || eqb a b then 2 else if already then 3 else 0) }
{
    pair_refusal(n, a, b)?;
    if already {
        return Err(Refusal::LinkAlready);
    }
    Ok(())
}

// Solicit: 2, 4, then 8.
fn search_refusal(n: u8, a: u8, b: u8, active: bool, last: RequestNumber) -> Result<(), Refusal>
    ensures { refusal_number result ≡ (if leb n a || leb n b || eqb a b then 2 else if active then 4 else if leb max_u32 last.0 then 8 else 0) }
{
    pair_refusal(n, a, b)?;
    if active {
        return Err(Refusal::Active);
    }
    if u32::MAX <= last.0 {
        return Err(Refusal::NoRequestNumber);
    }
    Ok(())
}

// Give up: 2, then 5.
fn passive_refusal(n: u8, a: u8, active: bool) -> Result<(), Refusal>
    ensures { refusal_number result ≡ (if leb n a then 2 else if active then 0 else 5) }
{
    if not_station(n, a as usize) {
        return Err(Refusal::NotStations);
    }
    if active {
        return Ok(());
    }
    Err(Refusal::Passive)
}

// Deliver, Lose and Duplicate: 6.
fn packet_refusal(count: u8, k: u8) -> Result<(), Refusal>
    ensures { refusal_number result ≡ (if leb count k then 6 else 0) }
{
    if count <= k {
        return Err(Refusal::NoPacket);
    }
    Ok(())
}

// What turns an event down first, but for 13 and 7: by the number of stations and of packets, and by what station a has: its link with b, whether it
// is active, and its last request number. The kind is any number, and 11 tells those that are none. Inlined: of an event turned down it is most of the work.
#[inline(always)]
pub fn refusal(
    kind: u8,
    a: u8,
    b: u8,
    n: u8,
    count: u8,
    linked: bool,
    active: bool,
    last: RequestNumber,
) -> Result<(), Refusal>
    ensures { (net : Network) → Seen net kind a b n count linked active last.0 → Tests net (event_of kind a b) (refusal_number result) }
{
    if not_event(kind, b) {
        return Err(Refusal::NotEvent);
    }
    match kind {
        1 => link_refusal(n, a, b, linked),
        2 => link_refusal(n, a, b, !linked),
        3 => search_refusal(n, a, b, active, last),
        4 => passive_refusal(n, a, active),
        6..=8 => packet_refusal(count, a),
        _ => pair_refusal(n, a, b),
    }
}
