// A station's reaction to a packet: silent, with a reply, or by the packet's kind.
ghost use Rattle.std.specs.Prelude.{◌≡◌};
ghost use Rattle.model.specs.Memory.{Network, reply};
ghost use Rattle.model.specs.Calls.{effect, mark_passed, reply_to};
ghost use Rattle.network.specs.View.{record_of, body_of};
ghost use Rattle.station.specs.Reacting.{Holds, reacts};

use crate::{Holding, Reaction};
use label::Label;
use network::packets::{addressed, reply};
use network::{Packet, Record};

// The receiver does no more, and sends nothing.
pub fn silent(p: Packet, held: Holding, answer: u32) -> Reaction
    ensures { (net : Network) → Holds net p held → reacts result p net ≡ effect answer 0 net }
{
    Reaction {
        holding: held,
        packet: p,
        answer,
        scope: 0,
    }
}

// The record, of which a reply was passed on.
#[tactic(auto, unfolding(network::specs::View::record_of, model::specs::Calls::mark_passed))]
fn passed(kept: Record) -> Record
    ensures { record_of result ≡ mark_passed (record_of kept) }
{
    Record {
        passed: true,
        ..kept
    }
}

// The receiver's reply to x, with its label, not numbered.
fn reply_to(p: Packet, x: u8, label: Label) -> Packet
    ensures result_value { body_of result ≡ reply (record { source = p.source; number = p.number.0; destination = p.destination; label = label }) }
    ensures sender_value { (result.sender ≡ p.receiver) × (result.receiver ≡ x) }
{
    let body = reply(p.source, p.number, p.destination, label);
    addressed(body, p.receiver, x)
}

// The receiver sends x a reply with its label, and marks its record.
pub fn replying(p: Packet, held: Holding, answer: u32, x: u8) -> Reaction
    ensures { (net : Network) → Holds net p held → reacts result p net ≡ reply_to answer p.receiver x p.source p.number.0 p.destination net }
{
    Reaction {
        holding: Holding {
            kept: passed(held.kept),
            ..held
        },
        packet: reply_to(p, x, held.label),
        answer,
        scope: 1,
    }
}
