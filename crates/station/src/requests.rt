// A request R from j, delivered to i.
ghost use Rattle.std.specs.Prelude.{◌≡◌, not, ◌&&◌, ◌||◌, ◌+◌, ltb, leb, eqb};
ghost use Rattle.label.specs.Label.{is_unassigned, above};
ghost use Rattle.model.specs.Memory.{Network, request};
ghost use Rattle.model.specs.Calls as calls;
ghost use Rattle.model.specs.Calls.{resets, can_reply, onward_label, onward_reset, onward, at_destination, engage, on_request};
ghost use Rattle.rows.specs.View.{row_of};
ghost use Rattle.network.specs.View.{record_of, request_of, body_of};
ghost use Rattle.station.specs.Reacting.{Holds, reacts};
ghost use Rattle.base.specs.Numbers.{max_u32};

use crate::reacting::{replying, silent};
use crate::{Holding, Reaction};
use label::{Label, label_of};
use network::packets::request;
use network::{Packet, Record};
use rows::Row;

// 101: whether i is the source, or its record for the source has a number not below R's.
fn is_known(p: Packet, kept: Record) -> bool
    ensures { result ≡ eqb p.receiver p.source || leb p.number.0 kept.number.0 }
{
    p.receiver == p.source || p.number.0 <= kept.number.0
}

// The record rewritten.
#[tactic(auto, unfolding(network::specs::View::record_of, network::specs::View::request_of, model::specs::Calls::recorded))]
fn noted(p: Packet) -> Record
    ensures { record_of result ≡ calls.recorded p.sender (request_of p) }
{
    Record {
        cached: p.label,
        number: p.number,
        destination: p.destination,
        last_hop: p.sender,
        passed: false,
    }
}

// Whether the destination's sequence number has to rise.
#[tactic(auto, unfolding(model::specs::Calls::resets, network::specs::View::request_of))]
fn resets(own: Label, p: Packet) -> bool
    ensures { result ≡ resets own (request_of p) }
{
    p.reset && own.s.0 <= p.label.s.0
}

// Whether a station other than the destination replies.
fn can_reply(own: Label, row: Row, p: Packet) -> bool
    ensures { result ≡ can_reply own (row_of row) (request_of p) }
{
    if row.count == 0 {
        return false;
    }
    (p.label.s.0 < own.s.0) | label::is_above(p.label, own) & !p.reset
}

// The label that goes on.
#[tactic(auto, unfolding(model::specs::Calls::onward_label, network::specs::View::request_of))]
fn onward_label(own: Label, p: Packet) -> Label
    ensures { result ≡ onward_label own (request_of p) }
{
    if label::is_above(p.label, own) {
        own
    } else {
        p.label
    }
}

// Whether the bit that goes on is 0 in any case: both labels are unassigned, or the own s is higher.
fn clears(own: Label, label: Label) -> bool
    ensures { result ≡ is_unassigned own && is_unassigned label || ltb label.s.0 own.s.0 }
{
    label::is_unassigned(own) && label::is_unassigned(label) || label.s.0 < own.s.0
}

// Whether it is 1 in any other: R's label isn't above the own, and the two denominators sum past 32 bits.
fn denominators_overflow(own: Label, label: Label) -> bool
    ensures { result ≡ not (above label own) && ltb max_u32 (own.d + label.d) }
{
    !label::is_above(label, own) && u64::from(u32::MAX) < label::sum(own.d, label.d)
}

// The bit that goes on.
#[tactic(auto, unfolding(model::specs::Calls::onward_reset, network::specs::View::request_of))]
fn onward_reset(own: Label, p: Packet) -> bool
    ensures { result ≡ onward_reset own (request_of p) }
{
    !clears(own, p.label) && (denominators_overflow(own, p.label) || p.reset)
}

// R with a new label and bit.
#[tactic(auto, unfolding(model::specs::Calls::onward, network::specs::View::request_of))]
fn onward(own: Label, p: Packet) -> Packet
    ensures { body_of result ≡ request (onward own (request_of p)) }
{
    let label = onward_label(own, p);
    let reset = onward_reset(own, p);
    request(p.source, p.number, p.destination, label, reset)
}

// The destination replies, with its sequence number raised where it has to rise.
fn at_destination(p: Packet, held: Holding) -> Reaction
    requires { p.receiver ≡ p.destination }
    ensures { (net : Network) → Holds net p held → reacts result p net ≡ at_destination p.receiver p.sender (request_of p) net }
{
    let own = held.label;
    let s = p.label.s.0;
    if !resets(own, p) {
        return replying(p, held, 102, p.sender);
    }
    if u64::MAX <= s {
        return silent(p, held, 104);
    }
    let raised = Holding {
        label: label_of(s + 1, own.m, own.d),
        ..held
    };
    replying(p, raised, 102, p.sender)
}

// What i does after its record is rewritten.
fn engage(p: Packet, held: Holding) -> Reaction
    ensures { (net : Network) → Holds net p held → reacts result p net ≡ engage p.receiver p.sender (request_of p) net }
{
    if p.receiver == p.destination {
        return at_destination(p, held);
    }
    if can_reply(held.label, held.row, p) {
        return replying(p, held, 102, p.sender);
    }
    Reaction {
        holding: held,
        packet: onward(held.label, p),
        answer: 103,
        scope: 2,
    }
}

// What i does with a request.
pub fn on_request(p: Packet, held: Holding) -> Reaction
    ensures { (net : Network) → Holds net p held → reacts result p net ≡ on_request p.receiver p.sender (request_of p) net }
{
    if is_known(p, held.kept) {
        return silent(p, held, 101);
    }
    let noting = Holding {
        kept: noted(p),
        ..held
    };
    engage(p, noting)
}
