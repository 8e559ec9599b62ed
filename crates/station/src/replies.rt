// A reply V from j, delivered to i.
ghost use Rattle.std.specs.Prelude.{◌≡◌, ◌≢◌, true, not, ◌||◌, ◌<◌, ◌≤◌, eqb};
ghost use Rattle.label.specs.Label.{in_range, outcome};
ghost use Rattle.model.specs.Memory.{Network, row_limit};
ghost use Rattle.model.specs.Calls.{matches, cached_at, adopt, settle, passes_on, pass_on, on_outcome, on_reply};
ghost use Rattle.network.specs.View.{reply_of};
ghost use Rattle.station.specs.Reacting.{Holds, holding, reacts};
ghost use Rattle.station.specs.Replying.{LastRequest, Ready};

use crate::reacting::{replying, silent};
use crate::{Holding, Reaction};
use label::{Label, NotTaken, UNASSIGNED};
use network::links::link_up;
use network::{Packet, RequestNumber};
use rows::{Successor, adopted};

// Whether V's number and destination both match: at the source its last request, elsewhere its record.
fn matches(p: Packet, held: Holding, number: RequestNumber, sought: u8) -> bool
    ensures { (net : Network) → Holds net p held → LastRequest net p number.0 sought → result ≡ matches p.receiver (reply_of p) net }
{
    if p.receiver == p.source {
        (number.0 == p.number.0) & (sought == p.destination)
    } else {
        (held.kept.number.0 == p.number.0) & (held.kept.destination == p.destination)
    }
}

// 111: whether i is the destination, or V doesn't match.
fn is_discarded(p: Packet, held: Holding, number: RequestNumber, sought: u8) -> bool
    ensures { (net : Network) → Holds net p held → LastRequest net p number.0 sought
        → result ≡ eqb p.receiver p.destination || not (matches p.receiver (reply_of p) net) }
{
    (p.receiver == p.destination) | !matches(p, held, number, sought)
}

// C: unassigned at the source, else the record's.
fn cached(p: Packet, held: Holding) -> Label
    requires { Ready p held }
    ensures cached { (net : Network) → Holds net p held → result ≡ cached_at p.receiver (reply_of p) net }
    ensures ranged { in_range result ≡ true }
{
    if p.receiver == p.source {
        UNASSIGNED
    } else {
        held.kept.cached
    }
}

// What i holds after New label's outcome, and its answer, a number as in `Reaction`.
#[derive(Clone, Copy)]
pub struct Settled {
    pub holding: Holding,
    pub answer: u32,
}

// i takes the label g, with a row under it, and is passive if it is the source.
fn adopts(p: Packet, held: Holding, g: Label) -> Holding
    requires { held.row.count ≤ row_limit }
    ensures net_value { (net : Network) → Holds net p held → holding p result net ≡ settle p.receiver (reply_of p) (adopt p.receiver p.sender p.serial (reply_of p) g net) }
    ensures kept { result.kept ≡ held.kept }
{
    let e = Successor {
        label: p.label,
        serial: p.serial,
        station: p.sender,
    };
    Holding {
        label: g,
        row: adopted(held.row, g, e),
        active: held.active & (p.receiver != p.source),
        ..held
    }
}

// What i holds after New label's outcome: a label taken, or all as it was.
#[tactic(auto, unfolding(model::specs::Calls::on_outcome), using(crate::proofs::Unchanged::unchanged))]
fn settles(p: Packet, held: Holding, told: Result<Label, NotTaken>) -> Settled
    requires { held.row.count ≤ row_limit }
    ensures net_value { (net : Network) → Holds net p held
        → on_outcome p.receiver p.sender p.serial (reply_of p) (outcome told) net ≡ pass_on result.answer p.receiver (reply_of p) (holding p result.holding net) }
    ensures kept { result.holding.kept ≡ held.kept }
{
    match told {
        Ok(g) => Settled {
            holding: adopts(p, held, g),
            answer: 115,
        },
        Err(why) => Settled {
            holding: held,
            answer: why.number(),
        },
    }
}

// Whether i passes a reply on.
fn passes_on(p: Packet, held: Holding, links: [bool; 256]) -> bool
    requires { (p.receiver < 16) × (p.receiver ≢ p.source → held.kept.last_hop < 16) }
    ensures { (net : Network) → Holds net p held → net.links ≡ links → result ≡ passes_on p.receiver (reply_of p) net }
{
    let kept = held.kept;
    if p.receiver == p.source {
        return false;
    }
    !kept.passed
        & (held.row.count != 0)
        & label::is_above(kept.cached, held.label)
        & link_up(links, p.receiver, kept.last_hop)
}

// i passes a reply on to the last hop, or does no more.
fn pass_on(p: Packet, held: Holding, links: [bool; 256], answer: u32) -> Reaction
    requires { (p.receiver < 16) × (p.receiver ≢ p.source → held.kept.last_hop < 16) }
    ensures { (net : Network) → Holds net p held → net.links ≡ links → reacts result p net ≡ pass_on answer p.receiver (reply_of p) net }
{
    if passes_on(p, held, links) {
        replying(p, held, answer, held.kept.last_hop)
    } else {
        silent(p, held, answer)
    }
}

// What i does with a reply.
pub fn on_reply(
    p: Packet,
    held: Holding,
    number: RequestNumber,
    sought: u8,
    links: [bool; 256],
) -> Reaction
    requires { Ready p held }
    ensures { (net : Network) → Holds net p held → LastRequest net p number.0 sought → net.links ≡ links
        → reacts result p net ≡ on_reply p.receiver p.sender p.serial (reply_of p) net }
{
    if is_discarded(p, held, number, sought) {
        return silent(p, held, 111);
    }
    let c = cached(p, held);
    let next = settles(p, held, label::new_label_in_range(held.label, c, p.label));
    pass_on(p, next.holding, links, next.answer)
}
