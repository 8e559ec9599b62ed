// A preview of a packet (02, F-1): what Deliver would give, by the decisions of Deliver on the memory. Nothing is written.
#![tactic(auto)]

ghost use Rattle.std.specs.Prelude.{◌≡◌, ◌≢◌, ◌+◌, ◌-◌, ◌<◌, ◌≤◌, get_or};
ghost use Rattle.base.specs.Results.{mapped};
ghost use Rattle.model.specs.Memory.{air_limit};
ghost use Rattle.model.specs.Preview.{previewing};
ghost use Rattle.network.specs.View.{view};
ghost use Rattle.validation.specs.Refusal.{refusal_number, outcome};
ghost use Rattle.refusing.specs.Refusing.{sending_refusal};
ghost use Rattle.steps.specs.Happens.{InRange, Passed, carried_by};
ghost use Rattle.previews.specs.Shown.{preview_of};

use decisions::changing::{change_of, spot_of};
use decisions::cutting::{cut_answer, cut_of};
use label::{Label, label_of};
use network::places::place;
use network::{Memory, RequestNumber};
use refusing::{refusal, sending_refusal};
use rows::{Row, empty_row};
use station::Holding;
use station::sending::{copies, error_scope};
use steps::cutting::losses_of;
use validation::{AIR_LIMIT, Refusal};

// What a delivery would give: its answer, how many packets it sends, the label and row that the receiver then has for the packet's
// destination; of an error instead the mask of the rows that it empties. The answer is a number, as in `Done`.
#[derive(Clone, Copy)]
pub struct Preview {
    pub label: Label,
    pub row: Row,
    pub answer: u32,
    pub mask: u16,
    pub sent: u8,
}

// 13, then 7: what turns the delivery of a packet down to a station that sends so many.
fn sends(memory: &Memory, station: u8, sent: u8) -> Result<(), Refusal>
    requires { (station < 16) × (0 < memory.now.air.count) × (memory.now.air.count ≤ air_limit) × (sent ≤ 16) }
    ensures { refusal_number result ≡ sending_refusal memory.now.limit (memory.now.air.count - 1 + sent) (get_or memory.now.serials station 0) sent 0 0 }
{
    let limit = memory.limit;
    let left = memory.air.count - 1;
    let serial = memory.serials[station as usize];
    sending_refusal(limit, left + sent, serial, sent, 0, 0)
}

// An error delivered.
fn error_preview(memory: &Memory, k: u8) -> Result<Preview, Refusal>
    requires passed { Passed memory.now 6 k 0 }
    requires error { carried_by memory.now k ≡ 3 }
    ensures { mapped preview_of (outcome result) ≡ previewing (view memory.now) k }
{
    let n = memory.n;
    let at = (k % AIR_LIMIT) as usize;
    let p = memory.air.packets[at];
    let station = p.receiver;
    let cut = cut_of(6, k, 0, p);
    let losses = losses_of(&memory.rows, cut, n);
    let mask = losses.emptied;
    let sent = copies(error_scope(mask), memory.links, n, station);
    sends(memory, station, sent)?;
    Ok(Preview {
        label: label_of(0, 0, 0),
        row: empty_row(),
        answer: cut_answer(6, losses.removed, mask),
        mask,
        sent,
    })
}

// A request or a reply delivered.
fn reaction_preview(memory: &Memory, k: u8) -> Result<Preview, Refusal>
    requires passed { Passed memory.now 6 k 0 }
    requires other { carried_by memory.now k ≢ 3 }
    ensures { mapped preview_of (outcome result) ≡ previewing (view memory.now) k }
{
    let n = memory.n;
    let at = (k % AIR_LIMIT) as usize;
    let p = memory.air.packets[at];
    let spot = spot_of(6, k, 0, p);
    let station = spot.station;
    let t = spot.destination;
    let own = station as usize;
    let cell = place(station, t);
    let slot = place(station, spot.source);
    let held = Holding {
        label: label_of(memory.s[cell], memory.m[cell], memory.d[cell]),
        row: memory.rows[cell],
        kept: memory.records[slot],
        active: memory.active[own],
    };
    let last = memory.numbers[own];
    let sought = memory.sought[own];
    let links = memory.links;
    let c = change_of(6, p, held, last, sought, links, station, t);
    let holding = c.holding;
    let label = holding.label;
    let scope = c.scope;
    let sent = copies(scope, links, n, station);
    sends(memory, station, sent)?;
    Ok(Preview {
        label,
        row: holding.row,
        answer: c.answer,
        mask: 0,
        sent,
    })
}

// A preview of packet k of memory in range, or why its delivery would be turned down.
pub fn preview_in_range(memory: &Memory, k: u8) -> Result<Preview, Refusal>
    requires { InRange memory.now }
    ensures { mapped preview_of (outcome result) ≡ previewing (view memory.now) k }
{
    let none = RequestNumber(0);
    let n = memory.n;
    let count = memory.air.count;
    refusal(6, k, 0, n, count, false, false, none)?;
    let at = (k % AIR_LIMIT) as usize;
    if memory.air.packets[at].kind == 3 {
        error_preview(memory, k)
    } else {
        reaction_preview(memory, k)
    }
}
