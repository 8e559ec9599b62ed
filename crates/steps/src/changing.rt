// Solicit, Lose, Duplicate, and a request or a reply delivered: one change at a station.
ghost use Rattle.std.specs.Prelude.{◌≡◌};
ghost use Rattle.model.specs.Events.{event_of};
ghost use Rattle.decisions.specs.Changing.{class_of};
ghost use Rattle.decisions.specs.declared.changing.Class.TheVariants.{Changing};
ghost use Rattle.steps.specs.Happens.{Passed, carried_by, Happening};

use crate::Outcome;
use crate::happening::turned_down;
use crate::parting::{moved, stay};
use decisions::changing::{change_of, count_on, outgoing, spot_of, told};
use label::label_of;
use network::places::place;
use network::{Air, Memory};
use refusing::sending_refusal;
use station::Holding;
use station::sending::copies;
use validation::AIR_LIMIT;

// What the station holds is gathered, changed and written, and what it sends is in the air.
pub(crate) fn change(memory: &mut Memory, kind: u8, a: u8, b: u8) -> Outcome
    requires passed { Passed memory.old kind a b }
    requires class { class_of kind (carried_by memory.old a) ≡ Changing }
    ensures { Happening memory.old (event_of kind a b) result memory.new }
{
    let n = memory.n;
    let count = memory.air.count;
    let k = (a % AIR_LIMIT) as usize;
    let p = memory.air.packets[k];
    let spot = spot_of(kind, a, b, p);
    let station = spot.station;
    let t = spot.destination;
    let own = station as usize;
    let cell = place(station, t);
    let slot = place(station, spot.source);
    let held = Holding {
        label: label_of(memory.s[cell], memory.m[cell], memory.d[cell]),
        row: memory.rows[cell],
        kept: memory.records[slot],
        active: memory.active[own],
    };
    let last = memory.numbers[own];
    let sought = memory.sought[own];
    let links = memory.links;
    let serial = memory.serials[own];
    let c = change_of(kind, p, held, last, sought, links, station, t);
    let left = stay(count, c.drops);
    let sent = copies(c.scope, links, n, station);
    let counted = told(kind, sent);
    let total = left + sent;
    let limit = memory.limit;
    if let Err(why) = sending_refusal(limit, total, serial, counted, 0, 0) {
        return turned_down(why);
    }
    let holding = c.holding;
    let label = holding.label;
    memory.s[cell] = label.s.0;
    memory.m[cell] = label.m;
    memory.d[cell] = label.d;
    memory.rows[cell] = holding.row;
    memory.records[slot] = holding.kept;
    memory.numbers[own] = c.number;
    memory.sought[own] = c.sought;
    memory.active[own] = holding.active;
    let next = count_on(serial, counted);
    memory.serials[own] = next;
    let packet = outgoing(kind, c.packet, next);
    memory.air = Air {
        packets: moved(
            memory.air.packets,
            left,
            k,
            c.drops,
            c.scope,
            links,
            n,
            station,
            packet,
        ),
        count: total,
    };
    Outcome {
        answer: c.answer,
        sent: counted,
        hops: 0,
    }
}
