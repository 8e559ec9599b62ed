// An event on memory in range, in place: its tests, and then what it does by its class.
ghost use Rattle.std.specs.Prelude.{◌≡◌, if◌then◌else◌};
ghost use Rattle.model.specs.Events.{event_of};
ghost use Rattle.validation.specs.Refusal.{number};
ghost use Rattle.decisions.specs.Changing.{class_of};
ghost use Rattle.decisions.specs.declared.changing.Class.TheVariants.{Cutting, Changing};
ghost use Rattle.steps.specs.Happens.{outcome, InRange, Passed, carried_by, Happening};

use crate::Outcome;
use crate::changing::change;
use crate::cutting::cut_out_of_line;
use crate::setting::set;
use crate::walking::walk;
use decisions::changing::{Class, class_of, spot_of};
use network::Memory;
use network::places::pair_place;
use refusing::refusal;
use validation::{AIR_LIMIT, Refusal};

// What is turned down gives its number.
pub(crate) fn turned_down(why: Refusal) -> Outcome
    ensures { result ≡ outcome (number why) 0 0 }
{
    Outcome {
        answer: why.number(),
        sent: 0,
        hops: 0,
    }
}

// An event that may send or drop packets. Not inlined: one that does neither, or is turned down, needs no stack for them.
#[inline(never)]
fn send_or_drop(memory: &mut Memory, cuts: bool, kind: u8, a: u8, b: u8) -> Outcome
    requires passed { Passed memory.old kind a b }
    requires class { class_of kind (carried_by memory.old a) ≡ (if cuts then Cutting else Changing) }
    ensures { Happening memory.old (event_of kind a b) result memory.new }
{
    if cuts {
        cut_out_of_line(memory, kind, a, b)
    } else {
        change(memory, kind, a, b)
    }
}

// An event: turned down by a test, or made. The kind is any number, and 11 tells those that are none. Inlined: it is small
// but for `send_or_drop`.
#[inline(always)]
pub fn happen(memory: &mut Memory, kind: u8, a: u8, b: u8) -> Outcome
    requires { InRange memory.old }
    ensures happens { Happening memory.old (event_of kind a b) result memory.new }
    ensures known { InRange memory.new }
{
    let k = (a % AIR_LIMIT) as usize;
    let p = memory.air.packets[k];
    let spot = spot_of(kind, a, b, p);
    let own = spot.station as usize;
    let pair = pair_place(spot.station, spot.destination);
    let linked = memory.links[pair];
    let active = memory.active[own];
    let last = memory.numbers[own];
    let n = memory.n;
    let count = memory.air.count;
    if let Err(why) = refusal(kind, a, b, n, count, linked, active, last) {
        return turned_down(why);
    }
    match class_of(kind, p.kind) {
        Class::Setting => set(memory, kind, a, b),
        Class::Tracing => walk(memory, a, b),
        Class::Cutting => send_or_drop(memory, true, kind, a, b),
        Class::Changing => send_or_drop(memory, false, kind, a, b),
    }
}
