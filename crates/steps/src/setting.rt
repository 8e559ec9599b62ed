// Up, Give up and Expire.
ghost use Rattle.std.specs.Prelude.{◌≡◌};
ghost use Rattle.model.specs.Events.{event_of};
ghost use Rattle.decisions.specs.Changing.{class_of};
ghost use Rattle.decisions.specs.declared.changing.Class.TheVariants.{Setting};
ghost use Rattle.steps.specs.Happens.{Passed, carried_by, Happening};

use crate::Outcome;
use decisions::changing::expired;
use network::Memory;
use network::places::{pair_place, place};

// All that one of them may change is written, changed or not.
pub(crate) fn set(memory: &mut Memory, kind: u8, a: u8, b: u8) -> Outcome
    requires passed { Passed memory.old kind a b }
    requires class { class_of kind (carried_by memory.old a) ≡ Setting }
    ensures { Happening memory.old (event_of kind a b) result memory.new }
{
    let station = a % 16;
    let t = b % 16;
    let own = station as usize;
    let pair = pair_place(station, t);
    let cell = place(station, t);
    let mut row = memory.rows[cell];
    row.count = expired(kind, row.count);
    memory.rows[cell] = row;
    memory.links[pair] = memory.links[pair] | (kind == 1);
    memory.active[own] = memory.active[own] & (kind != 4);
    Outcome {
        answer: 0,
        sent: 0,
        hops: 0,
    }
}
