// Events (01, "Scripts and the printout") on any memory, and runs of events.
ghost use Rattle.std.specs.Prelude.{◌≡◌, ℕ, length};
ghost use Rattle.model.specs.Calls.{trace};
ghost use Rattle.model.specs.Events.{event_of, running};
ghost use Rattle.model.specs.Tally.{HighestFits};
ghost use Rattle.model.specs.Walks.{Reached};
ghost use Rattle.network.specs.View.{view};
ghost use Rattle.telling.specs.Tallies.{tally_in};
ghost use Rattle.steps.specs.Called.{done, Called};
ghost use Rattle.steps.specs.Happens.{Happens};
ghost use Rattle.steps.specs.Ran.{ToldFit};
ghost use Rattle.sandbox.specs.Made.{MadeMemory, WalksEndIn};
ghost use Rattle.sandbox.specs.Telling.{Tells, tally_of_run};

use network::Memory;
use network::range::in_range;
use steps::single::event_in_range;
use steps::{Happened, running};
use telling::tally::{Tally, no_events, tally_of};
use validation::{all_events, not_events};

// An event: the call of its kind on its operands, or a Trace.
pub fn event(memory: Memory, kind: u8, a: u8, b: u8) -> Happened
    ensures { Happens memory (event_of kind a b) result }
{
    if !in_range(&memory) {
        return Happened {
            memory,
            answer: 1,
            sent: 0,
            hops: 0,
        };
    }
    event_in_range(memory, kind, a, b)
}

// What a run of events gives: the memory after it, its answer, and the tally of its events. The answer as in `steps::Done`.
#[derive(Clone, Copy)]
pub struct Tallied {
    pub memory: Memory,
    pub answer: u32,
    pub tally: Tally,
}

// Events one after the other, each on the memory that the one before left; the lent array tells of each its answer, the packets sent,
// the packets in the air after it, and its hops. The range is tested once: every event keeps it. Of the limits under which the events go the
// same way the highest count of the tally is the least.
pub fn run(memory: Memory, kinds: &[u8], operands: &[u8], lines: &mut [u64]) -> Tallied
    ensures run { Called memory (running (view memory) kinds.now operands.now (length lines.old)) (done result.memory result.answer 0) }
    ensures told { Tells (view memory) kinds.now operands.now lines.old lines.new }
    ensures tallied { tally_in result.tally ≡ tally_of_run (view memory) kinds.now operands.now (length lines.old) }
    ensures limit { result.answer ≡ 0 → HighestFits (view memory) kinds.now operands.now result.tally.highest }
    ensures loop_free { MadeMemory memory → (a t : ℕ) → WalksEndIn result.memory a t (trace (view result.memory) a t) }
    ensures reached { Reached (view memory) → (a t : ℕ) → WalksEndIn result.memory a t (trace (view result.memory) a t) }
    ensures fits { result.answer ≡ 0 → ToldFit (view memory) kinds.now operands.now (length kinds.now) }
{
    let none = no_events();
    let count = kinds.len();
    if not_events(count, operands.len()) {
        return Tallied {
            memory,
            answer: 10,
            tally: none,
        };
    }
    if !in_range(&memory) {
        return Tallied {
            memory,
            answer: 1,
            tally: none,
        };
    }
    if !all_events(kinds, operands) {
        return Tallied {
            memory,
            answer: 11,
            tally: none,
        };
    }
    if lines.len() < count {
        return Tallied {
            memory,
            answer: 12,
            tally: none,
        };
    }
    let ran = running::run(memory, false, kinds, operands, lines);
    Tallied {
        memory: ran.memory,
        answer: 0,
        tally: tally_of(lines, count),
    }
}
