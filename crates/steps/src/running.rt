// A run of events in place.
ghost use Rattle.std.specs.Prelude.{◌≡◌, true, [], ◌∷◌, ◌*◌, ◌≤◌, length};
ghost use Rattle.model.specs.Memory.{memory_in_range};
ghost use Rattle.model.specs.Events.{event_limit};
ghost use Rattle.network.specs.View.{view};
ghost use Rattle.steps.specs.Ran.{RunEnds};

use crate::Run;
use crate::happening::happen;
use crate::source::{goes_on, line_place, next_event};
use network::Memory;
use telling::lines::line;

// Events one after the other: those of a list, whose lines the lent array tells; or, where the run drains the air, packet 0 delivered or lost
// until no packet is left. Not inlined, so that the stack of its copies of the memory is free again when a rehearsal prints.
#[inline(never)]
pub fn run(
    mut memory: Memory,
    drains: bool,
    kinds: &[u8],
    operands: &[u8],
    lines: &mut [u64],
) -> Run
    requires memory_value { memory_in_range (view memory) ≡ true }
    requires kinds_len_bound { (length kinds.now ≤ event_limit) × (length operands.now ≡ 2 * length kinds.now) × (length kinds.now ≤ length lines.old) }
    requires lines_value { drains ≡ true → lines.old ≡ 0 ∷ [] }
    ensures { RunEnds drains memory kinds.now operands.now lines.old lines.new result }
{
    let mut losses = 0;
    let mut events = 0;
    // Not a range: a run that drains the air ends with the last packet.
    while goes_on(drains, events, kinds.len(), memory.air.count) {
        let event = next_event(drains, kinds, operands, events, lines[0]);
        let told = happen(&mut memory, event.kind, event.a, event.b);
        let at = line_place(drains, events);
        lines[at] = line(told.answer, told.sent, memory.air.count, told.hops);
        losses += event.losses;
        events += 1;
    }
    Run {
        memory,
        events,
        losses,
    }
}
