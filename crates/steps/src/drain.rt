// Draining the air: a run that takes its events from there.
ghost use Rattle.std.specs.Prelude.{◌≡◌, true};
ghost use Rattle.label.specs.Label.{split};
ghost use Rattle.model.specs.Memory.{memory_in_range};
ghost use Rattle.network.specs.View.{view};
ghost use Rattle.steps.specs.Drained.{DrainedTo};

use crate::Drained;
use crate::running::run;
use network::Memory;

// Packet 0 delivered, or lost where Deliver is turned down, until no packet is in the air; on memory in range. Each packet lost took two events.
pub fn drain_in_range(memory: Memory) -> Drained
    requires { memory_in_range (view memory) ≡ true }
    ensures { DrainedTo split memory result }
{
    let kinds = [0u8; 1];
    let operands = [0u8; 2];
    let mut lines = [0u64; 1];
    let ran = run(memory, true, &kinds, &operands, &mut lines);
    let events = ran.events;
    let losses = ran.losses;
    let lost = losses as usize;
    let delivered = events - 2 * lost;
    let deliveries = delivered as u32;
    let next = ran.memory;
    Drained {
        memory: next,
        answer: 0,
        deliveries,
        losses,
    }
}
