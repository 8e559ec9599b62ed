// An event by itself, of memory by value.
ghost use Rattle.std.specs.Prelude.{◌≡◌, true};
ghost use Rattle.model.specs.Memory.{memory_in_range};
ghost use Rattle.model.specs.Events.{event_of};
ghost use Rattle.network.specs.View.{view};
ghost use Rattle.steps.specs.Happens.{Happens};

use crate::Happened;
use crate::happening::happen;
use network::Memory;

// An event, on memory in range. It asks nothing more: that the tables have their sizes is known of memory by value.
pub fn event_in_range(mut memory: Memory, kind: u8, a: u8, b: u8) -> Happened
    requires { memory_in_range (view memory) ≡ true }
    ensures { Happens memory (event_of kind a b) result }
{
    let told = happen(&mut memory, kind, a, b);
    Happened {
        memory,
        answer: told.answer,
        sent: told.sent,
        hops: told.hops,
    }
}
