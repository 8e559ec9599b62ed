// Draining the air of the network that stands in the bytes.
ghost use Rattle.std.specs.Prelude.{◌≢◌, ℕ, ◌<◌};
ghost use Rattle.label.specs.Label.{split};
ghost use Rattle.model.specs.Calls.{trace};
ghost use Rattle.model.specs.Walks.{WalksEnd};
ghost use Rattle.layout.specs.Meaning.{stored_network};
ghost use Rattle.console.specs.Draining.{DrainsBytes};
ghost use Rattle.console.specs.Made.{MadeBytes};

use crate::{packed_two, turned_down};
use layout::memory::{load, write};
use sandbox::calls;
use validation::Refusal;

// Packet 0 is delivered again and again, and lost where Deliver gives 13 or 7, until no packet is in the air. In memory that the console's calls
// made no walk goes in a circle afterwards.
#[unsafe(no_mangle)]
pub extern "C" fn srp_drain(memory: &mut [u8]) -> u64
    ensures drained { DrainsBytes split memory.old result memory.new }
    ensures loop_free { MadeBytes memory.old → (a t : ℕ) → a < (stored_network memory.new).n → t < (stored_network memory.new).n → a ≢ t
        → WalksEnd (stored_network memory.new) a t (trace (stored_network memory.new) a t) }
{
    let drained = calls::drain(load(memory));
    if drained.answer != 0 {
        return turned_down(Refusal::OutOfRange);
    }
    write(memory, drained.memory);
    packed_two(0, drained.deliveries, drained.losses)
}
