// Runs of events on the network that stands in the bytes, and rehearsals of scripts.
ghost use Rattle.std.specs.Prelude.{◌≡◌, ◌≢◌, ℕ, ◌/◌, ◌<◌};
ghost use Rattle.model.specs.Calls.{trace};
ghost use Rattle.model.specs.Tally.{HighestFits};
ghost use Rattle.model.specs.Walks.{WalksEnd};
ghost use Rattle.layout.specs.Meaning.{stored_network};
ghost use Rattle.printout.specs.Printed.{RoutesLoopFree, TallyFits};
ghost use Rattle.console.specs.Packed.{short_answer_of, second_of};
ghost use Rattle.console.specs.Made.{MadeBytes};
ghost use Rattle.console.specs.Running.{RunsBytes, RehearsesBytes};

use crate::{finish, packed_tally, turned_down};
use layout::memory::load;
use printout::rehearsal;
use sandbox::events;
use steps::Done;

// Events one after the other; the lent array tells of each. Of the limits under which they go the same way the highest count of the tally is the
// least. In memory that the console's calls made no walk goes in a circle afterwards.
#[unsafe(no_mangle)]
pub extern "C" fn srp_run(
    memory: &mut [u8],
    kinds: &[u8],
    operands: &[u8],
    lines: &mut [u64],
) -> u64
    ensures run { RunsBytes memory.old kinds.now operands.now lines.old result memory.new lines.new }
    ensures limit { short_answer_of result ≡ 0
        → HighestFits (stored_network memory.old) kinds.now operands.now (second_of result / 65_536) }
    ensures loop_free { MadeBytes memory.old → (a t : ℕ) → a < (stored_network memory.new).n → t < (stored_network memory.new).n → a ≢ t
        → WalksEnd (stored_network memory.new) a t (trace (stored_network memory.new) a t) }
{
    let ran = events::run(load(memory), kinds, operands, lines);
    let done = Done {
        memory: ran.memory,
        answer: ran.answer,
        sent: 0,
    };
    finish(memory, done);
    packed_tally(ran.answer, 0, ran.tally)
}

// A script rehearsed under an air limit: its text goes to the start of the lent array.
#[unsafe(no_mangle)]
pub extern "C" fn srp_rehearse(script: &[u8], limit: usize, out: &mut [u8]) -> u64
    ensures text { RehearsesBytes script.now limit out.old result out.new }
    ensures loop_free { RoutesLoopFree script.now limit }
    ensures tally { TallyFits script.now limit }
{
    match rehearsal::rehearse_under(script, limit, out) {
        Ok(done) => packed_tally(0, done.length as u32, done.tally),
        Err(refusal) => turned_down(refusal),
    }
}
