// Trace.
ghost use Rattle.std.specs.Prelude.{◌≡◌};
ghost use Rattle.model.specs.Events.{event_of};
ghost use Rattle.steps.specs.Happens.{Passed, Happening};

use crate::Outcome;
use model::most_hops;
use network::Memory;
use network::places::place;
use tracing::{Walk, advance};

// The walk from a for t.
pub(crate) fn walk(memory: &Memory, a: u8, t: u8) -> Outcome
    requires { Passed memory.now 9 a t }
    ensures { Happening memory.now (event_of 9 a t) result memory.now }
{
    let most = most_hops(memory.n);
    let mut walk = Walk { at: a, hops: 0 };
    // Not a range: the walk ends where `advance` says so.
    loop {
        let cell = place(walk.at, t);
        match advance(walk, memory.rows[cell], t, most) {
            Ok(next) => walk = next,
            Err(end) => {
                return Outcome {
                    answer: end.number(),
                    sent: 0,
                    hops: walk.hops,
                };
            }
        }
    }
}
