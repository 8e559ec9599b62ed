// Where a run takes its events from: one flag that every function takes, so that a run is one loop (`RunEnds`), and no closure in its contract.
ghost use Rattle.std.specs.Prelude.{◌≡◌, false, ◌+◌, ◌*◌, ◌<◌, length};
ghost use Rattle.steps.specs.Source.{Listed, Next, goes_on, line_place};

use draining::{Event, packet_left, turn_after};
use telling::lines::answer_of;

// Event i of a list.
fn event_at(kinds: &[u8], operands: &[u8], i: usize) -> Event
    requires { (i < length kinds.now) × (2 * i + 1 < length operands.now) }
    ensures { Listed kinds.now operands.now i result }
{
    let kind = kinds[i];
    let a = operands[2 * i];
    let b = operands[2 * i + 1];
    Event {
        kind,
        a,
        b,
        losses: 0,
    }
}

// The next event of a run: event i of the list, or, where it drains the air, what follows on the line told last.
pub fn next_event(drains: bool, kinds: &[u8], operands: &[u8], i: usize, last: u64) -> Event
    requires { drains ≡ false → (i < length kinds.now) × (2 * i + 1 < length operands.now) }
    ensures { Next drains kinds.now operands.now i last result }
{
    if drains {
        return turn_after(answer_of(last));
    }
    event_at(kinds, operands, i)
}

// Whether it has one: the list has more, or a packet is in the air.
pub fn goes_on(drains: bool, i: usize, events: usize, count: u8) -> bool
    ensures { result ≡ goes_on drains i events count }
{
    if drains {
        packet_left(count)
    } else {
        i < events
    }
}

// Where the line of event i is told. A run that drains the air keeps the last line alone.
pub fn line_place(drains: bool, i: usize) -> usize
    ensures { result ≡ line_place drains i }
{
    if drains { 0 } else { i }
}
