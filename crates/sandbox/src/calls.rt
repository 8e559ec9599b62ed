// The public calls. Each takes any memory and any numbers, tests 1 and then the rest, and gives the memory after it.
ghost use Rattle.std.specs.Prelude.{◌≡◌, ◌≢◌, false, ℕ};
ghost use Rattle.base.specs.Results.{mapped};
ghost use Rattle.label.specs.Label.{split};
ghost use Rattle.model.specs.Memory.{memory_in_range};
ghost use Rattle.model.specs.Calls.{Open, Up, Down, Solicit, GiveUp, Expire, Deliver, Lose, Duplicate, step, traced, trace};
ghost use Rattle.model.specs.Events.{not_event, call_of};
ghost use Rattle.model.specs.Preview.{previewing};
ghost use Rattle.model.specs.Walks.{Reached};
ghost use Rattle.network.specs.View.{view};
ghost use Rattle.validation.specs.Refusal.{outcome};
ghost use Rattle.steps.specs.Called.{Called};
ghost use Rattle.steps.specs.Drained.{DrainEnds};
ghost use Rattle.previews.specs.Shown.{preview_of};
ghost use Rattle.sandbox.specs.Made.{MadeMemory, WalksEndIn};

use network::Memory;
use network::opening::fresh;
use network::range::in_range;
use previews::{Preview, preview_in_range};
use steps::drain::drain_in_range;
use steps::happening::happen;
use steps::{Done, Drained, Traced};
use validation::{Refusal, narrow, open_refusal};

// The call of a kind, 1 to 8. An operand that it does not use is 0.
pub fn call(mut memory: Memory, kind: u8, a: usize, b: usize) -> Done
    ensures { kind ≢ 9 → not_event kind b ≡ false → Called memory (step (call_of kind a b) (view memory)) result }
{
    if !in_range(&memory) {
        return Done {
            memory,
            answer: 1,
            sent: 0,
        };
    }
    let told = happen(&mut memory, kind, narrow(a), narrow(b));
    Done {
        memory,
        answer: told.answer,
        sent: told.sent,
    }
}

// Open: fresh memory of n stations, with an air limit. The memory handed in is not read; it is given back where the call is turned down.
pub fn open(memory: Memory, n: usize, start: u64, limit: usize) -> Done
    ensures { Called memory (step (Open n start limit) (view memory)) result }
{
    match open_refusal(n, start, limit) {
        Err(why) => Done {
            memory,
            answer: why.number(),
            sent: 0,
        },
        Ok(()) => Done {
            memory: fresh(n as u8, start, limit as u8),
            answer: 0,
            sent: 0,
        },
    }
}

// Up: the link of a and b is up.
pub fn up(memory: Memory, a: usize, b: usize) -> Done
    ensures { Called memory (step (Up a b) (view memory)) result }
{
    call(memory, 1, a, b)
}

// Down: the link of a and b is down.
pub fn down(memory: Memory, a: usize, b: usize) -> Done
    ensures { Called memory (step (Down a b) (view memory)) result }
{
    call(memory, 2, a, b)
}

// Solicit: a seeks a route to t.
pub fn solicit(memory: Memory, a: usize, t: usize) -> Done
    ensures { Called memory (step (Solicit a t) (view memory)) result }
{
    call(memory, 3, a, t)
}

// Give up: a is passive.
pub fn give_up(memory: Memory, a: usize) -> Done
    ensures { Called memory (step (GiveUp a) (view memory)) result }
{
    call(memory, 4, a, 0)
}

// Expire: a's row for t is empty.
pub fn expire(memory: Memory, a: usize, t: usize) -> Done
    ensures { Called memory (step (Expire a t) (view memory)) result }
{
    call(memory, 5, a, t)
}

// Deliver: packet k arrives.
pub fn deliver(memory: Memory, k: usize) -> Done
    ensures { Called memory (step (Deliver k) (view memory)) result }
{
    call(memory, 6, k, 0)
}

// A preview of packet k: what Deliver would give, or why it would be turned down. The result holds no memory.
pub fn preview(memory: Memory, k: usize) -> Result<Preview, Refusal>
    ensures { mapped preview_of (outcome result) ≡ previewing (view memory) k }
{
    if !in_range(&memory) {
        return Err(Refusal::OutOfRange);
    }
    preview_in_range(&memory, narrow(k))
}

// Draining the air: packet 0 is delivered again and again, and lost where Deliver gives 13 or 7, until no packet is in the air. No walk goes in a circle
// in what it leaves of memory that the calls made.
pub fn drain(memory: Memory) -> Drained
    ensures drained { DrainEnds split (memory_in_range (view memory)) memory result }
    ensures loop_free { MadeMemory memory → (a t : ℕ) → WalksEndIn result.memory a t (trace (view result.memory) a t) }
    ensures reached { Reached (view memory) → (a t : ℕ) → WalksEndIn result.memory a t (trace (view result.memory) a t) }
{
    if !in_range(&memory) {
        return Drained {
            memory,
            answer: 1,
            deliveries: 0,
            losses: 0,
        };
    }
    drain_in_range(memory)
}

// Lose: packet k is removed.
pub fn lose(memory: Memory, k: usize) -> Done
    ensures { Called memory (step (Lose k) (view memory)) result }
{
    call(memory, 7, k, 0)
}

// Duplicate: a copy of packet k is last in the air.
pub fn duplicate(memory: Memory, k: usize) -> Done
    ensures { Called memory (step (Duplicate k) (view memory)) result }
{
    call(memory, 8, k, 0)
}

// Trace: the walk from a for t. It changes nothing. No walk goes in a circle in memory that the calls above made.
pub fn trace(mut memory: Memory, a: usize, t: usize) -> Traced
    ensures traced { traced result.answer result.hops ≡ trace (view memory) a t }
    ensures loop_free { MadeMemory memory → WalksEndIn memory a t (traced result.answer result.hops) }
    ensures reached { Reached (view memory) → WalksEndIn memory a t (traced result.answer result.hops) }
{
    if !in_range(&memory) {
        return Traced { answer: 1, hops: 0 };
    }
    let told = happen(&mut memory, 9, narrow(a), narrow(t));
    Traced {
        answer: told.answer,
        hops: told.hops,
    }
}
