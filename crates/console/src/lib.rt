// The console: entry points for C on numbers and byte slices (include/srp.h, docs/LAYOUT.md). No function asks anything of its caller.
// Results are two numbers in one: specs/Packed.antt.
#![tactic(auto)]

ghost use Rattle.std.specs.Prelude.{◌≡◌, false, ◌≤◌, ◌<◌, length};
ghost use Rattle.base.specs.Results.{is_refusal};
ghost use Rattle.telling.specs.Tallies.{tally_in};
ghost use Rattle.validation.specs.Refusal.{number};
ghost use Rattle.layout.specs.Places.{layout_length};
ghost use Rattle.console.specs.Packed.{packed, packed_two, packed_tally};
ghost use Rattle.console.specs.Showing.{out_of_range};
ghost use Rattle.console.specs.EntryContracts.{Finished};

use layout::memory::{load, write};
use network::range::in_range;
use steps::Done;
use telling::tally::Tally;
use validation::Refusal;

pub mod calls;
pub mod drain;
pub mod labels;
pub mod previewing;
pub mod running;
pub mod scripts;
pub mod searching;
pub mod showing;

// An answer and a count in one number.
fn packed(answer: u32, count: u32) -> u64
    ensures { result ≡ packed answer count }
{
    u64::from(answer) + 4294967296 * u64::from(count)
}

// The number of a refusal, and no count.
fn turned_down(refusal: Refusal) -> u64
    ensures { result ≡ packed (number refusal) 0 }
{
    packed(refusal.number(), 0)
}

// An answer and two counts in one number.
fn packed_two(answer: u32, first: u32, second: u32) -> u64
    requires { (answer < 65_536) × (first < 16_777_216) × (second < 16_777_216) }
    ensures { result ≡ packed_two answer first second }
{
    u64::from(answer) + 65536 * u64::from(first) + 1099511627776 * u64::from(second)
}

// An answer, the length of a text and a tally in one number.
fn packed_tally(answer: u32, length: u32, tally: Tally) -> u64
    requires { (answer < 65_536) × (length < 16_777_216) × (tally.calls < 65_536) }
    ensures { result ≡ packed_tally answer length (tally_in tally) }
{
    packed_two(
        answer,
        length,
        tally.calls + 65536 * u32::from(tally.highest),
    )
}

// Whether the memory that stands in the bytes is out of range. Not inlined, so that what shows a part needs no stack for a memory of its own.
#[inline(never)]
#[tactic(auto, unfolding(crate::specs::Showing::out_of_range))]
fn out_of_range(bytes: &[u8]) -> bool
    ensures { result ≡ out_of_range bytes.now }
{
    !in_range(&load(bytes))
}

// Whether an answer is a refusal.
#[tactic(auto, unfolding(base::specs::Results::is_refusal))]
fn refused(answer: u32) -> bool
    ensures { result ≡ is_refusal answer }
{
    (1..100).contains(&answer)
}

// What a call gave, written into the bytes where it was accepted.
fn finish(bytes: &mut [u8], done: Done) -> u64
    requires { is_refusal done.answer ≡ false → layout_length ≤ length bytes.old }
    ensures { Finished done bytes.old result bytes.new }
{
    if !refused(done.answer) {
        write(bytes, done.memory);
    }
    packed(done.answer, u32::from(done.sent))
}
