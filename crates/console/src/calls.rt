// The calls on the network that stands in the bytes.
#![tactic(auto, unfolding(model::specs::Events::call_of, model::specs::Events::not_event, model::specs::Events::uses_one))]

ghost use Rattle.std.specs.Prelude.{◌≡◌, ◌≢◌, ◌<◌, false};
ghost use Rattle.model.specs.Calls.{Open, Up, Down, Solicit, GiveUp, Expire, Deliver, Lose, Duplicate, traced, trace};
ghost use Rattle.model.specs.Events.{not_event, call_of};
ghost use Rattle.model.specs.Walks.{WalksEnd};
ghost use Rattle.layout.specs.Meaning.{stored_network};
ghost use Rattle.console.specs.Packed.{packed, answer_of, count_of};
ghost use Rattle.console.specs.Console.{calling, Ends};
ghost use Rattle.console.specs.Made.{MadeBytes};

use crate::{finish, packed, turned_down};
use layout::memory::load;
use layout::places::LENGTH;
use network::opening::fresh;
use sandbox::calls;
use validation::Refusal;

// Open: fresh memory of n stations, with an air limit. The bytes are not read.
#[unsafe(no_mangle)]
pub extern "C" fn srp_open(memory: &mut [u8], n: usize, start: u64, limit: usize) -> u64
    ensures { Ends memory.old (calling (Open n start limit) memory.old) result memory.new }
{
    if memory.len() < LENGTH {
        return turned_down(Refusal::OutOfRange);
    }
    finish(memory, calls::open(fresh(0, 0, 0), n, start, limit))
}

// The call of a kind, 1 to 8, as events number them: one proof serves all. An operand that it does not use is 0.
fn call(bytes: &mut [u8], kind: u8, a: usize, b: usize) -> u64
    requires { (kind ≢ 9) × (not_event kind b ≡ false) }
    ensures { Ends bytes.old (calling (call_of kind a b) bytes.old) result bytes.new }
{
    finish(bytes, calls::call(load(bytes), kind, a, b))
}

// Up: the link of a and b is up.
#[unsafe(no_mangle)]
pub extern "C" fn srp_up(memory: &mut [u8], a: usize, b: usize) -> u64
    ensures { Ends memory.old (calling (Up a b) memory.old) result memory.new }
{
    call(memory, 1, a, b)
}

// Down: the link of a and b is down.
#[unsafe(no_mangle)]
pub extern "C" fn srp_down(memory: &mut [u8], a: usize, b: usize) -> u64
    ensures { Ends memory.old (calling (Down a b) memory.old) result memory.new }
{
    call(memory, 2, a, b)
}

// Solicit: a seeks a route to t.
#[unsafe(no_mangle)]
pub extern "C" fn srp_solicit(memory: &mut [u8], a: usize, t: usize) -> u64
    ensures { Ends memory.old (calling (Solicit a t) memory.old) result memory.new }
{
    call(memory, 3, a, t)
}

// Give up: a is passive.
#[unsafe(no_mangle)]
pub extern "C" fn srp_give_up(memory: &mut [u8], a: usize) -> u64
    ensures { Ends memory.old (calling (GiveUp a) memory.old) result memory.new }
{
    call(memory, 4, a, 0)
}

// Expire: a's row for t is empty.
#[unsafe(no_mangle)]
pub extern "C" fn srp_expire(memory: &mut [u8], a: usize, t: usize) -> u64
    ensures { Ends memory.old (calling (Expire a t) memory.old) result memory.new }
{
    call(memory, 5, a, t)
}

// Deliver: packet k arrives.
#[unsafe(no_mangle)]
pub extern "C" fn srp_deliver(memory: &mut [u8], k: usize) -> u64
    ensures { Ends memory.old (calling (Deliver k) memory.old) result memory.new }
{
    call(memory, 6, k, 0)
}

// Lose: packet k is removed.
#[unsafe(no_mangle)]
pub extern "C" fn srp_lose(memory: &mut [u8], k: usize) -> u64
    ensures { Ends memory.old (calling (Lose k) memory.old) result memory.new }
{
    call(memory, 7, k, 0)
}

// Duplicate: a copy of packet k is last in the air.
#[unsafe(no_mangle)]
pub extern "C" fn srp_duplicate(memory: &mut [u8], k: usize) -> u64
    ensures { Ends memory.old (calling (Duplicate k) memory.old) result memory.new }
{
    call(memory, 8, k, 0)
}

// Trace: the walk from a for t. Of memory that the console's calls made it tells what demand 3 asks.
#[unsafe(no_mangle)]
pub extern "C" fn srp_trace(memory: &[u8], a: usize, t: usize) -> u64
    ensures traced { result ≡ packed (trace (stored_network memory.now) a t).answer (trace (stored_network memory.now) a t).hops }
    ensures loop_free { MadeBytes memory.now → a < (stored_network memory.now).n → t < (stored_network memory.now).n → a ≢ t
        → WalksEnd (stored_network memory.now) a t (traced (answer_of result) (count_of result)) }
{
    let told = calls::trace(load(memory), a, t);
    packed(told.answer, u32::from(told.hops))
}
