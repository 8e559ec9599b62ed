// Which call is turned down, by its number; and tests of what a caller hands in that need no memory: n, start and the air limit, stations, the number of
// events, and what is an event.
#![tactic(auto)]

ghost use Rattle.std.specs.Prelude.{◌≡◌, ◌||◌, ◌*◌, ◌≤◌, min, length, leb, eqb, if◌then◌else◌};
ghost use Rattle.model.specs.Memory.{size_in_range};
ghost use Rattle.model.specs.Calls.{not_opening, not_limit};
ghost use Rattle.model.specs.Events.{not_event, not_events, all_events};
ghost use Rattle.validation.specs.Refusal.{number, refusal_number};

// The most events of a script or a run.
pub const EVENT_LIMIT: usize = 4096;

// The most packets in the air, whatever a network's own limit.
pub const AIR_LIMIT: u8 = 128;

// Why a call is turned down (01, "Numbers for calls turned down"; 02, F-4 and F-5), under the number that is given.
#[derive(Clone, Copy, Debug, PartialEq, Eq)]
pub enum Refusal {
    // The memory, n, start or a label is out of range.
    OutOfRange = 1,
    // A station is not below n, or the two are equal.
    NotStations = 2,
    // The link is up already, or down already.
    LinkAlready = 3,
    // The station is active.
    Active = 4,
    // The station is passive.
    Passive = 5,
    // There is no such packet in the air.
    NoPacket = 6,
    // Too many packets would be in the air.
    AirFull = 7,
    // The station has used up its request numbers.
    NoRequestNumber = 8,
    // The script is under 11 bytes.
    ScriptTooShort = 9,
    // There are too many events, or the script or its operands are not as long as they ask.
    WrongSize = 10,
    // A kind is not 1 to 9, or an operand that is not used is not 0.
    NotEvent = 11,
    // A lent array is too short.
    NoRoom = 12,
    // The station has used up its serial numbers.
    NoSerialNumber = 13,
    // The air limit is over 128.
    LimitTooHigh = 14,
}

impl Refusal {
    // Its number.
    pub fn number(self) -> u32
        ensures { result ≡ number self }
    {
        self as u32
    }
}

// Whether n is 2 to 16.
#[tactic(auto, unfolding(model::specs::Memory::size_in_range))]
pub fn size_in_range(n: usize) -> bool
    ensures { result ≡ size_in_range n }
{
    matches!(n, 2..=16)
}

// 1: whether n is not 2 to 16, or start is 0.
#[tactic(auto, unfolding(model::specs::Calls::not_opening))]
pub fn open_refused(n: usize, start: u64) -> bool
    ensures { result ≡ not_opening n start }
{
    !size_in_range(n) | (start == 0)
}

// 14: whether an air limit is over 128.
#[tactic(auto, unfolding(model::specs::Calls::not_limit))]
pub fn limit_refused(limit: usize) -> bool
    ensures { result ≡ not_limit limit }
{
    (AIR_LIMIT as usize) < limit
}

// What turns Open down first, if anything does: 1, then 14.
pub fn open_refusal(n: usize, start: u64, limit: usize) -> Result<(), Refusal>
    ensures { refusal_number result ≡ (if not_opening n start then 1 else if not_limit limit then 14 else 0) }
{
    if open_refused(n, start) {
        return Err(Refusal::OutOfRange);
    }
    if limit_refused(limit) {
        return Err(Refusal::LimitTooHigh);
    }
    Ok(())
}

// A station or a place in the air that fits a byte: no network in range has a 255th.
pub fn narrow(a: usize) -> u8
    ensures { result ≡ min a 255 }
{
    a.min(255) as u8
}

// 2: whether a is no station.
pub fn not_station(n: u8, a: usize) -> bool
    ensures { result ≡ leb n a }
{
    (n as usize) <= a
}

// 2: whether a and b are not two stations.
pub fn not_pair(n: u8, a: usize, b: usize) -> bool
    ensures { result ≡ leb n a || leb n b || eqb a b }
{
    not_station(n, a) | not_station(n, b) | (a == b)
}

// 10: whether there are too many kinds, or the operands are not two for each.
#[tactic(auto, unfolding(model::specs::Events::not_events))]
pub fn not_events(kinds: usize, operands: usize) -> bool
    ensures { result ≡ not_events kinds operands }
{
    EVENT_LIMIT < kinds || operands != 2 * kinds
}

// 11: whether the kind is not 1 to 9, or the operand b is not used and not 0. It is this test that tells numbers that are no kind.
#[tactic(auto, unfolding(model::specs::Events::not_event, model::specs::Events::uses_one))]
pub fn not_event(kind: u8, b: u8) -> bool
    ensures { result ≡ not_event kind b }
{
    (kind == 0) | (9 < kind) | ((kind == 4) | (5 < kind) & (kind < 9)) & (b != 0)
}

// 11, of any of them: whether every one is an event.
pub fn all_events(kinds: &[u8], operands: &[u8]) -> bool
    requires { 2 * length kinds.now ≤ length operands.now }
    ensures { result ≡ all_events kinds.now operands.now }
{
    (0..kinds.len()).all(|i| !not_event(kinds[i], operands[2 * i + 1]))
}
