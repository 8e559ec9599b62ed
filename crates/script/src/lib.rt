// Scripts in bytes: reading one into lent arrays, and writing one (01, "Scripts and the printout").
#![tactic(auto)]

ghost use Rattle.std.specs.Prelude.{◌≡◌, ◌+◌, ◌*◌, ◌≤◌, length, take, IfOk};
ghost use Rattle.std.proofs.lemmas.List.Edits.{sets};
ghost use Rattle.base.specs.Results.{accepted, mapped};
ghost use Rattle.codec.specs.Bytes.{Puts};
ghost use Rattle.model.specs.Events.{event_limit};
ghost use Rattle.script.specs.Script.{script, encoded, not_sized, no_room, parsing, reading, writing};
ghost use Rattle.script.specs.ScriptContracts.{found_of, start_of, Reads, in_arrays};
ghost use Rattle.validation.specs.Refusal.{outcome};

use codec::{number_at, put_bytes, put_number};
use validation::{EVENT_LIMIT, Refusal, all_events, not_events, open_refused};

// What a script that reads tells: its start, the number of its events and n.
#[derive(Clone, Copy)]
pub struct Found {
    pub start: u64,
    pub events: usize,
    pub n: u8,
}

// 10: whether there are too many events, or the script is not as long as they ask.
#[tactic(auto, unfolding(crate::specs::Script::not_sized))]
fn not_sized(events: usize, bytes: usize) -> bool
    ensures { result ≡ not_sized events bytes }
{
    EVENT_LIMIT < events || bytes != 11 + 3 * events
}

// 12: whether a lent array is too short for the kinds or the operands of so many events.
#[tactic(auto, unfolding(crate::specs::Script::no_room))]
fn no_room(events: usize, kinds: usize, operands: usize) -> bool
    requires { events ≤ event_limit }
    ensures { result ≡ no_room events kinds operands }
{
    (kinds < events) | (operands < 2 * events)
}

// What a script's bytes say, by the tests 9, 10, 1 and 11.
#[tactic(auto, unfolding(crate::specs::Script::not_sized, crate::specs::Script::event_count))]
fn parse(script: &[u8]) -> Result<Found, Refusal>
    ensures parsed { outcome result ≡ mapped found_of (parsing script.now) }
    ensures sized { IfOk result (λ found. (found.events ≤ event_limit) × (length script.now ≡ 11 + 3 * found.events)) }
{
    if script.len() < 11 {
        return Err(Refusal::ScriptTooShort);
    }
    let events = number_at(script, 1, 2) as usize;
    if not_sized(events, script.len()) {
        return Err(Refusal::WrongSize);
    }
    let n = script[0];
    let start = number_at(script, 3, 8);
    if open_refused(usize::from(n), start) {
        return Err(Refusal::OutOfRange);
    }
    let pairs_at = 11 + events;
    if !all_events(&script[11..pairs_at], &script[pairs_at..]) {
        return Err(Refusal::NotEvent);
    }
    Ok(Found { start, events, n })
}

// The start of a script that reads, and 0 for every other.
pub fn start(script: &[u8]) -> u64
    ensures { result ≡ start_of (reading script.now event_limit (2 * event_limit)) }
{
    match parse(script) {
        Ok(found) => found.start,
        Err(_) => 0,
    }
}

// Reads a script: its kinds and operands go to the start of the two lent arrays. Written back from there they are the same bytes.
#[tactic(auto, unfolding(crate::specs::Script::no_room))]
pub fn read(script: &[u8], kinds: &mut [u8], operands: &mut [u8]) -> Result<Found, Refusal>
    ensures read { Reads (mapped found_of) (reading script.now (length kinds.old) (length operands.old))
        kinds.old operands.old (outcome result) kinds.new operands.new }
    ensures few { IfOk result (λ found. found.events ≤ event_limit) }
    ensures written_back { IfOk result (λ found. writing (in_arrays found kinds.new operands.new) (length script.now) ≡ accepted script.now) }
{
    let found = parse(script)?;
    let events = found.events;
    if no_room(events, kinds.len(), operands.len()) {
        return Err(Refusal::NoRoom);
    }
    let pairs_at = 11 + events;
    put_bytes(kinds, 0, &script[11..pairs_at]);
    put_bytes(operands, 0, &script[pairs_at..]);
    Ok(found)
}

// The bytes of a script at the start of the lent array.
fn put_script(out: &mut [u8], n: usize, start: u64, kinds: &[u8], operands: &[u8])
    requires { 11 + length kinds.now + length operands.now ≤ length out.old }
    ensures { out.new ≡ sets out.old 0 (encoded (script n start kinds.now operands.now)) }
{
    put_number(out, 0, 1, n as u64);
    put_number(out, 1, 2, kinds.len() as u64);
    put_number(out, 3, 8, start);
    put_bytes(out, 11, kinds);
    put_bytes(out, 11 + kinds.len(), operands);
}

// Writes a script, and tells how many bytes it wrote. The number of events is the number of kinds. Read back from what was written they are the same.
#[tactic(auto, unfolding(model::specs::Events::not_events))]
pub fn write(
    n: usize,
    start: u64,
    kinds: &[u8],
    operands: &[u8],
    out: &mut [u8],
) -> Result<usize, Refusal>
    ensures written { Puts (λ bytes. bytes) (writing (script n start kinds.now operands.now) (length out.old))
        out.old (outcome result) out.new }
    ensures few { IfOk result (λ bytes. bytes ≤ 11 + 3 * event_limit) }
    ensures read_back { IfOk result (λ bytes. reading (take bytes out.new) (length kinds.now) (length operands.now)
        ≡ accepted (script n start kinds.now operands.now)) }
{
    if not_events(kinds.len(), operands.len()) {
        return Err(Refusal::WrongSize);
    }
    if open_refused(n, start) {
        return Err(Refusal::OutOfRange);
    }
    if !all_events(kinds, operands) {
        return Err(Refusal::NotEvent);
    }
    let length = 11 + 3 * kinds.len();
    if out.len() < length {
        return Err(Refusal::NoRoom);
    }
    put_script(out, n, start, kinds, operands);
    Ok(length)
}
