// A rehearsal: the events of a script from fresh memory, and what each did.
ghost use Rattle.std.specs.Prelude.{◌≡◌, false, ℕ, ◌+◌, ◌*◌, ◌≤◌, length, take, IfOk};
ghost use mathlib.Core.List.{List, flat_map};
ghost use Rattle.io.specs.Counts.{IsPrefixLen};
ghost use Rattle.model.specs.Memory.{Network, fresh, air_limit};
ghost use Rattle.model.specs.Calls.{not_opening, not_limit};
ghost use Rattle.model.specs.Events.{event_limit};
ghost use Rattle.model.specs.Printout.{line_at, event_lines};
ghost use Rattle.model.specs.Tally.{tally_of};
ghost use Rattle.telling.specs.Tallies.{tally_in, Told};
ghost use Rattle.text.specs.Text.{event_text, rehearsal_text};
ghost use Rattle.printout.specs.Printed.{printout_room, Rehearses, Prints, RoutesLoopFree, TallyFits};
ghost use Rattle.text.specs.TextContracts.{PutsAt};

use network::opening::fresh;
use script::read;
use steps::running::run;
use telling::lines::{air_of, answer_of, hops_of, sent_of};
use telling::tally::{Tally, no_events, tally_of};
use text::lines::{put_event_line, put_label_lines, put_refusal};
use validation::{AIR_LIMIT, EVENT_LIMIT, Refusal, limit_refused};

// Room for every script, and one byte more: a longer one is turned down, whatever its other bytes.
pub const INPUT_ROOM: usize = 12 + 3 * EVENT_LIMIT;

// Room for every printout: lines of 40 bytes for 4,096 events and of 69 for 256 labels, and 200 bytes more for the line that is put.
pub const ROOM: usize = 184320;

// The line of each event, with the numbers that a run told of it. Two slices, kinds and operands, as C lends them.
fn put_event_lines(out: &mut [u8], kinds: &[u8], operands: &[u8], lines: &[u64]) -> usize
    requires kinds_len_bound { (length kinds.now ≤ event_limit) × (length operands.now ≡ 2 * length kinds.now) × (length kinds.now ≤ length lines.now) }
    requires kinds_in_bounds { 40 * length kinds.now + 200 ≤ length out.old }
    ensures puts_at { (net : Network) → Told lines.now (length kinds.now) (line_at net kinds.now operands.now)
        → PutsAt out.old 0 (flat_map event_text (event_lines net kinds.now operands.now)) result out.new }
    ensures upper_bound { result ≤ 40 * length kinds.now }
{
    let mut end = 0;
    for (i, kind) in kinds.iter().enumerate() {
        let a = operands[2 * i];
        let b = operands[2 * i + 1];
        let line = lines[i];
        let answer = answer_of(line);
        let sent = sent_of(line);
        let air = air_of(line);
        let hops = hops_of(line);
        end = put_event_line(out, end, i, *kind, a, b, answer, sent, air, hops);
    }
    end
}

// What a rehearsal gives: the length of its text, and the tally of its events.
#[derive(Clone, Copy)]
pub struct Rehearsed {
    pub length: usize,
    pub tally: Tally,
}

// What the program prints of a script: the text's length, the answer and the tally. A script turned down has all three: the text is its line, and
// the tally that of no events (`Prints`).
#[derive(Clone, Copy)]
pub struct Printed {
    pub length: usize,
    pub answer: u32,
    pub tally: Tally,
}

// The lines of these events and of the labels after them, under an air limit.
fn put_rehearsal(
    out: &mut [u8],
    n: u8,
    start: u64,
    limit: u8,
    kinds: &[u8],
    operands: &[u8],
) -> Rehearsed
    requires start_value { (not_opening n start ≡ false) × (not_limit limit ≡ false) × (length kinds.now ≤ event_limit) × (length operands.now ≡ 2 * length kinds.now) }
    requires printout_room_in_bounds { printout_room ≤ length out.old }
    ensures puts_at { PutsAt out.old 0 (rehearsal_text (fresh n start limit) kinds.now operands.now) result.length out.new }
    ensures tally_value { tally_in result.tally ≡ tally_of (event_lines (fresh n start limit) kinds.now operands.now) }
    ensures length_le_printout_room { (result.length ≤ printout_room) × (result.tally.calls ≤ event_limit) }
{
    let mut lines = [0u64; EVENT_LIMIT];
    let memory = fresh(n, start, limit);
    let ran = run(memory, false, kinds, operands, &mut lines);
    let tally = tally_of(&lines, kinds.len());
    let end = put_event_lines(out, kinds, operands, &lines);
    let length = put_label_lines(out, end, ran.memory);
    Rehearsed { length, tally }
}

// A script rehearsed under an air limit: its text goes to the start of the lent array, whose places past it are kept. No walk along the routes
// printed goes in a circle.
#[tactic(auto, using(crate::proofs::RehearsalLaws::whatever_events), unfolding(model::specs::Calls::not_limit))]
pub fn rehearse_under(script: &[u8], limit: usize, out: &mut [u8]) -> Result<Rehearsed, Refusal>
    ensures text { Rehearses script.now limit out.old result out.new }
    ensures loop_free { RoutesLoopFree script.now limit }
    ensures tally { TallyFits script.now limit }
    ensures bounded { IfOk result (λ done. (done.length ≤ printout_room) × (done.tally.calls ≤ event_limit)) }
{
    let mut kinds = [0u8; EVENT_LIMIT];
    let mut operands = [0u8; 2 * EVENT_LIMIT];
    let found = read(script, &mut kinds, &mut operands)?;
    if limit_refused(limit) {
        return Err(Refusal::LimitTooHigh);
    }
    if out.len() < ROOM {
        return Err(Refusal::NoRoom);
    }
    let events = found.events;
    let pairs = 2 * events;
    let done = put_rehearsal(
        out,
        found.n,
        found.start,
        limit as u8,
        &kinds[..events],
        &operands[..pairs],
    );
    Ok(done)
}

// What a script prints, at the start of the lent array, whose places past it are kept; the result has its length and the tally. No walk along
// the routes printed goes in a circle.
pub fn rehearse(script: &[u8], out: &mut [u8; ROOM]) -> Printed
    ensures text { Prints script.now out.old result out.new }
    ensures length { IsPrefixLen result.length out.new }
    ensures loop_free { RoutesLoopFree script.now air_limit }
    ensures tally { TallyFits script.now air_limit }
{
    match rehearse_under(script, AIR_LIMIT as usize, out) {
        Ok(done) => Printed {
            length: done.length,
            answer: 0,
            tally: done.tally,
        },
        Err(refusal) => {
            let answer = refusal.number();
            let length = put_refusal(out, answer);
            let tally = no_events();
            Printed {
                length,
                answer,
                tally,
            }
        }
    }
}

// What a whole input prints, from as many of its first bytes as the array holds: `count` of them stand there.
#[tactic(auto, using(crate::proofs::RehearsalLaws::whatever_events))]
pub fn rehearse_input(input: &[u8; INPUT_ROOM], count: usize, out: &mut [u8; ROOM]) -> Printed
    ensures text { (whole : List ℕ) → take count input.now ≡ take (length input.now) whole
        → Prints whole out.old result out.new }
    ensures length { IsPrefixLen result.length out.new }
    ensures loop_free { (whole : List ℕ) → RoutesLoopFree whole air_limit }
    ensures tally { (whole : List ℕ) → TallyFits whole air_limit }
{
    let end = count.min(input.len());
    rehearse(&input[..end], out)
}
