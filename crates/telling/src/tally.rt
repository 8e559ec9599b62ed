// The tally of a run (02, F-5).
ghost use Rattle.std.specs.Prelude.{◌≡◌, ℕ, ◌+◌, ◌≤◌, ◌<◌, ◌^◌, [], length};
ghost use Rattle.base.specs.Lists.{tabulate};
ghost use Rattle.model.specs.Events.{event_limit};
ghost use Rattle.model.specs.Printout.{Line};
ghost use Rattle.model.specs.Tally.{tally_of};
ghost use Rattle.telling.specs.Tallies.{tally_in, with_event, Told};

use crate::lines::air_of;

// How many events there were, refused ones too, and the highest air count after any of them.
#[derive(Clone, Copy)]
pub struct Tally {
    pub calls: u32,
    pub highest: u8,
}

// One event more is noted in the tally that is lent, after which so many packets are in the air.
#[tactic(auto, unfolding(crate::specs::Tallies::with_event))]
pub fn note(tally: &mut Tally, air: u8)
    requires { tally.old.calls + 1 < 2 ^ 32 }
    ensures { tally.new ≡ with_event tally.old air }
{
    tally.calls += 1;
    tally.highest = tally.highest.max(air);
}

// The tally of no events.
#[tactic(auto, unfolding(model::specs::Tally::tally_of, model::specs::Tally::highest_air))]
pub fn no_events() -> Tally
    ensures { tally_in result ≡ tally_of [] }
{
    Tally {
        calls: 0,
        highest: 0,
    }
}

// The tally of so many events, whose lines the first numbers tell.
pub fn tally_of(lines: &[u64], count: usize) -> Tally
    requires { (count ≤ event_limit) × (count ≤ length lines.now) }
    ensures calls_value { result.calls ≡ count }
    ensures by_index { (line : ℕ → Line) → Told lines.now count line → tally_in result ≡ tally_of (tabulate count line) }
{
    let mut tally = no_events();
    for &line in &lines[..count] {
        note(&mut tally, air_of(line));
    }
    tally
}
