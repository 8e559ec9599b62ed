// Down, and an error delivered: rows that lose a station.
ghost use Rattle.std.specs.Prelude.{◌≡◌, ◌≢◌, ℕ, ◌<◌, ◌≤◌, map, get_or};
ghost use Rattle.model.specs.Memory.{place};
ghost use Rattle.model.specs.Events.{event_of};
ghost use Rattle.rows.specs.View.{row_of, zero_row, NamesOnce};
ghost use Rattle.decisions.specs.Changing.{class_of};
ghost use Rattle.decisions.specs.declared.changing.Class.TheVariants.{Cutting};
ghost use Rattle.steps.specs.Happens.{Passed, carried_by, Happening};
ghost use Rattle.steps.specs.Cutting.{Lost, CutRows};

use crate::Outcome;
use crate::happening::turned_down;
use crate::parting::{cut_air, left_of};
use decisions::changing::count_on;
use decisions::cutting::{Cut, Losses, cut_answer, cut_of, cut_row, turns_of, with_rows};
use network::packets::error;
use network::places::{pair_place, place};
use network::{Air, Memory};
use refusing::sending_refusal;
use rows::Row;
use station::sending::{copies, error_scope};
use validation::AIR_LIMIT;

// What the rows of the two stations lose, destination by destination.
pub fn losses_of(rows: &[Row; 256], cut: Cut, n: u8) -> Losses
    requires two { (n ≤ 16) × (cut.first < n) × (cut.second < n) }
    requires once { (t : ℕ) → t < n → NamesOnce (get_or rows.now (place cut.first t) zero_row) × NamesOnce (get_or rows.now (place cut.second t) zero_row) }
    ensures { Lost cut (map row_of rows.now) n result }
{
    let first = cut.first;
    let second = cut.second;
    let mut losses = Losses {
        emptied: 0,
        others: 0,
        removed: false,
    };
    for t in 0..n {
        let row = rows[place(first, t)];
        let other = rows[place(second, t)];
        losses = with_rows(losses, cut, t, row, other);
    }
    losses
}

// Their rows without it, for as many destinations.
fn cut_rows(rows: &mut [Row; 256], cut: Cut, turns: u8)
    requires two { (turns ≤ 16) × (cut.first < 16) × (cut.second < 16) × (cut.first ≢ cut.second) }
    requires once { (t : ℕ) → t < turns → NamesOnce (get_or rows.old (place cut.first t) zero_row) × NamesOnce (get_or rows.old (place cut.second t) zero_row) }
    ensures { CutRows cut rows.old turns rows.new }
{
    let first = cut.first;
    let second = cut.second;
    for t in 0..turns {
        let cell = place(first, t);
        let slot = place(second, t);
        let row = rows[cell];
        let other = rows[slot];
        rows[cell] = cut_row(row, cut, second, cut.mask, t);
        rows[slot] = cut_row(other, cut, first, cut.others, t);
    }
}

// The two stations lose each other, or the receiver of an error its sender; whose rows are emptied says so to its up neighbours.
fn cut(memory: &mut Memory, kind: u8, a: u8, b: u8) -> Outcome
    requires passed { Passed memory.old kind a b }
    requires class { class_of kind (carried_by memory.old a) ≡ Cutting }
    ensures { Happening memory.old (event_of kind a b) result memory.new }
{
    let n = memory.n;
    let count = memory.air.count;
    let k = (a % AIR_LIMIT) as usize;
    let p = memory.air.packets[k];
    let cut = cut_of(kind, a, b, p);
    let first = cut.first;
    let second = cut.second;
    prove!(n <= 16);
    prove!(first < 16);
    prove!(second < 16);
    let edge = pair_place(first, second);
    let mut links = memory.links;
    links[edge] = links[edge] & (kind != 2);
    let losses = losses_of(&memory.rows, cut, n);
    let left = left_of(kind, memory.air.packets, count, k, first, second);
    let scope = error_scope(losses.emptied);
    let other = error_scope(losses.others);
    let sent = copies(scope, links, n, first);
    let more = copies(other, links, n, second);
    prove!(left <= 128);
    prove!(sent <= 16);
    prove!(more <= 16);
    let total = left + sent + more;
    let here = first as usize;
    let there = second as usize;
    let mine = memory.serials[here];
    let theirs = memory.serials[there];
    let limit = memory.limit;
    if let Err(why) = sending_refusal(limit, total, mine, sent, theirs, more) {
        return turned_down(why);
    }
    cut_rows(&mut memory.rows, cut, turns_of(n, losses.removed));
    memory.links = links;
    let first_serial = count_on(mine, sent);
    let second_serial = count_on(theirs, more);
    memory.serials[here] = first_serial;
    memory.serials[there] = second_serial;
    let q = error(losses.emptied, first_serial);
    let z = error(losses.others, second_serial);
    let packets = memory.air.packets;
    memory.air = Air {
        packets: cut_air(
            kind, packets, count, left, k, links, n, first, scope, q, second, other, z,
        ),
        count: total,
    };
    Outcome {
        answer: cut_answer(kind, losses.removed, losses.emptied),
        sent: sent + more,
        hops: 0,
    }
}

// The same out of line: an event that changes one station alone needs no stack for rows and packets that are cut.
#[inline(never)]
pub(crate) fn cut_out_of_line(memory: &mut Memory, kind: u8, a: u8, b: u8) -> Outcome
    requires passed { Passed memory.old kind a b }
    requires class { class_of kind (carried_by memory.old a) ≡ Cutting }
    ensures { Happening memory.old (event_of kind a b) result memory.new }
{
    cut(memory, kind, a, b)
}
