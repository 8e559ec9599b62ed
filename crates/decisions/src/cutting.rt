// Rows that lose a station: at Down a and b each lose the other, at an error its receiver loses its sender for the masked destinations. Rows
// name each station once, and t is below 16: both stand in each contract, as in `rows` and `masks`.
ghost use Rattle.std.specs.Prelude.{◌≡◌, ◌&&◌, ◌||◌, ◌+◌, ◌^◌, ◌<◌, eqb, if◌then◌else◌};
ghost use Rattle.base.specs.Lists.{some_in};
ghost use Rattle.model.specs.Memory.{without};
ghost use Rattle.model.specs.Calls.{bit, empties, error_outcome};
ghost use Rattle.rows.specs.View.{row_of, NamesOnce};
ghost use Rattle.decisions.specs.Cutting.{leaves_by, DownCuts, ErrorCuts};

use link_rows::masks::{bit, marked};
use network::Packet;
use rows::{Loss, Row, loss_of, without_station};

// Two stations, and the masks of the destinations for which the first loses the second, and the second the first: whatever the entry's
// serial number, or where it is at most this.
#[derive(Clone, Copy)]
pub struct Cut {
    pub serial: u64,
    pub mask: u16,
    pub others: u16,
    pub first: u8,
    pub second: u8,
    pub all: bool,
}

// Which rows Down, or the delivery of the error p, cuts.
pub fn cut_of(kind: u8, a: u8, b: u8, p: Packet) -> Cut
    ensures down { kind ≡ 2 → DownCuts a b result }
    ensures error { kind ≡ 6 → ErrorCuts p result }
{
    let i = p.receiver;
    let j = p.sender;
    let mask = p.mask;
    let serial = p.serial;
    if kind == 2 {
        return Cut {
            serial: 0,
            mask: 65535,
            others: 65535,
            first: a,
            second: b,
            all: true,
        };
    }
    Cut {
        serial,
        mask,
        others: 0,
        first: i,
        second: j,
        all: false,
    }
}

// What a row for t loses with j.
fn masked_loss(row: Row, cut: Cut, j: u8, mask: u16, t: u8) -> Loss
    requires { NamesOnce row × (t < 16) }
    ensures removed { result.removed ≡ bit mask t && some_in (leaves_by cut j) (row_of row) }
    ensures emptied { result.emptied ≡ bit mask t && empties (leaves_by cut j) (row_of row) }
{
    let all = cut.all;
    let serial = cut.serial;
    if bit(mask, t) {
        loss_of(row, j, all, serial)
    } else {
        Loss {
            removed: false,
            emptied: false,
        }
    }
}

// The row for t after it.
pub fn cut_row(row: Row, cut: Cut, j: u8, mask: u16, t: u8) -> Row
    requires { NamesOnce row × (t < 16) }
    ensures { row_of result ≡ (if bit mask t then without (leaves_by cut j) (row_of row) else row_of row) }
{
    let all = cut.all;
    let serial = cut.serial;
    if bit(mask, t) {
        without_station(row, j, all, serial)
    } else {
        row
    }
}

// The masks of the rows emptied so far, of the first station and of the second, and whether any row lost an entry.
#[derive(Clone, Copy)]
pub struct Losses {
    pub emptied: u16,
    pub others: u16,
    pub removed: bool,
}

// The same with the rows of the two for t.
pub fn with_rows(losses: Losses, cut: Cut, t: u8, row: Row, other: Row) -> Losses
    requires { NamesOnce row × NamesOnce other × (t < 16) × (losses.emptied < 2 ^ t) × (losses.others < 2 ^ t) }
    ensures emptied { result.emptied ≡ losses.emptied + (if bit cut.mask t && empties (leaves_by cut cut.second) (row_of row) then 2 ^ t else 0) }
    ensures others { result.others ≡ losses.others + (if bit cut.others t && empties (leaves_by cut cut.first) (row_of other) then 2 ^ t else 0) }
    ensures removed { result.removed ≡ losses.removed || bit cut.mask t && some_in (leaves_by cut cut.second) (row_of row)
        || bit cut.others t && some_in (leaves_by cut cut.first) (row_of other) }
{
    let emptied = losses.emptied;
    let others = losses.others;
    let removed = losses.removed;
    let i = cut.first;
    let j = cut.second;
    let mine = cut.mask;
    let theirs = cut.others;
    let first = masked_loss(row, cut, j, mine, t);
    let second = masked_loss(other, cut, i, theirs, t);
    Losses {
        emptied: marked(emptied, t, first.emptied),
        others: marked(others, t, second.emptied),
        removed: removed | first.removed | second.removed,
    }
}

// How many of n stations' rows are to be written: none where nothing was removed.
pub fn turns_of(n: u8, removed: bool) -> u8
    ensures { result ≡ (if removed then n else 0) }
{
    if removed { n } else { 0 }
}

// Down has no outcome number; of an error 121 nothing removed, 122 no row emptied, 123 some emptied. A number, as `error_outcome` and `Done` have it.
#[tactic(auto, unfolding(model::specs::Calls::error_outcome))]
pub fn cut_answer(kind: u8, removed: bool, emptied: u16) -> u32
    ensures { result ≡ (if eqb kind 2 then 0 else error_outcome removed emptied) }
{
    if kind == 2 {
        return 0;
    }
    if !removed {
        return 121;
    }
    if emptied == 0 {
        return 122;
    }
    123
}
