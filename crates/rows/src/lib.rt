// Rows of successors (01, "The network's memory"): the search for a station, the row of an accepted reply, and the row that a station leaves.
#![tactic(auto)]

ghost use Rattle.std.specs.Prelude.{◌≡◌, [], ◌∷◌, ◌++◌, ◌<◌, ◌≤◌};
ghost use Rattle.base.specs.Lists.{some_in, tabulate, index_of, remove_at};
ghost use Rattle.model.specs.Memory.{names, without, under, put, with_room, row_limit};
ghost use Rattle.model.specs.Calls.{empties};
ghost use Rattle.rows.specs.View.{successor_of, entry_of, row_of, Written, NamesOnce};
ghost use Rattle.rows.specs.Leaving.{leaving};
ghost use Rattle.rows.specs.Search.{place_in, found_at, looked_at};

use label::{Label, label_of};

// The most successors of a row.
pub const ROW_LIMIT: u8 = 4;

// A successor: a station, the label that it advertised, and the serial number of its reply.
#[derive(Clone, Copy)]
pub struct Successor {
    pub label: Label,
    pub serial: u64,
    pub station: u8,
}

// A row of successors: entry k is the station stations[k] with the label labels[k] and the serial number serials[k]. Fixed form: 104 bytes, where
// an array of entries has 136; `read_row` and `load` make rows of any count, so the limit stands in the contracts.
#[derive(Clone, Copy)]
pub struct Row {
    pub labels: [Label; ROW_LIMIT as usize],
    pub serials: [u64; ROW_LIMIT as usize],
    pub stations: [u8; ROW_LIMIT as usize],
    pub count: u8,
}

// A row of no successors.
#[tactic(auto, unfolding(crate::specs::View::row_of, base::specs::Lists::tabulate))]
pub fn empty_row() -> Row
    ensures { row_of result ≡ [] }
{
    Row {
        labels: [label_of(0, 0, 0); ROW_LIMIT as usize],
        serials: [0; ROW_LIMIT as usize],
        stations: [0; ROW_LIMIT as usize],
        count: 0,
    }
}

// Entry k of a row.
#[tactic(auto, unfolding(crate::specs::View::entry_of))]
pub fn entry(row: Row, k: usize) -> Successor
    requires { k < row_limit }
    ensures { successor_of result ≡ entry_of row k }
{
    Successor {
        label: row.labels[k],
        serial: row.serials[k],
        station: row.stations[k],
    }
}

// The row with entry k written.
pub fn with_entry(row: Row, k: usize, e: Successor) -> Row
    requires { k < row_limit }
    ensures { Written row k (successor_of e) result }
{
    let mut next = row;
    next.labels[k] = e.label;
    next.serials[k] = e.serial;
    next.stations[k] = e.station;
    next
}

// How a search ended: the place of the first entry that names the station, None where none does; and how many places it looked at.
#[derive(Clone, Copy)]
pub struct Found {
    pub place: Option<u8>,
    pub looked: u8,
}

// The search for j among the first entries of a row, so many as `count` says.
pub fn find(row: Row, count: u8, j: u8) -> Found
    requires { count ≤ row_limit }
    ensures place { result.place ≡ found_at j (tabulate count (entry_of row)) }
    ensures looked { result.looked ≡ looked_at j (tabulate count (entry_of row)) }
{
    for k in 0..count {
        if row.stations[k as usize] == j {
            return Found {
                place: Some(k),
                looked: k + 1,
            };
        }
    }
    Found {
        place: None,
        looked: count,
    }
}

// The row with one more entry.
fn push(row: Row, e: Successor) -> Row
    requires { row.count < row_limit }
    ensures { row_of result ≡ row_of row ++ (successor_of e ∷ []) }
{
    let mut next = with_entry(row, row.count as usize, e);
    next.count += 1;
    next
}

// The entries whose label g is above.
fn under(row: Row, g: Label) -> Row
    requires { row.count ≤ row_limit }
    ensures { row_of result ≡ under g (row_of row) }
{
    let mut next = row;
    next.count = 0;
    for k in 0..row.count {
        let e = entry(row, k as usize);
        if label::is_above(g, e.label) {
            next = push(next, e);
        }
    }
    next
}

// The row without the entry at a place: later ones move up.
fn remove_at(mut row: Row, place: u8) -> Row
    requires { (place < row.count) × (row.count ≤ row_limit) }
    ensures { row_of result ≡ remove_at place (row_of row) }
{
    row.count -= 1;
    for k in place as usize..row.count as usize {
        row = with_entry(row, k, entry(row, k + 1));
    }
    row
}

// The row with room for one more: the first entry leaves a full row.
fn with_room(row: Row) -> Row
    requires { row.count ≤ row_limit }
    ensures { row_of result ≡ with_room (row_of row) }
{
    if row.count < ROW_LIMIT {
        return row;
    }
    remove_at(row, 0)
}

// The row with the entry in the place of the one that names its station, or last.
fn put(row: Row, e: Successor) -> Row
    requires { row.count ≤ row_limit }
    ensures { row_of result ≡ put (successor_of e) (row_of row) }
{
    match find(row, row.count, e.station).place {
        Some(place) => with_entry(row, place as usize, e),
        None => push(with_room(row), e),
    }
}

// The row of a station that takes the label g by a reply from e.
pub fn adopted(row: Row, g: Label, e: Successor) -> Row
    requires { row.count ≤ row_limit }
    ensures { row_of result ≡ put (successor_of e) (under g (row_of row)) }
{
    put(under(row, g), e)
}

// What a row loses: whether an entry leaves it, and whether this empties it. `NamesOnce` stands in each contract, since rows of any entries are read
// from bytes, and the pages name these functions with a row, a station, a flag and a number.
#[derive(Clone, Copy)]
pub struct Loss {
    pub removed: bool,
    pub emptied: bool,
}

// The place of the entry that leaves: the one that names j, where all leave or its serial number is at most this; None where none leaves.
fn leaving_place(row: Row, j: u8, all: bool, serial: u64) -> Option<u8>
    requires { NamesOnce row }
    ensures { result ≡ place_in (leaving all j serial) (row_of row) }
{
    let at = find(row, row.count, j).place?;
    if all | (row.serials[at as usize] <= serial) {
        return Some(at);
    }
    None
}

// What the row loses with j.
pub fn loss_of(row: Row, j: u8, all: bool, serial: u64) -> Loss
    requires { NamesOnce row }
    ensures removed { result.removed ≡ some_in (leaving all j serial) (row_of row) }
    ensures emptied { result.emptied ≡ empties (leaving all j serial) (row_of row) }
{
    let removed = leaving_place(row, j, all, serial).is_some();
    Loss {
        removed,
        emptied: removed & (row.count == 1),
    }
}

// The row without j: the entry at the place found is removed.
pub fn without_station(row: Row, j: u8, all: bool, serial: u64) -> Row
    requires { NamesOnce row }
    ensures { row_of result ≡ without (leaving all j serial) (row_of row) }
{
    match leaving_place(row, j, all, serial) {
        Some(place) => remove_at(row, place),
        None => row,
    }
}
