// The range test (01, "Memory is in range if ..").
ghost use Rattle.std.specs.Prelude.{◌≡◌, ◌&&◌, ◌||◌, ◌^◌, ◌<◌, ◌≤◌, ltb, leb, get_or};
ghost use Rattle.base.specs.Lists.{all_below, all_in, distinct};
ghost use Rattle.model.specs.Memory.{stations, successor_in_range, row_in_range, record_in_range, own_in_range, cell_in_range, row_limit};
ghost use Rattle.model.specs.Memory.{head_in_range, body_in_range, packet_in_range, air_in_range, limit_in_range, size_in_range, memory_in_range};
ghost use Rattle.rows.specs.View.{successor_of, row_of};
ghost use Rattle.network.specs.View.{record_of, body_of, packet_of, air_of, view};

use crate::{Air, Memory, Packet, Record};
use label::{Label, label_of};
use link_rows::masks::mask_in_range;
use rows::{ROW_LIMIT, Row, Successor, entry, find};
use validation::{AIR_LIMIT, size_in_range};

// An entry of a row that i holds: another station, and a label in range.
#[tactic(auto, unfolding(model::specs::Memory::successor_in_range, model::specs::Memory::names))]
fn entry_in_range(e: Successor, n: u8, i: u8) -> bool
    ensures { result ≡ successor_in_range n i (successor_of e) }
{
    e.station < n && e.station != i && label::in_range(e.label)
}

// Every entry of a row that i holds.
fn entries_in_range(row: Row, n: u8, i: u8) -> bool
    requires { row.count ≤ row_limit }
    ensures { result ≡ all_in (successor_in_range n i) (row_of row) }
{
    (0..row.count as usize).all(|k| entry_in_range(entry(row, k), n, i))
}

// No station is named twice.
fn named_once(row: Row) -> bool
    requires { row.count ≤ row_limit }
    ensures { result ≡ distinct (stations (row_of row)) }
{
    (0..row.count).all(|k| find(row, k, row.stations[k as usize]).place.is_none())
}

// A row that i holds.
#[tactic(auto, using(crate::proofs::RangeLaws::lengths), unfolding(model::specs::Memory::row_in_range))]
fn row_in_range(row: Row, n: u8, i: u8) -> bool
    ensures { result ≡ row_in_range n i (row_of row) }
{
    row.count <= ROW_LIMIT && named_once(row) && entries_in_range(row, n, i)
}

// A record.
#[tactic(auto, unfolding(model::specs::Memory::record_in_range, crate::specs::View::record_of))]
fn record_in_range(kept: Record, n: u8) -> bool
    ensures { result ≡ record_in_range n (record_of kept) }
{
    kept.destination < n && kept.last_hop < n && label::in_range(kept.cached)
}

// A station's label and row for itself: (s, 0/1) and no entry.
#[tactic(auto, using(crate::proofs::RangeLaws::lengths), unfolding(model::specs::Memory::own_in_range))]
fn own_in_range(label: Label, row: Row) -> bool
    ensures { result ≡ own_in_range label (row_of row) }
{
    label.m == 0 && label.d == 1 && row.count == 0
}

// What station i holds for station t.
#[tactic(auto, unfolding(model::specs::Memory::cell_in_range))]
fn cell_in_range(n: u8, i: u8, t: u8, label: Label, row: Row, kept: Record) -> bool
    ensures { result ≡ cell_in_range n i t label (row_of row) (record_of kept) }
{
    if !label::in_range(label) || !row_in_range(row, n, i) {
        return false;
    }
    if i == t {
        own_in_range(label, row)
    } else {
        record_in_range(kept, n)
    }
}

// The same where t is a station; where it is not, its place is not tested.
fn place_in_range(n: u8, i: u8, t: u8, label: Label, row: Row, kept: Record) -> bool
    ensures { result ≡ leb n t || cell_in_range n i t label (row_of row) (record_of kept) }
{
    n <= t || cell_in_range(n, i, t, label, row, kept)
}

// The source, number, destination and label of a request or a reply.
#[tactic(auto, unfolding(model::specs::Memory::head_in_range))]
fn head_in_range(p: Packet, n: u8) -> bool
    ensures { result ≡ head_in_range n p.source p.number.0 p.destination p.label }
{
    p.source < n && p.number.0 != 0 && p.destination < n && label::in_range(p.label)
}

// What a packet carries, by its kind.
fn body_in_range(p: Packet, n: u8) -> bool
    requires { n ≤ 16 }
    ensures { result ≡ body_in_range n (body_of p) }
{
    match p.kind {
        1 | 2 => head_in_range(p, n),
        3 => mask_in_range(p.mask, n),
        _ => false,
    }
}

// A packet: two stations, and what it carries.
#[tactic(auto, unfolding(model::specs::Memory::packet_in_range, crate::specs::View::packet_of))]
fn packet_in_range(p: Packet, n: u8) -> bool
    requires { n ≤ 16 }
    ensures { result ≡ packet_in_range n (packet_of p) }
{
    p.sender < n && p.receiver < n && p.sender != p.receiver && body_in_range(p, n)
}

// The packets in the air.
fn air_in_range(air: Air, n: u8) -> bool
    requires { n ≤ 16 }
    ensures { result ≡ air_in_range n (air_of air) }
{
    air.count <= AIR_LIMIT
        && air.packets[..air.count as usize]
            .iter()
            .all(|p| packet_in_range(*p, n))
}

// The destinations last sought.
fn sought_in_range(sought: [u8; 16], n: u8) -> bool
    requires { n ≤ 16 }
    ensures { result ≡ all_below n (λ i. ltb (get_or sought i 0) n) }
{
    sought[..n as usize].iter().all(|t| *t < n)
}

// The limit kept, and the number of packets in the air.
#[tactic(auto, unfolding(model::specs::Memory::limit_in_range))]
fn limit_in_range(limit: u8, count: u8) -> bool
    ensures { result ≡ limit_in_range limit count }
{
    limit <= AIR_LIMIT && count <= limit
}

// What stands in no table: n, the destinations last sought, the air and its limit.
#[tactic(auto, using(crate::proofs::RangeLaws::size_at_most))]
fn frame_in_range(n: u8, sought: [u8; 16], air: Air, limit: u8) -> bool
    ensures { result ≡ size_in_range n && all_below n (λ i. ltb (get_or sought i 0) n) && air_in_range n (air_of air) && limit_in_range limit air.count }
{
    size_in_range(n as usize)
        && sought_in_range(sought, n)
        && air_in_range(air, n)
        && limit_in_range(limit, air.count)
}

// Whether the memory is in range.
pub fn in_range(memory: &Memory) -> bool
    ensures { result ≡ memory_in_range (view memory.now) }
{
    let n = memory.n;
    if !frame_in_range(n, memory.sought, memory.air, memory.limit) {
        return false;
    }
    (0..16 * (n as usize)).all(|at| {
        let i = (at / 16) as u8;
        let t = (at % 16) as u8;
        let label = label_of(memory.s[at], memory.m[at], memory.d[at]);
        place_in_range(n, i, t, label, memory.rows[at], memory.records[at])
    })
}
