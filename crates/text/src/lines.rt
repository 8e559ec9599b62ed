// The lines of a printout in a lent array.
ghost use Rattle.std.specs.Prelude.{◌≡◌, true, not, ◌&&◌, ◌+◌, ◌*◌, ◌≤◌, ◌<◌, length, eqb};
ghost use mathlib.Core.List.{flat_map};
ghost use Rattle.label.specs.Label.{is_unassigned};
ghost use Rattle.model.specs.Memory.{stations, memory_in_range, row_limit};
ghost use Rattle.model.specs.Printout.{line, label_line, station_lines, label_lines};
ghost use Rattle.rows.specs.View.{row_of};
ghost use Rattle.network.specs.View.{view};
ghost use Rattle.text.specs.Text.{refusal_text, event_text, label_text};
ghost use Rattle.text.specs.TextContracts.{PutsAt};

use crate::fields::{put_decimal, put_field, put_fields};
use label::{Label, is_unassigned, label_of};
use network::Memory;
use network::places::place;
use rows::Row;

// The line of a script turned down.
pub fn put_refusal(out: &mut [u8], answer: u32) -> usize
    requires { 64 ≤ length out.old }
    ensures puts_at { PutsAt out.old 0 (refusal_text answer) result out.new }
    ensures upper_bound { result ≤ 64 }
{
    out[0] = b'R';
    let end = put_field(out, 1, answer as u64);
    out[end] = b'\n';
    end + 1
}

// The line of an event, of at most 40 bytes. Its parameters are those of the model's `line`, in its order.
pub fn put_event_line(
    out: &mut [u8],
    at: usize,
    index: usize,
    kind: u8,
    a: u8,
    b: u8,
    answer: u32,
    sent: u8,
    air: u8,
    hops: u8,
) -> usize
    requires { (at + 200 ≤ length out.old) × (index < 10_000) }
    ensures puts_at { PutsAt out.old at (event_text (line index kind a b answer sent air hops)) result out.new }
    ensures upper_bound { result ≤ at + 40 }
{
    let fields = [
        kind as u64,
        a as u64,
        b as u64,
        answer as u64,
        sent as u64,
        air as u64,
        hops as u64,
    ];
    let first = put_decimal(out, at, index as u64);
    let end = put_fields(out, first, &fields);
    out[end] = b'\n';
    end + 1
}

// The line of a label and its row, of at most 69 bytes.
pub fn put_label_line(out: &mut [u8], at: usize, i: u8, t: u8, label: Label, row: Row) -> usize
    requires { (at + 200 ≤ length out.old) × (row.count ≤ row_limit) }
    ensures puts_at { PutsAt out.old at (label_text (label_line i t label (stations (row_of row)))) result out.new }
    ensures upper_bound { result ≤ at + 69 }
{
    let stations = row.stations;
    let fields = [
        i as u64,
        t as u64,
        label.s.0,
        label.m as u64,
        label.d as u64,
        stations[0] as u64,
        stations[1] as u64,
        stations[2] as u64,
        stations[3] as u64,
    ];
    let count = 5 + row.count as usize;
    out[at] = b'L';
    let end = put_fields(out, at + 1, &fields[..count]);
    out[end] = b'\n';
    end + 1
}

// Whether the label of i for t has a line.
fn is_listed(i: u8, t: u8, label: Label) -> bool
    ensures { result ≡ not (eqb i t) && not (is_unassigned label) }
{
    i != t && !is_unassigned(label)
}

// The lines of station i. Not inlined, so that its copy of the memory takes no stack while a run goes on. By value: of lent memory
// the lengths of its tables are not known (`sized`), from which `in-range-ranged` has its bounds.
#[inline(never)]
fn put_station_lines(out: &mut [u8], at: usize, memory: Memory, i: u8) -> usize
    requires memory_value { (memory_in_range (view memory) ≡ true) × (i < memory.n) }
    requires n_in_bounds { at + 69 * memory.n + 200 ≤ length out.old }
    ensures puts_at { PutsAt out.old at (flat_map label_text (station_lines (view memory) i)) result out.new }
    ensures upper_bound { result ≤ at + 69 * memory.n }
{
    let mut end = at;
    for t in 0..memory.n {
        let here = place(i, t);
        let label = label_of(memory.s[here], memory.m[here], memory.d[here]);
        if is_listed(i, t, label) {
            end = put_label_line(out, end, i, t, label, memory.rows[here]);
        }
    }
    end
}

// The lines of every station, ascending.
pub fn put_label_lines(out: &mut [u8], at: usize, memory: Memory) -> usize
    requires memory_value { memory_in_range (view memory) ≡ true }
    requires at_in_bounds { at + 18_000 ≤ length out.old }
    ensures puts_at { PutsAt out.old at (flat_map label_text (label_lines (view memory) memory.n)) result out.new }
    ensures upper_bound { result ≤ at + 17_664 }
{
    let mut end = at;
    for i in 0..memory.n {
        end = put_station_lines(out, end, memory, i);
    }
    end
}
