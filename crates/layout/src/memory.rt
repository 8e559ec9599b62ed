// The whole memory in bytes.
ghost use Rattle.std.specs.Prelude.{◌≡◌, ◌≤◌, length};
ghost use mathlib.Core.List.{map, flat_map};
ghost use Rattle.std.proofs.lemmas.List.Edits.{sets};
ghost use Rattle.base.specs.Lists.{tabulate};
ghost use Rattle.codec.specs.Bytes.{over};
ghost use Rattle.codec.specs.Fields.{Fits};
ghost use Rattle.codec.specs.Tables.{table_at, TableFits};
ghost use Rattle.model.specs.Memory.{fresh, zero_label};
ghost use Rattle.network.specs.View.{label_of, view};
ghost use Rattle.formats.specs.Formats.{label_format, label_wide, station_format, zero_station};
ghost use Rattle.formats.specs.Stored.{stored_label};
ghost use Rattle.formats.specs.Written.{label_bytes, station_bytes};
ghost use Rattle.layout.specs.Places.{layout_length, stations_at, labels_at};
ghost use Rattle.layout.specs.Stations.{stations_from};
ghost use Rattle.layout.specs.Stored.{stored_stations, network_in};
ghost use Rattle.layout.specs.Written.{network_bytes};
ghost use Rattle.layout.specs.Fits.{NetworkFits};
ghost use Rattle.layout.specs.Meaning.{stored_network};

use crate::meaning::{Whole, not_memory};
use crate::places::{
    AIR_AT, LABELS_AT, LIMIT_AT, LINKS_AT, RECORDS_AT, ROWS_AT, SIZE_AT, STATIONS_AT, VERSION,
};
use codec::put_byte;
use formats::entries::{Station, put_label, put_station, read_label, read_station};
use formats::packets::{put_air, read_air};
use formats::table::{put_table, read_table};
use formats::{LABEL_BYTES, STATION_BYTES};
use label::label_of;
use network::opening::fresh;
use network::{Memory, RequestNumber};

// The tables of s, m and d.
#[derive(Clone, Copy)]
pub struct Labels {
    pub s: [u64; 256],
    pub m: [u32; 256],
    pub d: [u32; 256],
}

// The memory has s, m and d in a table each, so that this is no table of entries.
fn read_labels(bytes: &Whole) -> Labels
    ensures { tabulate 256 (label_of result.s result.m result.d) ≡ table_at stored_label label_wide 256 bytes.now.all.now labels_at }
{
    let mut s = [0; 256];
    let mut m = [0; 256];
    let mut d = [0; 256];
    for i in 0..256 {
        let label = read_label(bytes.all, LABELS_AT + LABEL_BYTES * i);
        s[i] = label.s.0;
        m[i] = label.m;
        d[i] = label.d;
    }
    Labels { s, m, d }
}

// What the stations keep of their own requests and sendings.
#[derive(Clone, Copy)]
pub struct Stations {
    pub numbers: [RequestNumber; 16],
    pub sought: [u8; 16],
    pub active: [bool; 16],
    pub serials: [u64; 16],
}

// What the stations keep has a table for each field too.
fn read_stations(bytes: &Whole) -> Stations
    ensures { (map (λ k. k.0) result.numbers ≡ map (λ k. k.number) (stored_stations bytes.now.all.now))
        × (result.sought ≡ map (λ k. k.sought) (stored_stations bytes.now.all.now)) × (result.active ≡ map (λ k. k.active) (stored_stations bytes.now.all.now))
        × (result.serials ≡ map (λ k. k.serial) (stored_stations bytes.now.all.now)) }
{
    let mut numbers = [RequestNumber(0); 16];
    let mut sought = [0; 16];
    let mut active = [false; 16];
    let mut serials = [0; 16];
    for i in 0..16 {
        let kept = read_station(bytes.all, STATIONS_AT + STATION_BYTES * i);
        numbers[i] = kept.number;
        sought[i] = kept.sought;
        active[i] = kept.active;
        serials[i] = kept.serial;
    }
    Stations {
        numbers,
        sought,
        active,
        serials,
    }
}

// The memory that the bytes read as. Not inlined, so that no call needs stack for it and for fresh memory at once.
#[inline(never)]
fn read(bytes: &Whole) -> Memory
    ensures { view result ≡ network_in bytes.now.all.now }
{
    let rows = read_table(bytes.all, ROWS_AT);
    let records = read_table(bytes.all, RECORDS_AT);
    let links = read_table(bytes.all, LINKS_AT);
    let air = read_air(bytes.all, AIR_AT);
    let Labels { s, m, d } = read_labels(bytes);
    let Stations {
        numbers,
        sought,
        active,
        serials,
    } = read_stations(bytes);
    Memory {
        s,
        m,
        d,
        serials,
        rows,
        records,
        numbers,
        sought,
        active,
        links,
        air,
        n: bytes.all[SIZE_AT],
        limit: bytes.all[LIMIT_AT],
    }
}

// Memory of no stations. Not inlined, as `read` is not.
#[inline(never)]
fn no_stations() -> Memory
    ensures { view result ≡ fresh 0 0 0 }
{
    fresh(0, 0, 0)
}

// The memory that stands in the bytes. Those that hold none, as `not_memory` tells, give memory of no stations, which is out of range; that there are enough
// is known by `Whole`. Inlined: a call needs no copy of its own for it.
#[inline(always)]
pub fn load(bytes: &[u8]) -> Memory
    ensures { view result ≡ stored_network bytes.now }
{
    match Whole::of(bytes) {
        Some(whole) if !not_memory(bytes) => read(&whole),
        _ => no_stations(),
    }
}

// Each station's own fields to their places; a table for each field, as in `read_stations`.
fn write_stations(out: &mut [u8], kept: Stations)
    requires { layout_length ≤ length out.old }
    ensures { (out.new ≡ sets out.old stations_at (flat_map station_bytes (stations_from kept)))
        × TableFits 16 zero_station (Fits station_format) (stations_from kept) }
{
    for i in 0..16 {
        let station = Station {
            number: kept.numbers[i],
            sought: kept.sought[i],
            active: kept.active[i],
            serial: kept.serials[i],
        };
        put_station(out, STATIONS_AT + STATION_BYTES * i, station);
    }
}

// The tables s, m and d to their places, as in `read_labels`.
fn write_labels(out: &mut [u8], s: &[u64; 256], m: &[u32; 256], d: &[u32; 256])
    requires { layout_length ≤ length out.old }
    ensures { (out.new ≡ sets out.old labels_at (flat_map label_bytes (tabulate 256 (label_of s.now m.now d.now))))
        × TableFits 256 zero_label (Fits label_format) (tabulate 256 (label_of s.now m.now d.now)) }
{
    for i in 0..256 {
        put_label(out, LABELS_AT + LABEL_BYTES * i, label_of(s[i], m[i], d[i]));
    }
}

// The memory's bytes at the start of the lent array; the others are kept.
pub fn write(out: &mut [u8], memory: Memory)
    requires { layout_length ≤ length out.old }
    ensures { (out.new ≡ over (network_bytes (view memory)) out.old) × NetworkFits (view memory) }
{
    let Memory {
        s,
        m,
        d,
        serials,
        rows,
        records,
        numbers,
        sought,
        active,
        links,
        air,
        n,
        limit,
    } = memory;
    let kept = Stations {
        numbers,
        sought,
        active,
        serials,
    };
    put_byte(out, 0, VERSION);
    put_byte(out, SIZE_AT, n);
    write_stations(out, kept);
    put_table(out, LINKS_AT, &links);
    write_labels(out, &s, &m, &d);
    put_table(out, ROWS_AT, &rows);
    put_table(out, RECORDS_AT, &records);
    put_air(out, AIR_AT, air);
    put_byte(out, LIMIT_AT, limit);
}
