// Labels, rows, records, stations and links in bytes, by their formats. One function of each for each type: the pages name them, and `Entry` has the code.
ghost use Rattle.std.specs.Prelude.{◌≡◌, ◌+◌, ◌≤◌, ◌<◌, Bool, length, get_or, refl};
ghost use Rattle.std.proofs.lemmas.List.Edits.{sets};
ghost use Rattle.label.specs.declared.Label as label;
ghost use Rattle.codec.specs.Fields.{widths, Fits};
ghost use Rattle.model.specs.Memory as model;
ghost use Rattle.model.specs.Memory.{row_limit};
ghost use Rattle.rows.specs.View.{successor_of, row_of};
ghost use Rattle.network.specs.View.{record_of};
ghost use Rattle.formats.specs.Formats as formats;
ghost use Rattle.formats.specs.Formats.{label_format, label_from, label_wide, successor_format, successor_from, zero_successor, row_wide, record_format, record_from, record_wide, station_format, station_from, station_wide, link_format, link_from, link_wide};
ghost use Rattle.formats.specs.Stored.{stored_label, stored_row, stored_record, stored_station, stored_link};
ghost use Rattle.formats.specs.Written.{label_bytes, row_bytes, record_bytes, station_bytes, link_bytes};
ghost use Rattle.formats.specs.Fits.{RowFits};
ghost use Rattle.formats.specs.Entries.{station_in};

use crate::SUCCESSOR_BYTES;
use crate::entry::{Entry, put, read};
use codec::put_byte;
use label::{Label, label_of};
use network::{Record, RequestNumber};
use rows::{ROW_LIMIT, Row, Successor, empty_row, entry, with_entry};

impl Entry<3> for Label {
    ghost Model = { label.Label };

    ghost model = { λ l. l };

    ghost format = { label_format };

    ghost make = { label_from };

    const WIDTHS: [usize; 3] = [8, 4, 4];

    ghost WIDTHS = { widths label_format };

    fn from_values(v: &[u64; 3]) -> Label {
        label_of(v[0], v[1] as u32, v[2] as u32)
    }

    fn values(self) -> [u64; 3] {
        [self.s.0, u64::from(self.m), u64::from(self.d)]
    }

    ghost widths_law = { (refl, refl) };
}

// The label at a place.
pub fn read_label(bytes: &[u8], at: usize) -> Label
    requires { at + label_wide ≤ length bytes.now }
    ensures { result ≡ stored_label bytes.now at }
{
    read(bytes, at)
}

pub fn put_label(out: &mut [u8], at: usize, l: Label)
    requires { at + label_wide ≤ length out.old }
    ensures { (out.new ≡ sets out.old at (label_bytes l)) × Fits label_format l }
{
    put(out, at, l);
}

// An entry of a row.
impl Entry<5> for Successor {
    ghost Model = { model.Successor };

    ghost model = { successor_of };

    ghost format = { successor_format };

    ghost make = { successor_from };

    const WIDTHS: [usize; 5] = [1, 8, 4, 4, 8];

    ghost WIDTHS = { widths successor_format };

    fn from_values(v: &[u64; 5]) -> Successor {
        Successor {
            label: label_of(v[1], v[2] as u32, v[3] as u32),
            serial: v[4],
            station: v[0] as u8,
        }
    }

    fn values(self) -> [u64; 5] {
        [
            u64::from(self.station),
            self.label.s.0,
            u64::from(self.label.m),
            u64::from(self.label.d),
            self.serial,
        ]
    }

    ghost widths_law = { (refl, refl) };
}

// The row at a place. Inlined: a table of rows is filled with no copy of each, and a search reads no labels (docs/SPEED.md).
#[inline(always)]
pub fn read_row(bytes: &[u8], at: usize) -> Row
    requires { at + row_wide ≤ length bytes.now }
    ensures { row_of result ≡ stored_row bytes.now at }
{
    let mut row = empty_row();
    for k in 0..ROW_LIMIT as usize {
        row = with_entry(row, k, read(bytes, at + 1 + SUCCESSOR_BYTES * k));
    }
    row.count = bytes[at];
    row
}

// Entry k of a row, or zeros where the row has none.
fn entry_of(row: Row, k: usize) -> Successor
    requires { k < row_limit }
    ensures { successor_of result ≡ get_or (row_of row) k zero_successor }
{
    if k < row.count as usize {
        entry(row, k)
    } else {
        Successor {
            label: label_of(0, 0, 0),
            serial: 0,
            station: 0,
        }
    }
}

pub fn put_row(out: &mut [u8], at: usize, row: Row)
    requires { at + row_wide ≤ length out.old }
    ensures { (out.new ≡ sets out.old at (row_bytes (row_of row))) × RowFits (row_of row) }
{
    put_byte(out, at, row.count);
    for k in 0..ROW_LIMIT as usize {
        put(out, at + 1 + SUCCESSOR_BYTES * k, entry_of(row, k));
    }
}

#[tactic(auto, unfolding(network::specs::View::record_of))]
impl Entry<7> for Record {
    ghost Model = { model.Record };

    ghost model = { record_of };

    ghost format = { record_format };

    ghost make = { record_from };

    const WIDTHS: [usize; 7] = [4, 1, 8, 4, 4, 1, 1];

    ghost WIDTHS = { widths record_format };

    fn from_values(v: &[u64; 7]) -> Record {
        Record {
            cached: label_of(v[2], v[3] as u32, v[4] as u32),
            number: RequestNumber(v[0] as u32),
            destination: v[1] as u8,
            last_hop: v[5] as u8,
            passed: v[6] == 1,
        }
    }

    fn values(self) -> [u64; 7] {
        [
            u64::from(self.number.0),
            u64::from(self.destination),
            self.cached.s.0,
            u64::from(self.cached.m),
            u64::from(self.cached.d),
            u64::from(self.last_hop),
            u64::from(self.passed),
        ]
    }

    ghost widths_law = { (refl, refl) };
}

// The record at a place.
pub fn read_record(bytes: &[u8], at: usize) -> Record
    requires { at + record_wide ≤ length bytes.now }
    ensures { record_of result ≡ stored_record bytes.now at }
{
    read(bytes, at)
}

pub fn put_record(out: &mut [u8], at: usize, kept: Record)
    requires { at + record_wide ≤ length out.old }
    ensures { (out.new ≡ sets out.old at (record_bytes (record_of kept))) × Fits record_format (record_of kept) }
{
    put(out, at, kept);
}

// What a station keeps of its own requests and sendings.
#[derive(Clone, Copy)]
pub struct Station {
    pub number: RequestNumber,
    pub sought: u8,
    pub active: bool,
    pub serial: u64,
}

impl Entry<4> for Station {
    ghost Model = { formats.Station };

    ghost model = { station_in };

    ghost format = { station_format };

    ghost make = { station_from };

    const WIDTHS: [usize; 4] = [4, 1, 1, 8];

    ghost WIDTHS = { widths station_format };

    fn from_values(v: &[u64; 4]) -> Station {
        Station {
            number: RequestNumber(v[0] as u32),
            sought: v[1] as u8,
            active: v[2] == 1,
            serial: v[3],
        }
    }

    fn values(self) -> [u64; 4] {
        [
            u64::from(self.number.0),
            u64::from(self.sought),
            u64::from(self.active),
            self.serial,
        ]
    }

    ghost widths_law = { (refl, refl) };
}

// The station's entry at a place.
pub fn read_station(bytes: &[u8], at: usize) -> Station
    requires { at + station_wide ≤ length bytes.now }
    ensures { station_in result ≡ stored_station bytes.now at }
{
    read(bytes, at)
}

pub fn put_station(out: &mut [u8], at: usize, k: Station)
    requires { at + station_wide ≤ length out.old }
    ensures { (out.new ≡ sets out.old at (station_bytes (station_in k))) × Fits station_format (station_in k) }
{
    put(out, at, k);
}

// A link: whether it is up.
impl Entry<1> for bool {
    ghost Model = { Bool };

    ghost model = { λ up. up };

    ghost format = { link_format };

    ghost make = { link_from };

    const WIDTHS: [usize; 1] = [1];

    ghost WIDTHS = { widths link_format };

    fn from_values(v: &[u64; 1]) -> bool {
        v[0] == 1
    }

    fn values(self) -> [u64; 1] {
        [u64::from(self)]
    }

    ghost widths_law = { (refl, refl) };
}

// Whether the link at a place is up.
pub fn read_link(bytes: &[u8], at: usize) -> bool
    requires { at + link_wide ≤ length bytes.now }
    ensures { result ≡ stored_link bytes.now at }
{
    read(bytes, at)
}

pub fn put_link(out: &mut [u8], at: usize, up: bool)
    requires { at + link_wide ≤ length out.old }
    ensures { out.new ≡ sets out.old at (link_bytes up) }
{
    put(out, at, up);
}
