// Tables in the memory: what has a place in it, one after the other. The room stands in each contract, as in `codec`.
ghost use Rattle.std.specs.Prelude.{◌≡◌, Bool, false, List, ℕ, ◌+◌, ◌*◌, ◌≤◌, length};
ghost use Rattle.std.proofs.lemmas.List.Edits.{sets};
ghost use mathlib.Core.List.{[], map, flat_map};
ghost use Rattle.codec.specs.Fields.{Fits};
ghost use Rattle.codec.specs.Tables.{table_at, TableFits};
ghost use Rattle.codec.proofs.FieldLaws.{written-wide};
ghost use Rattle.model.specs.Memory as model;
ghost use Rattle.model.specs.Memory.{zero_record, zero_packet, row_limit};
ghost use Rattle.rows.specs.View.{row_of};
ghost use Rattle.network.specs.View.{record_of, packet_of};
ghost use Rattle.formats.specs.Formats.{successor_format, zero_successor, row_wide, record_format, record_wide, link_format, link_wide, packet_format, packet_wide, plain_of};
ghost use Rattle.formats.specs.Stored.{stored_row, stored_record, stored_link, stored_packet};
ghost use Rattle.formats.specs.Written.{successor_bytes, row_bytes, record_bytes, link_bytes, packet_bytes};
ghost use Rattle.formats.specs.Fits.{RowFits, PacketFits};
ghost use Rattle.codec.proofs.TableLaws.{counted-wide};

use crate::entries::{put_link, put_record, put_row, read_link, read_record, read_row};
use crate::packets::{bare, put_packet, read_packet};
use crate::{LINK_BYTES, PACKET_BYTES, RECORD_BYTES, ROW_BYTES};
use label::label_of;
use network::{Packet, Record, RequestNumber};
use rows::{Row, empty_row};

// What has a place in the memory, and what it stands for in the model.
pub trait Stored: Copy {
    ghost Model: { Type 0 };

    ghost model: { Self → Model };

    // What places past the end of a table read as.
    ghost zero: { Model };

    // How many bytes it has, what they are, what bytes at a place read as, and what has room in them.
    const BYTES: usize;

    ghost BYTES: { ℕ };

    ghost written: { Model → List ℕ };

    ghost stored: { List ℕ → ℕ → Model };

    ghost Room: { Model → Type 0 };

    // What a table is filled with before it is read.
    fn blank() -> Self
        ensures { model result ≡ zero };

    fn read(bytes: &[u8], at: usize) -> Self
        requires { at + BYTES ≤ length bytes.now }
        ensures { model result ≡ stored bytes.now at };

    fn put(self, out: &mut [u8], at: usize)
        requires { at + BYTES ≤ length out.old }
        ensures { (out.new ≡ sets out.old at (written (model self))) × Room (model self) };

    ghost wide: { (x : Model) → length (written x) ≡ BYTES };
}

// The table at a place.
pub fn read_table<T: Stored, const N: usize>(bytes: &[u8], at: usize) -> [T; N]
    requires { at + T.BYTES * N ≤ length bytes.now }
    ensures { map T.model result ≡ table_at T.stored T.BYTES N bytes.now at }
{
    let mut table = [T::blank(); N];
    for i in 0..N {
        table[i] = T::read(bytes, at + T::BYTES * i);
    }
    table
}

pub fn put_table<T: Stored, const N: usize>(out: &mut [u8], at: usize, table: &[T; N])
    requires { at + T.BYTES * N ≤ length out.old }
    ensures { (out.new ≡ sets out.old at (flat_map T.written (map T.model table.now))) × TableFits N T.zero T.Room (map T.model table.now) }
{
    for (i, x) in table.iter().enumerate() {
        x.put(out, at + T::BYTES * i);
    }
}

impl Stored for Row {
    ghost Model = { model.Row };

    ghost model = { row_of };

    ghost zero = { [] };

    const BYTES: usize = ROW_BYTES;

    ghost BYTES = { row_wide };

    ghost written = { row_bytes };

    ghost stored = { stored_row };

    ghost Room = { RowFits };

    fn blank() -> Row {
        empty_row()
    }

    fn read(bytes: &[u8], at: usize) -> Row {
        read_row(bytes, at)
    }

    fn put(self, out: &mut [u8], at: usize) {
        put_row(out, at, self);
    }

    ghost wide = { counted-wide successor_bytes _ (written-wide successor_format) row_limit zero_successor };
}

#[tactic(auto, unfolding(network::specs::View::record_of, model::specs::Memory::zero_record, model::specs::Memory::zero_label))]
impl Stored for Record {
    ghost Model = { model.Record };

    ghost model = { record_of };

    ghost zero = { zero_record };

    const BYTES: usize = RECORD_BYTES;

    ghost BYTES = { record_wide };

    ghost written = { record_bytes };

    ghost stored = { stored_record };

    ghost Room = { Fits record_format };

    fn blank() -> Record {
        Record {
            cached: label_of(0, 0, 0),
            number: RequestNumber(0),
            destination: 0,
            last_hop: 0,
            passed: false,
        }
    }

    fn read(bytes: &[u8], at: usize) -> Record {
        read_record(bytes, at)
    }

    fn put(self, out: &mut [u8], at: usize) {
        put_record(out, at, self);
    }

    ghost wide = { written-wide record_format };
}

// A link: whether it is up.
impl Stored for bool {
    ghost Model = { Bool };

    ghost model = { λ up. up };

    ghost zero = { false };

    const BYTES: usize = LINK_BYTES;

    ghost BYTES = { link_wide };

    ghost written = { link_bytes };

    ghost stored = { stored_link };

    ghost Room = { Fits link_format };

    fn blank() -> bool {
        false
    }

    fn read(bytes: &[u8], at: usize) -> bool {
        read_link(bytes, at)
    }

    fn put(self, out: &mut [u8], at: usize) {
        put_link(out, at, self);
    }

    ghost wide = { written-wide link_format };
}

#[tactic(auto, unfolding(network::specs::View::packet_of, network::specs::View::body_of, model::specs::Memory::zero_packet))]
impl Stored for Packet {
    ghost Model = { model.Packet };

    ghost model = { packet_of };

    ghost zero = { zero_packet };

    const BYTES: usize = PACKET_BYTES;

    ghost BYTES = { packet_wide };

    ghost written = { packet_bytes };

    ghost stored = { stored_packet };

    ghost Room = { PacketFits };

    fn blank() -> Packet {
        bare(0, 0, 0, 0, 0)
    }

    fn read(bytes: &[u8], at: usize) -> Packet {
        read_packet(bytes, at)
    }

    fn put(self, out: &mut [u8], at: usize) {
        put_packet(out, at, self);
    }

    ghost wide = { λ p. written-wide packet_format (plain_of p) };
}
