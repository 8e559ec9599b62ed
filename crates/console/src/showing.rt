// What a console shows of the network that stands in the bytes. Each function tests the range; what it shows is written as the layout has it.
ghost use Rattle.std.specs.Prelude.{◌≡◌, ◌≤◌, ◌<◌, false, length};
ghost use Rattle.std.proofs.lemmas.List.Edits.{sets};
ghost use Rattle.base.specs.Results.{◌and_then◌};
ghost use Rattle.codec.specs.Bytes.{byte_at, Puts};
ghost use Rattle.model.specs.Memory.{air_limit};
ghost use Rattle.layout.specs.Places.{layout_length, size_at, air_at};
ghost use Rattle.validation.specs.Refusal.{number};
ghost use Rattle.validation.specs.Refusal.{outcome};
ghost use Rattle.console.specs.Packed.{telling};
ghost use Rattle.console.specs.Showing.{showing, shown_in, show_byte, show_size, show_air, show_limit, show_link, show_label, show_row, show_record, show_station, show_packet, show_part};
ghost use Rattle.console.specs.Parts.{part_refused, part_number, part_wide, part_in};

use crate::{out_of_range, packed, turned_down};
use formats::entries::{
    put_label, put_record, put_row, put_station, read_label, read_link, read_record, read_row,
    read_station,
};
use formats::packets::{put_packet, read_packet};
use formats::{LABEL_BYTES, LINK_BYTES, PACKET_BYTES, RECORD_BYTES, ROW_BYTES, STATION_BYTES};
use layout::places::{
    AIR_AT, LABELS_AT, LIMIT_AT, LINKS_AT, PACKETS_AT, RECORDS_AT, ROWS_AT, SIZE_AT, STATIONS_AT,
};
use network::places::pair_place;
use validation::{Refusal, not_pair, not_station};

// A byte of the layout.
fn show_byte(memory: &[u8], at: usize) -> u64
    requires { at < layout_length }
    ensures { result ≡ telling (showing memory.now (show_byte memory.now at)) }
{
    if out_of_range(memory) {
        return turned_down(Refusal::OutOfRange);
    }
    packed(0, u32::from(memory[at]))
}

// The number of stations.
#[unsafe(no_mangle)]
pub extern "C" fn srp_size(memory: &[u8]) -> u64
    ensures { result ≡ telling (showing memory.now show_size) }
{
    show_byte(memory, SIZE_AT)
}

// The number of packets in the air.
#[unsafe(no_mangle)]
pub extern "C" fn srp_air(memory: &[u8]) -> u64
    ensures { result ≡ telling (showing memory.now show_air) }
{
    show_byte(memory, AIR_AT)
}

// The air limit.
#[unsafe(no_mangle)]
pub extern "C" fn srp_limit(memory: &[u8]) -> u64
    ensures { result ≡ telling (showing memory.now show_limit) }
{
    show_byte(memory, LIMIT_AT)
}

// Whether the link of a and b is up: 1, or 0.
#[unsafe(no_mangle)]
pub extern "C" fn srp_link(memory: &[u8], a: usize, b: usize) -> u64
    ensures { result ≡ telling (showing memory.now (show_link a b)) }
{
    if out_of_range(memory) {
        return turned_down(Refusal::OutOfRange);
    }
    if not_pair(memory[SIZE_AT], a, b) {
        return turned_down(Refusal::NotStations);
    }
    let at = pair_place(a as u8, b as u8);
    let up = read_link(memory, LINKS_AT + LINK_BYTES * at);
    packed(0, u32::from(up))
}

// A part of the network that is shown in bytes: station i's label and row for t, its record for a source, what it keeps, packet k.
#[derive(Clone, Copy)]
enum Part {
    Label(usize, usize),
    Row(usize, usize),
    Record(usize, usize),
    Station(usize),
    Packet(usize),
}

impl Part {
    // Whether it is turned down, of n stations and so many packets.
    fn is_refused(self, n: u8, count: u8) -> bool
        ensures { result ≡ part_refused self n count }
    {
        match self {
            Part::Label(i, t) | Part::Row(i, t) => not_station(n, i) | not_station(n, t),
            Part::Record(i, source) => not_pair(n, i, source),
            Part::Station(i) => not_station(n, i),
            Part::Packet(k) => usize::from(count) <= k,
        }
    }

    // Why it is, where it is: 2 for stations, 6 for a packet.
    fn refusal(self) -> Refusal
        ensures { number result ≡ part_number self }
    {
        match self {
            Part::Packet(_) => Refusal::NoPacket,
            _ => Refusal::NotStations,
        }
    }

    // How many bytes it has.
    fn width(self) -> usize
        ensures { (result ≡ part_wide self) × (result < 256) }
    {
        match self {
            Part::Label(_, _) => LABEL_BYTES,
            Part::Row(_, _) => ROW_BYTES,
            Part::Record(_, _) => RECORD_BYTES,
            Part::Station(_) => STATION_BYTES,
            Part::Packet(_) => PACKET_BYTES,
        }
    }
}

// A part's bytes, from where it stands.
fn put_part(out: &mut [u8], memory: &[u8], part: Part)
    requires { (layout_length ≤ length memory.now) × (byte_at memory.now size_at ≤ 16) × (byte_at memory.now air_at ≤ air_limit)
        × (part_refused part (byte_at memory.now size_at) (byte_at memory.now air_at) ≡ false) × (part_wide part ≤ length out.old) }
    ensures { out.new ≡ sets out.old 0 (part_in part memory.now) }
{
    match part {
        Part::Label(i, t) => put_label(
            out,
            0,
            read_label(memory, LABELS_AT + LABEL_BYTES * (16 * i + t)),
        ),
        Part::Row(i, t) => put_row(out, 0, read_row(memory, ROWS_AT + ROW_BYTES * (16 * i + t))),
        Part::Record(i, source) => put_record(
            out,
            0,
            read_record(memory, RECORDS_AT + RECORD_BYTES * (16 * i + source)),
        ),
        Part::Station(i) => put_station(
            out,
            0,
            read_station(memory, STATIONS_AT + STATION_BYTES * i),
        ),
        Part::Packet(k) => put_packet(out, 0, read_packet(memory, PACKETS_AT + PACKET_BYTES * k)),
    }
}

// A part is put into the lent array, and its width told.
fn try_put(out: &mut [u8], memory: &[u8], part: Part) -> Result<u32, Refusal>
    ensures { Puts (λ wide. wide) (showing memory.now (show_part part) and_then shown_in (length out.old)) out.old (outcome result) out.new }
{
    if out_of_range(memory) {
        return Err(Refusal::OutOfRange);
    }
    if part.is_refused(memory[SIZE_AT], memory[AIR_AT]) {
        return Err(part.refusal());
    }
    let wide = part.width();
    if out.len() < wide {
        return Err(Refusal::NoRoom);
    }
    put_part(out, memory, part);
    Ok(wide as u32)
}

// A part put into the lent array.
fn show(memory: &[u8], part: Part, out: &mut [u8]) -> u64
    ensures { Puts telling (showing memory.now (show_part part) and_then shown_in (length out.old)) out.old result out.new }
{
    match try_put(out, memory, part) {
        Ok(wide) => packed(0, wide),
        Err(refusal) => turned_down(refusal),
    }
}

// Station i's label for t.
#[unsafe(no_mangle)]
pub extern "C" fn srp_label(memory: &[u8], i: usize, t: usize, out: &mut [u8]) -> u64
    ensures { Puts telling (showing memory.now (show_label i t) and_then shown_in (length out.old)) out.old result out.new }
{
    show(memory, Part::Label(i, t), out)
}

// Station i's row for t.
#[unsafe(no_mangle)]
pub extern "C" fn srp_row(memory: &[u8], i: usize, t: usize, out: &mut [u8]) -> u64
    ensures { Puts telling (showing memory.now (show_row i t) and_then shown_in (length out.old)) out.old result out.new }
{
    show(memory, Part::Row(i, t), out)
}

// Station i's record for a source.
#[unsafe(no_mangle)]
pub extern "C" fn srp_record(memory: &[u8], i: usize, source: usize, out: &mut [u8]) -> u64
    ensures { Puts telling (showing memory.now (show_record i source) and_then shown_in (length out.old)) out.old result out.new }
{
    show(memory, Part::Record(i, source), out)
}

// What station i keeps of its own requests and sendings.
#[unsafe(no_mangle)]
pub extern "C" fn srp_station(memory: &[u8], i: usize, out: &mut [u8]) -> u64
    ensures { Puts telling (showing memory.now (show_station i) and_then shown_in (length out.old)) out.old result out.new }
{
    show(memory, Part::Station(i), out)
}

// Packet k.
#[unsafe(no_mangle)]
pub extern "C" fn srp_packet(memory: &[u8], k: usize, out: &mut [u8]) -> u64
    ensures { Puts telling (showing memory.now (show_packet k) and_then shown_in (length out.old)) out.old result out.new }
{
    show(memory, Part::Packet(k), out)
}
