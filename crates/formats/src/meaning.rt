// Which bytes of an entry have a meaning.
ghost use Rattle.std.specs.Prelude.{◌≡◌, ◌+◌, ◌≤◌, length};
ghost use Rattle.codec.specs.Fields.{flags_at};
ghost use Rattle.formats.specs.Formats.{record_format, record_wide, station_format, station_wide, link_format, link_wide, packet_wide};
ghost use Rattle.formats.specs.Meaning.{is_zero_label, fields_have_meaning, packet_has_meaning};

use crate::entries::Station;
use crate::entry::get;
use crate::packets::packet_from;
use label::{Label, label_of};
use network::{Packet, Record};

// Whether the flags of the entry at a place are 0 or 1: of a record, a station and a link.
pub fn record_flags(bytes: &[u8], at: usize) -> bool
    requires { at + record_wide ≤ length bytes.now }
    ensures { result ≡ flags_at record_format bytes.now at }
{
    get::<7, Record>(bytes, at)[6] < 2
}

pub fn station_flags(bytes: &[u8], at: usize) -> bool
    requires { at + station_wide ≤ length bytes.now }
    ensures { result ≡ flags_at station_format bytes.now at }
{
    get::<4, Station>(bytes, at)[2] < 2
}

pub fn link_flags(bytes: &[u8], at: usize) -> bool
    requires { at + link_wide ≤ length bytes.now }
    ensures { result ≡ flags_at link_format bytes.now at }
{
    get::<1, bool>(bytes, at)[0] < 2
}

#[tactic(auto, unfolding(crate::specs::Meaning::is_zero_label))]
fn is_zero_label(l: Label) -> bool
    ensures { result ≡ is_zero_label l }
{
    l == label_of(0, 0, 0)
}

// The fields that a packet's kind doesn't use.
#[tactic(auto, unfolding(crate::specs::Meaning::fields_have_meaning))]
fn fields_have_meaning(p: Packet, reset: u64) -> bool
    ensures { result ≡ fields_have_meaning p reset }
{
    match p.kind {
        1 => (p.mask == 0) & (reset < 2),
        2 => (p.mask == 0) & (reset == 0),
        3 => {
            (p.source == 0)
                & (p.number.0 == 0)
                & (p.destination == 0)
                & is_zero_label(p.label)
                & (reset == 0)
        }
        _ => true,
    }
}

// The packet at a place.
#[tactic(auto, unfolding(crate::specs::Meaning::packet_has_meaning))]
pub fn packet_has_meaning(bytes: &[u8], at: usize) -> bool
    requires { at + packet_wide ≤ length bytes.now }
    ensures { result ≡ packet_has_meaning bytes.now at }
{
    let v = get::<12, Packet>(bytes, at);
    fields_have_meaning(packet_from(v), v[9])
}
