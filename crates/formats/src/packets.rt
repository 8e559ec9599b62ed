// Packets in bytes, by their format.
ghost use Rattle.std.specs.Prelude.{◌≡◌, ◌+◌, ◌≤◌, length, if◌then◌else◌, refl};
ghost use Rattle.std.proofs.lemmas.List.Edits.{sets};
ghost use Rattle.codec.specs.Fields.{widths, AllFit};
ghost use Rattle.model.specs.Memory.{zero_packet, air_limit};
ghost use Rattle.network.specs.declared.Packet as code;
ghost use Rattle.network.specs.View.{body_of, packet_of, air_of};
ghost use Rattle.formats.specs.Formats.{packet_format, packet_from, packet_wide, air_wide, bare, plain_of, Known};
ghost use Rattle.formats.specs.Stored.{stored_fields, stored_air};
ghost use Rattle.formats.specs.Written.{packet_bytes, air_bytes};
ghost use Rattle.formats.specs.Fits.{PacketFits};
ghost use Rattle.codec.specs.Tables.{CountedFits};

use crate::PACKET_BYTES;
use crate::entry::{Entry, put, read};
use crate::table::read_table;
use codec::put_byte;
use label::label_of;
use network::packets::blank;
use network::{Air, Packet, RequestNumber};

// The packet with these values.
pub fn packet_from(v: [u64; 12]) -> Packet
    requires { AllFit (widths packet_format) v }
    ensures { result ≡ packet_from v }
{
    Packet {
        label: label_of(v[6], v[7] as u32, v[8] as u32),
        serial: v[11],
        number: RequestNumber(v[4] as u32),
        mask: v[10] as u16,
        kind: v[2] as u8,
        sender: v[0] as u8,
        receiver: v[1] as u8,
        source: v[3] as u8,
        destination: v[5] as u8,
        reset: v[9] == 1,
    }
}

impl Entry<12> for Packet {
    ghost Model = { code.Packet };

    ghost model = { λ p. p };

    ghost format = { packet_format };

    ghost make = { packet_from };

    const WIDTHS: [usize; 12] = [1, 1, 1, 1, 4, 1, 8, 4, 4, 1, 2, 8];

    ghost WIDTHS = { widths packet_format };

    fn from_values(v: &[u64; 12]) -> Packet {
        packet_from(*v)
    }

    fn values(self) -> [u64; 12] {
        [
            u64::from(self.sender),
            u64::from(self.receiver),
            u64::from(self.kind),
            u64::from(self.source),
            u64::from(self.number.0),
            u64::from(self.destination),
            self.label.s.0,
            u64::from(self.label.m),
            u64::from(self.label.d),
            u64::from(self.reset),
            u64::from(self.mask),
            self.serial,
        ]
    }

    ghost widths_law = { (refl, refl) };
}

// The packet at a place, with all its fields.
pub fn read_packet(bytes: &[u8], at: usize) -> Packet
    requires { at + packet_wide ≤ length bytes.now }
    ensures { result ≡ stored_fields bytes.now at }
{
    read(bytes, at)
}

// A packet with nothing but sender, receiver, kind, mask and serial number.
pub(crate) fn bare(sender: u8, receiver: u8, kind: u8, mask: u16, serial: u64) -> Packet
    ensures { result ≡ bare sender receiver kind mask serial }
{
    Packet {
        serial,
        mask,
        kind,
        sender,
        receiver,
        ..blank()
    }
}

// The packet with zeros in the fields that its kind doesn't use.
fn plain(p: Packet) -> Packet
    ensures { (result ≡ plain_of (packet_of p)) × Known (body_of p) }
{
    let Packet {
        sender,
        receiver,
        mask,
        serial,
        ..
    } = p;
    match p.kind {
        1 => Packet { mask: 0, ..p },
        2 => Packet {
            mask: 0,
            reset: false,
            ..p
        },
        3 => bare(sender, receiver, 3, mask, serial),
        kind => bare(sender, receiver, kind, 0, serial),
    }
}

pub fn put_packet(out: &mut [u8], at: usize, p: Packet)
    requires { at + packet_wide ≤ length out.old }
    ensures { (out.new ≡ sets out.old at (packet_bytes (packet_of p))) × PacketFits (packet_of p) }
{
    put(out, at, plain(p));
}

// A packet that is counted, or zeros.
#[tactic(auto, unfolding(network::specs::View::packet_of, network::specs::View::body_of, model::specs::Memory::zero_packet))]
fn counted(p: Packet, there: bool) -> Packet
    ensures { packet_of result ≡ (if there then packet_of p else zero_packet) }
{
    if there { p } else { bare(0, 0, 0, 0, 0) }
}

// The packets in the air, at a place.
pub fn read_air(bytes: &[u8], at: usize) -> Air
    requires { at + air_wide ≤ length bytes.now }
    ensures { air_of result ≡ stored_air bytes.now at }
{
    Air {
        packets: read_table(bytes, at + 1),
        count: bytes[at],
    }
}

pub fn put_air(out: &mut [u8], at: usize, air: Air)
    requires { at + air_wide ≤ length out.old }
    ensures { (out.new ≡ sets out.old at (air_bytes (air_of air))) × CountedFits air_limit zero_packet PacketFits (air_of air) }
{
    put_byte(out, at, air.count);
    for (k, p) in air.packets.iter().enumerate() {
        put_packet(
            out,
            at + 1 + PACKET_BYTES * k,
            counted(*p, k < air.count as usize),
        );
    }
}
