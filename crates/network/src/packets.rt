// The packets in the air: sending, removing and dropping them. The packets and their count are two parameters each time, as n and a are with the
// links: the pages name these functions with these parameters.
ghost use Rattle.std.specs.Prelude.{◌≡◌, ◌++◌, map, ◌+◌, ◌<◌, ◌≤◌, length, set};
ghost use Rattle.base.specs.Lists.{below, removed};
ghost use Rattle.model.specs.Memory.{link_in, request, reply, error, air_limit};
ghost use Rattle.model.specs.Calls.{packet, between, drop_between};
ghost use Rattle.network.specs.View.{zero_packet, body_of, packet_of, packets_of, numbered};

use crate::links::linked;
use crate::{Packet, RequestNumber};
use label::{Label, label_of};
use validation::AIR_LIMIT;

// A packet of no kind, from nobody to nobody, not numbered.
pub fn blank() -> Packet
    ensures { result ≡ zero_packet }
{
    Packet {
        label: label_of(0, 0, 0),
        serial: 0,
        number: RequestNumber(0),
        mask: 0,
        kind: 0,
        sender: 0,
        receiver: 0,
        source: 0,
        destination: 0,
        reset: false,
    }
}

// A request, from nobody to nobody, not numbered.
#[tactic(auto, unfolding(crate::specs::View::body_of, crate::specs::View::request_of))]
pub fn request(
    source: u8,
    number: RequestNumber,
    destination: u8,
    label: Label,
    reset: bool,
) -> Packet
    ensures { body_of result ≡ request (record { source = source; number = number.0; destination = destination; label = label; reset = reset }) }
{
    Packet {
        kind: 1,
        label,
        number,
        source,
        destination,
        reset,
        ..blank()
    }
}

// A reply, from nobody to nobody, not numbered.
#[tactic(auto, unfolding(crate::specs::View::body_of, crate::specs::View::reply_of))]
pub fn reply(source: u8, number: RequestNumber, destination: u8, label: Label) -> Packet
    ensures { body_of result ≡ reply (record { source = source; number = number.0; destination = destination; label = label }) }
{
    Packet {
        kind: 2,
        label,
        number,
        source,
        destination,
        ..blank()
    }
}

// An error of this serial number, from nobody to nobody.
#[tactic(auto, unfolding(crate::specs::View::body_of))]
pub fn error(mask: u16, serial: u64) -> Packet
    ensures { (body_of result ≡ error mask) × (result.serial ≡ serial) }
{
    Packet {
        kind: 3,
        mask,
        serial,
        ..blank()
    }
}

// The packet with this serial number.
pub fn numbered(p: Packet, serial: u64) -> Packet
    ensures { result ≡ numbered p serial }
{
    Packet { serial, ..p }
}

// The packet from a to b.
#[tactic(auto, unfolding(crate::specs::View::packet_of, crate::specs::View::body_of, crate::specs::View::request_of, crate::specs::View::reply_of))]
pub fn addressed(p: Packet, a: u8, b: u8) -> Packet
    ensures { packet_of result ≡ packet a b (body_of p) p.serial }
{
    Packet {
        sender: a,
        receiver: b,
        ..p
    }
}

// Packet p stored at place `count` of the lent packets. Fixed form: `append` and `remove` by value are thin over a lent slice.
fn append_to(packets: &mut [Packet], count: usize, p: Packet)
    requires { count < length packets.old }
    ensures { packets.new ≡ set packets.old count p }
{
    packets[count] = p;
}

// The lent packets after place k, up to place `last`, moved up by one.
fn remove_from(packets: &mut [Packet], last: usize, k: usize)
    requires { (k ≤ last) × (last < length packets.old) }
    ensures { packets.new ≡ removed k last packets.old }
{
    packets.copy_within(k + 1..last + 1, k);
}

// The packets with p at place `count`.
pub fn append(
    mut packets: [Packet; AIR_LIMIT as usize],
    count: usize,
    p: Packet,
) -> [Packet; AIR_LIMIT as usize]
    requires { count < air_limit }
    ensures { result ≡ set packets count p }
{
    append_to(&mut packets, count, p);
    packets
}

// The packets with those after place k, up to place `last`, moved up by one.
pub fn remove(
    mut packets: [Packet; AIR_LIMIT as usize],
    last: usize,
    k: usize,
) -> [Packet; AIR_LIMIT as usize]
    requires { (k ≤ last) × (last < air_limit) }
    ensures { result ≡ removed k last packets }
{
    remove_from(&mut packets, last, k);
    packets
}

// The same, with p at place `last`.
pub fn replace(
    mut packets: [Packet; AIR_LIMIT as usize],
    last: usize,
    k: usize,
    p: Packet,
) -> [Packet; AIR_LIMIT as usize]
    requires { (k ≤ last) × (last < air_limit) }
    ensures { result ≡ set (removed k last packets) last p }
{
    remove_from(&mut packets, last, k);
    append_to(&mut packets, last, p);
    packets
}

// Whether p is under way between a and b.
#[tactic(auto, unfolding(model::specs::Calls::between, crate::specs::View::packet_of))]
fn is_between(p: Packet, a: u8, b: u8) -> bool
    ensures { result ≡ between a b (packet_of p) }
{
    (p.sender == a) & (p.receiver == b) | (p.sender == b) & (p.receiver == a)
}

// How many of the first `count` packets are not between a and b.
pub fn apart_count(packets: [Packet; AIR_LIMIT as usize], count: u8, a: u8, b: u8) -> u8
    requires { count ≤ air_limit }
    ensures { result ≡ length (drop_between a b (packets_of packets count)) }
{
    packets[..count as usize]
        .iter()
        .filter(|p| !is_between(**p, a, b))
        .count() as u8
}

// The first `count` packets without those between a and b, the others in their order.
pub fn without_between(
    packets: [Packet; AIR_LIMIT as usize],
    count: u8,
    a: u8,
    b: u8,
) -> [Packet; AIR_LIMIT as usize]
    requires { count ≤ air_limit }
    ensures { packets_of result (length (drop_between a b (packets_of packets count))) ≡ drop_between a b (packets_of packets count) }
{
    let mut next = packets;
    let mut left: u8 = 0;
    for k in 0..count {
        let p = packets[k as usize];
        if !is_between(p, a, b) {
            next[left as usize] = p;
            left += 1;
        }
    }
    next
}

// The packets with one copy of p for each up neighbour of a, ascending, from place `count` on.
pub fn broadcast(
    mut packets: [Packet; AIR_LIMIT as usize],
    count: u8,
    links: [bool; 256],
    n: u8,
    a: u8,
    p: Packet,
) -> [Packet; AIR_LIMIT as usize]
    requires n_bound { (n ≤ 16) × (a < 16) }
    requires a_bound { count + length (below n (link_in links a)) ≤ air_limit }
    ensures { packets_of result (count + length (below n (link_in links a))) ≡ packets_of packets count ++ map (λ b. packet a b (body_of p) p.serial) (below n (link_in links a)) }
{
    let mut end = count;
    for b in 0..n {
        if linked(&links, a, b) {
            packets[end as usize] = addressed(p, a, b);
            end += 1;
        }
    }
    packets
}
