// Sending a packet to nobody, to its receiver, or to each up neighbour. Inlined, where packets go by value, so that a call copies them less often
// (docs/SPEED.md).
ghost use Rattle.std.specs.Prelude.{◌≡◌, ◌++◌, ℕ, ◌+◌, ◌<◌, ◌≤◌, length};
ghost use Rattle.base.specs.Lists.{remove_at};
ghost use Rattle.model.specs.Memory.{Network, error, air_limit};
ghost use Rattle.model.specs.Calls.{next_serial, errors};
ghost use Rattle.network.specs.declared.Packet.{Packet};
ghost use Rattle.network.specs.View.{body_of, packets_of};
ghost use Rattle.station.specs.Reacting.{sent_by};

use network::Packet;
use network::links::neighbour_count;
use network::packets::{append, broadcast, remove, replace};
use validation::AIR_LIMIT;

// How many packets that is. The scope is a number, as these functions take any: 0, 1, and every other is 2.
pub fn copies(scope: u8, links: [bool; 256], n: u8, a: u8) -> u8
    requires { (n ≤ 16) × (a < 16) }
    ensures { (p : Packet) → result ≡ length (sent_by scope links n a p) }
{
    match scope {
        0 => 0,
        1 => 1,
        _ => neighbour_count(links, n, a),
    }
}

// The packets with these from place `count` on.
#[inline(always)]
pub fn transmit(
    packets: [Packet; AIR_LIMIT as usize],
    count: u8,
    scope: u8,
    links: [bool; 256],
    n: u8,
    a: u8,
    p: Packet,
) -> [Packet; AIR_LIMIT as usize]
    requires n_bound { (n ≤ 16) × (a < 16) }
    requires p_bound { count + length (sent_by scope links n a p) ≤ air_limit }
    ensures { packets_of result (count + length (sent_by scope links n a p)) ≡ packets_of packets count ++ sent_by scope links n a p }
{
    match scope {
        0 => packets,
        1 => append(packets, count as usize, p),
        _ => broadcast(packets, count, links, n, a, p),
    }
}

// The packets without packet k, which is one of the first `last` + 1, and with these from place `last` on.
#[inline(always)]
pub fn exchange(
    packets: [Packet; AIR_LIMIT as usize],
    last: u8,
    k: usize,
    scope: u8,
    links: [bool; 256],
    n: u8,
    a: u8,
    p: Packet,
) -> [Packet; AIR_LIMIT as usize]
    requires n_bound { (n ≤ 16) × (a < 16) × (k ≤ last) × (last < air_limit) }
    requires p_bound { last + length (sent_by scope links n a p) ≤ air_limit }
    ensures { packets_of result (last + length (sent_by scope links n a p))
        ≡ remove_at k (packets_of packets (last + 1)) ++ sent_by scope links n a p }
{
    let place = last as usize;
    match scope {
        0 => remove(packets, place, k),
        1 => replace(packets, place, k, p),
        _ => broadcast(remove(packets, place, k), last, links, n, a, p),
    }
}

// The scope of an error with this mask: nobody where no row was emptied.
pub fn error_scope(mask: u16) -> u8
    ensures { (net : Network) (a : ℕ) (p : Packet) → body_of p ≡ error mask → p.serial ≡ next_serial net a → sent_by result net.links net.n a p ≡ errors net a mask }
{
    if mask == 0 { 0 } else { 2 }
}
