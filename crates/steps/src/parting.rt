// The packets that stay in the air, and how many; and the packets with what is sent.
ghost use Rattle.std.specs.Prelude.{◌≡◌, ◌≢◌, true, false, ◌++◌, ◌+◌, ◌-◌, ◌<◌, ◌≤◌, length, if◌then◌else◌};
ghost use Rattle.base.specs.Lists.{remove_at};
ghost use Rattle.model.specs.Memory.{air_limit};
ghost use Rattle.model.specs.Calls.{drop_between};
ghost use Rattle.network.specs.View.{packets_of};
ghost use Rattle.station.specs.Reacting.{sent_by};
ghost use Rattle.steps.specs.Parting.{rest_of};

use network::Packet;
use network::packets::{apart_count, without_between};
use station::sending::{copies, exchange, transmit};
use validation::AIR_LIMIT;

// How many packets stay, where packet k goes or not.
pub fn stay(count: u8, drops: bool) -> u8
    requires { drops ≡ true → 0 < count }
    ensures { result ≡ (if drops then count - 1 else count) }
{
    if drops { count - 1 } else { count }
}

// How many packets stay where rows are cut: at Down those that are not between a and b, at an error all but packet k.
pub fn left_of(
    kind: u8,
    packets: [Packet; AIR_LIMIT as usize],
    count: u8,
    k: usize,
    a: u8,
    b: u8,
) -> u8
    requires { (count ≤ air_limit) × (kind ≢ 2 → k < count) }
    ensures { result ≡ length (rest_of kind (packets_of packets count) k a b) }
{
    if kind == 2 {
        apart_count(packets, count, a, b)
    } else {
        count - 1
    }
}

// The packets that are not between a and b, of which there are `left`, with what a, then b, sends.
pub fn parted(
    packets: [Packet; AIR_LIMIT as usize],
    count: u8,
    left: u8,
    links: [bool; 256],
    n: u8,
    a: u8,
    scope: u8,
    p: Packet,
    b: u8,
    other: u8,
    q: Packet,
) -> [Packet; AIR_LIMIT as usize]
    requires n_bound { (n ≤ 16) × (a < 16) × (b < 16) × (count ≤ air_limit) × (left ≡ length (drop_between a b (packets_of packets count))) }
    requires q_len_bound { length (drop_between a b (packets_of packets count)) + length (sent_by scope links n a p) + length (sent_by other links n b q) ≤ air_limit }
    ensures { packets_of result (length (drop_between a b (packets_of packets count)) + length (sent_by scope links n a p) + length (sent_by other links n b q))
        ≡ (drop_between a b (packets_of packets count) ++ sent_by scope links n a p) ++ sent_by other links n b q }
{
    let kept = without_between(packets, count, a, b);
    let sent = copies(scope, links, n, a);
    let told = transmit(kept, left, scope, links, n, a, p);
    transmit(told, left + sent, other, links, n, b, q)
}

// The packets without packet k where it goes, of which there are `left`, with what a sends.
#[inline(always)]
pub(crate) fn moved(
    packets: [Packet; AIR_LIMIT as usize],
    left: u8,
    k: usize,
    drops: bool,
    scope: u8,
    links: [bool; 256],
    n: u8,
    a: u8,
    p: Packet,
) -> [Packet; AIR_LIMIT as usize]
    requires sends { (n ≤ 16) × (a < 16) × (left + length (sent_by scope links n a p) ≤ air_limit) }
    requires goes { drops ≡ true → (k ≤ left) × (left < air_limit) }
    ensures gone { drops ≡ true → packets_of result (left + length (sent_by scope links n a p)) ≡ remove_at k (packets_of packets (left + 1)) ++ sent_by scope links n a p }
    ensures kept { drops ≡ false → packets_of result (left + length (sent_by scope links n a p)) ≡ packets_of packets left ++ sent_by scope links n a p }
{
    if drops {
        exchange(packets, left, k, scope, links, n, a, p)
    } else {
        transmit(packets, left, scope, links, n, a, p)
    }
}

// The packets where rows are cut: at Down those that are not between a and b, at an error all but packet k, with what a, then b, sends.
#[inline(always)]
pub(crate) fn cut_air(
    kind: u8,
    packets: [Packet; AIR_LIMIT as usize],
    count: u8,
    left: u8,
    k: usize,
    links: [bool; 256],
    n: u8,
    a: u8,
    scope: u8,
    p: Packet,
    b: u8,
    other: u8,
    q: Packet,
) -> [Packet; AIR_LIMIT as usize]
    requires sends { (n ≤ 16) × (a < 16) × (b < 16) × (count ≤ air_limit) × (left + length (sent_by scope links n a p) + length (sent_by other links n b q) ≤ air_limit) }
    requires parts { kind ≡ 2 → left ≡ length (drop_between a b (packets_of packets count)) }
    requires goes { kind ≢ 2 → (k ≤ left) × (left < air_limit) }
    ensures parted { kind ≡ 2 → packets_of result (length (drop_between a b (packets_of packets count)) + length (sent_by scope links n a p) + length (sent_by other links n b q))
        ≡ (drop_between a b (packets_of packets count) ++ sent_by scope links n a p) ++ sent_by other links n b q }
    ensures gone { kind ≢ 2 → packets_of result (left + length (sent_by scope links n a p)) ≡ remove_at k (packets_of packets (left + 1)) ++ sent_by scope links n a p }
{
    if kind == 2 {
        parted(packets, count, left, links, n, a, scope, p, b, other, q)
    } else {
        exchange(packets, left, k, scope, links, n, a, p)
    }
}
