// Which bytes have a meaning.
ghost use Rattle.std.specs.Prelude.{◌≡◌, ◌+◌, ◌*◌, ◌≤◌, ◌<◌, length, MatchOption};
ghost use Rattle.base.specs.Lists.{all_below};
ghost use Rattle.model.specs.Memory.{air_limit};
ghost use Rattle.formats.specs.Formats.{packet_wide};
ghost use Rattle.formats.specs.Meaning.{packet_has_meaning};
ghost use Rattle.layout.specs.Places.{packets_at, layout_length};
ghost use Rattle.layout.specs.Meaning.{pair_has_meaning, station_has_meaning, sizes_have_meaning, has_meaning, not_memory};

use crate::places::{
    AIR_AT, LENGTH, LINKS_AT, PACKETS_AT, RECORDS_AT, SIZE_AT, STATIONS_AT, VERSION,
};
use formats::meaning::{link_flags, packet_has_meaning, record_flags, station_flags};
use formats::{LINK_BYTES, PACKET_BYTES, RECORD_BYTES, STATION_BYTES};
use validation::AIR_LIMIT;

// Bytes that are at least as many as the layout has.
#[derive(Clone, Copy)]
pub(crate) struct Whole<'a> {
    pub(crate) all: &'a [u8],
    ghost long: { layout_length ≤ length all.now },
}

impl<'a> Whole<'a> {
    // The bytes, unless they are too few.
    pub(crate) fn of(bytes: &'a [u8]) -> Option<Whole<'a>>
        ensures { MatchOption result (length bytes.now < layout_length) (λ whole. whole.all.now ≡ bytes.now) }
    {
        if bytes.len() < LENGTH {
            None
        } else {
            Some(Whole { all: bytes })
        }
    }

    // The flags that station i has for station t.
    #[tactic(auto, unfolding(crate::specs::Meaning::pair_has_meaning))]
    fn pair_has_meaning(&self, i: u8, t: u8) -> bool
        requires { (i < 16) × (t < 16) }
        ensures { result ≡ pair_has_meaning self.now.all.now i t }
    {
        let at = 16 * (i as usize) + t as usize;
        let record = record_flags(self.all, RECORDS_AT + RECORD_BYTES * at);
        let link = link_flags(self.all, LINKS_AT + LINK_BYTES * at);
        ((i == t) | record) & ((t <= i) | link)
    }

    // Station i's flags.
    fn station_has_meaning(&self, n: u8, i: u8) -> bool
        requires { (n ≤ 16) × (i < n) }
        ensures { result ≡ station_has_meaning self.now.all.now n i }
    {
        station_flags(self.all, STATIONS_AT + STATION_BYTES * i as usize)
            && (0..n).all(|t| self.pair_has_meaning(i, t))
    }

    // Every station's flags.
    fn stations_have_meaning(&self, n: u8) -> bool
        requires { n ≤ 16 }
        ensures { result ≡ all_below n (station_has_meaning self.now.all.now n) }
    {
        (0..n).all(|i| self.station_has_meaning(n, i))
    }

    // Every packet below the count.
    fn packets_have_meaning(&self, count: u8) -> bool
        requires { count ≤ air_limit }
        ensures { result ≡ all_below count (λ k. packet_has_meaning self.now.all.now (packets_at + packet_wide * k)) }
    {
        (0..count as usize).all(|k| packet_has_meaning(self.all, PACKETS_AT + PACKET_BYTES * k))
    }

    // Whether the bytes have a meaning.
    pub(crate) fn has_meaning(&self) -> bool
        ensures { result ≡ has_meaning self.now.all.now }
    {
        let n = self.all[SIZE_AT];
        let count = self.all[AIR_AT];
        sizes_have_meaning(self.all[0], n, count)
            && self.stations_have_meaning(n)
            && self.packets_have_meaning(count)
    }
}

// The version, and numbers of stations and packets that the layout has places for.
fn sizes_have_meaning(version: u8, n: u8, count: u8) -> bool
    ensures { result ≡ sizes_have_meaning version n count }
{
    (version == VERSION) & (n <= 16) & (count <= AIR_LIMIT)
}

// Whether the bytes are too few, or have no meaning.
pub fn not_memory(bytes: &[u8]) -> bool
    ensures { result ≡ not_memory bytes.now }
{
    match Whole::of(bytes) {
        Some(whole) => !whole.has_meaning(),
        None => true,
    }
}
