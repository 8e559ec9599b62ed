// Fresh memory.
ghost use Rattle.std.specs.Prelude.{◌≡◌, ◌≤◌};
ghost use Rattle.model.specs.Memory.{fresh};
ghost use Rattle.network.specs.View.{view};

use crate::packets::blank;
use crate::places::place;
use crate::{Air, Memory, Packet, Record, RequestNumber};
use label::UNASSIGNED;
use rows::empty_row;
use validation::AIR_LIMIT;

// Fresh memory of n stations, with this air limit.
pub fn fresh(n: u8, start: u64, limit: u8) -> Memory
    requires { n ≤ 16 }
    ensures { view result ≡ fresh n start limit }
{
    let mut s = [0; 256];
    let mut m = [1; 256];
    let mut d = [1; 256];
    for t in 0..n {
        let at = place(t, t);
        s[at] = start;
        m[at] = 0;
        d[at] = 1;
    }
    let none = RequestNumber(0);
    let record = Record {
        cached: UNASSIGNED,
        number: none,
        destination: 0,
        last_hop: 0,
        passed: false,
    };
    Memory {
        s,
        m,
        d,
        serials: [0; 16],
        rows: [empty_row(); 256],
        records: [record; 256],
        numbers: [none; 16],
        sought: [0; 16],
        active: [false; 16],
        links: [false; 256],
        air: Air {
            packets: [Packet {
                label: UNASSIGNED,
                ..blank()
            }; AIR_LIMIT as usize],
            count: 0,
        },
        n,
        limit,
    }
}
