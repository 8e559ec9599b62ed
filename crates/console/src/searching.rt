// The search for a station in a row that a console was shown.
ghost use Rattle.std.specs.Prelude.{◌≡◌};
ghost use Rattle.console.specs.Packed.{telling};
ghost use Rattle.console.specs.Searching.{searching};

use crate::{packed, turned_down};
use formats::ROW_BYTES;
use formats::entries::read_row;
use rows::{ROW_LIMIT, find};
use validation::Refusal;

// Where j stands in the row, and how many places were looked at.
#[unsafe(no_mangle)]
pub extern "C" fn srp_find(row: &[u8], j: usize) -> u64
    ensures { result ≡ telling (searching row.now j) }
{
    if row.len() < ROW_BYTES {
        return turned_down(Refusal::OutOfRange);
    }
    let entries = read_row(row, 0);
    let count = entries.count;
    if ROW_LIMIT < count {
        return turned_down(Refusal::OutOfRange);
    }
    if 16 <= j {
        return turned_down(Refusal::NotStations);
    }
    let found = find(entries, count, j as u8);
    let place = found.place.unwrap_or(count) as u32;
    packed(0, place + 65536 * (found.looked as u32))
}
