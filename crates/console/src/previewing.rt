// A preview of a packet of the network that stands in the bytes.
ghost use Rattle.std.specs.Prelude.{◌≡◌, ◌≤◌, length};
ghost use Rattle.std.proofs.lemmas.List.Edits.{sets};
ghost use Rattle.rows.specs.View.{row_of};
ghost use Rattle.console.specs.Previewing.{preview_bytes, preview_wide, Previews};

use crate::{packed, turned_down};
use codec::put_number;
use formats::entries::{put_label, put_row};
use formats::{LABEL_BYTES, ROW_BYTES};
use label::Label;
use layout::memory::load;
use rows::Row;
use sandbox::calls;
use validation::Refusal;

// What a preview shows, in bytes.
const PREVIEW_BYTES: usize = LABEL_BYTES + ROW_BYTES + 2;

// A label, a row and a mask.
fn put_preview(out: &mut [u8], label: Label, row: Row, mask: u16)
    requires { preview_wide ≤ length out.old }
    ensures { out.new ≡ sets out.old 0 (preview_bytes label (row_of row) mask) }
{
    put_label(out, 0, label);
    put_row(out, LABEL_BYTES, row);
    put_number(out, LABEL_BYTES + ROW_BYTES, 2, u64::from(mask));
}

// What Deliver of packet k would give. The memory is only read.
#[unsafe(no_mangle)]
pub extern "C" fn srp_preview(memory: &[u8], k: usize, out: &mut [u8]) -> u64
    ensures { Previews memory.now k out.old result out.new }
{
    match calls::preview(load(memory), k) {
        Err(why) => turned_down(why),
        Ok(seen) => {
            if out.len() < PREVIEW_BYTES {
                return turned_down(Refusal::NoRoom);
            }
            put_preview(out, seen.label, seen.row, seen.mask);
            packed(seen.answer, u32::from(seen.sent))
        }
    }
}
