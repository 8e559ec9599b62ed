// Reading and writing scripts.
ghost use Rattle.std.specs.Prelude.{◌≡◌, length, ◌*◌};
ghost use Rattle.codec.specs.Bytes.{Puts};
ghost use Rattle.model.specs.Events.{event_limit};
ghost use Rattle.script.specs.Script.{script, reading, writing};
ghost use Rattle.script.specs.ScriptContracts.{start_of, Reads};
ghost use Rattle.console.specs.Packed.{telling, telling_script};

use crate::{packed, turned_down};

// Reads a script: its kinds and operands go to the start of the two lent arrays.
#[unsafe(no_mangle)]
pub extern "C" fn srp_read_script(bytes: &[u8], kinds: &mut [u8], operands: &mut [u8]) -> u64
    ensures { Reads telling_script (reading bytes.now (length kinds.old) (length operands.old))
        kinds.old operands.old result kinds.new operands.new }
{
    match script::read(bytes, kinds, operands) {
        Ok(found) => packed(0, found.events as u32 + 65536 * u32::from(found.n)),
        Err(refusal) => turned_down(refusal),
    }
}

// The start of a script that reads, and 0 for every other.
#[unsafe(no_mangle)]
pub extern "C" fn srp_script_start(bytes: &[u8]) -> u64
    ensures { result ≡ start_of (reading bytes.now event_limit (2 * event_limit)) }
{
    script::start(bytes)
}

// Writes a script.
#[unsafe(no_mangle)]
pub extern "C" fn srp_write_script(
    n: usize,
    start: u64,
    kinds: &[u8],
    operands: &[u8],
    out: &mut [u8],
) -> u64
    ensures { Puts telling (writing (script n start kinds.now operands.now) (length out.old)) out.old result out.new }
{
    match script::write(n, start, kinds, operands, out) {
        Ok(bytes) => packed(0, bytes as u32),
        Err(refusal) => turned_down(refusal),
    }
}
