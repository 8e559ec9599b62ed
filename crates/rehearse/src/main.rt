// The rehearsal program: a script on standard input, its printout on standard output (01, "Scripts and the printout").
#![tactic(auto)]

use printout::rehearsal::{INPUT_ROOM, ROOM, rehearse_input};

// The descriptors that a program begins with.
const STDIN_FILENO: i32 = 0;

const STDOUT_FILENO: i32 = 1;

const STDERR_FILENO: i32 = 2;

// It reads as many of the input's bytes as tell what the whole of it prints.
fn main() {
    let mut input = [0u8; INPUT_ROOM];
    let count = io::read_full(STDIN_FILENO, &mut input);
    let mut out = [0u8; ROOM];
    let done = rehearse_input(&input, count, &mut out);
    let end = done.length;
    if !io::write_all(STDOUT_FILENO, &out[..end]) {
        io::write_all(
            STDERR_FILENO,
            b"rehearse: the printout could not be written whole\n",
        );
    }
}
