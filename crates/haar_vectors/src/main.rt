// Runs the code of `haar` as it is compiled. A case is a line of standard input; blank lines and those that begin with `#` are passed over. Where it
// has a table, the program prints for each level the figures of the picture, the same figures with each cell asked for alone, and the greys; of a
// level of more than 64 cells, a checksum of each. Where it asks for one cell of the last table, that cell's figure and grey. A line that is not well
// formed, or has a number out of range, is refused.
//
// `stdout` has what must be printed, as `answers` of rust/ makes it.
#![tactic(auto)]

use std::io;
use vector_print::{INPUT_LIMIT, read_full};

mod number;
mod read;
mod table;

fn main(rt: HostRuntime) -> io::Result<()> {
    let mut buf = [0u8; INPUT_LIMIT];
    let n = read_full(&mut rt.stdin(), &mut buf);
    read::read_all(&mut rt.stdout(), &buf[..n])
}
