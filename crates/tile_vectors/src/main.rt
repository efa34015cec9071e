// Runs 01's four calls, of `tile`, as they are compiled. A line of standard input is a letter and decimal numbers, each after one space; blank
// lines and those that begin with `#` are passed over.
//
//   s SIDE      l LEVEL      n ENTRIES      r PLACES      what the next calls get: n says how much of the table, r how much of a picture
//   c N N ..    the counts                  p X Y X Y ..  the points
//   t I V V ..  the table's entries from I on             f V  every entry of the table and of both pictures (a byte: V modulo 256)
//   b           build      d  figures      g  greys      k CX CY  one cell
//   a           figures, greys and each cell alone, at each level of the tile
//
// `b`, `d`, `g` and `k` print what the call was given, its number, 0 where it was not refused, and its buffer as it is afterwards: of more than
// 64 numbers a checksum. `a` says whether each cell that is asked for alone is as in the picture. A number that is out of range is taken for the
// greatest or the least one, and any other letter is refused.
//
// `stdout` has what must be printed, as `answers` of rust/ makes it.
#![tactic(auto)]

use std::io;
use vector_print::{INPUT_LIMIT, read_full};

mod calls;
mod given;
mod text;

use given::Given;

fn main(rt: HostRuntime) -> io::Result<()> {
    // Made before the input is read: after it, its lists were cleared twice.
    let mut given = Given::new();
    let mut text = [0u8; INPUT_LIMIT];
    let n = read_full(&mut rt.stdin(), &mut text);
    let mut out = rt.stdout();
    for line in text[..n].split(|b| *b == b'\n') {
        given.read_line(&mut out, line)?;
    }
    Ok(())
}
