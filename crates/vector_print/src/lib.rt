// What the test programs read and print: the input into a list, and a line of numbers, or in place of a long one its checksum. What is printed has no
// contract: what a program prints is compared with its `stdout`.
#![tactic(auto)]

ghost use Rattle.std.specs.Prelude.{◌≤◌, length, take};
ghost use Rattle.std.specs.Io.KnownBytes.{Consumes};

use std::io::{Read, Result, Write};

// A line of more numbers has a checksum in their place.
const SHORT: usize = 64;

// A checksum takes the numbers of a line for digits to this base, and keeps the remainder by this modulus. Both are prime.
const BASE: u64 = 1000003;

const MODULUS: u64 = 1000000007;

// A program reads no more of its input than this.
pub const INPUT_LIMIT: usize = 65536;

// Reads until the list is full or the input ends; a failed read counts as the end, so no clause can say that all was read. Answers how many bytes there
// are, which are those that the input gave.
pub fn read_full<R: Read>(input: &mut R, list: &mut [u8]) -> usize
    ensures count { result ≤ length list.new }
    ensures bytes { Consumes (R.remaining input.old) (R.remaining input.new) (take result list.new) }
{
    let mut done = 0;
    // A `while`, as each read answers how many bytes it gave, which no list or range tells before.
    while done < list.len() {
        match input.read(&mut list[done..]) {
            Ok(0) | Err(_) => break,
            Ok(n) => done += n,
        }
    }
    done
}

// ---- a line of numbers, or their checksum

// The checksum with one more number, the number modulo MODULUS being its digit.
fn mixed(sum: u64, q: i64) -> u64 {
    (sum % MODULUS * BASE + q.rem_euclid(MODULUS as i64) as u64) % MODULUS
}

// The numbers, of any type that converts to i64, each after a space; or their checksum, where they are many.
pub fn numbers<W: Write, T: Copy + Into<i64>>(out: &mut W, list: &[T]) -> Result<()> {
    if list.len() <= SHORT {
        for q in list {
            let q: i64 = (*q).into();
            write!(out, " {q}")?;
        }
    } else {
        let mut sum = 0;
        for q in list {
            sum = mixed(sum, (*q).into());
        }
        write!(out, " checksum {sum}")?;
    }
    writeln!(out)
}
