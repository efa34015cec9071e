// The tile program: standard input is a frame, standard output the answer. What it does with the bytes is `frame::draw`.
#![tactic(auto)]

ghost use Rattle.std.specs.Prelude.{◌≤◌, length};

use std::io::{Read, Write};

// Reads until the list is full or the input ends; a failed read counts as the end. Answers how many bytes there are.
// The same loop stands in `vector_print`, which is for test programs: a crate for this one function would be longer than the function.
fn read_full<R: Read>(input: &mut R, list: &mut [u8]) -> usize
    ensures { result ≤ length list.new }
{
    let mut done = 0;
    // A `while`, as each read answers how many bytes it gave, which no list or range tells before.
    while done < list.len() {
        let n = input.read(&mut list[done..]).unwrap_or(0);
        if n == 0 {
            break;
        }
        done += n;
    }
    done
}

fn main(rt: HostRuntime) {
    // one byte more than the longest text, to tell a text that is too long
    let mut text = [0u8; frame::TEXT_LIMIT + 1];
    let n = read_full(&mut rt.stdin(), &mut text);
    // one entry for each pixel of the largest tile, as 01 has the array; building gets the part that a frame's side asks for
    let mut table = [0i64; 4096];
    let answer = frame::draw(&text[..n], &mut table);
    let bytes = answer.bytes;
    let len = answer.len;
    // a failed write is not reported
    let _ = rt.stdout().write_all(&bytes[..len]);
}
