// Runs the code of `edge` as it is compiled. A case is a line of standard input: an edge, and a cell by its left and top side and half its width. For
// each it prints h, v and d and the area, each rounded, and `in` where some part of the edge lies strictly inside the cell, else `out`; or `out of range`.
//
// `stdin` has the cases, each kind under a comment, and `stdout` what must be printed, as `answers` of rust/ makes it.
#![tactic(auto)]

ghost use Rattle.std.specs.Prelude.{pos, IfSome, IsTrue, ◌≡◌, ◌+ℤ◌, ◌-ℤ◌, ◌*ℤ◌, ◌≤ℤ◌};
ghost use Rattle.integers.specs.Units.{width_times_extent_limit};
ghost use Rattle.integers.specs.Within.{Within};
ghost use Rattle.edge.specs.Walk.{extent};
ghost use Rattle.edge.specs.Room.{coordinate_limit, Even, Room};
ghost use Rattle.edge_vectors.specs.Named.{Named};

use edge::{Cell, Edge, Walk};
use std::io;
use std::io::Write;
use vector_print::{INPUT_LIMIT, read_full};

// 2^28: what a coordinate may be at most, and a width times an extent
const LIMIT: i64 = 1 << 28;

// How many numbers a line has: an edge's four, a cell's left and top side and half its width.
const NUMBERS: usize = 7;

// ---- one edge and one cell

#[derive(Clone, Copy)]
struct Case {
    edge: Edge,
    cell: Cell,
}

fn is_limited(x: i64) -> bool
    ensures { IsTrue result → Within (pos coordinate_limit) x }
{
    (-LIMIT..=LIMIT).contains(&x)
}

// A coordinate that is in range.
fn limited(x: i64) -> Option<i64>
    ensures { IfSome result (λ y. (y ≡ x) × Within (pos coordinate_limit) y) }
{
    if is_limited(x) { Some(x) } else { None }
}

// The width that half of it gives, and so an even one.
fn width_of(half: i64) -> Option<i64>
    ensures { IfSome result (λ w. (w ≡ half +ℤ half) × Even w × (w ≤ℤ pos width_times_extent_limit)) }
{
    if (0..=LIMIT / 2).contains(&half) {
        Some(half + half)
    } else {
        None
    }
}

// Is there room in one direction of the edge? Where it stands still its extent is 1, and the width alone is within the limit.
fn has_room(from: i64, to: i64, width: i64) -> bool
    requires ends { Within (pos coordinate_limit) from × Within (pos coordinate_limit) to }
    requires width { Even width × (width ≤ℤ pos width_times_extent_limit) }
    ensures { IsTrue result → (pos (extent (to -ℤ from)) *ℤ width) ≤ℤ pos width_times_extent_limit }
{
    is_limited((to - from) * width)
}

impl Case {
    // The case that the numbers of a line name, where there is room for all that `edge` works out.
    fn of(numbers: [i64; NUMBERS]) -> Option<Case>
        ensures { IfSome result (λ c. Named numbers c × Room c.edge c.cell) }
    {
        let [x0, y0, x1, y1, left, top, half] = numbers;
        let edge = Edge {
            x0: limited(x0)?,
            y0: limited(y0)?,
            x1: limited(x1)?,
            y1: limited(y1)?,
        };
        let cell = Cell {
            left: limited(left)?,
            top: limited(top)?,
            width: width_of(half)?,
        };
        if has_room(edge.x0, edge.x1, cell.width) && has_room(edge.y0, edge.y1, cell.width) {
            Some(Case { edge, cell })
        } else {
            None
        }
    }
}

// All calls of `edge`.
fn show<W: Write>(out: &mut W, case: Case) -> io::Result<()>
    requires { Room case.edge case.cell }
{
    let walk = Walk::of(case.edge);
    let details = walk.details_in(case.cell);
    let area = walk.area_in(case.cell);
    let place = if walk.comes_inside(case.cell) {
        "in"
    } else {
        "out"
    };
    writeln!(
        out,
        "{} {} {} {area} {place}",
        details.h, details.v, details.d
    )
}

// ---- the cases, from standard input

// A byte that ends a number: each from `0` on is a digit, whatever it is.
fn ends(b: u8) -> bool {
    b < b'0' && b != b'-'
}

// A `-` begins a number anew. One that is too large is held at the greatest: it is out of range.
fn number_of(word: &[u8]) -> i64 {
    let (digits, negative) = match word.iter().rposition(|b| *b == b'-') {
        Some(i) => (&word[i + 1..], true),
        None => (word, false),
    };
    let size = digits.iter().fold(0i64, |size, b| {
        size.saturating_mul(10)
            .saturating_add(i64::from(b.wrapping_sub(b'0')))
    });
    if negative {
        size.saturating_neg()
    } else {
        size
    }
}

// The numbers of a line come after those of the lines before: the last seven are a case. Is the line one? A comment is none, and takes the number before it
// away.
fn read_line(numbers: &mut [i64; NUMBERS], line: &[u8]) -> bool {
    let comment = line.iter().position(|b| *b == b'#');
    let mut words = line[..comment.unwrap_or(line.len())].split(|b| ends(*b));
    if comment.is_some() {
        words.next_back();
    }
    for word in words {
        numbers.rotate_left(1);
        numbers[NUMBERS - 1] = number_of(word);
    }
    comment.is_none()
}

// Every line that is no comment is taken to have seven numbers. What comes after the last newline is no line.
fn show_all<W: Write>(out: &mut W, text: &[u8]) -> io::Result<()> {
    let mut numbers = [0i64; NUMBERS];
    for line in text.split_inclusive(|b| *b == b'\n') {
        let Some(line) = line.strip_suffix(b"\n") else {
            break;
        };
        if read_line(&mut numbers, line) {
            match Case::of(numbers) {
                Some(case) => show(out, case)?,
                None => writeln!(out, "out of range")?,
            }
        }
    }
    Ok(())
}

fn main(rt: HostRuntime) -> io::Result<()> {
    let mut buf = [0u8; INPUT_LIMIT];
    let n = read_full(&mut rt.stdin(), &mut buf);
    show_all(&mut rt.stdout(), &buf[..n])
}
