// What is printed, over the start of a slice.
ghost use Rattle.std.specs.Prelude.{◌≡◌, ◌+◌, ◌*◌, ◌<◌, ◌≤◌, length};
ghost use Rattle.integers.specs.Units.{greatest_side};
ghost use Rattle.frame_text.specs.Over.{over};
ghost use Rattle.frame_text.specs.Lines.{line_text};
ghost use Rattle.frame_text.specs.OutputLines.{refusal_text, grey_width, rows_text, summary_text, summary_length, row_length};

use super::hex::{digit_char, put_hex};

// A grey has two digits, the edge count four, and the root sixteen.
pub const GREY_WIDTH: usize = 2;

const EDGES_WIDTH: usize = 4;

const ROOT_WIDTH: usize = 16;

// Both, and the end of the line.
pub const SUMMARY_LENGTH: usize = EDGES_WIDTH + ROOT_WIDTH + 1;

const REFUSED_WORD: [u8; 8] = *b"refused ";

// Copies a text.
fn put(out: &mut [u8], text: &[u8])
    requires { length text.now ≤ length out.old }
    ensures { out.new ≡ over text.now out.old }
{
    out[..text.len()].copy_from_slice(text);
}

// The line of a refusal, whose number has two decimal digits.
pub fn put_refusal(out: &mut [u8], number: u32)
    requires { (number < 100) × (length (refusal_text number) ≤ length out.old) }
    ensures { out.new ≡ over (refusal_text number) out.old }
{
    put(out, &REFUSED_WORD);
    let tens = digit_char((number / 10) as u64);
    let units = digit_char((number % 10) as u64);
    put(&mut out[REFUSED_WORD.len()..], &[tens, units, b'\n']);
}

// The line of the edge count and the root.
pub fn put_summary(out: &mut [u8], edges: u32, root: i64)
    requires { summary_length ≤ length out.old }
    ensures { out.new ≡ over (summary_text edges root) out.old }
{
    put_hex(out, edges as u64, EDGES_WIDTH);
    put_hex(&mut out[EDGES_WIDTH..], root.cast_unsigned(), ROOT_WIDTH);
    out[SUMMARY_LENGTH - 1] = b'\n';
}

// The line of a row of greys.
fn put_row(out: &mut [u8], row: &[u8])
    requires { row_length (length row.now) ≤ length out.old }
    ensures { out.new ≡ over (line_text grey_width row.now) out.old }
{
    // Places are counted: over `chunks_exact_mut`, or a slice that shrinks, the loop keeps nothing of what `put_hex` left, and the proof stayed open.
    for (i, &grey) in row.iter().enumerate() {
        put_hex(&mut out[GREY_WIDTH * i..], grey as u64, GREY_WIDTH);
    }
    out[GREY_WIDTH * row.len()] = b'\n';
}

// The lines of a picture that has as many rows as each of them has greys.
pub fn put_rows(out: &mut [u8], picture: &[u8], across: usize)
    requires { (across ≤ greatest_side) × (across * across ≤ length picture.now) × (across * row_length across ≤ length out.old) }
    ensures { out.new ≡ over (rows_text across across picture.now) out.old }
{
    // Rows are counted: `chunks_exact` would ask a width above 0, and would go on past the last row.
    let length = GREY_WIDTH * across + 1;
    for y in 0..across {
        let from = across * y;
        put_row(&mut out[length * y..], &picture[from..from + across]);
    }
}
