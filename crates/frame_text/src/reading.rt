// A frame's text: question 11, and what a text that passes it says.
ghost use Rattle.std.specs.Prelude.{◌≡◌, ◌*◌, ◌≤◌, true, length, MatchOption};
ghost use Rattle.frame_text.specs.Over.{over};
ghost use Rattle.frame_text.specs.Frames.{coordinate_width};
ghost use Rattle.frame_text.specs.Reading.{is_head, is_contour, is_frame, coordinates, frame_of};
ghost use Rattle.frame_text.specs.Inner.{line_length, FirstLine, is_body, body_coordinates, body_counts, size_of, Readable};

use super::TEXT_LIMIT;
use super::hex::{are_digits, value_of};

// The side and the level have two digits each, and a coordinate four.
const HEAD_WIDTH: usize = 2;

const HEAD_LENGTH: usize = 4;

// The contours come after the first line and its end.
pub const BODY_START: usize = 5;

const COORDINATE_WIDTH: usize = 4;

const POINT_WIDTH: usize = 8;

// A coordinate has four digits, so a text has no more of them than this.
pub const MOST_COORDINATES: usize = TEXT_LIMIT / COORDINATE_WIDTH;

// And a contour has the digits of one point at least, and the end of its line.
pub const MOST_CONTOURS: usize = TEXT_LIMIT / (POINT_WIDTH + 1);

// How many coordinates and how many contours there are.
#[derive(Clone, Copy)]
pub struct Size {
    pub coordinates: usize,
    pub contours: usize,
}

// ---- question 11

// The first line of a text, and what comes after its end. A line that is not closed is none.
fn next_line(text: &[u8]) -> Option<(&[u8], &[u8])>
    ensures { MatchOption result (line_length text.now ≡ length text.now) (λ p. FirstLine text.now p.0.now p.1.now) }
{
    let n = text.iter().position(|&b| b == b'\n')?;
    Some((&text[..n], &text[n + 1..]))
}

fn is_head(line: &[u8]) -> bool
    ensures { result ≡ is_head line.now }
{
    line.len() == HEAD_LENGTH && are_digits(line)
}

fn is_contour(line: &[u8]) -> bool
    ensures { result ≡ is_contour line.now }
{
    !line.is_empty() && line.len() % POINT_WIDTH == 0 && are_digits(line)
}

fn are_contours(body: &[u8]) -> bool
    ensures { result ≡ is_body body.now }
{
    let mut rest = body;
    while let Some((line, after)) = next_line(rest) {
        if !is_contour(line) {
            return false;
        }
        rest = after;
    }
    rest.is_empty()
}

// Question 11.
pub fn is_frame(text: &[u8]) -> bool
    ensures { result ≡ is_frame text.now }
{
    if text.len() > TEXT_LIMIT {
        return false;
    }
    let Some((head, body)) = next_line(text) else {
        return false;
    };
    is_head(head) && are_contours(body)
}

// ---- what a frame says

pub fn side_of(text: &[u8]) -> u32
    requires { is_frame text.now ≡ true }
    ensures { result ≡ (frame_of text.now).side }
{
    value_of(&text[..HEAD_WIDTH])
}

pub fn level_of(text: &[u8]) -> u32
    requires { is_frame text.now ≡ true }
    ensures { result ≡ (frame_of text.now).level }
{
    value_of(&text[HEAD_WIDTH..HEAD_LENGTH])
}

// The coordinates of a contour's line, over the start of the points.
fn read_coordinates(line: &[u8], points: &mut [i64])
    requires { length line.now ≤ coordinate_width * length points.old }
    ensures { points.new ≡ over (coordinates line.now) points.old }
{
    // Two walks side by side: after a `zip` with `iter_mut` nothing is known of the points, and its proof stayed open.
    let mut numbers = line.chunks_exact(COORDINATE_WIDTH);
    for point in points {
        let Some(digits) = numbers.next() else {
            break;
        };
        *point = value_of(digits) as i64;
    }
}

// The coordinates and the counts of all contours, line by line, over the starts of the two lists.
pub fn read_contours(body: &[u8], points: &mut [i64], counts: &mut [u32]) -> Size
    requires { Readable body.now (length points.old) (length counts.old) }
    ensures value { result ≡ size_of body.now }
    ensures points_after { points.new ≡ over (body_coordinates body.now) points.old }
    ensures counts_after { counts.new ≡ over (body_counts body.now) counts.old }
{
    let mut size = Size {
        coordinates: 0,
        contours: 0,
    };
    // Places are counted, as the two counts are the answer.
    let mut rest = body;
    while let Some((line, after)) = next_line(rest) {
        read_coordinates(line, &mut points[size.coordinates..]);
        counts[size.contours] = (line.len() / POINT_WIDTH) as u32;
        size.coordinates += line.len() / COORDINATE_WIDTH;
        size.contours += 1;
        rest = after;
    }
    size
}
