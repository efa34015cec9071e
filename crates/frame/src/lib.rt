// The tile program as one function, from the bytes that it reads to the bytes that it prints.
//
// A text goes through three steps. `reading` of `frame_text` asks question 11, and takes a text that passes it apart into a side, a level and an outline.
// `tile` builds the outline's table and draws the greys of the level. `printing` of `frame_text` puts the edge count, the root and the greys, or a refusal,
// into an answer.
#![tactic(auto)]

ghost use Rattle.std.specs.Prelude.{◌≡◌, ◌++◌, ◌*◌, ◌<◌, ◌≤◌, length, drop, IsErr};
ghost use Rattle.integers.specs.Units.{greatest_side};
ghost use Rattle.accuracy.specs.Outline.{edge_count};
ghost use Rattle.tile.specs.Answers.{number_of};
ghost use Rattle.frame_text.specs.OutputLines.{refusal_text, summary_text, rows_text};
ghost use Rattle.frame_text.specs.Frames.{frame};
ghost use Rattle.frame.specs.Inner.{picture_size, table_text, used_entries, built_table, outline_text, frame_output, frame_table_after, is_deeper, level_refusal, answered, blank};
ghost use Rattle.frame.specs.Output.{table_length, output_text, table_after, answer_of};
ghost use Rattle.frame.specs.Printed.{Answered};

pub use frame_text::TEXT_LIMIT;
use frame_text::{printing, reading};
use tile::{GREATEST_SIDE, Refusal};

// A table of side 64 has so many entries, and its deepest picture so many greys.
pub const TABLE_LENGTH: usize = 4096;

// A tile of side 64 has levels 0 to 6.
const GREATEST_DEPTH: u32 = 6;

// The longest answer: the line of the edge count and the root, and for each of 64 rows one of 64 greys of two digits.
pub const ANSWER_LENGTH: usize = 21 + 64 * 129;

// The word before a refusal's number, the number's two digits, and the end of the line.
const REFUSAL_LENGTH: usize = 11;

// What the program prints: the first `len` bytes. The others are 0. (A fixed array and a length: there is no heap, and the theorem `Answered` names both.)
#[derive(Drop)]
pub struct Answer {
    pub bytes: [u8; ANSWER_LENGTH],
    pub len: usize,
}

// ---- answers

// The answer is lent to what writes it, blank, and handed back by none of them: it is long, and each hand would copy it.

// A refusal's number has two decimal digits.
fn put_refused(answer: &mut Answer, refusal: Refusal)
    requires { answer.old ≡ blank }
    ensures { answer.new ≡ answer_of (refusal_text (number_of refusal)) }
{
    printing::put_refusal(&mut answer.bytes, refusal.number());
    answer.len = REFUSAL_LENGTH;
}

// A picture with as many rows as each of them has greys.
fn put_drawn(answer: &mut Answer, edges: u32, root: i64, greys: &[u8], across: usize)
    requires { (answer.old ≡ blank) × (across ≤ greatest_side) × (across * across ≤ length greys.now) }
    ensures { answer.new ≡ answer_of (summary_text edges root ++ rows_text across across greys.now) }
{
    printing::put_summary(&mut answer.bytes, edges, root);
    printing::put_rows(&mut answer.bytes[printing::SUMMARY_LENGTH..], greys, across);
    answer.len = printing::SUMMARY_LENGTH + across * (printing::GREY_WIDTH * across + 1);
}

// ---- drawing

// How many places the picture of a level has: none where the level is out of range, and drawing refuses it.
fn picture_size(level: u32) -> usize
    ensures { result ≡ picture_size level }
{
    if level > GREATEST_DEPTH {
        return 0;
    }
    let n = haar::cells_across(level as usize);
    n * n
}

// Side, level, points and counts come one by one, as the calls of `tile` take them: a struct of them would be made once and taken apart at each call.

// The greys of a level, from the table that building left.
fn draw_table(
    side: u32,
    level: u32,
    edges: u32,
    table: &[i64],
    answer: &mut Answer,
) -> Result<(), Refusal>
    requires { answer.old ≡ blank }
    ensures value { answered result answer.new ≡ answer_of (table_text side level edges table.now) }
    ensures kept { IsErr result → answer.new ≡ answer.old }
{
    let mut picture = [0u8; TABLE_LENGTH];
    let places = picture_size(level);
    tile::greys(side, level, table, &mut picture[..places])?;
    let root = table[0];
    let across = haar::cells_across(level as usize);
    put_drawn(answer, edges, root, &picture[..places], across);
    Ok(())
}

// How many entries a tile's table has, of those that the program has: none where the side is out of range, which building then refuses.
fn used_entries(side: u32) -> usize
    ensures { result ≡ used_entries side }
{
    if side > GREATEST_SIDE {
        return 0;
    }
    (side * side) as usize
}

// Building, and then the greys.
fn draw_outline(
    side: u32,
    level: u32,
    points: &[i64],
    counts: &[u32],
    table: &mut [i64; TABLE_LENGTH],
    answer: &mut Answer,
) -> Result<(), Refusal>
    requires { answer.old ≡ blank }
    ensures value { answered result answer.new ≡ answer_of (outline_text (frame side level points.now counts.now) table.old) }
    ensures table_after { table.new ≡ built_table (frame side level points.now counts.now) table.old ++ drop (used_entries side) table.old }
    ensures kept { IsErr result → answer.new ≡ answer.old }
{
    let n = used_entries(side);
    let edges = tile::build(side, points, counts, &mut table[..n])?;
    draw_table(side, level, edges, &table[..n], answer)
}

// Has the level more cells across than the side has pixels? Of a tile's side this is question 7's "no".
fn is_deeper(side: u32, level: u32) -> bool
    ensures { result ≡ is_deeper side level }
{
    level > GREATEST_DEPTH || (side as usize) < haar::cells_across(level as usize)
}

// The refusal where the level is deeper than the tile: building's, or question 7's. Building has a table of its own, so that the program's stays as it was.
fn refused_level(side: u32, points: &[i64], counts: &[u32]) -> Refusal
    ensures { number_of result ≡ level_refusal side points.now counts.now }
{
    let mut table = [0i64; TABLE_LENGTH];
    let n = used_entries(side);
    match tile::build(side, points, counts, &mut table[..n]) {
        Ok(_) => Refusal::Level,
        Err(refusal) => refusal,
    }
}

// What is printed of a frame. A refusal leaves the table as it was.
fn draw_frame(
    side: u32,
    level: u32,
    points: &[i64],
    counts: &[u32],
    table: &mut [i64; TABLE_LENGTH],
    answer: &mut Answer,
) -> Result<(), Refusal>
    requires { (answer.old ≡ blank) × (length points.now ≡ 2 * edge_count counts.now) }
    ensures value { answered result answer.new ≡ answer_of (frame_output (frame side level points.now counts.now)) }
    ensures table_after { table.new ≡ frame_table_after (frame side level points.now counts.now) table.old }
    ensures kept { IsErr result → answer.new ≡ answer.old }
{
    if is_deeper(side, level) {
        return Err(refused_level(side, points, counts));
    }
    draw_outline(side, level, points, counts, table, answer)
}

// What is printed of a text: of its frame, if it has the form of one.
fn draw_text(
    text: &[u8],
    table: &mut [i64; TABLE_LENGTH],
    answer: &mut Answer,
) -> Result<(), Refusal>
    requires { answer.old ≡ blank }
    ensures value { answered result answer.new ≡ answer_of (output_text text.now) }
    ensures table_after { table.new ≡ table_after text.now table.old }
    ensures kept { IsErr result → answer.new ≡ answer.old }
{
    if !reading::is_frame(text) {
        return Err(Refusal::Frame);
    }
    let mut points = [0i64; reading::MOST_COORDINATES];
    let mut counts = [0u32; reading::MOST_CONTOURS];
    let size = reading::read_contours(&text[reading::BODY_START..], &mut points, &mut counts);
    let p = size.coordinates;
    let c = size.contours;
    draw_frame(
        reading::side_of(text),
        reading::level_of(text),
        &points[..p],
        &counts[..c],
        table,
        answer,
    )
}

// The whole program but for reading and writing: what it prints of a text, whatever the table held before. Where nothing is refused the outline's table
// is then in the first side × side entries; a refusal leaves the table as it was.
pub fn draw(text: &[u8], table: &mut [i64; TABLE_LENGTH]) -> Answer
    ensures value { result ≡ answer_of (output_text text.now) }
    ensures table_after { table.new ≡ table_after text.now table.old }
    ensures answered { Answered text.now result }
    ensures text_value { text.now ≡ text.now }
{
    let mut answer = Answer {
        bytes: [0; ANSWER_LENGTH],
        len: 0,
    };
    if let Err(refusal) = draw_text(text, table, &mut answer) {
        put_refused(&mut answer, refusal);
    }
    answer
}
