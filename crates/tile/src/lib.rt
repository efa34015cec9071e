// A letter's outline into a table of Haar coefficients, and pictures at every halving: six calls. (Those for a tile of a sheet are in `sheet`, putting in and
// taking out in `corrections`; what they share with these is public too, and asks nothing of its caller either.)
//
// None asks anything of its caller. Each asks its questions of what it is given, in the papers' order; the first "no" decides, and the answer is the refusal
// that says which question it was. Where all are answered yes the work is done. A refused call changes nothing.
#![tactic(auto)]

ghost use Rattle.std.specs.Prelude.{◌≡◌, [], ◌∷◌, ◌+◌, ◌*◌, ◌<◌, ◌≤◌, length, replicate, pos, leb, ◌&&◌, is_none};
ghost use Rattle.integers.specs.Units.{greatest_side, greatest_depth, fewest_points, most_points};
ghost use Rattle.tile.specs.Questions.{depth_of, first_no, question1, question2, question4, question7, question8, question8_all, question9, question10};
ghost use Rattle.tile.specs.Questions.{table_questions, outline_questions};
ghost use Rattle.tile.specs.Answers.{answer_number, built_of, figure_of};
ghost use Rattle.tile.specs.Outcomes.{build_result, build_table, placed_result, placed_table, draw_refusal, figures_picture, greys_picture, cell_refusal, cell_result};
ghost use Rattle.tile.specs.Outcomes.{pyramid_refusal, pyramid_pictures};
ghost use Rattle.tile.specs.AllLevels.{LevelByLevel};
ghost use Rattle.tile.specs.Faithful.{Faithful, FaithfulPlaced};
ghost use Rattle.tile.specs.Inner.{capped_edges, level_questions};
ghost use Rattle.tile.specs.EntrySearch.{entries_looked_at};
ghost use Rattle.integers.specs.Search.{looked_of};

pub mod refusal;

use placement::Placement;
use placement::points::PlacedPoints;
use rasterize::{Pass, View};
pub use refusal::{Refusal, number_of_answer};

// Tiles are 1 to 64 pixels wide.
pub const GREATEST_SIDE: u32 = 64;

// 01's step is 1/256 pixel.
pub const STEPS_PER_PIXEL: i64 = 256;

// A contour has at least 3 points: fewer enclose nothing.
const FEWEST_POINTS: u32 = 3;

// And at most as many as an outline may have.
pub const MOST_POINTS: u32 = 1024;

// With no more edges than this, every grey is at most one from that of the exact area.
pub const MOST_EDGES: usize = 1024;

// 2^40: a table's entries lie within it either way, so that figures stay well within 64 bits.
const ENTRY_LIMIT: i64 = 1 << 40;

// Building counts no edges but the outline's own.
pub const NONE_IN: u32 = 0;

// ---- the questions

// Question 1: exactly one bit of the side is set, and it is no greater than the greatest. (The ones are counted, as 01 has it, and `is_power_of_two` is not
// asked, which means the same.)
pub fn is_side(side: u32) -> bool
    ensures { result ≡ (question1 side).answer }
{
    side.count_ones() == 1 && side <= GREATEST_SIDE
}

// The depth of a tile: the zeros below the side's one bit.
pub fn depth_of(side: u32) -> usize
    ensures { result ≡ depth_of side }
{
    side.trailing_zeros() as usize
}

// Question 2.
fn is_table(side: u32, table: &[i64]) -> bool
    requires { side ≤ greatest_side }
    ensures { result ≡ (question2 side table.now).answer }
{
    table.len() == (side * side) as usize
}

// Is n a contour's number of points?
fn is_count(n: u32) -> bool
    ensures { result ≡ (leb fewest_points n && leb n most_points) }
{
    FEWEST_POINTS <= n && n <= MOST_POINTS
}

// Question 4.
pub fn are_counts(counts: &[u32]) -> bool
    ensures { result ≡ (question4 counts.now).answer }
{
    counts.iter().all(|n| is_count(*n))
}

// The counts' sum, or one more than the most edges where it is greater: there may be any number of counts, and their sum may pass what a word holds.
#[tactic(auto, using(crate::proofs::Laws::CountsSum::count_next, crate::proofs::Laws::CountsSum::count_end, crate::proofs::Laws::CountsSum::capped_within, crate::proofs::Laws::CountsSum::capped_over))]
pub fn edges_of(counts: &[u32]) -> usize
    ensures value { result ≡ capped_edges counts.now }
    ensures counts_value { counts.now ≡ counts.now }
{
    let mut sum = 0;
    for n in counts {
        sum += *n as usize;
        if sum > MOST_EDGES {
            return MOST_EDGES + 1;
        }
    }
    sum
}

// Question 7.
fn is_level(side: u32, level: u32) -> bool
    ensures { result ≡ (question7 side level).answer }
{
    level as usize <= depth_of(side)
}

// Question 8, `size` being how many places the picture has.
fn is_picture(level: u32, size: usize) -> bool
    requires { level ≤ greatest_depth }
    ensures { result ≡ (question8 level size).answer }
{
    let n = haar::cells_across(level as usize);
    size == n * n
}

// Question 8 of all levels in one buffer, `size` being how many places it has.
fn is_pyramid(side: u32, size: usize) -> bool
    requires { depth_of side ≤ greatest_depth }
    ensures { result ≡ (question8_all side size).answer }
{
    size == haar::places_to(depth_of(side))
}

// Question 9, which is asked of the whole table whatever is drawn of it: the place of the first entry that is out of range. What that says of the question
// and of the count is in specs/EntrySearch. Question 9 is asked through this one alone, and no call passes the place on.
pub fn search_entries(table: &[i64]) -> Option<usize>
    ensures within_value { is_none result ≡ (question9 table.now).answer }
    ensures looked_value { looked_of (length table.now) result ≡ entries_looked_at table.now }
    ensures table_value { table.now ≡ table.now }
{
    integers::search_within(table, -ENTRY_LIMIT, ENTRY_LIMIT)
}

// How many entries that search looks at, 02's answer beside question 9's: one more than the place of the first out of range, or all of them.
pub fn entries_looked_at(table: &[i64]) -> usize
    ensures value { result ≡ entries_looked_at table.now }
    ensures table_value { table.now ≡ table.now }
{
    integers::looked_within(table, -ENTRY_LIMIT, ENTRY_LIMIT)
}

// Question 10.
fn is_cell(level: u32, cx: u32, cy: u32) -> bool
    requires { level ≤ greatest_depth }
    ensures { result ≡ (question10 level cx cy).answer }
{
    let n = haar::cells_across(level as usize);
    (cx as usize) < n && (cy as usize) < n
}

// Question 9, which a call that draws asks last.
fn range_refusal(table: &[i64]) -> Result<(), Refusal>
    ensures { answer_number result ≡ first_no (question9 table.now ∷ []) }
{
    if search_entries(table).is_some() {
        return Err(Refusal::Range);
    }
    Ok(())
}

// The questions about a tile alone.
pub fn tile_refusal(side: u32, table: &[i64]) -> Result<(), Refusal>
    ensures value { answer_number result ≡ first_no (table_questions side table.now) }
    ensures table_value { table.now ≡ table.now }
{
    if !is_side(side) {
        return Err(Refusal::Side);
    }
    if !is_table(side, table) {
        return Err(Refusal::Table);
    }
    Ok(())
}

// The questions about an outline, beside `already` edges that are in the table. Question 6 reads the side `reach`.
// Points, counts and placement come one by one, as in the public calls and in those for C: a struct of them would be made and taken apart at each call.
pub fn outline_refusal(
    reach: u32,
    points: &[i64],
    counts: &[u32],
    placement: Placement,
    already: u32,
) -> Result<(), Refusal>
    ensures value { answer_number result ≡ first_no (outline_questions reach points.now counts.now placement already) }
    ensures points_value { (points.now ≡ points.now) × (counts.now ≡ counts.now) }
{
    if !are_counts(counts) {
        return Err(Refusal::Count);
    }
    let edges = edges_of(counts);
    if already as usize + edges > MOST_EDGES {
        return Err(Refusal::Sum);
    }
    if points.len() != 2 * edges {
        return Err(Refusal::Points);
    }
    if !placement::is_placeable(placement, points) {
        return Err(Refusal::Placement);
    }
    let placed = PlacedPoints {
        given: points,
        placement,
    };
    if !placed.all_within(0, STEPS_PER_PIXEL * reach as i64) {
        return Err(Refusal::Coordinate);
    }
    Ok(())
}

// The questions that every call asks first that draws one level.
fn level_refusal(side: u32, level: u32, table: &[i64]) -> Result<(), Refusal>
    ensures { answer_number result ≡ first_no (level_questions side level table.now) }
{
    tile_refusal(side, table)?;
    if !is_level(side, level) {
        return Err(Refusal::Level);
    }
    Ok(())
}

// The questions of pictures and greys.
fn draw_refusal(side: u32, level: u32, table: &[i64], size: usize) -> Result<(), Refusal>
    ensures { answer_number result ≡ draw_refusal side level table.now size }
{
    level_refusal(side, level, table)?;
    if !is_picture(level, size) {
        return Err(Refusal::Picture);
    }
    range_refusal(table)
}

// The questions of one cell.
fn cell_refusal(side: u32, level: u32, cx: u32, cy: u32, table: &[i64]) -> Result<(), Refusal>
    ensures { answer_number result ≡ cell_refusal side level cx cy table.now }
{
    level_refusal(side, level, table)?;
    if !is_cell(level, cx, cy) {
        return Err(Refusal::Cell);
    }
    range_refusal(table)
}

// The questions of all levels in one buffer.
fn pyramid_refusal(side: u32, table: &[i64], size: usize) -> Result<(), Refusal>
    ensures { answer_number result ≡ pyramid_refusal side table.now size }
{
    tile_refusal(side, table)?;
    if !is_pyramid(side, size) {
        return Err(Refusal::Picture);
    }
    range_refusal(table)
}

// Sets every entry to 0.
pub fn clear(table: &mut [i64])
    ensures { table.new ≡ replicate (length table.old) (pos 0) }
{
    table.fill(0);
}

// ---- the six calls

// Builds the table of an outline on a tile: `points` has x and y of each point in turn, in 1/256 pixel, and `counts` how many points each contour
// has. The answer is the edge count; whatever the table held before, it holds the outline's afterwards. Or it is the refusal of the first question that is
// answered no, and the table is as it was.
pub fn build(side: u32, points: &[i64], counts: &[u32], table: &mut [i64]) -> Result<u32, Refusal>
    ensures value { built_of result ≡ build_result side points.now counts.now table.old }
    ensures table_after { table.new ≡ build_table side points.now counts.now table.old }
    ensures faithful { Faithful side points.now counts.now table.old table.new }
    ensures points_value { (points.now ≡ points.now) × (counts.now ≡ counts.now) }
{
    build_placed(side, points, counts, Placement::None, table)
}

// As `build`, of the points as placed. Question 12 comes before question 6, which is decided on the placed points.
pub fn build_placed(
    side: u32,
    points: &[i64],
    counts: &[u32],
    placement: Placement,
    table: &mut [i64],
) -> Result<u32, Refusal>
    ensures value { built_of result ≡ placed_result side points.now counts.now placement table.old }
    ensures table_after { table.new ≡ placed_table side points.now counts.now placement table.old }
    ensures faithful_placed { FaithfulPlaced side points.now counts.now placement table.old table.new }
    ensures points_value { (points.now ≡ points.now) × (counts.now ≡ counts.now) }
{
    tile_refusal(side, table)?;
    outline_refusal(side, points, counts, placement, NONE_IN)?;
    clear(table);
    let placed = PlacedPoints {
        given: points,
        placement,
    };
    let pass = Pass {
        view: View::Alone,
        sign: 1,
        depth: depth_of(side),
    };
    contours::add_outline(table, &placed, counts, pass);
    Ok(edges_of(counts) as u32)
}

// Draws the figures of a level: the picture has them row by row afterwards, whatever it held before. Or the answer is the refusal of the first question that
// is answered no, and the picture is as it was.
pub fn figures(side: u32, level: u32, table: &[i64], picture: &mut [i64]) -> Result<(), Refusal>
    ensures value { answer_number result ≡ draw_refusal side level table.now (length picture.old) }
    ensures picture_after { picture.new ≡ figures_picture side level table.now picture.old }
    ensures table_value { table.now ≡ table.now }
{
    draw_refusal(side, level, table, picture.len())?;
    haar::figures(table, level as usize, picture);
    Ok(())
}

// Draws the greys of a level, which are those of the figures' magnitudes: the picture has them row by row afterwards, whatever it held before. Or the answer
// is the refusal of the first question that is answered no, and the picture is as it was.
pub fn greys(side: u32, level: u32, table: &[i64], picture: &mut [u8]) -> Result<(), Refusal>
    ensures value { answer_number result ≡ draw_refusal side level table.now (length picture.old) }
    ensures picture_after { picture.new ≡ greys_picture side level table.now picture.old }
    ensures table_value { table.now ≡ table.now }
{
    draw_refusal(side, level, table, picture.len())?;
    haar::greys(table, depth_of(side), level as usize, picture);
    Ok(())
}

// Draws the greys of every level, from 0 to the depth, one picture after the other: each level's part of the buffer has afterwards what `greys` leaves of
// that level, whatever it held before. Or the answer is the refusal of the first question that is answered no, and the buffer is as it was.
pub fn pyramid(side: u32, table: &[i64], pictures: &mut [u8]) -> Result<(), Refusal>
    ensures value { answer_number result ≡ pyramid_refusal side table.now (length pictures.old) }
    ensures pictures_after { pictures.new ≡ pyramid_pictures side table.now pictures.old }
    ensures level_by_level { LevelByLevel side table.now pictures.old pictures.new }
    ensures table_value { table.now ≡ table.now }
{
    pyramid_refusal(side, table, pictures.len())?;
    haar::pyramid(table, depth_of(side), pictures);
    Ok(())
}

// The figure of one cell, the same that `figures` puts at cy × 2^level + cx; or the refusal of the first question that is answered no.
pub fn cell(side: u32, level: u32, cx: u32, cy: u32, table: &[i64]) -> Result<i64, Refusal>
    ensures value { figure_of result ≡ cell_result side level cx cy table.now }
    ensures table_value { table.now ≡ table.now }
{
    cell_refusal(side, level, cx, cy, table)?;
    Ok(haar::figure_at(table, level as usize, cx as usize, cy as usize))
}
