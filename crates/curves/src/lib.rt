// Outlines with curved edges (02, P6), on a tile alone or on a tile of a sheet.
//
// None of the calls asks anything of its caller: any points, counts, marks, placement, site and table may be handed over. The questions come in 02's order, and
// the first "no" decides. Counts count edges as they are marked; where all is answered yes, curves are drawn as chords, and the edge count is the chords'.
//
// Sums that nothing bounds yet are counted down from the length that they are to be, and not up: there may be any number of counts and marks.
#![tactic(auto)]

ghost use Rattle.std.specs.Prelude.{◌≡◌, ℕ, ◌≤◌, eqb, length};
ghost use Rattle.integers.specs.Units.{greatest_sheet_side};
ghost use Rattle.integers.specs.Tests.{every};
ghost use Rattle.integers.specs.ListSum.{tally};
ghost use Rattle.accuracy.specs.Outline.{edge_count};
ghost use Rattle.chords.specs.Sides.{numbers_of, numbers};
ghost use Rattle.tile.specs.Answers.{answer_number, built_of};
ghost use Rattle.curves.specs.MarkedQuestions.{is_mark, question16};
ghost use Rattle.curves.specs.CurveOutcomes.{marked_result, curves_result, curves_table};
ghost use Rattle.curves.specs.FaithfulCurves.{FaithfulCurves};
ghost use Rattle.corrections.specs.Corrections.{tile_of};
ghost use Rattle.curves.specs.CurvedCorrections.{curve_call_of, putting_curve, taking_curve, correct_curve_refusal, corrected_curve};
ghost use Rattle.curves.specs.CurvedHolding.{NearContour, HoldsOneMoreCurve, HoldsOneLessCurve};

use chords::marked::{Mark, MarkedPoints};
use corrections::Change;
use placement::Placement;
use placement::points::PlacedPoints;
use rasterize::Pass;
use sheet::Site;
use tile::{MOST_EDGES, NONE_IN, Refusal, STEPS_PER_PIXEL};

// The marks of an edge: 0 straight, 1 curved.
const GREATEST_MARK: u8 = 1;

// ---- the questions

// Are the numbers that the items have `size` in all?
fn is_total<T: Copy, F: Fn(T) -> usize>(items: &[T], own: F, size: usize) -> bool
    requires { F.IsAlwaysCallable own }
    ensures { (f : T → ℕ) → ((x : T) (r : ℕ) → F.post own x r → r ≡ f x) → result ≡ eqb size (tally f items.now) }
{
    let mut left = size;
    for &item in items {
        let Some(less) = left.checked_sub(own(item)) else {
            return false;
        };
        left = less;
    }
    left == 0
}

// Is each of them a mark?
fn are_marks(marks: &[u8]) -> bool
    ensures { result ≡ every is_mark marks.now }
{
    marks.iter().all(|&mark| mark <= GREATEST_MARK)
}

// Is the counts' sum `size`, the number of marks?
fn is_sum(counts: &[u32], size: usize) -> bool
    ensures { result ≡ eqb size (edge_count counts.now) }
{
    is_total(counts, |count| count as usize, size)
}

// Question 16: is there one mark for each edge, and is each a mark?
fn is_marked(counts: &[u32], marks: &[u8]) -> bool
    ensures { result ≡ (question16 counts.now marks.now).answer }
{
    are_marks(marks) && is_sum(counts, marks.len())
}

// How many numbers an edge with that mark has: two for each point.
fn numbers_of(mark: u8) -> usize
    ensures { result ≡ numbers_of mark }
{
    2 * Mark::from(mark).points()
}

// Question 3, `size` being how many coordinates there are.
fn is_size(marks: &[u8], size: usize) -> bool
    ensures { result ≡ eqb size (numbers marks.now) }
{
    is_total(marks, numbers_of, size)
}

// The questions about an outline with marks, beside `already` edges that are in the table. The answer is the number of edges that it is drawn as, or the refusal
// of the first question that is answered no. Question 6 reads the side `reach`, which is one of a sheet or of a tile.
pub fn marked_refusal(
    reach: u32,
    points: &[i64],
    counts: &[u32],
    marks: &[u8],
    placement: Placement,
    already: u32,
) -> Result<u32, Refusal>
    requires { reach ≤ greatest_sheet_side }
    ensures value { built_of result ≡ marked_result reach points.now counts.now marks.now placement already }
    ensures points_value { (points.now ≡ points.now) × (counts.now ≡ counts.now) × (marks.now ≡ marks.now) }
{
    if !tile::are_counts(counts) {
        return Err(Refusal::Count);
    }
    if !is_marked(counts, marks) {
        return Err(Refusal::Marks);
    }
    if !is_size(marks, points.len()) {
        return Err(Refusal::Points);
    }
    if !placement::is_placeable(placement, points) {
        return Err(Refusal::Placement);
    }
    let placed = PlacedPoints {
        given: points,
        placement,
    };
    if !placed.all_within(0, STEPS_PER_PIXEL * reach as i64) {
        return Err(Refusal::Coordinate);
    }
    let outline = MarkedPoints {
        points: placed,
        marks,
    };
    let edges = chords::outline_chords(&outline, counts);
    if already as usize + edges > MOST_EDGES {
        return Err(Refusal::Sum);
    }
    Ok(edges as u32)
}

// ---- building

// Builds the table of an outline with curved edges, at a site: `marks` has 0 or 1, straight or curved, for each edge of each contour in turn, `counts` how many
// edges each contour has, and `points` x and y of each edge's start, after which a curved one has its control point. The outline is the points as placed. The
// answer is the number of edges that it is drawn as, chords and straight ones; whatever the table held before, it holds the outline's afterwards. Or it is the
// refusal of the first question that is answered no, and the table is as it was.
pub fn build_curves(
    site: Site,
    points: &[i64],
    counts: &[u32],
    marks: &[u8],
    placement: Placement,
    table: &mut [i64],
) -> Result<u32, Refusal>
    ensures value { built_of result ≡ curves_result site points.now counts.now marks.now placement table.old }
    ensures table_after { table.new ≡ curves_table site points.now counts.now marks.now placement table.old }
    ensures faithful_curves { FaithfulCurves site points.now counts.now marks.now placement table.old table.new }
    ensures points_value { (points.now ≡ points.now) × (counts.now ≡ counts.now) × (marks.now ≡ marks.now) }
{
    sheet::site_refusal(site, table)?;
    let reach = sheet::reach_of(site);
    let edges = marked_refusal(reach, points, counts, marks, placement, NONE_IN)?;
    tile::clear(table);
    let placed = PlacedPoints {
        given: points,
        placement,
    };
    let outline = MarkedPoints {
        points: placed,
        marks,
    };
    let pass = Pass {
        view: sheet::view_of(site),
        sign: 1,
        depth: tile::depth_of(sheet::tile_side(site)),
    };
    chords::add_outline(table, &outline, counts, pass);
    Ok(edges)
}

// ---- putting in and taking out

// Puts a contour with marks in or takes it out. (`correct` of `corrections` does so with one of points, whose question 5 comes first.)
fn correct_curves(
    site: Site,
    change: Change,
    points: &[i64],
    count: u32,
    marks: &[u8],
    placement: Placement,
    edges: &mut u32,
    table: &mut [i64],
) -> Result<(), Refusal>
    ensures value { answer_number result ≡ correct_curve_refusal (curve_call_of change site points.now count marks.now placement) (tile_of table.old edges.old) }
    ensures edges_after { tile_of table.new edges.new ≡ corrected_curve (curve_call_of change site points.now count marks.now placement) (tile_of table.old edges.old) }
    ensures points_value { (points.now ≡ points.now) × (marks.now ≡ marks.now) }
{
    sheet::site_refusal(site, table)?;
    let reach = sheet::reach_of(site);
    let already = change.already_in(*edges);
    let drawn_as = marked_refusal(reach, points, &[count], marks, placement, already)?;
    let placed = PlacedPoints {
        given: points,
        placement,
    };
    let contour = MarkedPoints {
        points: placed,
        marks,
    };
    corrections::amend(site, change, &contour, drawn_as, edges, table)
}

// Puts a contour with curved edges into a tile, which is a table with the record of its edge count: `marks` has one for each of its `count` edges, `points` is as
// with `build_curves`, and the contour is these as placed. What the contour's edges add to each entry is added to the table, and their number, the chords', to the
// record. Or the answer is the refusal of the first question that is answered no, and table and record are as they were.
pub fn put_curves(
    site: Site,
    points: &[i64],
    count: u32,
    marks: &[u8],
    placement: Placement,
    edges: &mut u32,
    table: &mut [i64],
) -> Result<(), Refusal>
    ensures value { answer_number result ≡ correct_curve_refusal (putting_curve site points.now count marks.now placement) (tile_of table.old edges.old) }
    ensures edges_after { edges.new ≡ (corrected_curve (putting_curve site points.now count marks.now placement) (tile_of table.old edges.old)).edges }
    ensures table_after { table.new ≡ (corrected_curve (putting_curve site points.now count marks.now placement) (tile_of table.old edges.old)).table }
    ensures near_contour { NearContour (putting_curve site points.now count marks.now placement) (tile_of table.old edges.old) }
    ensures holds_one_more_curve { HoldsOneMoreCurve (putting_curve site points.now count marks.now placement) (tile_of table.old edges.old) (tile_of table.new edges.new) }
    ensures points_value { (points.now ≡ points.now) × (marks.now ≡ marks.now) }
{
    correct_curves(
        site,
        Change::Put, // into the tile
        points,
        count,
        marks,
        placement,
        edges,
        table,
    )
}

// Takes a contour with curved edges out of a tile again: as `put_curves`, with its values taken from the table and the number of its edges from the record. A
// contour of points that `put` or `put_on_sheet` put in can be taken out with every mark 0, and one without curves that was put in here by `take` or `take_on_sheet`.
pub fn take_curves(
    site: Site,
    points: &[i64],
    count: u32,
    marks: &[u8],
    placement: Placement,
    edges: &mut u32,
    table: &mut [i64],
) -> Result<(), Refusal>
    ensures value { answer_number result ≡ correct_curve_refusal (taking_curve site points.now count marks.now placement) (tile_of table.old edges.old) }
    ensures edges_after { edges.new ≡ (corrected_curve (taking_curve site points.now count marks.now placement) (tile_of table.old edges.old)).edges }
    ensures table_after { table.new ≡ (corrected_curve (taking_curve site points.now count marks.now placement) (tile_of table.old edges.old)).table }
    ensures near_contour { NearContour (taking_curve site points.now count marks.now placement) (tile_of table.old edges.old) }
    ensures holds_one_less_curve { HoldsOneLessCurve (taking_curve site points.now count marks.now placement) (tile_of table.old edges.old) (tile_of table.new edges.new) }
    ensures points_value { (points.now ≡ points.now) × (marks.now ≡ marks.now) }
{
    correct_curves(
        site,
        Change::Take, // out of the tile
        points,
        count,
        marks,
        placement,
        edges,
        table,
    )
}
