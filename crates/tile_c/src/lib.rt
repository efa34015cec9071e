// The seventeen calls for programs in C or Rust: `include/mattuliyan.h` declares them, and says what its caller owes. Each is a function of its own, of numbers
// and slices only: C's header has neither sites nor results.
//
// A slice is passed as a pointer and a length, a place on a sheet as its four numbers. A call that answers two numbers answers the first, that of the refusal or
// 0, and writes the second through a pointer.
#![tactic(auto)]

ghost use Rattle.std.specs.Prelude.{◌≡◌, length};
ghost use Rattle.std.specs.Result.{result_unwrap_or};
ghost use Rattle.tile.specs.Answers.{answer_number};
ghost use Rattle.tile.specs.Outcomes.{build_result, build_table, placed_result, placed_table, draw_refusal, figures_picture, greys_picture, cell_result};
ghost use Rattle.tile.specs.Outcomes.{pyramid_refusal, pyramid_pictures};
ghost use Rattle.tile.specs.AllLevels.{LevelByLevel};
ghost use Rattle.tile.specs.Faithful.{Faithful, FaithfulPlaced};
ghost use Rattle.sheet.specs.SheetOutcomes.{tile_at, sheet_result, sheet_table};
ghost use Rattle.sheet.specs.FaithfulOnSheet.{FaithfulOnSheet};
ghost use Rattle.corrections.specs.Corrections.{tile_of, putting, taking, putting_on, taking_on, correct_refusal, corrected};
ghost use Rattle.corrections.specs.Holding.{HoldsOneMore, HoldsOneLess};
ghost use Rattle.sheet.specs.declared.Site.TheVariants.{Alone, OnSheet};
ghost use Rattle.curves.specs.CurveOutcomes.{curves_result, curves_table};
ghost use Rattle.curves.specs.FaithfulCurves.{FaithfulCurves};
ghost use Rattle.curves.specs.CurvedCorrections.{putting_curve, taking_curve, correct_curve_refusal, corrected_curve};
ghost use Rattle.curves.specs.CurvedHolding.{NearContour, HoldsOneMoreCurve, HoldsOneLessCurve};
ghost use Rattle.tile_c.specs.PlacementNumbers.{placement_of};

use placement::{Matrix, Placement};
use sheet::{SheetTile, Site};
use tile::{Refusal, number_of_answer};

// Past every factor's limit, so that question 12 refuses it. (An Option would have to be told apart in each of the calls, whose contracts say `placement_of`.)
const NO_FACTOR: f64 = 4.0;

// An answer of two numbers: the first is returned, and the second is written, or `none` beside a refusal.
fn answered<T: Copy>(answer: Result<T, Refusal>, none: T, place: &mut T) -> u32
    ensures number { result ≡ answer_number answer }
    ensures place_after { place.new ≡ result_unwrap_or answer none }
{
    *place = answer.unwrap_or(none);
    number_of_answer(answer)
}

// `tile::build`: the number, and the edge count into `edges`, 0 where it is refused.
#[unsafe(no_mangle)]
pub extern "C" fn mattuliyan_build(
    side: u32,
    points: &[i64],
    counts: &[u32],
    table: &mut [i64],
    edges: &mut u32,
) -> u32
    ensures value { result ≡ (build_result side points.now counts.now table.old).number }
    ensures edges_after { edges.new ≡ (build_result side points.now counts.now table.old).edges }
    ensures table_after { table.new ≡ build_table side points.now counts.now table.old }
    ensures faithful { Faithful side points.now counts.now table.old table.new }
    ensures points_value { (points.now ≡ points.now) × (counts.now ≡ counts.now) }
{
    let built = tile::build(side, points, counts, table);
    answered(built, 0, edges)
}

// The placement of as many numbers as are there, or one that question 12 refuses.
fn placement_of(numbers: &[f64]) -> Placement
    ensures { result ≡ placement_of numbers.now }
{
    match numbers {
        [] => Placement::None,
        &[s] => Placement::Scale(s),
        &[u, v] => Placement::Shift(u, v),
        &[a, b, c, d, e, f] => Placement::Turn(Matrix { a, b, c, d, e, f }),
        _ => Placement::Scale(NO_FACTOR),
    }
}

// `tile::build_placed`: the number, and the edge count into `edges`, 0 where it is refused.
#[unsafe(no_mangle)]
pub extern "C" fn mattuliyan_build_placed(
    side: u32,
    points: &[i64],
    counts: &[u32],
    placement: &[f64],
    table: &mut [i64],
    edges: &mut u32,
) -> u32
    ensures value { result ≡ (placed_result side points.now counts.now (placement_of placement.now) table.old).number }
    ensures edges_after { edges.new ≡ (placed_result side points.now counts.now (placement_of placement.now) table.old).edges }
    ensures table_after { table.new ≡ placed_table side points.now counts.now (placement_of placement.now) table.old }
    ensures faithful_placed { FaithfulPlaced side points.now counts.now (placement_of placement.now) table.old table.new }
    ensures points_value { (points.now ≡ points.now) × (counts.now ≡ counts.now) × (placement.now ≡ placement.now) }
{
    let placed = tile::build_placed(side, points, counts, placement_of(placement), table);
    answered(placed, 0, edges)
}

// `corrections::put`: `edges` is the record, read and written.
#[unsafe(no_mangle)]
pub extern "C" fn mattuliyan_put(
    side: u32,
    points: &[i64],
    count: u32,
    placement: &[f64],
    edges: &mut u32,
    table: &mut [i64],
) -> u32
    ensures value { result ≡ correct_refusal (putting side points.now count (placement_of placement.now)) (tile_of table.old edges.old) }
    ensures edges_after { edges.new ≡ (corrected (putting side points.now count (placement_of placement.now)) (tile_of table.old edges.old)).edges }
    ensures table_after { table.new ≡ (corrected (putting side points.now count (placement_of placement.now)) (tile_of table.old edges.old)).table }
    ensures holds_one_more { HoldsOneMore (putting side points.now count (placement_of placement.now)) (tile_of table.old edges.old) (tile_of table.new edges.new) }
    ensures points_value { (points.now ≡ points.now) × (placement.now ≡ placement.now) }
{
    number_of_answer(corrections::put(side, points, count, placement_of(placement), edges, table))
}

// `corrections::take`: `edges` is the record, read and written.
#[unsafe(no_mangle)]
pub extern "C" fn mattuliyan_take(
    side: u32,
    points: &[i64],
    count: u32,
    placement: &[f64],
    edges: &mut u32,
    table: &mut [i64],
) -> u32
    ensures value { result ≡ correct_refusal (taking side points.now count (placement_of placement.now)) (tile_of table.old edges.old) }
    ensures edges_after { edges.new ≡ (corrected (taking side points.now count (placement_of placement.now)) (tile_of table.old edges.old)).edges }
    ensures table_after { table.new ≡ (corrected (taking side points.now count (placement_of placement.now)) (tile_of table.old edges.old)).table }
    ensures holds_one_less { HoldsOneLess (taking side points.now count (placement_of placement.now)) (tile_of table.old edges.old) (tile_of table.new edges.new) }
    ensures points_value { (points.now ≡ points.now) × (placement.now ≡ placement.now) }
{
    number_of_answer(corrections::take(side, points, count, placement_of(placement), edges, table))
}

// A place on a sheet.
fn place_of(sheet: u32, side: u32, column: u32, row: u32) -> SheetTile
    ensures { result ≡ tile_at sheet side column row }
{
    SheetTile {
        sheet,
        side,
        column,
        row,
    }
}

// `sheet::build_on_sheet`: the number, and the edge count into `edges`, 0 where it is refused.
#[unsafe(no_mangle)]
pub extern "C" fn mattuliyan_build_on_sheet(
    sheet: u32,
    side: u32,
    column: u32,
    row: u32,
    points: &[i64],
    counts: &[u32],
    placement: &[f64],
    table: &mut [i64],
    edges: &mut u32,
) -> u32
    ensures value { result ≡ (sheet_result (tile_at sheet side column row) points.now counts.now (placement_of placement.now) table.old).number }
    ensures edges_after { edges.new ≡ (sheet_result (tile_at sheet side column row) points.now counts.now (placement_of placement.now) table.old).edges }
    ensures table_after { table.new ≡ sheet_table (tile_at sheet side column row) points.now counts.now (placement_of placement.now) table.old }
    ensures faithful_on_sheet { FaithfulOnSheet (tile_at sheet side column row) points.now counts.now (placement_of placement.now) table.old table.new }
    ensures points_value { (points.now ≡ points.now) × (counts.now ≡ counts.now) × (placement.now ≡ placement.now) }
{
    let place = place_of(sheet, side, column, row);
    let drawn = sheet::build_on_sheet(place, points, counts, placement_of(placement), table);
    answered(drawn, 0, edges)
}

// `corrections::put_on_sheet`: `edges` is the record, read and written.
#[unsafe(no_mangle)]
pub extern "C" fn mattuliyan_put_on_sheet(
    sheet: u32,
    side: u32,
    column: u32,
    row: u32,
    points: &[i64],
    count: u32,
    placement: &[f64],
    edges: &mut u32,
    table: &mut [i64],
) -> u32
    ensures value { result ≡ correct_refusal (putting_on (tile_at sheet side column row) points.now count (placement_of placement.now)) (tile_of table.old edges.old) }
    ensures edges_after { edges.new ≡ (corrected (putting_on (tile_at sheet side column row) points.now count (placement_of placement.now)) (tile_of table.old edges.old)).edges }
    ensures table_after { table.new ≡ (corrected (putting_on (tile_at sheet side column row) points.now count (placement_of placement.now)) (tile_of table.old edges.old)).table }
    ensures holds_one_more { HoldsOneMore (putting_on (tile_at sheet side column row) points.now count (placement_of placement.now)) (tile_of table.old edges.old) (tile_of table.new edges.new) }
    ensures points_value { (points.now ≡ points.now) × (placement.now ≡ placement.now) }
{
    let place = place_of(sheet, side, column, row);
    let moved = placement_of(placement);
    number_of_answer(corrections::put_on_sheet(place, points, count, moved, edges, table))
}

// `corrections::take_on_sheet`: `edges` is the record, read and written.
#[unsafe(no_mangle)]
pub extern "C" fn mattuliyan_take_on_sheet(
    sheet: u32,
    side: u32,
    column: u32,
    row: u32,
    points: &[i64],
    count: u32,
    placement: &[f64],
    edges: &mut u32,
    table: &mut [i64],
) -> u32
    ensures value { result ≡ correct_refusal (taking_on (tile_at sheet side column row) points.now count (placement_of placement.now)) (tile_of table.old edges.old) }
    ensures edges_after { edges.new ≡ (corrected (taking_on (tile_at sheet side column row) points.now count (placement_of placement.now)) (tile_of table.old edges.old)).edges }
    ensures table_after { table.new ≡ (corrected (taking_on (tile_at sheet side column row) points.now count (placement_of placement.now)) (tile_of table.old edges.old)).table }
    ensures holds_one_less { HoldsOneLess (taking_on (tile_at sheet side column row) points.now count (placement_of placement.now)) (tile_of table.old edges.old) (tile_of table.new edges.new) }
    ensures points_value { (points.now ≡ points.now) × (placement.now ≡ placement.now) }
{
    let place = place_of(sheet, side, column, row);
    let moved = placement_of(placement);
    number_of_answer(corrections::take_on_sheet(place, points, count, moved, edges, table))
}

// `curves::build_curves` on a tile alone: the number, and the edge count into `edges`, 0 where it is refused.
#[unsafe(no_mangle)]
pub extern "C" fn mattuliyan_build_curves(
    side: u32,
    points: &[i64],
    counts: &[u32],
    marks: &[u8],
    placement: &[f64],
    table: &mut [i64],
    edges: &mut u32,
) -> u32
    ensures value { result ≡ (curves_result (Alone side) points.now counts.now marks.now (placement_of placement.now) table.old).number }
    ensures edges_after { edges.new ≡ (curves_result (Alone side) points.now counts.now marks.now (placement_of placement.now) table.old).edges }
    ensures table_after { table.new ≡ curves_table (Alone side) points.now counts.now marks.now (placement_of placement.now) table.old }
    ensures faithful_curves { FaithfulCurves (Alone side) points.now counts.now marks.now (placement_of placement.now) table.old table.new }
    ensures points_value { (points.now ≡ points.now) × (counts.now ≡ counts.now) × (marks.now ≡ marks.now) × (placement.now ≡ placement.now) }
{
    let site = Site::Alone(side);
    let moved = placement_of(placement);
    let curved = curves::build_curves(site, points, counts, marks, moved, table);
    answered(curved, 0, edges)
}

// `curves::put_curves` on a tile alone: `edges` is the record, read and written.
#[unsafe(no_mangle)]
pub extern "C" fn mattuliyan_put_curves(
    side: u32,
    points: &[i64],
    count: u32,
    marks: &[u8],
    placement: &[f64],
    edges: &mut u32,
    table: &mut [i64],
) -> u32
    ensures value { result ≡ correct_curve_refusal (putting_curve (Alone side) points.now count marks.now (placement_of placement.now)) (tile_of table.old edges.old) }
    ensures edges_after { edges.new ≡ (corrected_curve (putting_curve (Alone side) points.now count marks.now (placement_of placement.now)) (tile_of table.old edges.old)).edges }
    ensures table_after { table.new ≡ (corrected_curve (putting_curve (Alone side) points.now count marks.now (placement_of placement.now)) (tile_of table.old edges.old)).table }
    ensures near_contour { NearContour (putting_curve (Alone side) points.now count marks.now (placement_of placement.now)) (tile_of table.old edges.old) }
    ensures holds_one_more_curve { HoldsOneMoreCurve (putting_curve (Alone side) points.now count marks.now (placement_of placement.now)) (tile_of table.old edges.old) (tile_of table.new edges.new) }
    ensures points_value { (points.now ≡ points.now) × (marks.now ≡ marks.now) × (placement.now ≡ placement.now) }
{
    let site = Site::Alone(side);
    let moved = placement_of(placement);
    number_of_answer(curves::put_curves(site, points, count, marks, moved, edges, table))
}

// `curves::take_curves` on a tile alone: `edges` is the record, read and written.
#[unsafe(no_mangle)]
pub extern "C" fn mattuliyan_take_curves(
    side: u32,
    points: &[i64],
    count: u32,
    marks: &[u8],
    placement: &[f64],
    edges: &mut u32,
    table: &mut [i64],
) -> u32
    ensures value { result ≡ correct_curve_refusal (taking_curve (Alone side) points.now count marks.now (placement_of placement.now)) (tile_of table.old edges.old) }
    ensures edges_after { edges.new ≡ (corrected_curve (taking_curve (Alone side) points.now count marks.now (placement_of placement.now)) (tile_of table.old edges.old)).edges }
    ensures table_after { table.new ≡ (corrected_curve (taking_curve (Alone side) points.now count marks.now (placement_of placement.now)) (tile_of table.old edges.old)).table }
    ensures near_contour { NearContour (taking_curve (Alone side) points.now count marks.now (placement_of placement.now)) (tile_of table.old edges.old) }
    ensures holds_one_less_curve { HoldsOneLessCurve (taking_curve (Alone side) points.now count marks.now (placement_of placement.now)) (tile_of table.old edges.old) (tile_of table.new edges.new) }
    ensures points_value { (points.now ≡ points.now) × (marks.now ≡ marks.now) × (placement.now ≡ placement.now) }
{
    let site = Site::Alone(side);
    let moved = placement_of(placement);
    number_of_answer(curves::take_curves(site, points, count, marks, moved, edges, table))
}

// `curves::build_curves` on a sheet: the number, and the edge count into `edges`, 0 where it is refused.
#[unsafe(no_mangle)]
pub extern "C" fn mattuliyan_build_curves_on_sheet(
    sheet: u32,
    side: u32,
    column: u32,
    row: u32,
    points: &[i64],
    counts: &[u32],
    marks: &[u8],
    placement: &[f64],
    table: &mut [i64],
    edges: &mut u32,
) -> u32
    ensures value { result ≡ (curves_result (OnSheet (tile_at sheet side column row)) points.now counts.now marks.now (placement_of placement.now) table.old).number }
    ensures edges_after { edges.new ≡ (curves_result (OnSheet (tile_at sheet side column row)) points.now counts.now marks.now (placement_of placement.now) table.old).edges }
    ensures table_after { table.new ≡ curves_table (OnSheet (tile_at sheet side column row)) points.now counts.now marks.now (placement_of placement.now) table.old }
    ensures faithful_curves { FaithfulCurves (OnSheet (tile_at sheet side column row)) points.now counts.now marks.now (placement_of placement.now) table.old table.new }
    ensures points_value { (points.now ≡ points.now) × (counts.now ≡ counts.now) × (marks.now ≡ marks.now) × (placement.now ≡ placement.now) }
{
    let place = place_of(sheet, side, column, row);
    let there = Site::OnSheet(place);
    let moved = placement_of(placement);
    let crossing = curves::build_curves(there, points, counts, marks, moved, table);
    answered(crossing, 0, edges)
}

// `curves::put_curves` on a sheet: `edges` is the record, read and written.
#[unsafe(no_mangle)]
pub extern "C" fn mattuliyan_put_curves_on_sheet(
    sheet: u32,
    side: u32,
    column: u32,
    row: u32,
    points: &[i64],
    count: u32,
    marks: &[u8],
    placement: &[f64],
    edges: &mut u32,
    table: &mut [i64],
) -> u32
    ensures value { result ≡ correct_curve_refusal (putting_curve (OnSheet (tile_at sheet side column row)) points.now count marks.now (placement_of placement.now)) (tile_of table.old edges.old) }
    ensures edges_after { edges.new ≡ (corrected_curve (putting_curve (OnSheet (tile_at sheet side column row)) points.now count marks.now (placement_of placement.now)) (tile_of table.old edges.old)).edges }
    ensures table_after { table.new ≡ (corrected_curve (putting_curve (OnSheet (tile_at sheet side column row)) points.now count marks.now (placement_of placement.now)) (tile_of table.old edges.old)).table }
    ensures near_contour { NearContour (putting_curve (OnSheet (tile_at sheet side column row)) points.now count marks.now (placement_of placement.now)) (tile_of table.old edges.old) }
    ensures holds_one_more_curve { HoldsOneMoreCurve (putting_curve (OnSheet (tile_at sheet side column row)) points.now count marks.now (placement_of placement.now)) (tile_of table.old edges.old) (tile_of table.new edges.new) }
    ensures points_value { (points.now ≡ points.now) × (marks.now ≡ marks.now) × (placement.now ≡ placement.now) }
{
    let place = place_of(sheet, side, column, row);
    let there = Site::OnSheet(place);
    let moved = placement_of(placement);
    number_of_answer(curves::put_curves(there, points, count, marks, moved, edges, table))
}

// `curves::take_curves` on a sheet: `edges` is the record, read and written.
#[unsafe(no_mangle)]
pub extern "C" fn mattuliyan_take_curves_on_sheet(
    sheet: u32,
    side: u32,
    column: u32,
    row: u32,
    points: &[i64],
    count: u32,
    marks: &[u8],
    placement: &[f64],
    edges: &mut u32,
    table: &mut [i64],
) -> u32
    ensures value { result ≡ correct_curve_refusal (taking_curve (OnSheet (tile_at sheet side column row)) points.now count marks.now (placement_of placement.now)) (tile_of table.old edges.old) }
    ensures edges_after { edges.new ≡ (corrected_curve (taking_curve (OnSheet (tile_at sheet side column row)) points.now count marks.now (placement_of placement.now)) (tile_of table.old edges.old)).edges }
    ensures table_after { table.new ≡ (corrected_curve (taking_curve (OnSheet (tile_at sheet side column row)) points.now count marks.now (placement_of placement.now)) (tile_of table.old edges.old)).table }
    ensures near_contour { NearContour (taking_curve (OnSheet (tile_at sheet side column row)) points.now count marks.now (placement_of placement.now)) (tile_of table.old edges.old) }
    ensures holds_one_less_curve { HoldsOneLessCurve (taking_curve (OnSheet (tile_at sheet side column row)) points.now count marks.now (placement_of placement.now)) (tile_of table.old edges.old) (tile_of table.new edges.new) }
    ensures points_value { (points.now ≡ points.now) × (marks.now ≡ marks.now) × (placement.now ≡ placement.now) }
{
    let place = place_of(sheet, side, column, row);
    let there = Site::OnSheet(place);
    let moved = placement_of(placement);
    number_of_answer(curves::take_curves(there, points, count, marks, moved, edges, table))
}

// `tile::figures`.
#[unsafe(no_mangle)]
pub extern "C" fn mattuliyan_figures(
    side: u32,
    level: u32,
    table: &[i64],
    picture: &mut [i64],
) -> u32
    ensures value { result ≡ draw_refusal side level table.now (length picture.old) }
    ensures picture_after { picture.new ≡ figures_picture side level table.now picture.old }
    ensures table_value { table.now ≡ table.now }
{
    number_of_answer(tile::figures(side, level, table, picture))
}

// `tile::greys`.
#[unsafe(no_mangle)]
pub extern "C" fn mattuliyan_greys(side: u32, level: u32, table: &[i64], picture: &mut [u8]) -> u32
    ensures value { result ≡ draw_refusal side level table.now (length picture.old) }
    ensures picture_after { picture.new ≡ greys_picture side level table.now picture.old }
    ensures table_value { table.now ≡ table.now }
{
    number_of_answer(tile::greys(side, level, table, picture))
}

// `tile::pyramid`.
#[unsafe(no_mangle)]
pub extern "C" fn mattuliyan_pyramid(side: u32, table: &[i64], pictures: &mut [u8]) -> u32
    ensures value { result ≡ pyramid_refusal side table.now (length pictures.old) }
    ensures pictures_after { pictures.new ≡ pyramid_pictures side table.now pictures.old }
    ensures level_by_level { LevelByLevel side table.now pictures.old pictures.new }
    ensures table_value { table.now ≡ table.now }
{
    number_of_answer(tile::pyramid(side, table, pictures))
}

// `tile::cell`: the number, and the figure into `figure`, 0 where it is refused.
#[unsafe(no_mangle)]
pub extern "C" fn mattuliyan_cell(
    side: u32,
    level: u32,
    cx: u32,
    cy: u32,
    table: &[i64],
    figure: &mut i64,
) -> u32
    ensures value { result ≡ (cell_result side level cx cy table.now).number }
    ensures figure_after { figure.new ≡ (cell_result side level cx cy table.now).figure }
    ensures table_value { table.now ≡ table.now }
{
    let answer = tile::cell(side, level, cx, cy, table);
    answered(answer, 0, figure)
}
