// A tile of a sheet (02, P5): headlines are wider than a tile. An outline lies on a sheet, and is drawn into one of the sheet's tiles; the others are drawn
// the same way, one call each, and put together side by side.
//
//       +-----+-----+-----+-----+        A sheet of four by four tiles, and the tile at column 2, row 1. An edge counts wherever it lies on the
//       |     |     |     |     |        sheet: to the right of the tile, in its rows, it has a part of the tile's area too, as 01's exact area has
//       +-----+-----+-----+-----+        it. The tile has the edges as they are seen from its corner, so that everything below the questions is as
//       |     |     |  x  |     |        for a tile alone, but for the root: each edge's part of the tile's area, rounded on its own.
//       +-----+-----+-----+-----+
//       |     |     |     |     |        What is drawn of the table is drawn by the calls of `tile`, with the tile's side.
//       +-----+-----+-----+-----+
//
// A site is where a tile lies: alone, as 01 has it, or on a sheet. What the calls of `corrections` ask and do goes by the site.
#![tactic(auto)]

ghost use Rattle.std.specs.Prelude.{◌≡◌, ◌*◌, ◌<◌, ◌≤◌, pos};
ghost use Rattle.integers.specs.Units.{steps_per_pixel, greatest_sheet_side};
ghost use Rattle.integers.specs.Tests.{one_of};
ghost use Rattle.tile.specs.Questions.{first_no};
ghost use Rattle.tile.specs.Answers.{answer_number, built_of};
ghost use Rattle.rasterize.specs.declared.View.TheVariants.{From};
ghost use Rattle.sheet.specs.declared.Site.TheVariants.{OnSheet};
ghost use Rattle.sheet.specs.SheetQuestions.{sheet_sides, tile_sides, question14, question15, place_questions};
ghost use Rattle.sheet.specs.Sites.{tile_side, reach, SiteYes, site_questions, view_at};
ghost use Rattle.sheet.specs.SheetOutcomes.{sheet_result, sheet_table};
ghost use Rattle.sheet.specs.FaithfulOnSheet.{FaithfulOnSheet};

use placement::Placement;
use placement::points::PlacedPoints;
use rasterize::{Corner, Pass, View};
use tile::{NONE_IN, Refusal, STEPS_PER_PIXEL};

// A tile's place: the sheet's side and the tile's, in pixels, and the tile's column and row, in whole tiles.
#[derive(Clone, Copy)]
pub struct SheetTile {
    pub sheet: u32,
    pub side: u32,
    pub column: u32,
    pub row: u32,
}

// Where a tile lies: alone, with its side, or on a sheet.
#[derive(Clone, Copy)]
pub enum Site {
    Alone(u32),
    OnSheet(SheetTile),
}

// Sheets are 1 to 128 pixels wide.
const GREATEST_SHEET_SIDE: u32 = 128;

// And their tiles 1 to 32.
const GREATEST_TILE_SIDE: u32 = 32;

// ---- the questions

// A sheet's side is a tile's, or twice the greatest of these.
fn is_sheet_side(side: u32) -> bool
    ensures { result ≡ one_of side sheet_sides }
{
    side == GREATEST_SHEET_SIDE || tile::is_side(side)
}

// The side of a sheet's tile is a tile's, and no more than half the greatest of these.
fn is_tile_side(side: u32) -> bool
    ensures { result ≡ one_of side tile_sides }
{
    side <= GREATEST_TILE_SIDE && tile::is_side(side)
}

// Question 14.
fn is_sheet(sheet: u32, side: u32) -> bool
    ensures { result ≡ (question14 sheet side).answer }
{
    is_sheet_side(sheet) && is_tile_side(side) && side <= sheet
}

// Question 15. The place may be any number: the sheet's side is divided, and nothing is multiplied.
fn is_place(place: SheetTile) -> bool
    requires { 0 < place.side }
    ensures { result ≡ (question15 place).answer }
{
    let tiles = place.sheet / place.side;
    place.column < tiles && place.row < tiles
}

// The questions about a tile of a sheet. Once 14 is answered yes, question 1 would be too.
fn place_refusal(place: SheetTile, table: &[i64]) -> Result<(), Refusal>
    ensures { answer_number result ≡ first_no (place_questions place table.now) }
{
    if !is_sheet(place.sheet, place.side) {
        return Err(Refusal::Sheet);
    }
    if !is_place(place) {
        return Err(Refusal::Place);
    }
    tile::tile_refusal(place.side, table)
}

// The questions about a tile, alone or on a sheet.
pub fn site_refusal(site: Site, table: &[i64]) -> Result<(), Refusal>
    ensures value { answer_number result ≡ first_no (site_questions site table.now) }
    ensures table_value { table.now ≡ table.now }
{
    match site {
        Site::Alone(side) => tile::tile_refusal(side, table),
        Site::OnSheet(place) => place_refusal(place, table),
    }
}

// ---- the tile

// The tile's side.
pub fn tile_side(site: Site) -> u32
    ensures { result ≡ tile_side site }
{
    match site {
        Site::Alone(side) => side,
        Site::OnSheet(place) => place.side,
    }
}

// The side that question 6 reads: the tile's, or the sheet's.
pub fn reach_of(site: Site) -> u32
    ensures { result ≡ reach site }
{
    match site {
        Site::Alone(side) => side,
        Site::OnSheet(place) => place.sheet,
    }
}

// How many steps t tiles are wide.
fn steps_of(t: u32, side: u32) -> i64
    requires { t * side ≤ greatest_sheet_side }
    ensures { result ≡ pos (t * (steps_per_pixel * side)) }
{
    t as i64 * (STEPS_PER_PIXEL * side as i64)
}

// A tile's corner on its sheet.
fn corner_of(place: SheetTile) -> Corner
    requires { SiteYes (OnSheet place) }
    ensures { From result ≡ view_at (OnSheet place) }
{
    Corner {
        x: steps_of(place.column, place.side),
        y: steps_of(place.row, place.side),
    }
}

// How the tile has an outline's edges.
pub fn view_of(site: Site) -> View
    requires { SiteYes site }
    ensures { result ≡ view_at site }
{
    match site {
        Site::Alone(_) => View::Alone,
        Site::OnSheet(place) => View::From(corner_of(place)),
    }
}

// ---- the call

// Builds the table of one tile of a sheet from the outline on the sheet: `points` has x and y of each point in turn, in 1/256 pixel of the sheet, `counts` how
// many points each contour has, and the outline is the points as placed. The answer is the edge count; whatever the table held before, it holds the tile's
// afterwards. Or it is the refusal of the first question that is answered no, and the table is as it was.
//
// The steps are those of `tile::build_placed`: a function for both would have to require that the outline lies in the tile's view, and those of `tile` ask
// nothing of their caller.
pub fn build_on_sheet(
    place: SheetTile,
    points: &[i64],
    counts: &[u32],
    placement: Placement,
    table: &mut [i64],
) -> Result<u32, Refusal>
    ensures value { built_of result ≡ sheet_result place points.now counts.now placement table.old }
    ensures table_after { table.new ≡ sheet_table place points.now counts.now placement table.old }
    ensures faithful_on_sheet { FaithfulOnSheet place points.now counts.now placement table.old table.new }
    ensures points_value { (points.now ≡ points.now) × (counts.now ≡ counts.now) }
{
    place_refusal(place, table)?;
    tile::outline_refusal(place.sheet, points, counts, placement, NONE_IN)?;
    tile::clear(table);
    let placed = PlacedPoints {
        given: points,
        placement,
    };
    let pass = Pass {
        view: view_of(Site::OnSheet(place)),
        sign: 1,
        depth: tile::depth_of(place.side),
    };
    contours::add_outline(table, &placed, counts, pass);
    Ok(tile::edges_of(counts) as u32)
}
