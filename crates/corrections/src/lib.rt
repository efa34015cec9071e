// A contour put into a tile, or taken out again (02, P3), the tile lying alone or on a sheet (P5): four calls, and one function, `amend`, that changes the tile,
// for contours of points here and for contours with curved edges in `curves`.
//
// A tile is a table with the record of its edge count, lent as two values, as C lends them. None of the four calls asks anything of its caller; a refused one
// changes nothing. They are four, for each has a promise of its own about the tile that it leaves (`holds_one_more`, `holds_one_less`), and C's header names each.
//
// All questions but one are asked before anything is written. The last, whether the table that would be left is in range, is asked of the table once the
// change is made; where it is not in range the change is undone, and every entry is what it was. So no copy of the table is kept.
#![tactic(auto)]

ghost use Rattle.std.specs.Prelude.{◌≡◌, ◌+◌, ◌≤◌};
ghost use Rattle.integers.specs.Units.{most_edges};
ghost use Rattle.tile.specs.Questions.{question9};
ghost use Rattle.tile.specs.Answers.{answer_number};
ghost use Rattle.chords.specs.Marked.{contour_of};
ghost use Rattle.chords.specs.Chords.{contour_chords};
ghost use Rattle.corrections.specs.Corrections.{sign_of, already_in, taken_out, edges_after, tile_of, call_of, putting, taking, putting_on, taking_on, correct_refusal, corrected};
ghost use Rattle.corrections.specs.Amending.{Amendable, amend_refusal, amended};
ghost use Rattle.corrections.specs.Holding.{HoldsOneMore, HoldsOneLess};

use chords::marked::MarkedPoints;
use placement::Placement;
use placement::points::PlacedPoints;
use rasterize::Pass;
use sheet::{SheetTile, Site};
use tile::Refusal;

// A contour has at most so many points.
const MOST_POINTS: usize = tile::MOST_POINTS as usize;

// What is done with a contour.
#[derive(Clone, Copy)]
pub enum Change {
    Put,
    Take,
}

impl Change {
    // What the contour's values are multiplied by.
    fn sign(self) -> i64
        ensures { result ≡ sign_of self }
    {
        match self {
            Change::Put => 1,
            Change::Take => -1,
        }
    }

    // How many edges question 5 counts beside its own: for putting in those that the record has.
    pub fn already_in(self, edges: u32) -> u32
        ensures { result ≡ already_in self edges }
    {
        match self {
            Change::Put => edges,
            Change::Take => 0,
        }
    }

    // How many edges of the record are taken out.
    fn taken_out(self, count: u32) -> u32
        ensures { result ≡ taken_out self count }
    {
        match self {
            Change::Put => 0,
            Change::Take => count,
        }
    }

    // The record afterwards.
    fn edges_after(self, count: u32, edges: u32) -> u32
        requires { (already_in self edges + count ≤ most_edges) × (taken_out self count ≤ edges) }
        ensures { result ≡ edges_after self count edges }
    {
        match self {
            Change::Put => edges + count,
            Change::Take => edges - count,
        }
    }
}

// Question 9, of a table as it is.
fn is_in_range(table: &[i64]) -> bool
    ensures { result ≡ (question9 table.now).answer }
{
    tile::search_entries(table).is_none()
}

// Puts a contour with marks in or takes it out, once the questions about it are answered: those about the record and the range are left. `chords` is how many
// edges it is drawn as. Contours of points come here too, with every mark 0.
pub fn amend(
    site: Site,
    change: Change,
    contour: &MarkedPoints,
    chords: u32,
    edges: &mut u32,
    table: &mut [i64],
) -> Result<(), Refusal>
    requires { Amendable site change (contour_of contour.now) chords (tile_of table.old edges.old) }
    ensures value { answer_number result ≡ amend_refusal site change (contour_chords (contour_of contour.now)) chords (tile_of table.old edges.old) }
    ensures edges_after { tile_of table.new edges.new ≡ amended site change (contour_chords (contour_of contour.now)) chords (tile_of table.old edges.old) }
    ensures points_value { contour.now ≡ contour.now }
{
    let recorded = *edges;
    if change.taken_out(chords) > recorded {
        return Err(Refusal::Record);
    }
    let before = is_in_range(table);
    if !before {
        return Err(Refusal::Range);
    }
    let pass = Pass {
        view: sheet::view_of(site),
        sign: change.sign(),
        depth: tile::depth_of(sheet::tile_side(site)),
    };
    chords::add_contour(table, contour, pass);
    let left = is_in_range(table);
    if !left {
        let back = Pass {
            view: pass.view,
            sign: -pass.sign,
            depth: pass.depth,
        };
        chords::add_contour(table, contour, back);
        return Err(Refusal::Range);
    }
    *edges = change.edges_after(chords, recorded);
    Ok(())
}

// Puts a contour of points in or takes it out. None of its edges is curved. (Not `correct_curves` of `curves` with every mark 0: that one asks question 5 last.)
fn correct(
    site: Site,
    change: Change,
    points: &[i64],
    count: u32,
    placement: Placement,
    edges: &mut u32,
    table: &mut [i64],
) -> Result<(), Refusal>
    ensures value { answer_number result ≡ correct_refusal (call_of change site points.now count placement) (tile_of table.old edges.old) }
    ensures edges_after { tile_of table.new edges.new ≡ corrected (call_of change site points.now count placement) (tile_of table.old edges.old) }
    ensures points_value { points.now ≡ points.now }
{
    sheet::site_refusal(site, table)?;
    let reach = sheet::reach_of(site);
    let already = change.already_in(*edges);
    tile::outline_refusal(reach, points, &[count], placement, already)?;
    let straight = [0u8; MOST_POINTS];
    let placed = PlacedPoints {
        given: points,
        placement,
    };
    let contour = MarkedPoints {
        points: placed,
        marks: &straight[..count as usize],
    };
    amend(site, change, &contour, count, edges, table)
}

// ---- a tile alone

// Puts a contour into a tile, which is a table with the record of its edge count: `points` has x and y of each of its `count` points in turn, and the
// contour is these as placed. What the contour adds to each entry is added to the table, and its count to the record. Or the answer is the refusal of the
// first question that is answered no, and table and record are as they were.
pub fn put(
    side: u32,
    points: &[i64],
    count: u32,
    placement: Placement,
    edges: &mut u32,
    table: &mut [i64],
) -> Result<(), Refusal>
    ensures value { answer_number result ≡ correct_refusal (putting side points.now count placement) (tile_of table.old edges.old) }
    ensures edges_after { edges.new ≡ (corrected (putting side points.now count placement) (tile_of table.old edges.old)).edges }
    ensures table_after { table.new ≡ (corrected (putting side points.now count placement) (tile_of table.old edges.old)).table }
    ensures holds_one_more { HoldsOneMore (putting side points.now count placement) (tile_of table.old edges.old) (tile_of table.new edges.new) }
    ensures points_value { points.now ≡ points.now }
{
    correct(
        Site::Alone(side),
        Change::Put, // into a tile alone
        points,
        count,
        placement,
        edges,
        table,
    )
}

// Takes a contour out of a tile again: as `put`, with its values taken from the table and its count from the record. Whether the contour is in cannot be
// told from a table: one that is not is taken out too, where the record counts enough edges.
pub fn take(
    side: u32,
    points: &[i64],
    count: u32,
    placement: Placement,
    edges: &mut u32,
    table: &mut [i64],
) -> Result<(), Refusal>
    ensures value { answer_number result ≡ correct_refusal (taking side points.now count placement) (tile_of table.old edges.old) }
    ensures edges_after { edges.new ≡ (corrected (taking side points.now count placement) (tile_of table.old edges.old)).edges }
    ensures table_after { table.new ≡ (corrected (taking side points.now count placement) (tile_of table.old edges.old)).table }
    ensures holds_one_less { HoldsOneLess (taking side points.now count placement) (tile_of table.old edges.old) (tile_of table.new edges.new) }
    ensures points_value { points.now ≡ points.now }
{
    correct(
        Site::Alone(side),
        Change::Take, // out of a tile alone
        points,
        count,
        placement,
        edges,
        table,
    )
}

// ---- a tile of a sheet

// As `put`, of a contour on a sheet, into one of its tiles. A table does not say where its tile lies: one that is corrected keeps its place, or what it then
// holds is nobody's letter.
pub fn put_on_sheet(
    place: SheetTile,
    points: &[i64],
    count: u32,
    placement: Placement,
    edges: &mut u32,
    table: &mut [i64],
) -> Result<(), Refusal>
    ensures value { answer_number result ≡ correct_refusal (putting_on place points.now count placement) (tile_of table.old edges.old) }
    ensures edges_after { edges.new ≡ (corrected (putting_on place points.now count placement) (tile_of table.old edges.old)).edges }
    ensures table_after { table.new ≡ (corrected (putting_on place points.now count placement) (tile_of table.old edges.old)).table }
    ensures holds_one_more { HoldsOneMore (putting_on place points.now count placement) (tile_of table.old edges.old) (tile_of table.new edges.new) }
    ensures points_value { points.now ≡ points.now }
{
    correct(
        Site::OnSheet(place),
        Change::Put, // into a tile of a sheet
        points,
        count,
        placement,
        edges,
        table,
    )
}

// As `take`, on a sheet.
pub fn take_on_sheet(
    place: SheetTile,
    points: &[i64],
    count: u32,
    placement: Placement,
    edges: &mut u32,
    table: &mut [i64],
) -> Result<(), Refusal>
    ensures value { answer_number result ≡ correct_refusal (taking_on place points.now count placement) (tile_of table.old edges.old) }
    ensures edges_after { edges.new ≡ (corrected (taking_on place points.now count placement) (tile_of table.old edges.old)).edges }
    ensures table_after { table.new ≡ (corrected (taking_on place points.now count placement) (tile_of table.old edges.old)).table }
    ensures holds_one_less { HoldsOneLess (taking_on place points.now count placement) (tile_of table.old edges.old) (tile_of table.new edges.new) }
    ensures points_value { points.now ≡ points.now }
{
    correct(
        Site::OnSheet(place),
        Change::Take, // out of a tile of a sheet
        points,
        count,
        placement,
        edges,
        table,
    )
}
