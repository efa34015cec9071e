// A contour or an outline with curved edges (02, P6) into a table of Haar coefficients.
//
// A side is an edge as it is marked: a straight edge, or a curve. A curve is added as its chords, one after the other, each by what adds an edge; no list of
// chords is kept.
//
//       c                         The coordinates of a contour are its sides' in turn: a straight one has its start, p, a curved one its start and then its
//      . .                        control point, c. A side ends where the next one begins, and the last one where the first begins. So the point after a
//     .   .                       side's own is its end, or the contour's first point where there is none.
//    .  ___ .
//   p--'   '--q                   Points are fetched, as placed, when a side is made; a control point is placed like the others.
//
#![tactic(auto)]

ghost use Rattle.std.specs.Prelude.{◌≡◌, ◌*◌, ◌≤◌, length};
ghost use Rattle.integers.specs.Units.{most_points};
ghost use Rattle.integers.specs.ListSum.{All};
ghost use Rattle.curve.specs.Curve.{OnSheet};
ghost use Rattle.accuracy.specs.Outline.{point_at, edge_count};
ghost use Rattle.placement.specs.Coordinates.{coordinates};
ghost use Rattle.rasterize.specs.Added.{added};
ghost use Rattle.rasterize.specs.Ready.{Fits};
ghost use Rattle.rasterize.specs.Views.{InView};
ghost use Rattle.rasterize.specs.Laws.Sums.{edges_part};
ghost use Rattle.chords.specs.declared.Side.TheVariants.{Curved};
ghost use Rattle.chords.specs.Sides.{curve_between, marked_contours};
ghost use Rattle.chords.specs.Chords.{chords_of, contour_chords, outline_chords};
ghost use Rattle.chords.specs.Inner.{capped_chords, curve_of};
ghost use Rattle.chords.specs.Marked.{contour_of};
ghost use Rattle.chords.specs.Laws.SidesWithin.{SideWithin};

use curved::Chords;
use edge::Edge;
use marked::MarkedPoints;
use placement::Point;
use placement::points::PlacedPoints;
use rasterize::Pass;
use sides::Sides;

mod curved;
pub mod marked;
pub mod sides;

// A quadratic Bézier curve: from (x0, y0) to (x1, y1), with the control point (cx, cy).
#[derive(Clone, Copy)]
pub struct Curve {
    pub x0: i64,
    pub y0: i64,
    pub cx: i64,
    pub cy: i64,
    pub x1: i64,
    pub y1: i64,
}

// An edge as it is marked.
// That its points are on a sheet is no part of it: specs/Sides.antt lists the sides of contours with any points.
#[derive(Clone, Copy)]
pub enum Side {
    Straight(Edge),
    Curved(Curve),
}

// With no more edges than this, every grey is at most one from that of the exact area.
const MOST_EDGES: usize = 1024;

// ---- one side

// How many edges a side is drawn as.
fn chords_in(side: Side) -> usize
    requires { SideWithin OnSheet side }
    ensures { result ≡ length (chords_of side) }
{
    match side {
        Side::Straight(_) => 1,
        Side::Curved(c) => Chords::of(c).count(),
    }
}

// Adds the chords of a curve.
fn add_chords(table: &mut [i64], chords: Chords, pass: Pass)
    requires { Fits table.old pass.depth (length (chords_of (Curved (curve_of chords)))) × All (InView pass.view pass.depth) (chords_of (Curved (curve_of chords))) }
    ensures { table.new ≡ added table.old (edges_part pass.view pass.depth pass.sign (chords_of (Curved (curve_of chords)))) }
{
    for i in 0..chords.count() {
        rasterize::add_edge(table, chords.chord(i), pass);
    }
}

// Adds a side.
fn add_side(table: &mut [i64], side: Side, pass: Pass)
    requires { Fits table.old pass.depth (length (chords_of side)) × All (InView pass.view pass.depth) (chords_of side) × SideWithin OnSheet side }
    ensures { table.new ≡ added table.old (edges_part pass.view pass.depth pass.sign (chords_of side)) }
{
    match side {
        Side::Straight(e) => rasterize::add_edge(table, e, pass),
        Side::Curved(c) => add_chords(table, Chords::of(c), pass),
    }
}

// ---- the sides of a contour

// The curve that begins at the first of the points, and ends at `end`. Its control point is the second of them.
fn curve_to(points: &PlacedPoints, end: Point) -> Curve
    requires { 4 ≤ length (coordinates points.now) }
    ensures { result ≡ curve_between (point_at (coordinates points.now) 0) (point_at (coordinates points.now) 1) (record { x = end.x; y = end.y }) }
{
    let from = points.point(0);
    let control = points.point(1);
    Curve {
        x0: from.x,
        y0: from.y,
        cx: control.x,
        cy: control.y,
        x1: end.x,
        y1: end.y,
    }
}

// How many edges a contour is drawn as.
pub fn chords_of(contour: &MarkedPoints) -> usize
    requires { (length contour.now.marks.now ≤ most_points) × All OnSheet (coordinates contour.now.points) }
    ensures { result ≡ length (contour_chords (contour_of contour.now)) }
{
    let mut sum = 0;
    let mut sides = Sides::of(contour);
    while let Some(side) = sides.next() {
        sum += chords_in(side);
    }
    sum
}

// Adds the edges of a contour.
pub fn add_contour(table: &mut [i64], contour: &MarkedPoints, pass: Pass)
    requires { Fits table.old pass.depth (length (contour_chords (contour_of contour.now))) × All (InView pass.view pass.depth) (contour_chords (contour_of contour.now)) × All OnSheet (coordinates contour.now.points) }
    ensures { table.new ≡ added table.old (edges_part pass.view pass.depth pass.sign (contour_chords (contour_of contour.now))) }
{
    let mut sides = Sides::of(contour);
    while let Some(side) = sides.next() {
        add_side(table, side, pass);
    }
}

// ---- the contours of an outline

// How many edges an outline is drawn as, or one more than the most where there are more: there may be any number of contours.
pub fn outline_chords(outline: &MarkedPoints, counts: &[u32]) -> usize
    requires { (length outline.now.marks.now ≡ edge_count counts.now) × All (λ n. n ≤ most_points) counts.now × All OnSheet (coordinates outline.now.points) }
    ensures { result ≡ capped_chords (marked_contours counts.now outline.now.marks.now (coordinates outline.now.points)) }
{
    let mut sum = 0;
    let mut left = *outline;
    for &count in counts {
        let (own, others) = left.split_at(count as usize);
        sum += chords_of(&own);
        if sum > MOST_EDGES {
            return MOST_EDGES + 1;
        }
        left = others;
    }
    sum
}

// Adds the edges of an outline.
pub fn add_outline(table: &mut [i64], outline: &MarkedPoints, counts: &[u32], pass: Pass)
    requires { Fits table.old pass.depth (length (outline_chords (marked_contours counts.now outline.now.marks.now (coordinates outline.now.points)))) × All (InView pass.view pass.depth) (outline_chords (marked_contours counts.now outline.now.marks.now (coordinates outline.now.points))) × (length outline.now.marks.now ≡ edge_count counts.now) × All OnSheet (coordinates outline.now.points) }
    ensures { table.new ≡ added table.old (edges_part pass.view pass.depth pass.sign (outline_chords (marked_contours counts.now outline.now.marks.now (coordinates outline.now.points)))) }
{
    let mut left = *outline;
    for &count in counts {
        let (own, others) = left.split_at(count as usize);
        add_contour(table, &own, pass);
        left = others;
    }
}
