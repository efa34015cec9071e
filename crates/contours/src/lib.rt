// Adds contours and outlines to a table of Haar coefficients.
//
// A contour is the slice of its own points, and its last point joins its first. An outline is one contour after the other. A placement moves points:
// each is fetched, placed, when an edge that begins or ends there is made, so that no list of placed points is kept.
#![tactic(auto)]

ghost use Rattle.std.specs.Prelude.{◌≡◌, true, ◌+◌, ◌*◌, ◌-◌, ◌/◌, ◌^◌, ◌<◌, ◌≤◌, length, pos, ◌*ℤ◌};
ghost use Rattle.integers.specs.Within.{Within};
ghost use Rattle.integers.specs.ListSum.{All};
ghost use Rattle.integers.specs.HalfSign.{half_sign};
ghost use Rattle.integers.specs.Units.{greatest_depth, greatest_side, greatest_coordinate};
ghost use Rattle.edge.specs.Room.{Measured};
ghost use Rattle.edge.specs.Nested.{OnRange, OnCell};
ghost use Rattle.edge.specs.WalkOf.{Decides};
ghost use Rattle.accuracy.specs.Outline.{points_of, point_at, contours_of, edge_count, contour_edges, outline_edges};
ghost use Rattle.placement.specs.Coordinates.{coordinates, point_count};
ghost use Rattle.rasterize.specs.Added.{added, entry_of};
ghost use Rattle.rasterize.specs.Ready.{Fits};
ghost use Rattle.rasterize.specs.Views.{view_table, InView};
ghost use Rattle.contours.specs.Contour.{edge_of, edges_from};
ghost use Rattle.rasterize.specs.declared.View.TheVariants.{Alone};
ghost use Rattle.contours.specs.Runs.{run_levels, widest_run, longest_run, triangle_limit, run_square, square_at, parent_spot, with_area, from_half, details_in, above, AboveReady, RunReady, NextReady, HasRuns, Along};
ghost use Rattle.contours.specs.Laws.RunCells.{SmallEdge};

use edge::{Details, Edge};
use placement::points::PlacedPoints;
use rasterize::{Pass, Spot, View};

// The edge from (x, y), which is point k of a contour's n points, as placed, to the next one; from the last, to the first.
fn edge_to_next(points: &PlacedPoints, n: usize, k: usize, x: i64, y: i64) -> Edge
    requires { (k < n) × (n ≤ point_count points.now) × (x ≡ (point_at (coordinates points.now) k).x) × (y ≡ (point_at (coordinates points.now) k).y) }
    ensures { result ≡ edge_of (coordinates points.now) n k }
{
    let next = if k + 1 < n { k + 1 } else { 0 };
    let to = points.point(next);
    Edge {
        x0: x,
        y0: y,
        x1: to.x,
        y1: to.y,
    }
}

// The edge from point k of a contour's n points, as placed, to the next one; from the last, to the first.
pub fn edge_from(points: &PlacedPoints, n: usize, k: usize) -> Edge
    requires { (k < n) × (n ≤ point_count points.now) }
    ensures { result ≡ edge_of (coordinates points.now) n k }
{
    let from = points.point(k);
    edge_to_next(points, n, k, from.x, from.y)
}

// ---- runs
//
// Neighbouring edges of a contour often lie in one small cell. In every cell above that one they lie in the same quarter, where what an edge adds is a
// polynomial of its ends. So for these cells a run of such edges, one after the other, is its chord, from its first point to its last, and the area between
// the two:
//
//          .--.            Each edge of a run adds in the cell and below; all of them together add once in each cell above: the chord's details, and the area,
//       .-'    `.          which h gets with the sign of its left or right half, v with that of its upper or lower half, d with the product. The sum of the
//      o--------->o        edges' root terms less the chord's is that area, in units.

// How many levels a run's cell is above a pixel: it is four pixels wide. In a wider one runs would be longer, but each edge would add on more levels.
const RUN_LEVELS: usize = 2;

// How wide that is, in steps: 4 pixels of 256.
const RUN_WIDTH: i64 = 1024;

// The most edges of a run. Each adds at most 2^21 to the area, so that it is at most 2^27, and with a chord's detail within what a detail may be, 2^28.
const LONGEST_RUN: usize = 64;

// How far a run has come: the edges before `next` have been added in the run's cell and below, and end at (x, y). `sum` has their root terms.
#[derive(Clone, Copy)]
struct Run {
    next: usize,
    x: i64,
    y: i64,
    sum: i64,
}

// Does p lie in range n, each range being as wide as a run's cell, its ends with it?
fn lies_in(p: i64, n: usize) -> bool
    requires { n < greatest_side }
    ensures { Decides result (OnRange (pos (n * widest_run)) (pos widest_run) p) }
{
    let side = n as i64 * RUN_WIDTH;
    integers::is_within(p, side, side + RUN_WIDTH)
}

// Does (x, y) lie on a run's cell?
fn is_on_cell(x: i64, y: i64, c: Spot) -> bool
    requires { (c.x < greatest_side) × (c.y < greatest_side) }
    ensures { Decides result (OnRange (run_square c).left (run_square c).width x × OnRange (run_square c).top (run_square c).width y) }
{
    lies_in(x, c.x) && lies_in(y, c.y)
}

// Does the edge?
fn lies_on_cell(e: Edge, c: Spot) -> bool
    requires { (c.x < greatest_side) × (c.y < greatest_side) × Measured e }
    ensures { Decides result (OnCell (run_square c) e) }
{
    is_on_cell(e.x0, e.y0, c) && is_on_cell(e.x1, e.y1, c)
}

// The cell in which a run from the edge's first point on would lie. It may be no cell of the tile, on whose right and lower border points lie too. The contract
// gives its level alone: any cell would do, since the caller tests it, and this one lets runs begin. So a spot does not know that it is on the tile, nor a depth that runs have levels above them:
// what needs it asks it.
fn cell_from(e: Edge, depth: usize) -> Spot
    requires { run_levels ≤ depth }
    ensures { result.level + run_levels ≡ depth }
{
    let x = e.x0.unsigned_abs() as usize;
    let y = e.y0.unsigned_abs() as usize;
    Spot {
        level: depth - RUN_LEVELS,
        x: x / RUN_WIDTH as usize,
        y: y / RUN_WIDTH as usize,
    }
}

// Is it a cell of the tile?
fn is_cell(c: Spot) -> bool
    requires { c.level ≤ greatest_depth }
    ensures { Decides result ((c.x < 2 ^ c.level) × (c.y < 2 ^ c.level)) }
{
    let across = haar::cells_across(c.level);
    c.x < across && c.y < across
}

// z, and in the second half -z. Any limit that keeps -z a number would do. A half is 0 or 1, the last bit of a cell's number, which is what the clauses count by:
// a bool would have to be turned into that number in each of them.
fn signed_in(z: i64, half: usize) -> i64
    requires { Within (pos (2 ^ 40)) z × (half < 2) }
    ensures { result ≡ half_sign half *ℤ z }
{
    if half == 0 { z } else { -z }
}

// How far p and q, both in one half of range n, each range being w wide, lie from the side of that half, added up.
fn from_side(p: i64, q: i64, n: usize, w: i64, half: usize) -> i64
    requires { Within (pos greatest_coordinate) p × Within (pos greatest_coordinate) q × (n < greatest_side) × Within (pos greatest_coordinate) w × (half < 2) }
    ensures { result ≡ from_half half (pos n *ℤ w) w p q }
{
    if half == 0 {
        p + q - (2 * n) as i64 * w
    } else {
        (2 * n + 2) as i64 * w - (p + q)
    }
}

// The cell one level up in which a cell lies.
fn parent_of(c: Spot) -> Spot
    requires { 0 < c.level }
    ensures { result ≡ parent_spot c }
{
    Spot {
        level: c.level - 1,
        x: c.x / 2,
        y: c.y / 2,
    }
}

// What a chord and an area, both in quarter (i, j) of a cell that is w wide, add to the cell's details.
fn details_above(e: Edge, area: i64, c: Spot, w: i64, i: usize, j: usize) -> Details
    requires { SmallEdge e × Within (pos (longest_run * triangle_limit)) area × (c.x < greatest_side) × (c.y < greatest_side) × Within (pos greatest_coordinate) w × (i < 2) × (j < 2) }
    ensures { result ≡ with_area (details_in e (square_at c w) i j) area i j }
{
    let across = from_side(e.x0, e.x1, c.x, w, i) * (e.y1 - e.y0);
    let down = from_side(e.y0, e.y1, c.y, w, j) * (e.x1 - e.x0);
    let h = across + signed_in(area, i);
    Details {
        h: h,
        v: signed_in(area, j) - down,
        d: signed_in(h, j),
    }
}

// Adds a chord and an area, both in a run's cell, to each cell above it.
fn add_above(table: &mut [i64], e: Edge, area: i64, c: Spot, depth: usize)
    requires { AboveReady table.old e area depth c }
    ensures { table.new ≡ added table.old (above e area depth c.level c.x c.y) }
{
    // It goes from parent to parent, so that the level is counted down with the cell.
    let mut p = c;
    let mut w = RUN_WIDTH;
    while 0 < p.level {
        let i = p.x % 2;
        let j = p.y % 2;
        p = parent_of(p);
        w = w + w;
        let s = details_above(e, area, p, w, i, j);
        rasterize::add_details(table, haar::first_detail(p.level, p.x, p.y), s);
    }
}

// Adds edges from edge k on, as long as they lie on a run's cell, there and below. Each edge begins where the one before ended, so that its end alone is
// fetched and tested.
fn add_along(
    table: &mut [i64],
    points: &PlacedPoints,
    k: usize,
    first: Edge,
    c: Spot,
    depth: usize,
) -> Run
    requires { RunReady table.old (coordinates points.now) depth k c × (first ≡ edge_of (coordinates points.now) (point_count points.now) k) }
    ensures { Along depth (coordinates points.now) k c table.old table.new result × (k < result.next) }
{
    let n = points.count();
    let end = k + (n - k).min(LONGEST_RUN);
    let mut r = Run {
        next: k,
        x: first.x0,
        y: first.y0,
        sum: 0,
    };
    for next in k..end {
        let e = edge_to_next(points, n, next, r.x, r.y);
        if !is_on_cell(e.x1, e.y1, c) {
            return r;
        }
        rasterize::add_within(table, e, c, depth);
        r = Run {
            next: next + 1,
            x: e.x1,
            y: e.y1,
            sum: r.sum + rasterize::root_term(e),
        };
    }
    r
}

// Adds a run from edge k on, which is `first`. Answers how many edges it has.
fn add_run(
    table: &mut [i64],
    points: &PlacedPoints,
    k: usize,
    first: Edge,
    c: Spot,
    depth: usize,
) -> usize
    requires { RunReady table.old (coordinates points.now) depth k c × (first ≡ edge_of (coordinates points.now) (point_count points.now) k) }
    ensures { (0 < result) × (k + result ≤ point_count points.now) × (table.new ≡ added table.old (edges_from Alone depth (coordinates points.now) k result)) }
{
    let r = add_along(table, points, k, first, c, depth);
    let chord = Edge {
        x0: first.x0,
        y0: first.y0,
        x1: r.x,
        y1: r.y,
    };
    let area = r.sum - rasterize::root_term(chord);
    add_above(table, chord, area, c, depth);
    r.next - k
}

// Adds a run from edge k on to a tile alone, or edge k where none begins. Answers how many edges it has added.
fn add_some(table: &mut [i64], points: &PlacedPoints, k: usize, depth: usize) -> usize
    requires { NextReady Alone table.old (coordinates points.now) depth k × (run_levels ≤ depth) }
    ensures { (0 < result) × (k + result ≤ point_count points.now) × (table.new ≡ added table.old (edges_from Alone depth (coordinates points.now) k result)) }
{
    let e = edge_from(points, points.count(), k);
    let c = cell_from(e, depth);
    if is_cell(c) && lies_on_cell(e, c) {
        return add_run(table, points, k, e, c, depth);
    }
    let pass = Pass {
        view: View::Alone,
        sign: 1,
        depth,
    };
    rasterize::add_edge(table, e, pass);
    1
}

// Adds a contour's edges to a tile alone, in runs.
fn add_in_runs(table: &mut [i64], points: &PlacedPoints, depth: usize)
    requires { Fits table.old depth (point_count points.now) × All (InView Alone depth) (contour_edges (points_of (coordinates points.now))) × (run_levels ≤ depth) }
    ensures { table.new ≡ added table.old (entry_of depth (view_table Alone depth (contour_edges (points_of (coordinates points.now))))) }
{
    // Runs are of any length, so that no range has their first edges.
    let mut k = 0;
    while k < points.count() {
        k += add_some(table, points, k, depth);
    }
}

// Are a contour's edges added in runs? Those that are added to a tile alone are, where there are levels above the runs' cells.
fn has_runs(pass: Pass) -> bool
    ensures { HasRuns result pass.view pass.sign pass.depth }
{
    matches!(pass.view, View::Alone) && pass.sign == 1 && RUN_LEVELS < pass.depth
}

// Adds the edges of a contour, given by its own points, as placed.
pub fn add_contour(table: &mut [i64], points: &PlacedPoints, pass: Pass)
    requires { Fits table.old pass.depth (point_count points.now) × All (InView pass.view pass.depth) (contour_edges (points_of (coordinates points.now))) }
    ensures { table.new ≡ added table.old (λ i. pass.sign *ℤ entry_of pass.depth (view_table pass.view pass.depth (contour_edges (points_of (coordinates points.now)))) i) }
{
    if has_runs(pass) {
        return add_in_runs(table, points, pass.depth);
    }
    let n = points.count();
    for k in 0..n {
        rasterize::add_edge(table, edge_from(points, n, k), pass);
    }
}

// Adds the contours of an outline, as placed: each begins at the point after the last one of the contour before.
pub fn add_outline(table: &mut [i64], points: &PlacedPoints, counts: &[u32], pass: Pass)
    requires { Fits table.old pass.depth (edge_count counts.now) × (2 * edge_count counts.now ≤ length (coordinates points.now)) × All (InView pass.view pass.depth) (outline_edges (contours_of counts.now (coordinates points.now))) }
    ensures { table.new ≡ added table.old (λ i. pass.sign *ℤ entry_of pass.depth (view_table pass.view pass.depth (outline_edges (contours_of counts.now (coordinates points.now)))) i) }
{
    let mut left = *points;
    for &count in counts {
        let (own, others) = left.split_at(count as usize);
        add_contour(table, &own, pass);
        left = others;
    }
}
