// The recursion from a cell on: an edge into a cell and into those below it.
ghost use Rattle.std.specs.Prelude.{◌≡◌, ◌^◌, ◌<◌, ◌≤◌, pos};
ghost use Rattle.integers.specs.Within.{Within};
ghost use Rattle.edge.specs.Cuts.{span as span_of};
ghost use Rattle.edge.specs.Nested.{OnCell};
ghost use Rattle.integers.specs.Units.{greatest_depth};
ghost use Rattle.rasterize.specs.Added.{added};
ghost use Rattle.rasterize.specs.Nodes.{quarters, quarter_node};
ghost use Rattle.rasterize.specs.Contribution.{contribution};
ghost use Rattle.rasterize.specs.Ready.{Ready, Splits};
ghost use Rattle.slanted.specs.Pieces.{Moving};
ghost use Rattle.slanted.specs.Parts.{half_on};
ghost use Rattle.rasterize.specs.Slanted.{slope, piece, spot, quarter_on_way, quarter_spot, SlantedReady, SlantedAdds};

use crate::{Node, Spot, add_details};
use edge::{Cell, Edge, Span, Walk};
use slanted::{Piece, Slope};

// The quarters of a cell.
const QUARTERS: usize = 4;

// Quarter q of a cell: 0 and 1 are the upper two, 0 and 2 those on the left. They are numbers, since `contribution` sums over them.
fn quarter_of(c: Node, q: usize) -> Node
    requires { Splits c × (q < quarters) }
    ensures { result ≡ quarter_node c q }
{
    let half = edge::half_of(c.square.width);
    Node {
        level: c.level + 1,
        x: 2 * c.x + q % 2,
        y: 2 * c.y + q / 2,
        square: Cell {
            left: c.square.left + (q % 2) as i64 * half,
            top: c.square.top + (q / 2) as i64 * half,
            width: half,
        },
    }
}

// Adds the walk's edge to a cell, and to those of its quarters inside which some part of it lies, `left` levels in all. `span` has the steps inside the
// cell. Walk, cell and span as one struct took 1.02 to 1.06 times the instructions, and a span worked out by the call for a quarter up to 1.11 times.
fn add_node(table: &mut [i64], walk: Walk, c: Node, span: Span, left: usize)
    requires { (1 ≤ left) × Ready table.old walk.edge left c × (span ≡ span_of walk.x walk.y c.square walk.steps) }
    ensures { table.new ≡ added table.old (contribution walk.edge left c) }
{
    let w = walk.details_over(c.square, span);
    add_details(table, haar::first_detail(c.level, c.x, c.y), w);
    if left > 1 {
        for q in 0..QUARTERS {
            let quarter = quarter_of(c, q);
            let inside = walk.span_in(quarter.square);
            if inside.first < inside.last {
                add_node(table, walk, quarter, inside, left - 1);
            }
        }
    }
}

// The half that a walk with this sign is in: the left or upper one is 0, the right or lower one 1. k is 0 before it crosses the middle and 1 after.
fn half_on(sign: i64, k: usize) -> usize
    requires { k < 2 }
    ensures { result ≡ half_on sign k }
{
    if sign < 0 { 1 - k } else { k }
}

// The quarter that a walk is in: q % 2 is 0 before the middle of x is crossed and 1 after it, q / 2 likewise of y.
fn quarter_on(p: Spot, l: Slope, q: usize) -> Spot
    requires { (q < quarters) × (p.level < greatest_depth) × (p.x < 2 ^ p.level) × (p.y < 2 ^ p.level) × Within (pos 1) l.x × Within (pos 1) l.y }
    ensures { result ≡ quarter_spot p (quarter_on_way l q) }
{
    Spot {
        level: p.level + 1,
        x: 2 * p.x + half_on(l.x, q % 2),
        y: 2 * p.y + half_on(l.y, q / 2),
    }
}

// Adds a slanted walk's edge to a cell with some step inside, and to those of its quarters inside which some part of it lies, `left` levels in all. The walk
// and the cell are known by the numbers of a slope, a spot and a piece: these are handed on one by one, since the compiler hands a struct on through memory,
// which took 1.03 to 1.09 times the instructions.
fn add_slanted(
    table: &mut [i64],
    divisor: i64,
    sx: i64,
    sy: i64,
    level: usize,
    x: usize,
    y: usize,
    first: i64,
    last: i64,
    mx: i64,
    my: i64,
    hx: i64,
    hy: i64,
    left: usize,
)
    requires { (1 ≤ left) × SlantedReady table.old (slope divisor sx sy) (spot level x y) (piece first last mx my hx hy) left }
    ensures { SlantedAdds table.old table.new (slope divisor sx sy) (spot level x y) (piece first last mx my hx hy) left }
{
    let l = Slope {
        divisor,
        x: sx,
        y: sy,
    };
    let k = Piece {
        first,
        last,
        middle_x: mx,
        middle_y: my,
        half_x: hx,
        half_y: hy,
    };
    let w = slanted::details_of(l, k);
    add_details(table, haar::first_detail(level, x, y), w);
    if 1 < left {
        let p = Spot { level, x, y };
        for q in 0..QUARTERS {
            let r = slanted::part_of(k, q);
            if r.first < r.last {
                let n = quarter_on(p, l, q);
                add_slanted(
                    table,
                    divisor,
                    sx,
                    sy,
                    n.level,
                    n.x,
                    n.y,
                    r.first,
                    r.last,
                    r.middle_x,
                    r.middle_y,
                    r.half_x,
                    r.half_y,
                    left - 1,
                );
            }
        }
    }
}

// Adds a slanted walk's edge to a cell and to those below it, `left` levels in all, by its piece there. `span` has the steps inside the cell: where there are
// none, nothing is added.
fn add_piece(table: &mut [i64], walk: Walk, c: Node, span: Span, left: usize)
    requires { (1 ≤ left) × Ready table.old walk.edge left c × (span ≡ span_of walk.x walk.y c.square walk.steps) × Moving walk.x × Moving walk.y }
    ensures { table.new ≡ added table.old (contribution walk.edge left c) }
{
    if span.first < span.last {
        let half = edge::half_of(c.square.width);
        let k = slanted::piece_of(walk, c.square, half, span);
        add_slanted(
            table,
            walk.divisor,
            walk.x.sign,
            walk.y.sign,
            c.level,
            c.x,
            c.y,
            k.first,
            k.last,
            k.middle_x,
            k.middle_y,
            k.half_x,
            k.half_y,
            left,
        );
    }
}

// The same of any walk, by the walk itself. A level or upright edge goes this way: it stands still in one direction, where no piece tells it. One function in
// the place of these two, which finds out of which kind the walk is, took 1.02 to 1.10 times the instructions.
fn add_walk(table: &mut [i64], walk: Walk, c: Node, span: Span, left: usize)
    requires { (1 ≤ left) × Ready table.old walk.edge left c × (span ≡ span_of walk.x walk.y c.square walk.steps) }
    ensures { table.new ≡ added table.old (contribution walk.edge left c) }
{
    if span.first < span.last {
        add_node(table, walk, c, span, left);
    }
}

// Adds an edge that lies on a cell to it and to those below it, `left` levels in all. To go the way of `add_across` took 1.03 to 1.12 times the instructions.
pub fn add_on(table: &mut [i64], e: Edge, c: Node, left: usize)
    requires { (1 ≤ left) × Ready table.old e left c × OnCell c.square e }
    ensures { table.new ≡ added table.old (contribution e left c) }
{
    let walk = Walk::of(e);
    if slanted::is_slanted(walk) {
        let span = slanted::span_on(walk, c.square);
        add_piece(table, walk, c, span, left);
    } else {
        let span = walk.span_in(c.square);
        add_walk(table, walk, c, span, left);
    }
}

// The same of an edge that may leave the cell.
pub fn add_across(table: &mut [i64], e: Edge, c: Node, left: usize)
    requires { (1 ≤ left) × Ready table.old e left c }
    ensures { table.new ≡ added table.old (contribution e left c) }
{
    let walk = Walk::of(e);
    let span = walk.span_in(c.square);
    if slanted::is_slanted(walk) {
        add_piece(table, walk, c, span, left);
    } else {
        add_walk(table, walk, c, span, left);
    }
}
