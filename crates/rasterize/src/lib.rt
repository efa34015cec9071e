// An edge into a table of Haar coefficients.
//
// The tile is cut into quarters, each quarter into quarters, and so on: a quadtree. An edge adds its term of the signed area to the root, and its
// three details, h, v and d, which `edge` works out, and of a slanted edge `slanted`, to each cell inside which some part of it lies.
//
//       +-------+-------+        From the tile, or a cell that it lies on, a loop goes down while it lies in one quarter. There the recursion begins: a cell
//       |       |  /    |        adds its own three details, and hands the edge on to those of its quarters inside which some part of it lies, here
//       |       | /     |        all but the upper left one, until the last level. In a cell that the edge misses its details are 0, and so they are
//       +-------+/------+        in every cell inside that one: none of them is visited.
//       |       /       |
//       |      /|       |        A cell's level and numbers say where its details stand in the table, its square says where it lies; a quarter's
//       +-----/-+-------+        are worked out from its cell's. To take an edge out again is to add the way back along it.
//
// A tile alone has the edges as they are. A tile of a sheet has them as they are seen from its corner, so that it begins at the origin too; some may lie
// beyond it, and what an edge adds to the root is then its own part of the tile's area, rounded.
#![tactic(auto)]

ghost use Rattle.std.specs.Prelude.{◌≡◌, ◌+◌, ◌-◌, ◌<◌, ◌≤◌, length, get_or, set, pos, ◌+ℤ◌, ◌*ℤ◌};
ghost use Rattle.integers.specs.Within.{Within};
ghost use Rattle.edge.specs.WalkOf.{Decides};
ghost use Rattle.edge.specs.Room.{Measured, Room};
ghost use Rattle.edge.specs.Rounded.{root_term};
ghost use Rattle.edge.specs.Nested.{seen_from, OnRange, OnCell};
ghost use Rattle.integers.specs.Units.{greatest_depth, detail_limit};
ghost use Rattle.accuracy.specs.Tile.{cell_width, tile as tile_square};
ghost use Rattle.rasterize.specs.Added.{added, at_root, entry_of};
ghost use Rattle.rasterize.specs.Nodes.{node_at};
ghost use Rattle.rasterize.specs.Contribution.{own_part, contribution};
ghost use Rattle.rasterize.specs.Ready.{sum_limit, Spare, Ready, ReadyIn, SmallDetails, square_of, Fits};
ghost use Rattle.rasterize.specs.Stages.{stage_node, StageOf};
ghost use Rattle.rasterize.specs.Views.{seen_by, root_part, part_table, InView, Seen, seen_table, turned_by};

use cells::{add_across, add_on};
use edge::{Cell, Details, Edge, Walk};
use stages::{Stage, descend};

mod cells;
mod stages;

// 01's step is 1/256 pixel.
pub const STEPS_PER_PIXEL: usize = 256;

// A cell of the quadtree: by its level and numbers, which say where its details stand in the table, and its square, which says where it lies. It holds no
// Spot: the definition of what an edge adds, `contribution`, names its level and numbers.
#[derive(Clone, Copy)]
pub struct Node {
    pub level: usize,
    pub x: usize,
    pub y: usize,
    pub square: Cell,
}

// A cell of the quadtree by its level and numbers alone.
#[derive(Clone, Copy)]
pub struct Spot {
    pub level: usize,
    pub x: usize,
    pub y: usize,
}

// A tile's upper left corner on its sheet, in steps.
#[derive(Clone, Copy)]
pub struct Corner {
    pub x: i64,
    pub y: i64,
}

// How a tile has an outline's edges: as they are, or as they are seen from its corner on a sheet. It is no Option: `seen_by` and
// `root_part`, of which the theorems speak, name its cases.
#[derive(Clone, Copy)]
pub enum View {
    Alone,
    From(Corner),
}

// What is done with edges that go into one table. The tile's side is 2^depth, and the view says how it has the edges. Each is added where the sign is 1, and
// taken out where it is -1; where it is 0 the table stays. (A number, since `add_edge` promises so many times the edge's table, 0 times too.)
#[derive(Clone, Copy)]
pub struct Pass {
    pub view: View,
    pub sign: i64,
    pub depth: usize,
    pub ghost sign_within: { Within (pos 1) sign },
}

// Adds x at one entry.
fn add_at(table: &mut [i64], i: usize, x: i64)
    requires { (i < length table.old) × Within (pos sum_limit) (get_or table.old i (pos 0)) × Within (pos detail_limit) x }
    ensures { table.new ≡ set table.old i (get_or table.old i (pos 0) +ℤ x) }
{
    table[i] += x;
}

// Adds the details w at the three entries from `first` on.
pub fn add_details(table: &mut [i64], first: usize, w: Details)
    requires { first + 2 < length table.old × Spare table.old 1 × SmallDetails w }
    ensures { table.new ≡ added table.old (own_part w first) }
{
    add_at(table, first, w.h);
    add_at(table, first + 1, w.v);
    add_at(table, first + 2, w.d);
}

// How wide a tile of side 2^depth is, in steps.
fn tile_width(depth: usize) -> usize
    requires { depth ≤ greatest_depth }
    ensures { result ≡ cell_width depth 0 }
{
    STEPS_PER_PIXEL * haar::cells_across(depth)
}

// The whole tile of side 2^depth, which is the cell of level 0.
fn tile_of(depth: usize) -> Node
    requires { depth ≤ greatest_depth }
    ensures { result ≡ node_at depth 0 0 0 }
{
    Node {
        level: 0,
        x: 0,
        y: 0,
        square: Cell {
            left: 0,
            top: 0,
            width: tile_width(depth) as i64,
        },
    }
}

// The edge's term of the signed area.
pub fn root_term(e: Edge) -> i64
    requires { Measured e }
    ensures { result ≡ root_term e }
{
    e.x0 * e.y1 - e.x1 * e.y0
}

impl Corner {
    // The edge as it is seen from the corner.
    fn seen(self, e: Edge) -> Edge
        requires { Measured (seen_from self.x self.y e) }
        ensures { result ≡ seen_from self.x self.y e }
    {
        Edge {
            x0: e.x0 - self.x,
            y0: e.y0 - self.y,
            x1: e.x1 - self.x,
            y1: e.y1 - self.y,
        }
    }
}

impl View {
    // The edge as the tile has it.
    fn seen(self, e: Edge) -> Edge
        requires { Measured (seen_by self e) }
        ensures { result ≡ seen_by self e }
    {
        match self {
            View::Alone => e,
            View::From(corner) => corner.seen(e),
        }
    }

    // What an edge, as the tile has it, adds to the root: its term of the signed area, or on a sheet its rounded part of the tile's area.
    fn root_part(self, e: Edge, depth: usize) -> i64
        requires { (depth ≤ greatest_depth) × Room e (tile_square depth) }
        ensures { result ≡ root_part self depth e }
    {
        match self {
            View::Alone => root_term(e),
            View::From(_) => Walk::of(e).area_in(tile_of(depth).square),
        }
    }
}

impl Pass {
    // An edge as the tile has it, and where the sign is -1 the way back along it, which adds the opposite.
    fn turned(self, e: Edge) -> Edge
        ensures { result ≡ turned_by self.sign e }
    {
        if self.sign < 0 {
            Edge {
                x0: e.x1,
                y0: e.y1,
                x1: e.x0,
                y1: e.y0,
            }
        } else {
            e
        }
    }
}

// Do p and q lie from 0 to the width?
fn lie_across(p: i64, q: i64, width: i64) -> bool
    ensures { Decides result (OnRange (pos 0) width p × OnRange (pos 0) width q) }
{
    integers::is_within(p, 0, width) && integers::is_within(q, 0, width)
}

// Do both ends of the edge lie on the square of this width at the origin, its sides with it?
fn lies_on(e: Edge, width: i64) -> bool
    requires { Measured e }
    ensures { Decides result (OnCell (square_of width) e) }
{
    lie_across(e.x0, e.x1, width) && lie_across(e.y0, e.y1, width)
}

// Adds what an edge on a cell adds there and below: first on the way down, and where that ends, from the cell there on.
fn add_from(table: &mut [i64], e: Edge, start: Stage, depth: usize)
    requires { (start.level ≤ depth) × Ready table.old e (depth - start.level) (stage_node start) × StageOf e depth start (stage_node start) }
    ensures { table.new ≡ added table.old (contribution e (depth - start.level) (stage_node start)) }
{
    let c = descend(table, e, start, depth);
    if c.level < depth {
        add_on(table, e, c, depth - c.level);
    }
}

// Adds an edge's part of the root of a tile alone, and what it adds in a cell that it lies on and below.
pub fn add_within(table: &mut [i64], e: Edge, c: Spot, depth: usize)
    requires { ReadyIn table.old e depth (node_at depth c.level c.x c.y) }
    ensures { table.new ≡ added table.old (λ i. at_root (root_term e) i +ℤ contribution e (depth - c.level) (node_at depth c.level c.x c.y) i) }
{
    add_at(table, 0, root_term(e));
    let start = Stage::at(e, c, depth);
    add_from(table, e, start, depth);
}

// Adds the details of an edge, as the tile has it. One that leaves the tile has no way down: the recursion begins at the tile.
fn add_seen(table: &mut [i64], e: Edge, depth: usize)
    requires { Ready table.old e depth (node_at depth 0 0 0) × Measured e }
    ensures { table.new ≡ added table.old (contribution e depth (node_at depth 0 0 0)) }
{
    let tile = tile_of(depth);
    if lies_on(e, tile.square.width) {
        let whole = Spot {
            level: 0,
            x: 0,
            y: 0,
        };
        add_from(table, e, Stage::at(e, whole, depth), depth);
    } else if 0 < depth {
        add_across(table, e, tile, depth);
    }
}

// Adds an edge, as the tile has it: its part of the root, and its details.
fn add_whole(table: &mut [i64], e: Edge, view: View, depth: usize)
    requires { Fits table.old depth 1 × Seen view depth e }
    ensures { table.new ≡ added table.old (entry_of depth (seen_table view depth e)) }
{
    add_at(table, 0, view.root_part(e, depth));
    add_seen(table, e, depth);
}

// Adds an edge to the table of the pass's tile, or takes it out where the sign is -1.
pub fn add_edge(table: &mut [i64], e: Edge, pass: Pass)
    requires { Fits table.old pass.depth 1 × InView pass.view pass.depth e }
    ensures { table.new ≡ added table.old (λ i. pass.sign *ℤ entry_of pass.depth (part_table pass.view pass.depth e) i) }
{
    if pass.sign != 0 {
        let way = pass.turned(pass.view.seen(e));
        add_whole(table, way, pass.view, pass.depth);
    }
}
