// The way down from a cell to the smallest one that an edge lies in.
ghost use Rattle.std.specs.Prelude.{◌≡◌, ◌-◌, ◌^◌, ◌<◌, ◌≤◌, pos, ◌*ℤ◌, ◌≤ℤ◌};
ghost use Rattle.integers.specs.Within.{Within};
ghost use Rattle.integers.specs.Magnitude.{abs};
ghost use Rattle.edge.specs.Walk.{dx, dy};
ghost use Rattle.edge.specs.WalkOf.{Decides};
ghost use Rattle.edge.specs.Room.{coordinate_limit, Measured};
ghost use Rattle.edge.specs.Code.{before_middle};
ghost use Rattle.integers.specs.Units.{greatest_depth, greatest_side};
ghost use Rattle.rasterize.specs.Nodes.{node_at};
ghost use Rattle.rasterize.specs.Ready.{Ready, Descent};
ghost use Rattle.rasterize.specs.Stages.{stage_at, quarter_stage, stage_node, StageRoom, StageOf};

use crate::{Node, Spot, add_details, tile_width};
use edge::{Cell, Edge};

// A cell on the way down to the smallest one that an edge lies in: its level, how many cells the level has across, its numbers and width, and how far both
// ends of the edge lie to the left of its middle and above it, added up. Where the cell lies is not needed on the way.
// `StageRoom` is no ghost field: `stage_at`, by which the way down is told, makes a stage of any edge, and of one that is far off this is not so.
#[derive(Clone, Copy)]
pub struct Stage {
    level: usize,
    across: usize,
    x: usize,
    y: usize,
    width: usize,
    left: i64,
    above: i64,
}

// How far p and q lie before the middle of range n, each range being w wide, added up.
fn before_middle(n: usize, w: i64, p: i64, q: i64) -> i64
    requires { (n < greatest_side) × Within (pos coordinate_limit) w × Within (pos coordinate_limit) p × Within (pos coordinate_limit) q }
    ensures { result ≡ before_middle (pos n *ℤ w) w p q }
{
    (2 * n + 1) as i64 * w - (p + q)
}

impl Stage {
    // A cell of the tile, for an edge.
    pub fn at(e: Edge, c: Spot, depth: usize) -> Self
        requires { (depth ≤ greatest_depth) × (c.level ≤ depth) × (c.x < 2 ^ c.level) × (c.y < 2 ^ c.level) × Measured e }
        ensures { result ≡ stage_at e (node_at depth c.level c.x c.y) }
    {
        let width = tile_width(depth - c.level);
        let w = width as i64;
        Stage {
            level: c.level,
            across: haar::cells_across(c.level),
            x: c.x,
            y: c.y,
            width,
            left: before_middle(c.x, w, e.x0, e.x1),
            above: before_middle(c.y, w, e.y0, e.y1),
        }
    }

    // Does the edge lie in one quarter of the cell?
    fn holds_in_quarter(self, e: Edge) -> bool
        requires { StageRoom self × Measured e }
        ensures { Decides result ((abs (dx e) ≤ℤ abs self.left) × (abs (dy e) ≤ℤ abs self.above)) }
    {
        edge::lies_in_half(e.x1 - e.x0, self.left) && edge::lies_in_half(e.y1 - e.y0, self.above)
    }

    // The quarter that it lies in.
    fn quarter(self) -> Self
        requires { StageRoom self }
        ensures { result ≡ quarter_stage self }
    {
        let half = self.width / 2;
        let right = half as i64;
        Stage {
            level: self.level + 1,
            across: 2 * self.across,
            x: 2 * self.x + edge::half_with(self.left),
            y: 2 * self.y + edge::half_with(self.above),
            width: half,
            left: edge::before_half(self.left, right),
            above: edge::before_half(self.above, right),
        }
    }

    // The cell, with its square.
    fn node(self) -> Node
        requires { StageRoom self }
        ensures { result ≡ stage_node self }
    {
        let width = self.width as i64;
        Node {
            level: self.level,
            x: self.x,
            y: self.y,
            square: Cell {
                left: self.x as i64 * width,
                top: self.y as i64 * width,
                width,
            },
        }
    }
}

// Adds an edge on a cell to each cell in one quarter of which it lies, from this one down. Its details there are whole numbers, and no part of it lies inside
// the other three quarters. Answers the cell at which this ends: the smallest in which the edge lies, or one that has no quarters. (That the way goes so far
// is to be seen in the loop; the contract says what has been added.)
pub fn descend(table: &mut [i64], e: Edge, start: Stage, depth: usize) -> Node
    requires { (start.level ≤ depth) × Ready table.old e (depth - start.level) (stage_node start) × StageOf e depth start (stage_node start) }
    ensures { Descent e (stage_node start) (depth - start.level) table.old result table.new }
{
    let across = e.x1 - e.x0;
    let down = e.y1 - e.y0;
    let mut p = start;
    // The stage has its level: a `for` would count it a second time.
    while p.level < depth {
        if !p.holds_in_quarter(e) {
            return p.node();
        }
        let w = edge::quarter_details(p.width as i64, p.left, p.above, across, down);
        add_details(
            table,
            haar::first_detail_across(p.level, p.across, p.x, p.y),
            w,
        );
        p = p.quarter();
    }
    p.node()
}
