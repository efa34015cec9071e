// An edge in one quarter of a cell.
//
// `before` says how far both ends of an edge lie before the middle of a cell, added up: to the left of it, or above it. They lie behind it where that is
// negative. If they lie in one half, it is the width less their distances from that half's side.

ghost use Rattle.std.specs.Prelude.{◌≡◌, pos, ◌≤ℤ◌};
ghost use Rattle.integers.specs.Within.{Within};
ghost use Rattle.integers.specs.Magnitude.{abs as abs_of};
ghost use Rattle.edge.specs.Room.{extent_limit};
ghost use Rattle.edge.specs.Code.{half_with, before_half, quarter_details};
ghost use Rattle.edge.specs.WalkOf.{Decides};

use crate::Details;

// Do both ends lie in one half, the middle with it? They do where they lie no farther from each other, by `run`, than both together from the middle.
pub fn lies_in_half(run: i64, before: i64) -> bool
    requires { Within (pos extent_limit) run × Within (pos extent_limit) before }
    ensures { Decides result (abs_of run ≤ℤ abs_of before) }
{
    run.abs() <= before.abs()
}

// Which half: 0 the first, 1 the second. A number and no enum, since it is reckoned with: a quarter's column is twice its cell's and this (`quarter_stage` of
// `rasterize`).
pub fn half_with(before: i64) -> usize
    ensures { result ≡ half_with before }
{
    if before < 0 { 1 } else { 0 }
}

// How far they lie before the middle of that half.
pub fn before_half(before: i64, half: i64) -> i64
    requires { Within (pos extent_limit) before × Within (pos extent_limit) half }
    ensures { result ≡ before_half before half }
{
    if before < 0 {
        before + half
    } else {
        before - half
    }
}

// Along an edge in one quarter no tent bends: it is one piece from end to end, whose values are whole. In the upper half d is h, and in the lower it is minus h.
// So the details are worked out from how far the ends lie before the cell's middles, and from the differences of the ends.
pub fn quarter_details(width: i64, left: i64, above: i64, dx: i64, dy: i64) -> Details
    requires { Within (pos extent_limit) width × Within (pos extent_limit) left × Within (pos extent_limit) above × Within (pos extent_limit) dx × Within (pos extent_limit) dy }
    ensures { result ≡ quarter_details width left above dx dy }
{
    let h = (width - left.abs()) * dy;
    let v = (width - above.abs()) * dx;
    let d = if above < 0 { -h } else { h };
    Details { h, v: -v, d }
}
