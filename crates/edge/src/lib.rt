// What one edge adds to one cell's three Haar details, and to the cell's area, exactly, and rounded.
//
// An edge runs from (x0, y0) to (x1, y1); a cell is a square with its left and top side and its width. In the cell, h is twice the integral over dy of
// the distance from x to the nearer upright side, v is minus the same with x and y exchanged, and d is h with the sign turned in the lower half. The
// distance to the nearer side is a tent: 0 at both sides, highest in the middle, 0 outside. `specs/` says this as sums; here is how it is worked out.
//
// The walk. In N = |dx| × |dy| equal steps, |dy| × x and |dx| × y move by at most 1 a step. So every side and middle of a cell is crossed at a whole
// step t (a step here is one of these; 01's step, 1/256 pixel, is what coordinates count), found by one product and no division, and each value is a
// whole number over N. A level, upright or 45-degree edge is walked in unit steps: its values are whole, and nothing is divided by N. The walk is worked
// out once for an edge and passed by value from cell to cell; of a slanted one crate `slanted` passes on a few numbers in its place.
//
// The cuts. The steps inside a cell are consecutive, from the later of two entries to the earlier of two exits. The crossings of the two middles cut
// them into at most three pieces. On a piece each tent rises or falls steadily, as x and y do,
//
//       middle           /\               from side to side: up to the middle, and down again;
//       sides       ____/  \____          cut where x, or y, is in the middle of the cell
//
// so twice the integral of f dg over a piece is (f at its start + f at its end) × (g at its end − g at its start). For h, f is the tent of x and g is y;
// v is minus that for the tent of y and x; for d, both are tents. An edge that lies in one quarter of the cell is one such piece from end to end, and its
// details are whole: no cuts and no division by N.
//
// The area. It is h with another f: how far x lies past the left side, held between 0 and the cell's width. To the right of the cell that is the width, so an
// edge beyond the cell has a part in its area too, as long as it is in the cell's rows. These steps are cut where the walk crosses the left and the right
// side,
//
//       width            ____
//       0           ____/                 held x, from left to right
//
// and a piece adds the same product.
//
// No step is visited, no number passes 64 bits (`specs/Room.antt`), and nothing is rounded but the three details and the area, each on its own.
#![tactic(auto)]

ghost use Rattle.std.specs.Prelude.{◌≡◌, ◌⊎◌, ◌<◌, pos, nat_abs, ◌+ℤ◌, ◌-ℤ◌, ◌*ℤ◌, ◌≤ℤ◌, ◌<ℤ◌};
ghost use Rattle.integers.specs.Rounding.{round_half_away};
ghost use Rattle.integers.specs.Units.{width_times_extent_limit};
ghost use Rattle.integers.specs.Within.{Within};
ghost use Rattle.integers.specs.MinMax.{min, max};
ghost use Rattle.integers.specs.Clamp.{clamp};
ghost use Rattle.edge.specs.Walk.{extent as extent_of, sign as sign_of, dx, dy, ax as ax_of, ay as ay_of, beyond as beyond_side};
ghost use Rattle.edge.specs.Inside.{Inside};
ghost use Rattle.edge.specs.Rounded.{details as details_of, rounded_area};
ghost use Rattle.edge.specs.Cuts.{strip as strip_steps, strip_of, meet as meet_of, span as span_of, to_middle, cuts_at, rows};
ghost use Rattle.edge.specs.Room.{coordinate_limit, extent_limit, crossing_limit, Measured, Even, Room};
ghost use Rattle.edge.specs.Code.{AxisRoom, SamplesWithin, SamplesClosed, beyond_at, near_at, piece_sum, numerators_of, rounded_by, held_at};
ghost use Rattle.edge.specs.WalkOf.{IsWalk, Decides};

mod quarter;

use integers::div_round_half_away;
pub use quarter::{before_half, half_with, lies_in_half, quarter_details};

// From (x0, y0) to (x1, y1). An edge is made before anything is known of its range: `edge_from` of `contours` promises one of any points. So that it is
// `Measured` is asked where it is used.
#[derive(Clone, Copy)]
pub struct Edge {
    pub x0: i64,
    pub y0: i64,
    pub x1: i64,
    pub y1: i64,
}

// A square: its left and its top side, and its width.
#[derive(Clone, Copy)]
pub struct Cell {
    pub left: i64,
    pub top: i64,
    pub width: i64,
}

// h, v and d of an edge in a cell, in 01's units of half a square step, or their numerators. Before they are rounded, the parts of a closed contour's edges
// add up to the area in the left half less that in the right, upper less lower, and upper left and lower right less the other two quarters.
#[derive(Clone, Copy)]
pub struct Details {
    pub h: i64,
    pub v: i64,
    pub d: i64,
}

// One direction of a walk: the coordinate, `scale` times over, starts from `scale × start` and moves by `sign` at each step.
#[derive(Clone, Copy)]
pub struct Axis {
    pub scale: i64,
    pub start: i64,
    pub sign: i64,
}

// An edge and its walk in `steps` steps. The sums along it are `divisor` times the values. What it is by `IsWalk`, it is in every value of the type.
// `Room`, which is asked of a walk and a cell together, stays in the contracts: one struct of both and of the steps inside took `add_node` of `rasterize` 1.02 to
// 1.06 times the instructions.
#[derive(Clone, Copy)]
pub struct Walk {
    pub edge: Edge,
    pub x: Axis,
    pub y: Axis,
    pub steps: i64,
    pub divisor: i64,
    pub ghost is_walk: { ∥ IsWalk (record { edge = edge; x = x; y = y; steps = steps; divisor = divisor }) ∥₁ },
}

// One direction of a walk across a cell: from a side on to the one `width` farther on. What is formed of its numbers stays in range.
#[derive(Clone, Copy)]
pub struct Across {
    pub axis: Axis,
    pub side: i64,
    pub width: i64,
    pub ghost room: { AxisRoom axis side width },
}

// The steps t with first <= t < last: none, where first is not below last.
#[derive(Clone, Copy)]
pub struct Span {
    pub first: i64,
    pub last: i64,
}

// A number at each of the four cuts: the first step, two middles in their order, the last step; or those steps. By name and not in an array, as `cuts_at` and
// `SamplesClosed` of `specs/` say them; and of any range, since they are steps at one time and distances at another.
#[derive(Clone, Copy)]
pub struct Samples {
    pub first: i64,
    pub second: i64,
    pub third: i64,
    pub fourth: i64,
}

impl Samples {
    // The same of each of the four.
    fn map<F: Fn(i64) -> i64>(self, f: F) -> Samples
        requires { F.pre f self.first × F.pre f self.second × F.pre f self.third × F.pre f self.fourth }
        ensures { F.post f self.first result.first × F.post f self.second result.second × F.post f self.third result.third × F.post f self.fourth result.fourth }
    {
        Samples {
            first: f(self.first),
            second: f(self.second),
            third: f(self.third),
            fourth: f(self.fourth),
        }
    }
}

// ---- the walk

// The larger of |d| and 1.
fn extent(d: i64) -> i64
    requires { Within (pos extent_limit) d }
    ensures { result ≡ pos (extent_of d) }
{
    d.abs().max(1)
}

// Is an edge with these signs and extents level, upright or at 45 degrees?
fn is_octilinear(sx: i64, sy: i64, ax: i64, ay: i64) -> bool
    ensures { Decides result ((sx ≡ pos 0) ⊎ (sy ≡ pos 0) ⊎ (ax ≡ ay)) }
{
    sx == 0 || sy == 0 || ax == ay
}

// The walk, from extents and signs: in unit steps if the edge is octilinear, for then x and y are whole after each, and else in N.
fn walk_along(e: Edge, ax: i64, ay: i64, sx: i64, sy: i64) -> Walk
    requires { Measured e × (ax ≡ pos (ax_of e)) × (ay ≡ pos (ay_of e)) × (sx ≡ sign_of (dx e)) × (sy ≡ sign_of (dy e)) }
    ensures { result.edge ≡ e }
{
    if is_octilinear(sx, sy, ax, ay) {
        Walk {
            edge: e,
            x: Axis {
                scale: 1,
                start: e.x0,
                sign: sx,
            },
            y: Axis {
                scale: 1,
                start: e.y0,
                sign: sy,
            },
            steps: ax.max(ay),
            divisor: 1,
        }
    } else {
        let n = ax * ay;
        Walk {
            edge: e,
            x: Axis {
                scale: ay,
                start: e.x0,
                sign: sx,
            },
            y: Axis {
                scale: ax,
                start: e.y0,
                sign: sy,
            },
            steps: n,
            divisor: n,
        }
    }
}

impl Walk {
    // The walk of an edge, worked out once.
    pub fn of(e: Edge) -> Walk
        requires { Measured e }
        ensures { result.edge ≡ e }
    {
        let dx = e.x1 - e.x0;
        let dy = e.y1 - e.y0;
        walk_along(e, extent(dx), extent(dy), dx.signum(), dy.signum())
    }
}

// ---- the steps inside a cell

// The steps of one direction between two lines, which lie at `lower` and `upper` from its start. Standing still it is between them always or never; on a
// line is not between.
fn strip(s: i64, lower: i64, upper: i64, n: i64) -> Span
    requires { Within (pos crossing_limit) lower × Within (pos crossing_limit) upper }
    ensures { result ≡ strip_steps s lower upper n }
{
    if s > 0 {
        Span {
            first: lower,
            last: upper,
        }
    } else if s < 0 {
        Span {
            first: -upper,
            last: -lower,
        }
    } else if lower < 0 && 0 < upper {
        Span { first: 0, last: n }
    } else {
        Span { first: n, last: 0 }
    }
}

impl Across {
    // The steps between its two sides.
    fn strip(self, n: i64) -> Span
        ensures { result ≡ strip_of self.axis self.side self.width n }
    {
        let a = self.axis;
        let lower = a.scale * (self.side - a.start);
        strip(a.sign, lower, lower + a.scale * self.width, n)
    }
}

// The steps from 0 to n that are in both.
fn meet(r: Span, s: Span, n: i64) -> Span
    ensures { result ≡ meet_of r s n }
{
    Span {
        first: r.first.max(s.first).max(0),
        last: r.last.min(s.last).min(n),
    }
}

impl Walk {
    // From the cell's left side to its right one.
    pub fn across(self, c: Cell) -> Across
        requires { Room self.edge c }
        ensures { (result.axis ≡ self.x) × (result.side ≡ c.left) × (result.width ≡ c.width) }
    {
        Across {
            axis: self.x,
            side: c.left,
            width: c.width,
        }
    }

    // From its top to its bottom.
    pub fn down(self, c: Cell) -> Across
        requires { Room self.edge c }
        ensures { (result.axis ≡ self.y) × (result.side ≡ c.top) × (result.width ≡ c.width) }
    {
        Across {
            axis: self.y,
            side: c.top,
            width: c.width,
        }
    }

    // The steps of the walk that lie strictly inside the cell. For a caller that asks both whether there are any and what they add.
    pub fn span_in(self, c: Cell) -> Span
        requires { Room self.edge c }
        ensures { result ≡ span_of self.x self.y c self.steps }
    {
        let n = self.steps;
        meet(self.across(c).strip(n), self.down(c).strip(n), n)
    }

    // Does some part of the edge lie strictly inside the cell? If not, its details are 0 here and in every cell inside this one
    // (`proofs/Laws/Zero.antt`). An edge that only touches a corner, or runs along a side, does not.
    pub fn comes_inside(self, c: Cell) -> bool
        requires { Room self.edge c }
        ensures { Decides result (Inside self.edge c) }
    {
        let s = self.span_in(c);
        s.first < s.last
    }
}

// ---- the closed form

// From the first step to the last, cut at the steps x and y, at which the middles are crossed, if these lie between.
fn cuts_of(s: Span, x: i64, y: i64) -> Samples
    requires { s.first ≤ℤ s.last }
    ensures { result ≡ cuts_at s.first s.last x y }
{
    let a = x.clamp(s.first, s.last);
    let b = y.clamp(s.first, s.last);
    Samples {
        first: s.first,
        second: a.min(b),
        third: a.max(b),
        fourth: s.last,
    }
}

impl Across {
    // The step at which the middle between the sides is crossed; and with another number in the place of half of the width, the line so far past the first side.
    pub fn middle(self, half: i64) -> i64
        requires { (pos 0 ≤ℤ half) × (half ≤ℤ self.width) }
        ensures { result ≡ to_middle self.axis self.side half }
    {
        let a = self.axis;
        a.sign * (a.scale * (self.side - a.start) + a.scale * half)
    }

    // The width, `scale` times over.
    fn reach(self) -> i64
        ensures { result ≡ self.axis.scale *ℤ self.width }
    {
        self.axis.scale * self.width
    }

    // How far past the first side after t steps, `scale` times over.
    fn beyond(self, t: i64) -> i64
        requires { Within (pos crossing_limit) t }
        ensures { result ≡ beyond_side self.axis self.side t }
    {
        let a = self.axis;
        a.scale * (a.start - self.side) + a.sign * t
    }

    // And at the four cuts.
    fn past(self, k: Samples) -> Samples
        requires { SamplesWithin (pos crossing_limit) k }
        ensures { result ≡ beyond_at self.axis self.side k }
    {
        k.map(|t| self.beyond(t))
    }
}

// From u, between 0 and m, to the nearer of the two.
fn nearer(m: i64, u: i64) -> i64
    requires { Within (pos width_times_extent_limit) m × Within (pos width_times_extent_limit) u }
    ensures { result ≡ min u (m -ℤ u) }
{
    u.min(m - u)
}

fn near_at(m: i64, u: Samples) -> Samples
    requires { Within (pos width_times_extent_limit) m × SamplesWithin (pos width_times_extent_limit) u }
    ensures { result ≡ near_at m u }
{
    u.map(|z| nearer(m, z))
}

// What a piece adds to twice the integral of f dg, f and g being linear on it.
fn piece(f0: i64, f1: i64, g0: i64, g1: i64) -> i64
    requires { Within (pos width_times_extent_limit) f0 × Within (pos width_times_extent_limit) f1 × Within (pos width_times_extent_limit) g0 × Within (pos width_times_extent_limit) g1 }
    ensures { result ≡ (f0 +ℤ f1) *ℤ (g1 -ℤ g0) }
{
    (f0 + f1) * (g1 - g0)
}

fn pieces(f: Samples, g: Samples) -> i64
    requires { SamplesWithin (pos width_times_extent_limit) f × SamplesWithin (pos width_times_extent_limit) g }
    ensures { result ≡ piece_sum f g }
{
    let first = piece(f.first, f.second, g.first, g.second);
    let second = piece(f.second, f.third, g.second, g.third);
    let third = piece(f.third, f.fourth, g.third, g.fourth);
    first + second + third
}

// h, v and d, `divisor` times over.
fn numerators(a: Across, b: Across, k: Samples) -> Details
    requires { SamplesWithin (pos crossing_limit) k × SamplesClosed a.axis a.side a.width k × SamplesClosed b.axis b.side b.width k }
    ensures { result ≡ numerators_of (a.axis.scale *ℤ a.width) (b.axis.scale *ℤ b.width) (beyond_at a.axis a.side k) (beyond_at b.axis b.side k) }
{
    let x = a.past(k);
    let y = b.past(k);
    let nx = near_at(a.reach(), x);
    let ny = near_at(b.reach(), y);
    Details {
        h: pieces(nx, y),
        v: -pieces(ny, x),
        d: pieces(nx, ny),
    }
}

// To the nearest whole number, halves away from zero. Over 1 a number is whole, and nothing is divided. (That n is above 0 is asked here and in `round_all`
// alone: a type for it would be longer than the two.)
fn round_one(m: i64, n: i64) -> i64
    requires { pos 0 <ℤ n }
    ensures { result ≡ round_half_away m (nat_abs n) }
{
    if n == 1 { m } else { div_round_half_away(m, n) }
}

// Each on its own. A map of these three would be used here alone, and be longer.
fn round_all(m: Details, n: i64) -> Details
    requires { pos 0 <ℤ n }
    ensures { result ≡ rounded_by n m }
{
    Details {
        h: round_one(m.h, n),
        v: round_one(m.v, n),
        d: round_one(m.d, n),
    }
}

// ---- the rounded details

// Half of an even width.
pub fn half_of(width: i64) -> i64
    requires { Even width }
    ensures { (width ≡ result +ℤ result) × (pos 0 ≤ℤ result) }
{
    width >> 1
}

impl Walk {
    // Where some step lies inside: the sum over the pieces, rounded.
    fn cut_details(self, c: Cell, half: i64, s: Span) -> Details
        requires { Room self.edge c × (c.width ≡ half +ℤ half) × (pos 0 ≤ℤ half) × (s ≡ span_of self.x self.y c self.steps) × (s.first <ℤ s.last) }
        ensures { result ≡ details_of self.edge c }
    {
        let x = self.across(c);
        let y = self.down(c);
        let k = cuts_of(s, x.middle(half), y.middle(half));
        round_all(numerators(x, y, k), self.divisor)
    }

    // The rounded details of the walk's edge in the cell, given the steps inside, as `span_in` answers them.
    pub fn details_over(self, c: Cell, s: Span) -> Details
        requires { Room self.edge c × (s ≡ span_of self.x self.y c self.steps) }
        ensures { result ≡ details_of self.edge c }
    {
        if s.first < s.last {
            let half = half_of(c.width);
            self.cut_details(c, half, s)
        } else {
            Details { h: 0, v: 0, d: 0 }
        }
    }

    // The rounded details of the walk's edge in the cell.
    pub fn details_in(self, c: Cell) -> Details
        requires { Room self.edge c }
        ensures { result ≡ details_of self.edge c }
    {
        self.details_over(c, self.span_in(c))
    }
}

// ---- the rounded area

// Held between 0 and m, at each cut.
fn hold_at(m: i64, u: Samples) -> Samples
    requires { pos 0 ≤ℤ m }
    ensures { result ≡ held_at m u }
{
    u.map(|z| z.clamp(0, m))
}

impl Walk {
    // The steps of the walk, from 0 to its last, in the cell's rows: y is between its sides there, and x may be anywhere.
    fn rows_of(self, c: Cell) -> Span
        requires { Room self.edge c }
        ensures { result ≡ rows self.y c self.steps }
    {
        let n = self.steps;
        let r = self.down(c).strip(n);
        meet(r, r, n)
    }
}

// The area, `divisor` times over, from cuts in the rows.
fn area_numerator(a: Across, b: Across, k: Samples) -> i64
    requires { SamplesWithin (pos crossing_limit) k × SamplesClosed b.axis b.side b.width k }
    ensures { result ≡ piece_sum (held_at (a.axis.scale *ℤ a.width) (beyond_at a.axis a.side k)) (beyond_at b.axis b.side k) }
{
    let x = hold_at(a.reach(), a.past(k));
    let y = b.past(k);
    pieces(x, y)
}

impl Walk {
    // Where some step is in the rows: the sum over the pieces, rounded. The sides are crossed as a middle would be that lies 0, or the whole width, past the
    // left side.
    fn cut_area(self, c: Cell, s: Span) -> i64
        requires { Room self.edge c × (s ≡ rows self.y c self.steps) × (s.first <ℤ s.last) }
        ensures { result ≡ rounded_area self.edge c }
    {
        let x = self.across(c);
        let k = cuts_of(s, x.middle(0), x.middle(c.width));
        round_one(area_numerator(x, self.down(c), k), self.divisor)
    }

    // The rounded area of the walk's edge in the cell. An edge that does not come inside may have one: to the right of the cell, in its rows.
    pub fn area_in(self, c: Cell) -> i64
        requires { Room self.edge c }
        ensures { result ≡ rounded_area self.edge c }
    {
        let s = self.rows_of(c);
        if s.first < s.last {
            self.cut_area(c, s)
        } else {
            0
        }
    }
}
