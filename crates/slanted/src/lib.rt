// A slanted edge in the cells of the quadtree, counted in the steps of its walk.
//
// An edge that is neither level nor upright moves in x and in y at every step of its walk (`edge`). So after t steps it is p - |t - m| steps from the
// nearer upright side of a cell, where m is the step at which x crosses the middle and p is half of the cell's width in steps of x:
//
//       p              /\             twice what lies under this tent, from the first step inside the cell to the last, is h but for its sign, `divisor`
//                     /  \            times over, and under that of y it is v; d is what lies under the tent of x until y crosses its own middle, less the rest.
//       0         ___/    \___
//              m - p   m   m + p
//
// Six numbers tell what the edge adds in a cell: the first step and the last, the two crossings, half of the width in steps of x and of y. Those of a
// quarter come from the cell's: half of the width is halved; the middle of the half that the edge is in before the crossing lies that much before the
// crossing, and of the half after it that much after; and the steps inside are cut at the crossing. No product is formed, and no coordinate is read.
//
// Nothing is rounded but the three details, each on its own.
#![tactic(auto)]

ghost use Rattle.std.specs.Prelude.{◌≡◌, ◌<◌, pos, nat_abs, ◌+ℤ◌, ◌-ℤ◌, ◌*ℤ◌, ◌≤ℤ◌, ◌<ℤ◌};
ghost use Rattle.integers.specs.Rounding.{round_half_away};
ghost use Rattle.integers.specs.Units.{width_times_extent_limit};
ghost use Rattle.integers.specs.Within.{Within};
ghost use Rattle.integers.specs.MinMax.{min, max};
ghost use Rattle.edge.specs.Cuts.{span as span_of};
ghost use Rattle.edge.specs.Room.{crossing_limit, Even, Room};
ghost use Rattle.edge.specs.WalkOf.{Decides};
ghost use Rattle.edge.specs.CourseOf.{course};
ghost use Rattle.edge.specs.Nested.{OnCell};
ghost use Rattle.slanted.specs.Under.{signed_square, under, turned as turned_sum, under_limit, sum_limit, far_limit, Arch, Turns};
ghost use Rattle.slanted.specs.Pieces.{Moving, piece_of, rounded_details, signed_by, Sound, Ranged};
ghost use Rattle.slanted.specs.Parts.{since as since_of, until as until_of, shifted as shifted_by, IsPart};

use edge::{Cell, Details, Span, Walk, half_of};

// What all cells share of a walk: what its sums are divided by, and its signs in x and in y.
#[derive(Clone, Copy)]
pub struct Slope {
    pub divisor: i64,
    pub x: i64,
    pub y: i64,
}

// A walk in a cell, in steps: the first inside and the last, those at which the middles are crossed, and half of the width. What `Sound` says is no part of the
// type: in a quarter that the edge misses there is no step, and `part_of` answers that too.
#[derive(Clone, Copy)]
pub struct Piece {
    pub first: i64,
    pub last: i64,
    pub middle_x: i64,
    pub middle_y: i64,
    pub half_x: i64,
    pub half_y: i64,
}

// A tent: half of a cell's width in the steps of a direction, the step at which that direction crosses the middle, and those from which and to which it is
// asked for, where it is not negative.
#[derive(Clone, Copy)]
struct Tent {
    half: i64,
    middle: i64,
    first: i64,
    last: i64,
    ghost arch: { Arch half middle first last },
}

// ---- from a walk

// Does the walk move in both directions?
pub fn is_slanted(w: Walk) -> bool
    ensures { Decides result (Moving w.x × Moving w.y) }
{
    w.x.sign != 0 && w.y.sign != 0
}

// The steps inside a cell that the edge lies on: all of them, if it is slanted.
pub fn span_on(w: Walk, c: Cell) -> Span
    requires { Room w.edge c × OnCell c w.edge }
    ensures { result ≡ span_of w.x w.y c w.steps }
{
    if is_slanted(w) {
        Span {
            first: 0,
            last: w.steps,
        }
    } else {
        w.span_in(c)
    }
}

// The piece of a walk in a cell, given the steps inside, as `span_in` of the walk answers them.
pub fn piece_of(w: Walk, c: Cell, half: i64, s: Span) -> Piece
    requires { Room w.edge c × (c.width ≡ half +ℤ half) × (pos 0 ≤ℤ half) × (s ≡ span_of w.x w.y c w.steps) }
    ensures { result ≡ piece_of (course w) c half }
{
    Piece {
        first: s.first,
        last: s.last,
        middle_x: w.across(c).middle(half),
        middle_y: w.down(c).middle(half),
        half_x: w.x.scale * half,
        half_y: w.y.scale * half,
    }
}

// ---- the details

// z², with the sign of z. Which side of a middle a step lies on cannot be foreseen, so there is no branch on it.
fn signed_square(z: i64) -> i64
    requires { Within (pos width_times_extent_limit) z }
    ensures { result ≡ signed_square z }
{
    z * z.abs()
}

// m / n to the nearest whole number, a half going up. m is not negative. (The range of n stands in three contracts: it is the divisor of a slope, and a struct
// of this one number would be taken apart at once in each.)
fn nearest(m: i64, n: i64) -> i64
    requires { (pos 0 ≤ℤ m) × (m ≤ℤ pos sum_limit) × (pos 0 <ℤ n) × (n ≤ℤ pos crossing_limit) }
    ensures { result ≡ round_half_away m (nat_abs n) }
{
    (m + (n >> 1)) / n
}

// The sign of m, 1 for 0. The library's `signum` has a third case, which would only be one more to prove.
fn turn(m: i64) -> i64
    ensures { Turns m result }
{
    if m < 0 { -1 } else { 1 }
}

// m / n to the nearest whole number, a half going away from zero, for any m.
fn away(m: i64, n: i64) -> i64
    requires { Within (pos sum_limit) m × (pos 0 <ℤ n) × (n ≤ℤ pos crossing_limit) }
    ensures { result ≡ round_half_away m (nat_abs n) }
{
    let s = turn(m);
    s * nearest(s * m, n)
}

impl Tent {
    // Twice the sum of half - |t - middle| over the steps t from the first to the last, each by the mean of its two ends.
    fn under(self) -> i64
        ensures { result ≡ under self.half self.middle self.first self.last }
    {
        let m = self.middle;
        2 * self.half * (self.last - self.first)
            - (signed_square(self.last - m) - signed_square(self.first - m))
    }

    // What lies under it up to step y, less what comes after, where h is all of it.
    fn turned(self, y: i64, h: i64) -> i64
        requires { h ≡ under self.half self.middle self.first self.last }
        ensures { result ≡ turned_sum self.half self.middle self.first self.last y }
    {
        if self.last <= y {
            h
        } else if y <= self.first {
            -h
        } else {
            let before = Tent {
                half: self.half,
                middle: self.middle,
                first: self.first,
                last: y,
            };
            2 * before.under() - h
        }
    }

    // `turned` over n, rounded. r is h over n, rounded: if y does not lie between the two ends, the answer is r or -r, and nothing is divided again.
    fn turned_over(self, y: i64, h: i64, r: i64, n: i64) -> i64
        requires { (h ≡ under self.half self.middle self.first self.last) × (r ≡ round_half_away h (nat_abs n)) × (pos 0 <ℤ n) × (n ≤ℤ pos crossing_limit) }
        ensures { result ≡ round_half_away (turned_sum self.half self.middle self.first self.last y) (nat_abs n) }
    {
        let to = self.last;
        if to <= y {
            r
        } else if y <= self.first {
            -r
        } else {
            away(self.turned(y, h), n)
        }
    }
}

// The sign of y goes to h, and minus the sign of x to v. d has none: whichever way y goes, it moves away from a side first, and nearer to one after.
fn signed(l: Slope, h: i64, v: i64, d: i64) -> Details
    requires { Within (pos 1) l.x × Within (pos 1) l.y × Within (pos under_limit) h × Within (pos under_limit) v }
    ensures { result ≡ signed_by l h v d }
{
    Details {
        h: l.y * h,
        v: -(l.x * v),
        d,
    }
}

// Over 1 the sums are whole, and nothing is divided.
fn whole(l: Slope, k: Piece) -> Details
    requires { Sound l k × (l.divisor ≡ pos 1) }
    ensures { result ≡ rounded_details l k }
{
    let x = Tent {
        half: k.half_x,
        middle: k.middle_x,
        first: k.first,
        last: k.last,
    };
    let y = Tent {
        half: k.half_y,
        middle: k.middle_y,
        first: k.first,
        last: k.last,
    };
    let h = x.under();
    let v = y.under();
    signed(l, h, v, x.turned(k.middle_y, h))
}

// Over n each is rounded on its own.
fn divided(l: Slope, k: Piece) -> Details
    requires { Sound l k }
    ensures { result ≡ rounded_details l k }
{
    let x = Tent {
        half: k.half_x,
        middle: k.middle_x,
        first: k.first,
        last: k.last,
    };
    let y = Tent {
        half: k.half_y,
        middle: k.middle_y,
        first: k.first,
        last: k.last,
    };
    let n = l.divisor;
    let h = x.under();
    let r = nearest(h, n);
    let v = nearest(y.under(), n);
    signed(l, r, v, x.turned_over(k.middle_y, h, r, n))
}

// The rounded details of a walk in a cell, by its piece there. At 45 degrees the divisor is 1. One test, and two functions: a test at each quotient
// would cost more.
pub fn details_of(l: Slope, k: Piece) -> Details
    requires { Sound l k }
    ensures { result ≡ rounded_details l k }
{
    if l.divisor == 1 {
        whole(l, k)
    } else {
        divided(l, k)
    }
}

// ---- in a quarter, half by half: 0 is the half before a crossing, and 1 the one after it. A number and no enum, since it is reckoned with: a part's number is
// that of its half of x and twice that of y (`IsPart` of `specs/`).

// The first step in the half, where t is the first in both and m the crossing.
fn since(k: usize, t: i64, m: i64) -> i64
    ensures { result ≡ since_of k t m }
{
    if k == 0 { t } else { t.max(m) }
}

// The last step in it.
fn until(k: usize, t: i64, m: i64) -> i64
    ensures { result ≡ until_of k t m }
{
    if k == 0 { t.min(m) } else { t }
}

// The crossing of its middle, q steps off.
fn shifted(k: usize, m: i64, q: i64) -> i64
    requires { Within (pos far_limit) m × Within (pos far_limit) q }
    ensures { result ≡ shifted_by k m q }
{
    if k == 0 { m - q } else { m + q }
}

// Part p of a piece: p % 2 is 0 before the middle of x is crossed and 1 after, p / 2 likewise of y.
pub fn part_of(k: Piece, p: usize) -> Piece
    requires { Ranged k × Even k.half_x × Even k.half_y × (p < 4) }
    ensures { IsPart k p result }
{
    let i = p % 2;
    let j = p / 2;
    let x = k.middle_x;
    let y = k.middle_y;
    let qx = half_of(k.half_x);
    let qy = half_of(k.half_y);
    Piece {
        first: since(j, since(i, k.first, x), y),
        last: until(j, until(i, k.last, x), y),
        middle_x: shifted(i, x, qx),
        middle_y: shifted(j, y, qy),
        half_x: qx,
        half_y: qy,
    }
}
