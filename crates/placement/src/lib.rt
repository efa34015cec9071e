// The placement of an outline's points by 64-bit floats: none, a shift, a scale or a turn.
//
// A part is 1/65,536. Every float that is handed in must be a whole number of parts: at most 2^17 of them for a factor, 2^30 for an offset. A
// coordinate is a whole number of steps, at most 2^15. So, in parts, a product of the two is at most 2^32, and a × x + b × y + c stays below 2^34. A
// float keeps 53 binary digits, so that it holds every such number of parts as it is, and no product and no sum is rounded.
//
// The result is rounded without floats. In parts, that is times 65,536, it is a whole number, and is cast to one. Half a step is added and the bits
// of the parts are shifted out. The shift rounds down, below zero too, so that halves go towards the larger.
//
// A float is a multiple of 1/65,536 where it is, in parts, equal to its own integer part. Its range is tested before that, so that the integer part fits
// 64 bits; that shuts out what is not finite too.
#![tactic(auto)]

ghost use Rattle.std.specs.Prelude.{◌≡◌, ◌*◌, ◌≤◌, true, ◌&&◌, [], ◌∷◌, MatchOption};
ghost use Rattle.integers.specs.Units.{parts_per_step, factor_limit, offset_limit, placed_limit};
ghost use Rattle.integers.specs.Tests.{between};
ghost use Rattle.std.specs.Float.{binary64};
ghost use Rattle.std.specs.Float.Ieee.{mul};
ghost use Rattle.placement.specs.Parts.{Value, parts_of, is_multiple, Inside, InParts, nearest, per_step};
ghost use Rattle.placement.specs.Placed.{parts_at, across_of, down_of, is_moving, row_usable, floats_usable, placeable};
ghost use Rattle.placement.specs.Ready.{Ready, TurnsAs};
ghost use Rattle.placement.specs.Exact.{turned as machine_turned};
ghost use Rattle.placement.specs.declared.Placement.TheVariants.{None as Unmoved};

pub mod points;

// Parts to a step, as a float: a power of two, so that a product with it is exact as long as it is in range.
const PARTS_PER_STEP: f64 = 65536.0;

// The same as a shift.
const PART_BITS: i64 = 16;

// Half as many, which is added before the shift.
const HALF_STEP: i64 = 32768;

// Factors are from −2 to 2: no coordinate counts more than twice.
const FACTOR_LIMIT: u64 = 2;

// Offsets are from −16,384 to 16,384, the width of the largest tile either way.
const OFFSET_LIMIT: u64 = 16384;

// Points to be moved are from −32,768 to 32,767, the whole numbers of 16 bits.
const MOVABLE_LIMIT: i64 = 32768;

// The six numbers of a turn, which takes (x, y) to a × x + b × y + c and d × x + e × y + f: a, b and c are one row, and d, e and f the other.
#[derive(Clone, Copy)]
pub struct Matrix {
    pub a: f64,
    pub b: f64,
    pub c: f64,
    pub d: f64,
    pub e: f64,
    pub f: f64,
}

// What is done to an outline before it is drawn. (Nothing is a case among others, and no Option, since `placed_result` and the theorems name it.)
#[derive(Clone, Copy)]
pub enum Placement {
    None,
    Shift(f64, f64),
    Scale(f64),
    Turn(Matrix),
}

// One row of a turn.
#[derive(Clone, Copy)]
struct Row {
    a: f64,
    b: f64,
    c: f64,
}

impl Matrix {
    // The row that x comes from.
    fn across(self) -> Row
        ensures { result ≡ record { a = self.a; b = self.b; c = self.c } }
    {
        Row {
            a: self.a,
            b: self.b,
            c: self.c,
        }
    }

    // The row that y comes from.
    fn down(self) -> Row
        ensures { result ≡ record { a = self.d; b = self.e; c = self.f } }
    {
        Row {
            a: self.d,
            b: self.e,
            c: self.f,
        }
    }
}

#[derive(Clone, Copy)]
pub struct Point {
    pub x: i64,
    pub y: i64,
}

// x in parts. The product is exact for every x in range, multiple or not.
fn in_parts(x: f64) -> f64
    requires { Inside placed_limit x }
    ensures value { result ≡ mul binary64 x per_step }
    ensures in_parts { InParts x result }
{
    x * PARTS_PER_STEP
}

// ---- question 12

// Is x a multiple of 1/65,536 from −limit to limit?
fn is_multiple(x: f64, limit: u64) -> bool
    requires { limit ≤ offset_limit }
    ensures { result ≡ is_multiple limit x }
{
    let bound = limit as f64;
    if -bound <= x && x <= bound {
        let parts = in_parts(x);
        let whole = std::num::truncating_f64_to_i64(parts);
        return parts == (whole as f64);
    }
    false
}

// May x be one of a, b, d and e, or a scale?
fn is_factor(x: f64) -> bool
    ensures { result ≡ is_multiple factor_limit x }
{
    is_multiple(x, FACTOR_LIMIT)
}

// May x be c or f, or one of a shift's two?
fn is_offset(x: f64) -> bool
    ensures { result ≡ is_multiple offset_limit x }
{
    is_multiple(x, OFFSET_LIMIT)
}

// May it be a row of a turn?
fn is_row(r: Row) -> bool
    ensures { result ≡ row_usable r.a r.b r.c }
{
    is_factor(r.a) && is_factor(r.b) && is_offset(r.c)
}

// Is every float of a placement a multiple of 1/65,536 in its range?
fn are_floats_usable(p: Placement) -> bool
    ensures { result ≡ floats_usable p }
{
    match p {
        Placement::None => true,
        Placement::Shift(u, v) => is_offset(u) && is_offset(v),
        Placement::Scale(s) => is_factor(s),
        Placement::Turn(m) => is_row(m.across()) && is_row(m.down()),
    }
}

// Does the placement move points? With none, points may lie anywhere.
fn is_moving(p: Placement) -> bool
    ensures { result ≡ is_moving p }
{
    !matches!(p, Placement::None)
}

// Question 12: are the floats as they must be, and the points where they may be moved from?
pub fn is_placeable(p: Placement, points: &[i64]) -> bool
    ensures { result ≡ placeable p points.now }
{
    !is_moving(p)
        || are_floats_usable(p) && integers::all_within(points, -MOVABLE_LIMIT, MOVABLE_LIMIT - 1)
}

// ---- a point as placed

// a × x + b × y + c. Each product and each sum is exact.
fn turned(r: Row, x: i64, y: i64) -> f64
    requires { Ready r.a r.b r.c x y }
    ensures value { result ≡ machine_turned r.a r.b r.c x y }
    ensures value_2 { Value result (parts_at r.a r.b r.c x y) parts_per_step }
{
    r.a * (x as f64) + r.b * (y as f64) + r.c
}

// v to the nearest step, halves towards the larger.
fn nearest_step(v: f64) -> i64
    requires { is_multiple placed_limit v ≡ true }
    ensures { result ≡ nearest (parts_of v) }
{
    let parts = std::num::truncating_f64_to_i64(in_parts(v));
    (parts + HALF_STEP) >> PART_BITS
}

// One coordinate of a turned point.
fn coordinate(r: Row, x: i64, y: i64) -> i64
    requires { Ready r.a r.b r.c x y }
    ensures { result ≡ nearest (parts_at r.a r.b r.c x y) }
{
    nearest_step(turned(r, x, y))
}

// A point, turned.
fn turned_point(m: Matrix, x: i64, y: i64) -> Point
    requires { Ready m.a m.b m.c x y × Ready m.d m.e m.f x y }
    ensures { (result.x ≡ nearest (parts_at m.a m.b m.c x y)) × (result.y ≡ nearest (parts_at m.d m.e m.f x y)) }
{
    Point {
        x: coordinate(m.across(), x, y),
        y: coordinate(m.down(), x, y),
    }
}

// The turn that a placement is, where it moves points. A shift and a scale are turns whose other numbers are 1 and 0.
fn turn_of(p: Placement) -> Option<Matrix>
    ensures { MatchOption result (p ≡ Unmoved) (TurnsAs p) }
{
    match p {
        Placement::None => None,
        Placement::Shift(u, v) => Some(Matrix {
            a: 1.0,
            b: 0.0,
            c: u,
            d: 0.0,
            e: 1.0,
            f: v,
        }),
        Placement::Scale(s) => Some(Matrix {
            a: s,
            b: 0.0,
            c: 0.0,
            d: 0.0,
            e: s,
            f: 0.0,
        }),
        Placement::Turn(m) => Some(m),
    }
}

// Where a point goes.
fn moved(p: Placement, x: i64, y: i64) -> Point
    requires { placeable p (x ∷ y ∷ []) ≡ true }
    ensures { (result.x ≡ across_of p x y) × (result.y ≡ down_of p x y) }
{
    match turn_of(p) {
        None => Point { x, y },
        Some(m) => turned_point(m, x, y),
    }
}

// Are both coordinates of a point from low to high?
fn is_point_within(q: Point, low: i64, high: i64) -> bool
    ensures { result ≡ (between low high q.x && between low high q.y) }
{
    integers::is_within(q.x, low, high) && integers::is_within(q.y, low, high)
}
