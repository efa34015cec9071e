// The chords of a curve.
#![tactic(auto)]

ghost use Rattle.std.specs.Prelude.{◌≡◌};
ghost use Rattle.curve.specs.Curve.{bend, splits};

use crate::Curve;
use curve::Projection;
use edge::Edge;
use placement::Point;

// The 2^k chords of a curve on a sheet, one k for both coordinates.
#[derive(Clone, Copy)]
pub struct Chords {
    across: Projection,
    down: Projection,
    k: usize,
    ghost least: { k ≡ splits (bend across.p across.q across.r) (bend down.p down.q down.r) },
}

impl Chords {
    ghost use Rattle.std.specs.Prelude.{◌≡◌, ◌+◌, ◌^◌, ◌<◌, ◌≤◌};
    ghost use Rattle.curve.specs.Curve.{OnSheet};
    ghost use Rattle.accuracy.specs.Outline.{edge_between};
    ghost use Rattle.chords.specs.declared.Side.TheVariants.{Curved};
    ghost use Rattle.chords.specs.Chords.{splits_of, chord_point};
    ghost use Rattle.chords.specs.Inner.{curve_of};
    ghost use Rattle.chords.specs.Laws.SidesWithin.{SideWithin};

    // The chords of that curve.
    pub fn of(c: Curve) -> Chords
        requires { SideWithin OnSheet (Curved c) }
        ensures { curve_of result ≡ c }
    {
        let across = Projection {
            p: c.x0,
            q: c.cx,
            r: c.x1,
        };
        let down = Projection {
            p: c.y0,
            q: c.cy,
            r: c.y1,
        };
        let k = curve::splits_of(across.bend(), down.bend());
        Chords { across, down, k }
    }

    // How many there are.
    pub fn count(self) -> usize
        ensures { result ≡ 2 ^ splits_of (curve_of self) }
    {
        curve::chords_at(self.k)
    }

    // End i of them.
    fn end(self, i: usize) -> Point
        requires { i ≤ 2 ^ splits_of (curve_of self) }
        ensures { (result.x ≡ (chord_point (curve_of self) i).x) × (result.y ≡ (chord_point (curve_of self) i).y) }
    {
        Point {
            x: self.across.chord_end(self.k, i),
            y: self.down.chord_end(self.k, i),
        }
    }

    // Chord i.
    pub fn chord(self, i: usize) -> Edge
        requires { i < 2 ^ splits_of (curve_of self) }
        ensures { result ≡ edge_between (chord_point (curve_of self) i) (chord_point (curve_of self) (i + 1)) }
    {
        let from = self.end(i);
        let to = self.end(i + 1);
        Edge {
            x0: from.x,
            y0: from.y,
            x1: to.x,
            y1: to.y,
        }
    }
}
