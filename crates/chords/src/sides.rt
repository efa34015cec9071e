// The sides of a contour, one after the other.
#![tactic(auto)]

ghost use Rattle.std.specs.Prelude.{◌≡◌, ◌*◌, ◌-◌, drop};
ghost use Rattle.placement.specs.Coordinates.{coordinates, point_count};

use crate::Side;
use crate::marked::{Mark, MarkedPoints};
use placement::points::PlacedPoints;

// The sides that are still to come are those of `left`, whose points are the contour's last. The last side ends where the contour begins.
#[derive(Drop)]
pub struct Sides<'p, 'm> {
    contour: PlacedPoints<'p>,
    left: MarkedPoints<'p, 'm>,
    ghost begun: { coordinates left.points ≡ drop (2 * (point_count contour - point_count left.points)) (coordinates contour) },
}

impl<'p, 'm> Sides<'p, 'm> {
    ghost use Rattle.std.specs.Prelude.{◌≡◌, [], ◌∷◌, MatchOption};
    ghost use Rattle.chords.specs.Sides.{sides_of};
    ghost use Rattle.chords.specs.Marked.{contour_of, sides_left};

    // All sides of a contour.
    pub fn of(contour: &MarkedPoints<'p, 'm>) -> Sides<'p, 'm>
        ensures { sides_left result ≡ sides_of (contour_of contour.now) }
    {
        Sides {
            contour: contour.points,
            left: *contour,
        }
    }

    // The next side, if there is one.
    pub fn next(&mut self) -> Option<Side>
        ensures { MatchOption result (sides_left self.old ≡ []) (λ s. sides_left self.old ≡ s ∷ sides_left self.new) }
    {
        if self.left.marks.is_empty() {
            return None;
        }
        let mark = Mark::from(self.left.marks[0]);
        let (_, marks) = self.left.marks.split_at(1);
        let (_, points) = self.left.points.split_at(mark.points());
        let side = match mark {
            // It is an edge of the contour, so that where it ends is said in one place.
            Mark::Straight => {
                let n = self.contour.count();
                let k = n - self.left.points.count();
                Side::Straight(contours::edge_from(&self.contour, n, k))
            }
            Mark::Curved => {
                let end = if marks.is_empty() {
                    self.contour.point(0)
                } else {
                    points.point(0)
                };
                Side::Curved(crate::curve_to(&self.left.points, end))
            }
        };
        self.left = MarkedPoints { points, marks };
        Some(side)
    }
}
