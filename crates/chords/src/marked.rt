// Points with the marks of their edges.
#![tactic(auto)]

ghost use Rattle.std.specs.Prelude.{◌≡◌, ◌*◌, length};
ghost use Rattle.placement.specs.Coordinates.{coordinates};
ghost use Rattle.chords.specs.Sides.{numbers};

use placement::points::PlacedPoints;

// How an edge is marked.
#[derive(Clone, Copy)]
pub enum Mark {
    Straight,
    Curved,
}

// 0 marks a straight edge, and any other number a curved one.
impl From<u8> for Mark {
    ghost use Rattle.std.specs.Prelude.{◌≡◌, eqb};
    ghost use Rattle.chords.specs.Marked.{is_straight};

    ghost from_gives = { λ m k. is_straight k ≡ eqb m 0 };

    fn from(value: u8) -> Mark {
        if value == 0 {
            Mark::Straight
        } else {
            Mark::Curved
        }
    }
}

impl Mark {
    ghost use Rattle.std.specs.Prelude.{◌≡◌, ◌*◌, cond};
    ghost use Rattle.chords.specs.Marked.{is_straight};

    // How many points an edge has of its own.
    pub fn points(self) -> usize
        ensures { 2 * result ≡ cond (is_straight self) 2 4 }
    {
        match self {
            Mark::Straight => 1,
            Mark::Curved => 2,
        }
    }
}

// How many points the edges with these marks have.
fn points_of(marks: &[u8]) -> usize
    ensures { 2 * result ≡ numbers marks.now }
{
    let mut sum = 0;
    for &mark in marks {
        sum += Mark::from(mark).points();
    }
    sum
}

// The points of a contour, or of some, and a mark for each edge: there are as many points as the marks say.
#[derive(Clone, Copy)]
pub struct MarkedPoints<'p, 'm> {
    pub points: PlacedPoints<'p>,
    pub marks: &'m [u8],
    pub ghost as_many: { length (coordinates points) ≡ numbers marks.now },
}

impl<'p, 'm> MarkedPoints<'p, 'm> {
    ghost use Rattle.std.specs.Prelude.{◌≡◌, ◌≤◌, length, take, drop};
    ghost use Rattle.placement.specs.Coordinates.{coordinates};
    ghost use Rattle.chords.specs.Sides.{numbers, marked_contour};
    ghost use Rattle.chords.specs.Marked.{contour_of};

    // The first k edges, and the others.
    pub fn split_at(&self, k: usize) -> (MarkedPoints<'p, 'm>, MarkedPoints<'p, 'm>)
        requires { k ≤ length self.now.marks.now }
        ensures first { contour_of result.0 ≡ marked_contour (take k self.now.marks.now) (take (numbers (take k self.now.marks.now)) (coordinates self.now.points)) }
        ensures others { contour_of result.1 ≡ marked_contour (drop k self.now.marks.now) (drop (numbers (take k self.now.marks.now)) (coordinates self.now.points)) }
    {
        let (own, others) = self.marks.split_at(k);
        let (first, rest) = self.points.split_at(points_of(own));
        (
            MarkedPoints {
                points: first,
                marks: own,
            },
            MarkedPoints {
                points: rest,
                marks: others,
            },
        )
    }
}
