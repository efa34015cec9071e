// The points of an outline with the placement that they are drawn under.
#![tactic(auto)]

ghost use Rattle.std.specs.Prelude.{◌≡◌, true};
ghost use Rattle.placement.specs.Placed.{placeable};

use crate::{Placement, Point};

// The points of an outline, or of a part of one, as they were given, and a placement that may be used on them.
#[derive(Clone, Copy)]
pub struct PlacedPoints<'a> {
    pub given: &'a [i64],
    pub placement: Placement,
    pub ghost placeable: { placeable placement given.now ≡ true },
}

impl<'a> PlacedPoints<'a> {
    ghost use Rattle.std.specs.Prelude.{◌≡◌, ◌+◌, ◌*◌, ◌/◌, ◌%◌, ◌<◌, ◌≤◌, length, take, drop, pos, slice_index_or};
    ghost use Rattle.integers.specs.Tests.{every, between};
    ghost use Rattle.placement.specs.Coordinates.{coordinates, point_count};

    // How many points there are.
    #[tactic(auto, using(crate::proofs::Laws::PlacedPoints::as_many))]
    pub fn count(&self) -> usize
        ensures { result ≡ point_count self.now }
    {
        self.given.len() / 2
    }

    // Point k, as placed. Where nothing is moved, that is the point itself, and no call is made: the function is small enough to be inlined.
    #[tactic(auto, using(crate::proofs::Laws::PlacedPoints::as_many))]
    pub fn point(&self, k: usize) -> Point
        requires { k < point_count self.now }
        ensures { (result.x ≡ slice_index_or (coordinates self.now) (2 * k) (pos 0)) × (result.y ≡ slice_index_or (coordinates self.now) (2 * k + 1) (pos 0)) }
    {
        let across = self.given[2 * k];
        let down = self.given[2 * k + 1];
        match self.placement {
            Placement::None => Point { x: across, y: down },
            _ => crate::moved(self.placement, across, down),
        }
    }

    // The first k points, and the others.
    #[tactic(auto, using(crate::proofs::Laws::PlacedPoints::as_many))]
    pub fn split_at(&self, k: usize) -> (PlacedPoints<'a>, PlacedPoints<'a>)
        requires { 2 * k ≤ length (coordinates self.now) }
        ensures first { coordinates result.0 ≡ take (2 * k) (coordinates self.now) }
        ensures others { coordinates result.1 ≡ drop (2 * k) (coordinates self.now) }
    {
        let (first, others) = self.given.split_at(2 * k);
        let placement = self.placement;
        (
            PlacedPoints {
                given: first,
                placement,
            },
            PlacedPoints {
                given: others,
                placement,
            },
        )
    }

    // Question 6, of points that are moved. One point after the other is fetched and placed.
    fn all_moved_within(&self, low: i64, high: i64) -> bool
        requires { length self.now.given.now % 2 ≡ 0 }
        ensures { result ≡ every (between low high) (coordinates self.now) }
    {
        for k in 0..self.count() {
            if !crate::is_point_within(self.point(k), low, high) {
                return false;
            }
        }
        true
    }

    // Question 6, which is decided on the placed points: do all coordinates lie from low to high? Without a placement these are the points themselves, and none
    // needs to be fetched through it.
    pub fn all_within(&self, low: i64, high: i64) -> bool
        requires { length self.now.given.now % 2 ≡ 0 }
        ensures { result ≡ every (between low high) (coordinates self.now) }
    {
        match self.placement {
            Placement::None => integers::all_within(self.given, low, high),
            _ => self.all_moved_within(low, high),
        }
    }
}
