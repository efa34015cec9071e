// A table, and all that is asked of `haar`.
ghost use Rattle.std.specs.Prelude.{◌≡◌, ◌^◌, ◌≤◌, length};
ghost use Rattle.integers.specs.Units.{greatest_depth};
ghost use Rattle.haar.specs.Cells.{children};
ghost use Rattle.haar.specs.Plane.{dimensions};
ghost use Rattle.haar.specs.Drawable.{Drawable};

use haar::grey::grey_of;
use haar::{cells_across, figure_at, figures, greys};

pub const GREATEST_DEPTH: usize = 6;

// 4^6: the entries of the deepest table, and the cells of its deepest level.
pub const MOST: usize = 4096;

// 2^40: what an entry may be at most.
const LIMIT: i64 = 1 << 40;

// A table of a depth, which can be drawn down to it. The list has room for the deepest one, so that there is no heap; past the table's own entries it holds
// what the tables before left there, and nothing reads it.
#[derive(Drop)]
pub struct Table {
    pub depth: usize,
    entries: [i64; MOST],
    ghost drawable: { Drawable entries depth },
}

// How many cells a level has, and how many entries a table of that depth has.
pub fn cells(level: usize) -> usize
    requires { level ≤ greatest_depth }
    ensures { result ≡ children dimensions ^ level }
{
    let n = cells_across(level);
    n * n
}

impl Table {
    // Of depth 0, its entry 0.
    pub fn blank() -> Table {
        Table {
            depth: 0,
            entries: [0; MOST],
        }
    }

    // Makes it one of another depth, all entries 0.
    pub fn clear(&mut self, depth: usize)
        requires { depth ≤ greatest_depth }
    {
        self.depth = depth;
        self.entries = [0; MOST];
    }

    // Stores an entry, where it has a place and is in range.
    pub fn put(&mut self, place: usize, entry: i64) -> Option<()> {
        if place < cells(self.depth) && (-LIMIT..=LIMIT).contains(&entry) {
            self.entries[place] = entry;
            Some(())
        } else {
            None
        }
    }

    pub fn figures(&self, level: usize, picture: &mut [i64])
        requires { (level ≤ self.now.depth) × (length picture.old ≡ children dimensions ^ level) }
    {
        figures(&self.entries, level, picture);
    }

    pub fn greys(&self, level: usize, picture: &mut [u8])
        requires { (level ≤ self.now.depth) × (length picture.old ≡ children dimensions ^ level) }
    {
        greys(&self.entries, self.depth, level, picture);
    }

    // The figure of one cell, where there is such a cell.
    pub fn figure(&self, level: usize, x: usize, y: usize) -> Option<i64> {
        if self.depth < level {
            return None;
        }
        let n = cells_across(level);
        if x < n && y < n {
            Some(figure_at(&self.entries, level, x, y))
        } else {
            None
        }
    }

    // The same as `figures`, each asked for alone. What the picture held goes first, so that a cell that is not asked for shows.
    pub fn figures_alone(&self, level: usize, picture: &mut [i64])
        requires { level ≤ self.now.depth }
    {
        picture.fill(0);
        let n = cells_across(level);
        let mut places = picture.iter_mut();
        for y in 0..n {
            for x in 0..n {
                if let Some(place) = places.next() {
                    *place = figure_at(&self.entries, level, x, y);
                }
            }
        }
    }

    pub fn grey_of(&self, figure: i64) -> u8 {
        grey_of(figure, self.depth)
    }
}
