// Figures and greys from a table of Haar coefficients.
//
// The tile is cut into quarters, each quarter into quarters, and so on: a quadtree, whose level j has 2^j by 2^j cells. The table has the area of
// all the ink, the root, and three details of each cell that is cut: h, left half less right half; v, upper half less lower half; d, upper left and
// lower right quarters less the other two. A cell's figure is 4^j times its area, so that nothing is divided on the way down:
//
//       figure of a quarter = figure of the cell + 4^j × (± h ± v ± d)             + h | − h      + v      + d | − d
//                                                                                      |         -----    -----+-----
//       h is plus on the left, v above, d in the upper left and lower right            |          − v      − d | + d
//
// A picture is drawn level by level, from the root down: a list begins as the root alone and is refined in place into the figures of 4, 16, 64 ..
// cells. A row of cells has its children in two rows. Along each of these v keeps its sign, and two children that lie side by side differ in the
// signs of h and d alone:
//
//       left, right  =  (f ± 4^j v)  plus and minus  (4^j h ± 4^j d)
//
// The children of the last cell are put in first, so that no figure is overwritten before it is used. A picture takes fewer than two such pairs for
// three of its cells. Greys need the figures of the level above, at most 1,024, beside the picture; all levels of greys in one list need no more. One
// cell alone takes a pair for each level. Figures of a table whose entries are within 2^40 are within 2^52, so no number passes 64 bits.
#![tactic(auto)]

ghost use Rattle.std.specs.Prelude.{◌≡◌, refl, List, suc, ◌+◌, ◌*◌, ◌-◌, ◌/◌, ◌%◌, ◌^◌, ◌<◌, ◌≤◌, length, get_or, set, ℤ, pos, ◌*ℤ◌};
ghost use Rattle.integers.specs.Units.{greatest_depth, greatest_side};
ghost use Rattle.integers.specs.Within.{Within};
ghost use Rattle.integers.specs.HalfSign.{half_sign};
ghost use Rattle.haar.specs.Cells.{children};
ghost use Rattle.haar.specs.Table.{index};
ghost use Rattle.haar.specs.Greys.{grey_of};
ghost use Rattle.haar.specs.Plane.{dimensions, h_detail, at, figure_in, picture_in};
ghost use Rattle.haar.specs.Drawable.{Drawable, DrawableCell, DrawablePicture};
ghost use Rattle.haar.specs.Pairs.{Refinable, scale_limit, parent_limit, PairBounds, pair_of, IsPair};
ghost use Rattle.haar.specs.Levels.{put_pair, HasDrawn, HasFigures, HasParents, KeepsParents, RowParents, RowsBelow, Parents};
ghost use Rattle.haar.specs.Pyramid.{places, pyramid_in, DrawablePyramid};

pub mod grey;

// Details to a cell: h, v and d.
const DETAILS: usize = 3;

// The cells of the deepest level whose cells have children.
const MOST_PARENTS: usize = 1024;

// Down to this level a shorter list has room for the figures of the level above, and takes less time to make.
const SHALLOW: usize = 4;

// 4^3: the cells of the level above that.
const FEW_PARENTS: usize = 64;

// Two children of a cell that lie side by side, in its upper or in its lower half.
#[derive(Clone, Copy)]
struct Pair {
    left: i64,
    right: i64,
}

// How many cells a level has in each direction. (Levels and depths are plain numbers, here and in the crates above, and that they are at most 6 is asked where
// it is needed: all definitions count by them, so that a type of their own would have to be turned into the number in every clause.)
pub fn cells_across(level: usize) -> usize
    requires { level ≤ greatest_depth }
    ensures { result ≡ 2 ^ level }
{
    1usize << level
}

// Where the details of cell (x, y) of a level begin.
pub fn first_detail(level: usize, x: usize, y: usize) -> usize
    requires { (level < greatest_depth) × (x < 2 ^ level) × (y < 2 ^ level) }
    ensures { result ≡ index dimensions level (at x y) h_detail }
{
    first_detail_across(level, cells_across(level), x, y)
}

// The same where the number of cells across, n, is known. `level` is for the contract alone. Other crates call both, so both stay.
pub fn first_detail_across(level: usize, n: usize, x: usize, y: usize) -> usize
    requires { (level < greatest_depth) × (n ≡ 2 ^ level) × (x < 2 ^ level) × (y < 2 ^ level) }
    ensures { result ≡ index dimensions level (at x y) h_detail }
{
    n * (n + DETAILS * y) + DETAILS * x
}

// z with the sign that v has in row cy of the next level: plus in the upper half of a cell, minus in the lower half.
fn turned_in_row(z: i64, cy: usize) -> i64
    requires { Within (pos parent_limit) z }
    ensures { result ≡ half_sign (cy % 2) *ℤ z }
{
    if cy % 2 == 0 { z } else { -z }
}

// (f ± scale v), plus and minus (scale h ± scale d), with the sign of row cy. The products have no sign yet, so that both rows below a cell have the same
// three.
fn beside(f: i64, scale: i64, cy: usize, h: i64, v: i64, d: i64) -> Pair
    requires { PairBounds f scale (half_sign (cy % 2) *ℤ scale) h v d }
    ensures { result ≡ pair_of f scale (half_sign (cy % 2) *ℤ scale) h v d }
{
    let middle = f + turned_in_row(scale * v, cy);
    let across = scale * h + turned_in_row(scale * d, cy);
    Pair {
        left: middle + across,
        right: middle - across,
    }
}

// How a level is drawn below another: where the figures of that one stand, and what is put down for a figure of its own.
trait Drawing: Copy {
    type Shade: Copy;

    // The list that has the figures of the level above, where the picture is l.
    ghost parents: { Self → List Self.Shade → List ℤ };

    ghost shade: { Self → ℤ → Self.Shade };

    fn parent(&self, i: usize, picture: &[Self::Shade]) -> i64
        requires { i < length (parents self.now picture.now) }
        ensures { result ≡ get_or (parents self.now picture.now) i (pos 0) };

    fn shade(&self, figure: i64) -> Self::Shade
        ensures { result ≡ shade self.now figure };

    // Where a place of the picture is as it was, so is the figure there.
    ghost keeps: { KeepsParents shade parents };
}

// Figures, over those of the level above, at the start of the same list.
#[derive(Clone, Copy)]
struct InPlace;

impl Drawing for InPlace {
    type Shade = i64;

    ghost parents = { λ d l. l };

    ghost shade = { λ d z. z };

    ghost keeps = { record { same_length = λ d l m e. e; same_figure = λ d l m i e. e } };

    fn parent(&self, i: usize, picture: &[i64]) -> i64 {
        picture[i]
    }

    fn shade(&self, figure: i64) -> i64 {
        figure
    }
}

// Greys on a tile of side 2^depth, from figures that stand in a list of their own.
#[derive(Clone, Copy)]
struct GreysFrom<'a> {
    depth: usize,
    figures: &'a [i64],
    ghost shallow: { depth ≤ greatest_depth },
}

impl Drawing for GreysFrom<'_> {
    type Shade = u8;

    ghost parents = { λ d l. d.figures.now };

    ghost shade = { λ d z. grey_of (2 ^ d.depth) z };

    ghost keeps = { record { same_length = λ d l m e. refl; same_figure = λ d l m i e. refl } };

    fn parent(&self, i: usize, picture: &[u8]) -> i64 {
        self.figures[i]
    }

    fn shade(&self, figure: i64) -> u8 {
        grey::grey_of(figure, self.depth)
    }
}

// Puts down what is drawn for a pair of figures.
fn put_pair<D: Drawing>(drawing: &D, pair: Pair, at: usize, picture: &mut [D::Shade])
    requires { (at + 1 < length picture.old) × (at < greatest_side * greatest_side) }
    ensures { picture.new ≡ put_pair (D.shade drawing.now pair.left) (D.shade drawing.now pair.right) at picture.old }
{
    picture[at] = drawing.shade(pair.left);
    picture[at + 1] = drawing.shade(pair.right);
}

// A level whose cells are cut, of a table from which the next level can be drawn.
#[derive(Clone, Copy)]
struct CutLevel<'a> {
    table: &'a [i64],
    level: usize,
    ghost drawable: { Drawable table.now (suc level) },
}

impl CutLevel<'_> {
    // Its scale, 4^level: how many times a cell's area its figure is.
    fn scale(&self) -> i64
        ensures { result ≡ pos (children dimensions ^ self.now.level) }
    {
        let n = cells_across(self.level);
        (n * n) as i64
    }

    // The two children, in row cy of the next level, of cell (x, cy / 2) of this one, from its figure f.
    #[tactic(auto, using(crate::proofs::CellDetails::cell_details_lem))]
    fn children_in_row(&self, x: usize, cy: usize, f: i64) -> Pair
        requires { Refinable self.now.table.now self.now.level x cy f }
        ensures { IsPair self.now.table.now self.now.level x cy result }
    {
        let table = self.table;
        let first = first_detail(self.level, x, cy / 2);
        let scale = self.scale();
        beside(
            f,
            scale,
            cy,
            table[first],
            table[first + 1],
            table[first + 2],
        )
    }

    // The figure of cell (cx, cy) of the next level, from its parent's figure f.
    fn child_figure(&self, cx: usize, cy: usize, f: i64) -> i64
        requires { Refinable self.now.table.now self.now.level (cx / 2) cy f }
        ensures { result ≡ figure_in self.now.table.now (suc self.now.level) cx cy }
    {
        let pair = self.children_in_row(cx / 2, cy, f);
        if cx % 2 == 0 { pair.left } else { pair.right }
    }

    // The two rows below row y: the last cell first, so that no figure is overwritten before it is used.
    fn draw_rows<D: Drawing>(&self, y: usize, drawing: &D, picture: &mut [D::Shade])
        requires room { children dimensions ^ suc self.now.level ≤ length picture.old }
        requires parents { RowParents self.now.table.now self.now.level y (D.parents drawing.now picture.old) }
        ensures { RowsBelow (D.shade drawing.now) (D.shade drawing.now (pos 0)) self.now.table.now self.now.level y picture.old picture.new 0 }
    {
        let n = cells_across(self.level);
        let from = y * n;
        for x in (0..n).rev() {
            let f = drawing.parent(from + x, picture);
            let upper = self.children_in_row(x, 2 * y, f);
            let lower = self.children_in_row(x, 2 * y + 1, f);
            let to = 4 * from + 2 * x;
            put_pair(drawing, upper, to, picture);
            put_pair(drawing, lower, to + 2 * n, picture);
        }
    }

    // The next level: the last row first. Lent, and not given, the level and the drawing were read again for each cell: 1.12 times the instructions of greys.
    fn draw_below<D: Drawing>(self, drawing: D, picture: &mut [D::Shade])
        requires room { children dimensions ^ suc self.level ≤ length picture.old }
        requires parents { HasParents self.table.now self.level (D.parents drawing picture.old) }
        ensures drawn { HasDrawn (D.shade drawing) (D.shade drawing (pos 0)) self.entry.table.now (suc self.entry.level) picture.new }
        ensures same_length { length picture.new ≡ length picture.old }
    {
        for y in (0..cells_across(self.level)).rev() {
            self.draw_rows(y, &drawing, picture);
        }
    }

    // Over the figures of this level, those of the next, where its cells have children too.
    fn refine_parents(self, depth: usize, figures: &mut [i64])
        requires { (self.level < depth) × Parents self.table.now depth self.level (length figures.old) figures.old }
        ensures { Parents self.entry.table.now depth (suc self.entry.level) (length figures.old) figures.new }
    {
        if self.level + 1 < depth {
            self.draw_below(InPlace, figures);
        }
    }
}

// The figure of one cell.
pub fn figure_at(table: &[i64], level: usize, cx: usize, cy: usize) -> i64
    requires { DrawableCell table.now level cx cy }
    ensures { result ≡ figure_in table.now level cx cy }
{
    if level == 0 {
        table[0]
    } else {
        let above = CutLevel {
            table,
            level: level - 1,
        };
        let f = figure_at(table, above.level, cx / 2, cy / 2);
        above.child_figure(cx, cy, f)
    }
}

// The figures of a level at the start of a list, from the root down.
fn figures_to(table: &[i64], level: usize, picture: &mut [i64])
    requires { Drawable table.now level × (children dimensions ^ level ≤ length picture.old) }
    ensures { HasFigures table.now level picture.new × (length picture.new ≡ length picture.old) }
{
    picture[0] = table[0];
    for j in 0..level {
        let above = CutLevel { table, level: j };
        above.draw_below(InPlace, picture);
    }
}

// The figures of a level.
pub fn figures(table: &[i64], level: usize, picture: &mut [i64])
    requires { DrawablePicture table.now level (length picture.old) }
    ensures { picture.new ≡ picture_in (λ z. z) table.now level }
{
    figures_to(table, level, picture);
}

// The grey of the root, in a picture's first place. No level is above it, so that a Drawing, which has the list of one, does not serve.
fn grey_root(table: &[i64], depth: usize, picture: &mut [u8])
    requires { Drawable table.now 0 × (0 < length picture.old) × (depth ≤ greatest_depth) }
    ensures { picture.new ≡ set picture.old 0 (grey_of (2 ^ depth) (figure_in table.now 0 0 0)) }
{
    picture[0] = grey::grey_of(table[0], depth);
}

// The greys of a level that has one above it, with N places for the figures of that one.
fn greys_in<const N: usize>(table: &[i64], depth: usize, above: usize, picture: &mut [u8])
    requires drawable { DrawablePicture table.now (suc above) (length picture.old) × (depth ≤ greatest_depth) }
    requires places { (children dimensions ^ above ≤ N) × (N ≤ scale_limit) }
    ensures { picture.new ≡ picture_in (grey_of (2 ^ depth)) table.now (suc above) }
{
    let mut figures = [0i64; N];
    figures_to(table, above, &mut figures);
    let cut = CutLevel {
        table,
        level: above,
    };
    let greys = GreysFrom {
        depth,
        figures: &figures,
    };
    cut.draw_below(greys, picture);
}

// The greys of a level, on a tile of side 2^depth.
pub fn greys(table: &[i64], depth: usize, level: usize, picture: &mut [u8])
    requires { DrawablePicture table.now level (length picture.old) × (depth ≤ greatest_depth) }
    ensures { picture.new ≡ picture_in (grey_of (2 ^ depth)) table.now level }
{
    if level == 0 {
        grey_root(table, depth, picture);
    } else if level <= SHALLOW {
        greys_in::<FEW_PARENTS>(table, depth, level - 1, picture);
    } else {
        greys_in::<MOST_PARENTS>(table, depth, level - 1, picture);
    }
}

// How many cells the levels from 0 to a depth have.
pub fn places_to(depth: usize) -> usize
    requires { depth ≤ greatest_depth }
    ensures { result ≡ places (suc depth) }
{
    let n = cells_across(depth);
    (4 * (n * n) - 1) / 3
}

// The greys of every level, each from the figures of the one above, for which there are N places.
fn pyramid_in<const N: usize>(table: &[i64], depth: usize, pictures: &mut [u8])
    requires drawable { DrawablePyramid table.now depth (length pictures.old) }
    requires places { (children dimensions ^ (depth - 1) ≤ N) × (N ≤ scale_limit) }
    ensures { pictures.new ≡ pyramid_in (grey_of (2 ^ depth)) table.now (suc depth) }
{
    let mut figures = [0i64; N];
    grey_root(table, depth, pictures);
    figures_to(table, 0, &mut figures);
    for level in 0..depth {
        let start = places_to(level);
        let end = places_to(level + 1);
        let cut = CutLevel { table, level };
        let greys = GreysFrom {
            depth,
            figures: &figures,
        };
        cut.draw_below(greys, &mut pictures[start..end]);
        cut.refine_parents(depth, &mut figures);
    }
}

// The greys of every level of a tile of side 2^depth, one picture after the other, level 0 first.
pub fn pyramid(table: &[i64], depth: usize, pictures: &mut [u8])
    requires { DrawablePyramid table.now depth (length pictures.old) }
    ensures { pictures.new ≡ pyramid_in (grey_of (2 ^ depth)) table.now (suc depth) }
{
    if depth <= SHALLOW {
        pyramid_in::<FEW_PARENTS>(table, depth, pictures);
    } else {
        pyramid_in::<MOST_PARENTS>(table, depth, pictures);
    }
}
