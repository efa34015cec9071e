// The calls: what each is given and what it answers.
ghost use Rattle.std.specs.Prelude.{◌<◌};

use std::io::Write;
use std::{fmt, io};
use tile::{Refusal, build, cell, figures, greys};
use vector_print::numbers;

// A tile of side 64 has levels 0 to 6.
const LEVELS: u32 = 7;

// What is printed of an answer: the number of the refusal, 0 where there is none, and the value, 0 where there is none.
fn told<T: Default + Drop>(answer: Result<T, Refusal>) -> (u32, T) {
    match answer {
        Ok(value) => (0, value),
        Err(refusal) => (refusal.number(), T::default()),
    }
}

pub fn show_build<W: Write>(
    out: &mut W,
    side: u32,
    points: &[i64],
    counts: &[u32],
    table: &mut [i64],
) -> io::Result<()> {
    let (number, edges) = told(build(side, points, counts, table));
    write!(
        out,
        "build side {side} contours {} points {} entries {}: {number} edges {edges} table",
        counts.len(),
        points.len(),
        table.len()
    )?;
    numbers(out, table)
}

// What is drawn: a level of a tile, or a cell of it, from the tile's table.
#[derive(Clone, Copy)]
pub struct Drawn<'a> {
    pub side: u32,
    pub level: u32,
    pub table: &'a [i64],
}

impl<'a> fmt::Display for Drawn<'a> {
    fn fmt<W: fmt::Write>(&self, f: &mut fmt::Formatter<W>) -> fmt::Result {
        let side = self.side;
        let level = self.level;
        write!(f, "side {side} level {level} entries {}", self.table.len())
    }
}

// A picture, after what was asked for and the number.
fn show_picture<W: Write, T: Copy + Into<i64>>(
    out: &mut W,
    name: &str,
    drawn: Drawn<'_>,
    answer: Result<(), Refusal>,
    picture: &[T],
) -> io::Result<()> {
    let (number, ()) = told(answer);
    write!(
        out,
        "{name} {drawn} places {}: {number} picture",
        picture.len()
    )?;
    numbers(out, picture)
}

pub fn show_figures<W: Write>(
    out: &mut W,
    drawn: Drawn<'_>,
    picture: &mut [i64],
) -> io::Result<()> {
    let answer = figures(drawn.side, drawn.level, drawn.table, picture);
    show_picture(out, "figures", drawn, answer, picture)
}

pub fn show_greys<W: Write>(out: &mut W, drawn: Drawn<'_>, picture: &mut [u8]) -> io::Result<()> {
    let answer = greys(drawn.side, drawn.level, drawn.table, picture);
    show_picture(out, "greys", drawn, answer, picture)
}

pub fn show_cell<W: Write>(out: &mut W, drawn: Drawn<'_>, cx: u32, cy: u32) -> io::Result<()> {
    let (number, figure) = told(cell(drawn.side, drawn.level, cx, cy, drawn.table));
    writeln!(out, "cell {drawn} at {cx} {cy}: {number} figure {figure}")
}

// Is each cell that is asked for alone as in the picture, whose rows have n cells?
fn same_cells(drawn: Drawn<'_>, picture: &[i64], n: u32) -> bool
    requires { 0 < n }
{
    let mut rows = (0..n).zip(picture.chunks(n as usize));
    rows.all(|(cy, row)| {
        let mut cells = (0..n).zip(row);
        cells.all(|(cx, figure)| cell(drawn.side, drawn.level, cx, cy, drawn.table) == Ok(*figure))
    })
}

// All levels that a tile of the side has.
pub fn show_all<W: Write>(
    out: &mut W,
    side: u32,
    table: &[i64],
    picture: &mut [i64],
    shades: &mut [u8],
) -> io::Result<()> {
    for level in 0..LEVELS {
        let n = 1u32 << level;
        if side < n {
            break;
        }
        let drawn = Drawn { side, level, table };
        let cells = 1usize << (2 * level);
        let figures = cells.min(picture.len());
        let greys = cells.min(shades.len());
        show_figures(out, drawn, &mut picture[..figures])?;
        show_greys(out, drawn, &mut shades[..greys])?;
        let same = if same_cells(drawn, &picture[..figures], n) {
            "same"
        } else {
            "differs"
        };
        writeln!(out, "cells {drawn}: alone {same}")?;
    }
    Ok(())
}
