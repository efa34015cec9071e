// The cases, from the program's text, and what is printed of them.
ghost use Rattle.std.specs.Prelude.{◌<◌, ◌≤◌, length, IfSome};

use super::number::{entry_of, index_of};
use super::table::{GREATEST_DEPTH, MOST, Table, cells};
use std::io::{Result, Write};
use vector_print::numbers;

#[derive(Clone, Copy)]
enum Kind {
    Cell,
    Table,
    // A line that begins with a byte 1 is refused, whatever it has.
    Wrong,
}

// What a line is, by its first byte: None where it is blank or a comment.
fn kind_of(line: &[u8]) -> Option<Kind>
    ensures { IfSome result (λ _. 0 < length line.now) }
{
    match line.first()? {
        b'#' => None,
        b'@' => Some(Kind::Cell),
        1 => Some(Kind::Wrong),
        _ => Some(Kind::Table),
    }
}

// ---- a table

// One word of a table: an entry, at the place that comes next or at that which stands before its `:`. Answers the place after it.
fn put_word(table: &mut Table, word: &[u8], next: usize) -> Option<usize> {
    let mut parts = word.rsplit(|b| *b == b':');
    let entry = entry_of(parts.next()?)?;
    let place = match parts.next() {
        Some(part) => index_of(part)?,
        None => next,
    };
    table.put(place, entry)?;
    place.checked_add(1)
}

// Reads the table of a line after its name, where it is one: its depth and its entries. An entry that is not given is 0.
fn read_table(table: &mut Table, words: &[u8]) -> Option<()> {
    let mut words = words.split(|b| *b == b' ');
    let depth = index_of(words.next()?)?;
    if GREATEST_DEPTH < depth {
        return None;
    }
    table.clear(depth);
    let mut next = 0;
    for word in words {
        next = put_word(table, word, next)?;
    }
    Some(())
}

// The figures of a level, and the same figures, each asked for alone.
fn show_figures<W: Write>(out: &mut W, table: &Table, level: usize) -> Result<()>
    requires { level ≤ table.now.depth }
{
    let mut room = [0i64; MOST];
    let picture = &mut room[..cells(level)];
    write!(out, "{level} figures")?;
    table.figures(level, picture);
    numbers(out, picture)?;
    write!(out, "{level} alone  ")?;
    table.figures_alone(level, picture);
    numbers(out, picture)
}

// A function of its own, so that the stack has one kind of picture at a time.
fn show_greys<W: Write>(out: &mut W, table: &Table, level: usize) -> Result<()>
    requires { level ≤ table.now.depth }
{
    let mut room = [0u8; MOST];
    let picture = &mut room[..cells(level)];
    write!(out, "{level} greys  ")?;
    table.greys(level, picture);
    numbers(out, picture)
}

fn show_table<W: Write>(out: &mut W, table: &Table) -> Result<()> {
    writeln!(out)?;
    for level in 0..=table.depth {
        show_figures(out, table, level)?;
        show_greys(out, table, level)?;
    }
    Ok(())
}

// ---- one cell

// A cell of a table.
#[derive(Clone, Copy)]
struct Cell {
    level: usize,
    x: usize,
    y: usize,
    figure: i64,
    grey: u8,
}

// The cell that a line asks for after its first word, where the table has it.
fn cell_of(table: &Table, words: &[u8]) -> Option<Cell> {
    let mut words = words.split(|b| *b == b' ');
    let level = index_of(words.next()?)?;
    let x = index_of(words.next()?)?;
    let y = index_of(words.next()?)?;
    if words.next().is_some() {
        return None;
    }
    let figure = table.figure(level, x, y)?;
    let grey = table.grey_of(figure);
    Some(Cell {
        level,
        x,
        y,
        figure,
        grey,
    })
}

fn show_cell<W: Write>(out: &mut W, cell: Cell) -> Result<()> {
    let Cell {
        level,
        x,
        y,
        figure,
        grey,
    } = cell;
    writeln!(out, " {level} {x} {y}: figure {figure} grey {grey}")
}

// ---- lines

fn refuse<W: Write>(out: &mut W) -> Result<()> {
    writeln!(out, " refused")
}

// The first word of a line, which is printed, and what comes after the space that ends it. The first byte belongs to the word, whatever it is.
fn first_word(line: &[u8]) -> (&[u8], &[u8]) {
    match line.iter().skip(1).position(|b| *b == b' ') {
        Some(i) => (&line[..i + 1], &line[i + 2..]),
        None => (line, &[]),
    }
}

// A line with its end, or what comes after the last one, of which no more than the first word is printed. Bytes 0 before the first word are printed, and after
// them there is no table. That there is one stands beside it: an Option would hold its 4,096 entries itself, and copy them at each line.
fn read_line<W: Write>(
    out: &mut W,
    line: &[u8],
    table: &mut Table,
    there: &mut bool,
) -> Result<()> {
    let (line, ended) = match line.strip_suffix(b"\n") {
        Some(line) => (line, true),
        None => (line, false),
    };
    let (zeros, line) = line.split_at(line.iter().position(|b| *b != 0).unwrap_or(line.len()));
    out.write_all(zeros)?;
    if !zeros.is_empty() {
        *there = false;
    }
    let Some(kind) = kind_of(line) else {
        return Ok(());
    };
    let (word, words) = match kind {
        Kind::Wrong => line.split_at(1),
        Kind::Cell | Kind::Table => first_word(line),
    };
    out.write_all(word)?;
    if !ended {
        return Ok(());
    }
    match kind {
        Kind::Cell => {
            let cell = if *there { cell_of(table, words) } else { None };
            match cell {
                Some(cell) => show_cell(out, cell),
                None => refuse(out),
            }
        }
        Kind::Table => {
            *there = read_table(table, words).is_some();
            if *there {
                show_table(out, table)
            } else {
                refuse(out)
            }
        }
        Kind::Wrong => {
            *there = false;
            refuse(out)
        }
    }
}

pub fn read_all<W: Write>(out: &mut W, text: &[u8]) -> Result<()> {
    let mut table = Table::blank();
    let mut there = false;
    for line in text.split_inclusive(|b| *b == b'\n') {
        read_line(out, line, &mut table, &mut there)?;
    }
    Ok(())
}
