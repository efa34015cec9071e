// What the calls are given, as the lines of the program's text set it.
ghost use Rattle.std.specs.Iterator.{IsFinite};

use super::calls::{Drawn, show_all, show_build, show_cell, show_figures, show_greys};
use super::text::{number_of, word_of};
use std::io::{Result, Write};

// Each list has room for more than a tile of side 64 takes: there is no heap. What a line has more is passed over.
const ROOM: usize = 4100;

#[derive(Drop)]
pub struct Given {
    side: u32,
    level: u32,
    points: [i64; ROOM],
    counts: [u32; ROOM],
    table: [i64; ROOM],
    figures: [i64; ROOM],
    greys: [u8; ROOM],
    // How many points and counts there are.
    coordinates: usize,
    contours: usize,
    // How much of the table a call gets.
    entries: usize,
    // How much of a picture.
    places: usize,
}

// Puts values into a list from a place on, as many as it has room for there. Answers how many.
fn put<T: Copy, I: Iterator<Item = T>>(list: &mut [T], first: usize, values: I) -> usize
    requires { I.can_next values × IsFinite (I.remaining values) }
{
    let mut n = 0usize;
    for (place, v) in list.iter_mut().skip(first).zip(values) {
        *place = v;
        n = n.saturating_add(1);
    }
    n
}

impl Given {
    pub fn new() -> Given {
        Given {
            side: 0,
            level: 0,
            points: [0; ROOM],
            counts: [0; ROOM],
            table: [0; ROOM],
            figures: [0; ROOM],
            greys: [0; ROOM],
            coordinates: 0,
            contours: 0,
            entries: 0,
            places: 0,
        }
    }

    fn fill(&mut self, v: i64) {
        self.table.fill(v);
        self.figures.fill(v);
        self.greys.fill((word_of(v) % 256) as u8);
    }

    pub fn read_line<W: Write>(&mut self, out: &mut W, line: &[u8]) -> Result<()> {
        let Some(kind) = line.first() else {
            return Ok(());
        };
        // Each number is worked out where the letter asks for it: a comment costs none.
        let mut numbers = line
            .split(|b| *b == b' ')
            .skip(1)
            .take(ROOM)
            .map(|word| number_of(word));
        match *kind {
            b'#' => {}
            b'p' => self.coordinates = put(&mut self.points, 0, numbers),
            b'c' => self.contours = put(&mut self.counts, 0, numbers.map(|v| word_of(v))),
            kind => {
                let number = numbers.next().unwrap_or(0);
                let first = word_of(number);
                match kind {
                    b's' => self.side = first,
                    b'l' => self.level = first,
                    b'n' => self.entries = first as usize,
                    b'r' => self.places = first as usize,
                    b't' => {
                        put(&mut self.table, first as usize, numbers);
                    }
                    b'f' => self.fill(number),
                    kind => {
                        let second = word_of(numbers.next().unwrap_or(0));
                        self.show(out, kind, first, second)?;
                    }
                }
            }
        }
        Ok(())
    }

    // One of the calls, or all levels.
    fn show<W: Write>(&mut self, out: &mut W, kind: u8, cx: u32, cy: u32) -> Result<()> {
        let side = self.side;
        let level = self.level;
        let entries = self.entries.min(ROOM);
        let places = self.places.min(ROOM);
        // An array in a field is lent whole first: its part alone is not covered.
        let points = &self.points[..];
        let points = &points[..self.coordinates.min(ROOM)];
        let counts = &self.counts[..];
        let counts = &counts[..self.contours.min(ROOM)];
        let table = &mut self.table[..];
        let table = &mut table[..entries];
        let figures = &mut self.figures[..];
        let greys = &mut self.greys[..];
        match kind {
            b'b' => show_build(out, side, points, counts, table),
            b'd' => show_figures(out, Drawn { side, level, table }, &mut figures[..places]),
            b'g' => show_greys(out, Drawn { side, level, table }, &mut greys[..places]),
            b'k' => show_cell(out, Drawn { side, level, table }, cx, cy),
            b'a' => show_all(out, side, table, figures, greys),
            _ => writeln!(out, "refused"),
        }
    }
}
