// Quotients, rounded: each answer of `div_round_half_away` on a line. What must be printed is made by `answers` of rust/, where
// these numbers stand a second time.
use integers::div_round_half_away;
use std::io::{Result, Write};

// Halves and thirds, both signs.
const SMALL: [(i64, i64); 18] = [
    (0, 1),
    (7, 7),
    (1, 2),
    (-1, 2),
    (3, 2),
    (-3, 2),
    (5, 2),
    (-5, 2),
    (1, 3),
    (-1, 3),
    (2, 3),
    (-2, 3),
    (10, 4),
    (-10, 4),
    (9, 4),
    (11, 4),
    (-9, 4),
    (-11, 4),
];

// 01's letter G, 509 1/2, and letter F, 298 2/3.
const LETTERS: [(i64, i64); 4] = [(2038, 4), (-2038, 4), (114688, 384), (-114688, 384)];

// 2^57, which no edge's numerator passes, and one more, for a half.
const NUMERATORS: [(i64, i64); 4] = [
    (1 << 57, 3),
    (-(1 << 57), 3),
    ((1 << 57) + 1, 2),
    (-(1 << 57) - 1, 2),
];

// The ends of the range, where n cannot be doubled nor its sign turned.
const EXTREMES: [(i64, i64); 16] = [
    (i64::MAX, 1),
    (i64::MIN, 1),
    (i64::MAX, 2),
    (i64::MIN, 2),
    (-i64::MAX, 2),
    (i64::MAX, i64::MAX),
    (i64::MIN, i64::MAX),
    (1 << 62, i64::MAX),
    ((1 << 62) - 1, i64::MAX),
    (-(1 << 62), i64::MAX),
    (1 - (1 << 62), i64::MAX),
    (1 << 62, i64::MAX - 1),
    (-(1 << 62), i64::MAX - 1),
    ((1 << 62) - 1, i64::MAX - 1),
    (1 - (1 << 62), i64::MAX - 1),
    (0, i64::MAX),
];

fn show<W: Write>(out: &mut W, quotients: &[(i64, i64)]) -> Result<()> {
    for &(n, d) in quotients {
        if d > 0 {
            writeln!(out, "{}", div_round_half_away(n, d))?;
        }
    }
    Ok(())
}

pub fn show_all<W: Write>(out: &mut W) -> Result<()> {
    show(out, &SMALL)?;
    show(out, &LETTERS)?;
    show(out, &NUMERATORS)?;
    show(out, &EXTREMES)
}
