// Searches, by question 9's bounds: how many numbers were looked at, and whether all are within. What must be printed is made by `answers` of rust/, by
// 02's "one more than the least place out of range, or all of them where there is none".
use integers::{looked_within, search_within};
use std::io::{Result, Write};

// 2^40, the greatest entry that question 9 lets pass.
const LIMIT: i64 = 1 << 40;

// The entries of a table of side 64.
const ENTRIES: usize = 4096;

fn show<W: Write>(out: &mut W, numbers: &[i64]) -> Result<()> {
    let looked = looked_within(numbers, -LIMIT, LIMIT);
    match search_within(numbers, -LIMIT, LIMIT) {
        None => writeln!(out, "looked at {looked}, within"),
        Some(_) => writeln!(out, "looked at {looked}, not within"),
    }
}

// Lists of a few numbers. The seventh and the eighth have the same count, and only the seventh is all within; of the ninth the least place of several is
// asked for, and that is not the last.
const SMALL: [&[i64]; 10] = [
    &[],
    &[0],
    &[LIMIT],
    &[-LIMIT],
    &[LIMIT + 1],
    &[-LIMIT - 1],
    &[LIMIT, -LIMIT, 0],
    &[LIMIT, -LIMIT, LIMIT + 1],
    &[0, -LIMIT - 1, 0, LIMIT + 1, 0],
    &[i64::MAX, i64::MIN],
];

// Ever lower places of a table, at which a number out of range is put, those above staying as they are.
const PLACES: [(usize, i64); 9] = [
    (4095, LIMIT + 1),
    (4094, -LIMIT - 1),
    (2048, LIMIT + 1),
    (512, -LIMIT - 1),
    (511, LIMIT + 1),
    (64, -LIMIT - 1),
    (63, LIMIT + 1),
    (1, -LIMIT - 1),
    (0, LIMIT + 1),
];

pub fn show_all<W: Write>(out: &mut W) -> Result<()> {
    for numbers in SMALL {
        show(out, numbers)?;
    }
    let mut table = [LIMIT; ENTRIES];
    show(out, &table)?;
    for (i, number) in PLACES {
        table[i] = number;
        show(out, &table)?;
    }
    Ok(())
}
