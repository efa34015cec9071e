// What a call answers that is refused: which question is answered no.
ghost use Rattle.std.specs.Prelude.{◌≡◌};
ghost use Rattle.tile.specs.Answers.{number_of, answer_number};

use std::error::Error;
use std::fmt;

// The questions of 01 and 02, each by what it asks about, in the order of their numbers.
#[derive(Clone, Copy, Debug, PartialEq, Eq)]
pub enum Refusal {
    // Question 1: is the side one of a tile?
    Side = 1,
    // Question 2: has the table side × side entries?
    Table,
    // Question 3: are there two coordinates for each point that the counts count?
    Points,
    // Question 4: is every count one of a contour?
    Count,
    // Question 5: is the counts' sum, with the edges that are in already, at most the most edges?
    Sum,
    // Question 6: is every coordinate, as placed, on the tile, or on the sheet?
    Coordinate,
    // Question 7: does the tile have the level?
    Level,
    // Question 8: has the picture as many places as the level has cells?
    Picture,
    // Question 9: is every entry of the table in range?
    Range,
    // Question 10: does the level have the cell?
    Cell,
    // Question 11: is the text that of a frame?
    Frame,
    // Question 12: are the placement's floats, and the points that it moves, as they must be?
    Placement,
    // Question 13: does the record count at least as many edges as are taken out?
    Record,
    // Question 14: are the sides those of a sheet and of a tile of it?
    Sheet,
    // Question 15: is the tile's place on the sheet?
    Place,
    // Question 16: is every mark 0 or 1, and are there as many as the outline has edges?
    Marks,
}

impl Refusal {
    // The number of the question, from 1 on.
    pub fn number(self) -> u32
        ensures { result ≡ number_of self }
    {
        self as u32
    }
}

// An answer as the papers number it: 0 where the work is done, and else the refusal's number.
pub fn number_of_answer<T: Copy>(answer: Result<T, Refusal>) -> u32
    ensures { result ≡ answer_number answer }
{
    match answer {
        Ok(_) => 0,
        Err(refusal) => refusal.number(),
    }
}

// What is wrong, in one line.
impl fmt::Display for Refusal {
    ghost use Rattle.std.specs.Prelude.{Some};
    ghost use Rattle.tile.specs.Words.{words_of};

    ghost output = { λ refusal. Some (words_of refusal) };

    fn fmt<W: fmt::Write>(&self, f: &mut fmt::Formatter<W>) -> fmt::Result {
        f.write_str(match self {
            Refusal::Side => "the side is none of 1, 2, 4, 8, 16, 32 and 64",
            Refusal::Table => "the table has not side times side entries",
            Refusal::Points => "there are more or fewer coordinates than the counts say",
            Refusal::Count => "a contour has fewer than 3 points or more than 1,024",
            Refusal::Sum => "there are more than 1,024 edges in all",
            Refusal::Coordinate => "a coordinate is off the tile, or off the sheet",
            Refusal::Level => "the tile has no such level",
            Refusal::Picture => "the picture has more or fewer places than the level has cells",
            Refusal::Range => "an entry of the table is out of range",
            Refusal::Cell => "the level has no such cell",
            Refusal::Frame => "the text is not that of a frame",
            Refusal::Placement => "the placement, or a point that it moves, is out of range",
            Refusal::Record => "the record counts fewer edges than are taken out",
            Refusal::Sheet => "the sides are not those of a sheet and of a tile of it",
            Refusal::Place => "the sheet has no tile at this place",
            Refusal::Marks => "a mark is neither 0 nor 1, or there are not as many as edges",
        })
    }
}

impl Error for Refusal {}
