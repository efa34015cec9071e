// The grey of a figure, by its magnitude: 255 for the full figure, to the nearest whole number, halves up, and never above 255.
ghost use Rattle.std.specs.Prelude.{◌≡◌, ◌^◌, ◌≤◌};
ghost use Rattle.integers.specs.Units.{greatest_depth};
ghost use Rattle.haar.specs.Greys.{grey_of, SameGrey};

// A pixel has 2^17 units, so a tile's full figure is a power of two too, and to divide by it is to shift.
const PIXEL_BITS: usize = 17;

// Full ink. White is 0.
const FULL_GREY: u8 = 255;

// A figure's magnitude, since a letter may be traced either way round, held at the full figure.
fn held(figure: i64, full: usize) -> usize
    ensures { SameGrey figure full result }
{
    let ink = figure.unsigned_abs() as usize;
    ink.min(full)
}

// The grey of a figure on a tile of side 2^depth. The magnitude is held at the full figure first, which gives the same as to round and then to hold; what
// is multiplied by 255 is at most 2^29, whatever the figure; and all figures go the same way through the code.
pub fn grey_of(figure: i64, depth: usize) -> u8
    requires { depth ≤ greatest_depth }
    ensures { result ≡ grey_of (2 ^ depth) figure }
{
    let bits = PIXEL_BITS + 2 * depth;
    let full = 1usize << bits;
    let ink = held(figure, full);
    let half = full / 2;
    ((FULL_GREY as usize * ink + half) >> bits) as u8
}
