// The numbers of a line.
ghost use Rattle.std.specs.Prelude.{◌≤◌};

// A number up to this one has room for any digit more. What has more, from 9223372036854775800 on, is taken for the greatest number or the least.
const LONGEST: i64 = 922337203685477579;

// The number with one more digit.
fn longer(v: i64, digit: u8, negative: bool) -> i64
    requires { digit ≤ 9 }
{
    if LONGEST < v {
        i64::MAX
    } else if v < -LONGEST {
        i64::MIN
    } else if negative {
        v * 10 - i64::from(digit)
    } else {
        v * 10 + i64::from(digit)
    }
}

// The number that a word names. A byte that is no digit counts for nothing. A `-` turns only the digits after it, so the sign goes on beside the number:
// `12-3` is 117.
pub fn number_of(word: &[u8]) -> i64 {
    let mut v = 0;
    let mut negative = false;
    for b in word {
        match b {
            b'-' => negative = true,
            b'0'..=b'9' => v = longer(v, b - b'0', negative),
            _ => {}
        }
    }
    v
}

// As a word, or the nearest one.
pub fn word_of(v: i64) -> u32 {
    u32::try_from(v.max(0)).unwrap_or(u32::MAX)
}
