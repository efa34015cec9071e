// Lowercase hexadecimal digits: their numbers, and the digits of numbers.
ghost use Rattle.std.specs.Prelude.{◌≡◌, ◌<◌, ◌≤◌, length};
ghost use Rattle.integers.specs.Tests.{every};
ghost use Rattle.frame_text.specs.Digits.{digit_char, digit_or_none, is_digit, hex, hex_value};
ghost use Rattle.frame_text.specs.Frames.{coordinate_width};
ghost use Rattle.frame_text.specs.Over.{over};

// The digits, in the order of their numbers.
const DIGITS: [u8; 16] = *b"0123456789abcdef";

// Digits are worth 0 to 15.
const BASE: u32 = 16;

// The number of a digit. No other byte has one.
#[tactic(auto, using(crate::proofs::Laws::Digits::decimal_digit, crate::proofs::Laws::Digits::letter_digit, crate::proofs::Laws::Digits::no_digit_low, crate::proofs::Laws::Digits::no_digit_between, crate::proofs::Laws::Digits::no_digit_high))]
pub fn digit_value(b: u8) -> Option<u32>
    ensures { result ≡ digit_or_none b }
{
    match b {
        b'0'..=b'9' => Some((b - b'0') as u32),
        b'a'..=b'f' => Some((b - b'a') as u32 + 10),
        _ => None,
    }
}

// The ranges once more: `digit_value(b).is_some()` works the number out as well, and took 1.2 times the instructions.
#[tactic(auto, using(crate::proofs::Laws::Digits::is_decimal_digit, crate::proofs::Laws::Digits::is_letter_digit, crate::proofs::Laws::Digits::is_no_digit_low, crate::proofs::Laws::Digits::is_no_digit_between, crate::proofs::Laws::Digits::is_no_digit_high))]
fn is_digit(b: u8) -> bool
    ensures { result ≡ is_digit b }
{
    matches!(b, b'0'..=b'9' | b'a'..=b'f')
}

pub fn are_digits(bytes: &[u8]) -> bool
    ensures { result ≡ every is_digit bytes.now }
{
    bytes.iter().all(|&b| is_digit(b))
}

// No number of a frame has more than four digits. A byte that is no digit would count for the base, as `hex_value` has it.
pub fn value_of(digits: &[u8]) -> u32
    requires { length digits.now ≤ coordinate_width }
    ensures { result ≡ hex_value digits.now }
{
    let mut v = 0;
    for &b in digits {
        v = BASE * v + digit_value(b).unwrap_or(BASE);
    }
    v
}

pub fn digit_char(n: u64) -> u8
    requires { n < 16 }
    ensures { result ≡ digit_char n }
{
    DIGITS[n as usize]
}

// The last `width` digits of a number over the start of a slice. The last digit comes first: it is the remainder by 16, and the others are those of the
// quotient.
pub fn put_hex(out: &mut [u8], value: u64, width: usize)
    requires { width ≤ length out.old }
    ensures { out.new ≡ over (hex width value) out.old }
{
    let base = BASE as u64;
    let mut left = value;
    for n in (0..width).rev() {
        out[n] = digit_char(left % base);
        left /= base;
    }
}
