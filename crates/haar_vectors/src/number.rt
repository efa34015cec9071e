// The numbers of a line.

// A number as far as it has been read: its sign, and its size where it has a digit.
#[derive(Clone, Copy)]
struct Number {
    negative: bool,
    size: Option<u64>,
}

// A size that counts as none: what comes after it begins anew.
const ANEW: u64 = 1 << 63;

impl Number {
    // With one more byte: a digit, or the sign before all digits. A size that is too large is held at the greatest: it is out of range.
    fn with(self, b: u8) -> Option<Number> {
        match (b, self.size) {
            (b'0'..=b'9', size) => {
                let size = size
                    .unwrap_or(0)
                    .saturating_mul(10)
                    .saturating_add(u64::from(b - b'0'));
                let size = if size == ANEW { None } else { Some(size) };
                Some(Number { size, ..self })
            }
            (b'-', None) if !self.negative => Some(Number {
                negative: true,
                ..self
            }),
            _ => None,
        }
    }

    fn of(word: &[u8]) -> Option<Number> {
        let none = Number {
            negative: false,
            size: None,
        };
        word.iter().try_fold(none, |n, b| n.with(*b))
    }
}

// A place, a level or the like, which has no sign.
pub fn index_of(word: &[u8]) -> Option<usize> {
    let n = Number::of(word)?;
    if n.negative {
        return None;
    }
    usize::try_from(n.size?).ok()
}

pub fn entry_of(word: &[u8]) -> Option<i64> {
    let n = Number::of(word)?;
    let size = i64::try_from(n.size?).ok()?;
    Some(if n.negative {
        size.saturating_neg()
    } else {
        size
    })
}
