// The chords of a quadratic Bézier curve, one coordinate at a time: p and r are those of the curve's ends, q that of its control point.
//
// A curve is split into 2^k pieces of equal parameter length, and each piece becomes a chord. A chord is farthest from its curve in the middle of the piece,
// by a quarter of bend / 4^k, the bend being p − 2 q + r: so k is the least number that makes this one step or less, in x and in y.
#![tactic(auto)]

ghost use Rattle.std.specs.Prelude.{◌≡◌, ◌^◌, ◌≤◌, pos, nat_abs, ◌*ℤ◌, ◌&&◌, ◌≤ℤ◌, ◌<ℤ◌};
ghost use Rattle.integers.specs.Rounding.{round_half_up};
ghost use Rattle.integers.specs.Within.{Within};
ghost use Rattle.integers.specs.Units.{most_splits, most_chords};
ghost use Rattle.curve.specs.Curve.{OnSheet, bend as bend_of, curve_num, flat, splits, chord_end};

// 2^7 chords are enough for every curve on the greatest sheet.
const MOST_SPLITS: usize = 7;

// A bend of four steps, either way, leaves a single chord at most one step from its curve.
const BEND_OF_ONE_CHORD: i64 = 4;

// How many chords k splits make. (That k is at most 7 is asked where it is needed: the definitions count by the number.)
pub fn chords_at(k: usize) -> usize
    requires { k ≤ most_splits }
    ensures { result ≡ 2 ^ k }
{
    1usize << k
}

// Is a bend so small that 2^k chords do? It is at most 4 × 4^k in magnitude.
fn is_flat(z: i64, k: usize) -> bool
    requires { k ≤ most_splits }
    ensures { result ≡ flat k z }
{
    let n = chords_at(k) as i64;
    let limit = BEND_OF_ONE_CHORD * (n * n);
    integers::is_within(z, -limit, limit)
}

// Are both bends?
fn are_flat(u: i64, v: i64, k: usize) -> bool
    requires { k ≤ most_splits }
    ensures { result ≡ (flat k u && flat k v) }
{
    is_flat(u, k) && is_flat(v, k)
}

// k, for a curve with the bends u across and v down: the least from 0 to 7 for which neither exceeds 4 × 4^k.
pub fn splits_of(u: i64, v: i64) -> usize
    ensures { result ≡ splits u v }
{
    for k in 0..MOST_SPLITS {
        if are_flat(u, v, k) {
            return k;
        }
    }
    MOST_SPLITS
}

// What a curve on a sheet is in one coordinate, x or y: p and r are those of its ends, q that of its control point.
#[derive(Clone, Copy)]
pub struct Projection {
    pub p: i64,
    pub q: i64,
    pub r: i64,
    pub ghost on_sheet: { OnSheet p × OnSheet q × OnSheet r },
}

impl Projection {
    // Four times how far the middle of the curve is from the middle of its chord: 0 for a straight one that is walked evenly.
    pub fn bend(self) -> i64
        ensures { result ≡ bend_of self.p self.q self.r }
    {
        self.p - 2 * self.q + self.r
    }

    // n² times where the curve is at the parameter i / n.
    fn num(self, n: i64, i: i64) -> i64
        requires { Within (pos most_chords) n × Within (pos most_chords) i }
        ensures { result ≡ curve_num self.p self.q self.r n i }
    {
        let j = n - i;
        let first = j * j * self.p;
        let middle = 2 * i * j * self.q;
        first + middle + i * i * self.r
    }

    // Where the curve is at the parameter i / n, rounded to the nearest step, halves towards the larger.
    fn at(self, n: i64, i: i64) -> i64
        requires { (pos 1 ≤ℤ n) × (n ≤ℤ pos most_chords) × (pos 0 ≤ℤ i) × (i ≤ℤ n) }
        ensures { result ≡ round_half_up (curve_num self.p self.q self.r n i) (nat_abs (n *ℤ n)) }
    {
        round_half_up(self.num(n, i), n * n)
    }

    // End i of the 2^k chords.
    pub fn chord_end(self, k: usize, i: usize) -> i64
        requires { (k ≤ most_splits) × (i ≤ 2 ^ k) }
        ensures { result ≡ chord_end self.p self.q self.r k i }
    {
        self.at(chords_at(k) as i64, i as i64)
    }
}

// n / d to the nearest whole number, halves up, for n that is not negative.
fn round_half_up(n: i64, d: i64) -> i64
    requires { (pos 0 ≤ℤ n) × (n ≤ℤ pos (2 ^ 60)) × (pos 0 <ℤ d) × (d ≤ℤ pos (2 ^ 60)) }
    ensures { result ≡ round_half_up n (nat_abs d) }
{
    (2 * n + d) / (2 * d)
}
