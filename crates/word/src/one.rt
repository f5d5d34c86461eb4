// One reading: the pattern that is left of it and what it counts for, by each method. Everything is computed first and chosen last, so that a loop over these functions has no
// branch on the data.

ghost use Rattle.std.specs.Prelude.{◌≡◌, ◌+◌, ◌-◌, ◌^◌, ◌<◌, ◌≤◌};
ghost use Rattle.std.specs.Int.Bits.{bit_and};
ghost use Rattle.meaning.specs.Readings.{magnitude, infinity};
ghost use Rattle.meaning.specs.Methods.{round, absolute, digits, halfshaved};
ghost use Rattle.powers.specs.Table.{powers};
ghost use Rattle.reading.specs.Left.{settled_from, settled_by, settled_tail, takes};
ghost use Rattle.reading.specs.Tails.{constants, TailOf, tail_word, round_word, round_over};
ghost use Rattle.reading.specs.Words.{settled_at, constants_at};

use super::Word;
use reading::{Tail, Trimmed};

// The word x without the bits of `ones`.
fn without<W: Word>(x: W, ones: W) -> W
    ensures { W.value result ≡ W.value x - bit_and (W.value x) (W.value ones) }
{
    x.minus(x.and(ones))
}

// The reading x with the new magnitude n in place of its own, m.
fn with_magnitude<W: Word>(x: W, m: W, n: W) -> W
    requires { (W.value x < 2 ^ (W.FRACTION + W.EXPONENT + 1)) × (W.value m ≡ magnitude W.FRACTION W.EXPONENT (W.value x)) × (W.value n < infinity W.FRACTION W.EXPONENT) }
    ensures { W.value result ≡ W.value x - W.value m + W.value n }
{
    x.minus(m).sum(n)
}

// The reading x whose new pattern would be `new`: x itself where it is missing or `new` is the mark. `over` is 1 where `new` is clipped. The top bit of what x loses is 1
// where the magnitude grows, a rise above zero; below zero a rise is where the magnitude shrinks.
pub fn settle<W: Word>(x: W, new: W, over: W, mark: W) -> Trimmed<W>
    ensures { settled_at W.value result ≡ settled_from W.FRACTION W.EXPONENT (W.value mark) (W.value x) (W.value new) (W.value over) }
{
    let zero = W::zero();
    let one = W::one();
    let left = x.left(new, mark);
    let p = left.pattern;
    let changed = p.choose(x, zero, one);
    let marked = left.wanted.choose(mark, one, zero);
    let clipped = p.choose(x, zero, over);
    let missing = x.choose(mark, one, zero);
    let sign = x.sign();
    let turned = sign.choose(left.lost.sign(), zero, one);
    let risen = changed.and(turned);
    Trimmed {
        pattern: p,
        changed,
        marked,
        clipped,
        missing,
        risen,
    }
}

// The tail under k keep bits.
pub fn tail_of<W: Word>(k: u32) -> Tail<W>
    requires { k ≤ W.FRACTION }
    ensures { constants_at W.value result ≡ constants W.FRACTION k }
{
    let t = W::FRACTION - k;
    let unit = W::unit(t);
    let ones = unit.minus(W::one());
    Tail {
        bits: t,
        ones,
        half: unit.shifted(1),
    }
}

// `bit` where a reading takes a turn when an array is groomed; 0 where it is missing or isn't finite.
pub fn turn<W: Word>(x: W, bit: W, mark: W) -> W
    ensures { W.value result ≡ takes W.FRACTION W.EXPONENT (W.value bit) (W.value mark) (W.value x) }
{
    let zero = W::zero();
    let m = x.magnitude();
    let y = x.choose(mark, zero, bit);
    m.finite(y, zero)
}

// Methods 0 to 3: the tail becomes `add`, and zero stays. The sign stands above every tail, so the whole pattern is cut.
pub fn with_tail<W: Word>(x: W, tail: Tail<W>, add: W, mark: W) -> Trimmed<W>
    requires { (TailOf W.FRACTION (constants_at W.value tail)) × (W.value add ≤ W.value tail.ones) }
    ensures result { settled_at W.value result ≡ settled_tail W.FRACTION W.EXPONENT tail.bits (W.value add) (W.value mark) (W.value x) }
    ensures words { settled_at W.value result ≡ settled_from W.FRACTION W.EXPONENT (W.value mark) (W.value x) (tail_word W.FRACTION W.EXPONENT (constants_at W.value tail) (W.value add) (W.value x)) 0 }
{
    let zero = W::zero();
    let m = x.magnitude();
    let cut = without(x, tail.ones);
    let y = cut.sum(m.choose(zero, zero, add));
    let new = m.finite(y, x);
    settle(x, new, zero, mark)
}

// Method 4 with a tail, not none: half a unit less one is added to the whole pattern, and one more where the bit above the tail is one; then the tail is cut off, and
// a unit taken back where that isn't finite.
pub fn rounded<W: Word>(x: W, tail: Tail<W>, mark: W) -> Trimmed<W>
    requires { (TailOf W.FRACTION (constants_at W.value tail)) × (1 ≤ tail.bits) }
    ensures result { settled_at W.value result ≡ settled_by W.FRACTION W.EXPONENT (round (W.FRACTION - tail.bits)) (W.value mark) 0 (W.value x) }
    ensures words { settled_at W.value result ≡ settled_from W.FRACTION W.EXPONENT (W.value mark) (W.value x) (round_word W.FRACTION W.EXPONENT (constants_at W.value tail) (W.value x)) (round_over W.FRACTION W.EXPONENT (constants_at W.value tail) (W.value x)) }
{
    let zero = W::zero();
    let one = W::one();
    let m = x.magnitude();
    let odd = m.shifted(tail.bits).and(one);
    let near = x.wrapping_add(tail.half.minus(one).sum(odd));
    let up = without(near, tail.ones);
    let u = up.magnitude();
    let over = u.finite(zero, one);
    let back = u.finite(zero, tail.ones.sum(one));
    let y = up.wrapping_sub(back);
    let new = m.finite(y, x);
    settle(x, new, over, mark)
}

// Method 5 with the unit 2^q, in least spacings, for the units that the float adder serves.
pub fn stepped<W: Word>(x: W, q: u32, mark: W) -> Trimmed<W>
    requires { (W.FINE ≤ q) × (q ≤ W.COARSE) }
    ensures { settled_at W.value result ≡ settled_by W.FRACTION W.EXPONENT (absolute q) (W.value mark) 0 (W.value x) }
{
    let zero = W::zero();
    let m = x.magnitude();
    let a = m.finite(m, zero);
    let n = a.added_step(q);
    let new = m.finite(with_magnitude(x, m, n), x);
    settle(x, new, zero, mark)
}

// Method 5 with any unit 2^q.
pub fn stepped_by_words<W: Word>(x: W, q: W, mark: W) -> Trimmed<W>
    ensures { settled_at W.value result ≡ settled_by W.FRACTION W.EXPONENT (absolute (W.value q)) (W.value mark) 0 (W.value x) }
{
    let m = x.magnitude();
    let a = m.finite(m, W::zero());
    let step = a.any_step(q);
    let new = m.finite(with_magnitude(x, m, step.magnitude), x);
    settle(x, new, step.clipped, mark)
}

// Method 3 on a magnitude that is not zero: the tail of t bits becomes a one and zeros.
fn halfshave<W: Word>(m: W, t: u32) -> W
    requires { ((0 < W.value m) × (W.value m < infinity W.FRACTION W.EXPONENT)) × (t ≤ W.FRACTION) }
    ensures { W.value result ≡ halfshaved t (W.value m) }
{
    if t == 0 {
        return m;
    }
    let unit = W::unit(t);
    let half = W::unit(t - 1);
    without(m, unit.minus(W::one())).sum(half)
}

// Method 6 with n digits: method 3 with the tail that the reading's decade gives.
pub fn with_digits<W: Word>(x: W, table: &[u64; 633], n: u32, mark: W) -> Trimmed<W>
    requires { ((1 ≤ n) × (n ≤ W.DIGITS)) × (table.now ≡ powers) }
    ensures { settled_at W.value result ≡ settled_by W.FRACTION W.EXPONENT (digits n) (W.value mark) 0 (W.value x) }
{
    let zero = W::zero();
    let one = W::one();
    let m = x.magnitude();
    let b = m.finite(m, one);
    let a = b.choose(zero, one, b);
    let t = a.digits_tail(table, n);
    let h = halfshave(a, t);
    let k = m.choose(zero, zero, h);
    let new = m.finite(with_magnitude(x, m, k), x);
    settle(x, new, zero, mark)
}
