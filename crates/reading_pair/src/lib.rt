// One place of two arrays: are both readings present and finite, and do they lie more than 2^q least spacings apart? Nearly always they don't, and the float unit says so at
// once: with one sign, a difference that it rounds to less than the limit is less, since rounding keeps the order and the limit is a float itself. Where it says nothing,
// words decide (`reading_apart`).
//
// A caller's program may round in another direction, or take subnormal numbers for zero; Rattle's logic knows nothing of that. Every direction keeps the order. The float unit
// is asked only with a limit that is a normal number, 2^-126 or more (doubles: 2^-1022), or 0. Where both readings are taken for zero, or the difference is, they lie less than
// the least normal number apart, and so less than the limit. Where only the smaller is taken for zero, the float unit gets a difference that is too large, which says less. And
// nothing is less than 0. tests/settings.c tries all of these.
//
// Internal: the calls open to users are those of `beyond`.
#![tactic(auto)]

ghost use Rattle.std.specs.Prelude.{◌≡◌, true, false, ℕ, ◌+◌, ◌-◌, ◌*◌, ◌^◌, ◌<◌, ◌≤◌};
ghost use Rattle.meaning.specs.Readings.{size, infinity, distance};
ghost use Rattle.meaning.specs.Methods.{trimmable};
ghost use Rattle.meaning.specs.Comparing.{beyond};
ghost use Rattle.reading_pair.specs.Limit.{limit_for, finite_or0};
ghost use Rattle.reading_pair.specs.Widths.{narrow_single, narrow_double, infinity_single, infinity_double, sign_single, sign_double};

use word::Word;

// The words whose readings the float unit can take from one another.
pub trait Near: Word {
    // The sign's bit, and the magnitude of infinity.
    const SIGN: u64;

    ghost SIGN: { ℕ };

    const INFINITY: u64;

    ghost INFINITY: { ℕ };

    // The magnitude with this exponent field, and no fraction.
    fn binade(field: u64) -> Self
        requires { field < 2 ^ Self.EXPONENT }
        ensures { Self.value result ≡ field * 2 ^ Self.FRACTION };

    // Does the float unit say that the sizes of two magnitudes lie less than the limit apart? A "no" says nothing. The difference is compared by its pattern, without its sign:
    // so either of the two may be the larger.
    fn near(self, other: Self, limit: Self) -> bool
        requires { (Self.value self < infinity Self.FRACTION Self.EXPONENT) × (Self.value other < infinity Self.FRACTION Self.EXPONENT) × (Self.value limit < infinity Self.FRACTION Self.EXPONENT) }
        ensures { result ≡ true → distance (size Self.FRACTION (Self.value self)) (size Self.FRACTION (Self.value other)) < size Self.FRACTION (Self.value limit) };

    ghost sign_is: { SIGN ≡ 2 ^ (Self.FRACTION + Self.EXPONENT) };

    ghost infinity_is: { INFINITY ≡ infinity Self.FRACTION Self.EXPONENT };

    // A word of 64 bits holds the width.
    ghost narrow: { (Self.FRACTION ≤ 52) × (1 < 2 ^ Self.EXPONENT) × (2 ^ Self.EXPONENT + Self.FRACTION < 4096) };
}

impl Near for u32 {
    const SIGN: u64 = 0x8000_0000;

    ghost SIGN = { 0x8000_0000 };

    const INFINITY: u64 = 0x7f80_0000;

    ghost INFINITY = { 0x7f80_0000 };

    ghost sign_is = { sign_single };

    ghost infinity_is = { infinity_single };

    ghost narrow = { narrow_single };

    fn binade(field: u64) -> Self {
        (field as u32) << 23
    }

    fn near(self, other: Self, limit: Self) -> bool {
        f32::to_bits(f32::from_bits(self) - f32::from_bits(other)) % 0x8000_0000 < limit
    }
}

impl Near for u64 {
    const SIGN: u64 = 0x8000_0000_0000_0000;

    ghost SIGN = { 0x8000_0000_0000_0000 };

    const INFINITY: u64 = 0x7ff0_0000_0000_0000;

    ghost INFINITY = { 0x7ff0_0000_0000_0000 };

    ghost sign_is = { sign_double };

    ghost infinity_is = { infinity_double };

    ghost narrow = { narrow_double };

    fn binade(field: u64) -> Self {
        field << 52
    }

    fn near(self, other: Self, limit: Self) -> bool {
        f64::to_bits(f64::from_bits(self) - f64::from_bits(other)) % 0x8000_0000_0000_0000 < limit
    }
}

// The magnitude of 2^q least spacings, or 0 where that is no normal number: then nothing is less, and words decide alone.
pub fn limit_of<W: Near>(q: u64) -> W
    requires { q + 2 < 2 ^ W.EXPONENT + W.FRACTION }
    ensures { W.value result ≡ limit_for W.FRACTION q }
{
    W::binade((q + 1).saturating_sub(u64::from(W::FRACTION)))
}

// A reading's magnitude, or 0 where it isn't finite.
fn finite_or_zero<W: Word>(w: W) -> W
    ensures { W.value result ≡ finite_or0 W.FRACTION W.EXPONENT (W.value w) }
{
    let m = w.magnitude();
    m.finite(m, W::zero())
}

// Is a pair surely not beyond the limit, whatever the mark? Only signs that differ, and what is not near, are left over. What isn't finite is taken for 0: a pair with such a
// reading is never beyond, and one that is missing on both sides is near, also where the mark is a NaN. So there is no branch that the processor can't predict: on where a reading
// is missing, or on which of the two is larger.
fn is_within<W: Near>(w: W, v: W, limit: W) -> bool
    requires { W.value limit < infinity W.FRACTION W.EXPONENT }
    ensures { result ≡ true → (mark q : ℕ) → size W.FRACTION (W.value limit) ≤ 2 ^ q → beyond W.FRACTION W.EXPONENT mark q (W.value w) (W.value v) ≡ false }
{
    if w.sign().wide() != v.sign().wide() {
        return false;
    }
    finite_or_zero(w).near(finite_or_zero(v), limit)
}

// Is a reading present and finite?
fn is_trimmable<W: Near>(w: W, mark: W) -> bool
    ensures value { result ≡ trimmable W.FRACTION W.EXPONENT (W.value mark) (W.value w) }
    ensures room { result ≡ true → W.value w < 2 ^ (W.FRACTION + W.EXPONENT + 1) }
{
    if w.wide() == mark.wide() {
        return false;
    }
    w.magnitude().wide() < W::INFINITY
}

// Is a pair beyond the limit? By words, for every pair.
fn is_beyond_exactly<W: Near>(w: W, v: W, mark: W, q: u64) -> bool
    requires { q + 2 < 2 ^ W.EXPONENT + W.FRACTION }
    ensures { result ≡ beyond W.FRACTION W.EXPONENT (W.value mark) q (W.value w) (W.value v) }
{
    if !is_trimmable(w, mark) {
        return false;
    }
    if !is_trimmable(v, mark) {
        return false;
    }
    reading_apart::apart(u64::from(W::FRACTION), W::SIGN, w.wide(), v.wide(), q)
}

// Are both readings present and finite, and more than 2^q least spacings apart? `limit` is that of `limit_of`.
pub fn is_beyond<W: Near>(w: W, v: W, mark: W, q: u64, limit: W) -> bool
    requires { (q + 2 < 2 ^ W.EXPONENT + W.FRACTION) × (W.value limit ≡ limit_for W.FRACTION q) }
    ensures { result ≡ beyond W.FRACTION W.EXPONENT (W.value mark) q (W.value w) (W.value v) }
{
    if is_within(w, v, limit) {
        return false;
    }
    is_beyond_exactly(w, v, mark, q)
}
