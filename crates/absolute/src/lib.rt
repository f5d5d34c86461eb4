// Method 5 of document 01 on one finite magnitude. The unit is 2^q least spacings: q is the setting plus 149 for singles, plus 1074 for doubles.
// For all but the largest and the smallest units the float adder rounds to the unit, with no branch (`fine_..`); for every unit whole numbers do, more slowly, and clip
// (`coarse_..`). With the units of `fine_..` the adder never has to tell a subnormal number from zero: such a reading is below half a unit, and a multiple of the unit
// is zero or a normal number. So a caller's program may have its machine take subnormal numbers for zero. Rattle's logic knows nothing of that, and no proof needs the least
// unit that `fine_..` ask for: tests/settings.c does.
// Internal: the calls open to users are those of `trim`.
#![tactic(auto)]

ghost use Rattle.std.specs.Prelude.{◌≡◌, cond, ℕ, ◌+◌, ◌*◌, ◌^◌, ◌<◌, ◌≤◌, eqb};
ghost use Rattle.meaning.specs.Readings.{infinity, spacing_exp};
ghost use Rattle.meaning.specs.Methods.{absolute, nearest, clips, new_magnitude};
ghost use Rattle.absolute.specs.Stepped.{Stepped};

// A new magnitude, and 1 where it was clipped, else 0; both in a word of the width.
#[derive(Clone, Copy)]
pub struct Coarse<W> {
    pub magnitude: W,
    pub clipped: W,
}

// The nearest multiple of the unit, ties to even: the first single whose spacing is the unit is added, which rounds, and taken off again, which is exact; from that
// single on a magnitude stays.
pub fn fine_single(m: u32, q: u32) -> u32
    requires { (m < 0x7f800000) × (24 ≤ q) × (q ≤ 252) }
    ensures { result ≡ new_magnitude 23 8 (absolute q) 0 m }
{
    let start = (q + 1) << 23;
    let offset = f32::from_bits(start);
    let sum = f32::from_bits(m) + offset;
    let rounded = f32::to_bits(sum - offset);
    // computed before it is chosen, so that a loop over this has no branch
    if m < start { rounded } else { m }
}

// The same of a double. The two stay two: f32 and f64 share no trait that says what from_bits, to_bits and a sum give, so a function for both would need each of its lines as
// a method with two impls.
pub fn fine_double(m: u64, q: u64) -> u64
    requires { (m < 0x7ff0000000000000) × (53 ≤ q) × (q ≤ 2044) }
    ensures { result ≡ new_magnitude 52 11 (absolute q) 0 m }
{
    let start = (q + 1) << 52;
    let offset = f64::from_bits(start);
    let sum = f64::from_bits(m) + offset;
    let rounded = f64::to_bits(sum - offset);
    if m < start { rounded } else { m }
}

// 2^d.
pub fn power(d: u64) -> u64
    requires { d ≤ 63 }
    ensures { result ≡ 2 ^ d }
{
    1 << d
}

// n / g to the nearest whole number, ties to the even one.
fn nearest_whole(n: u64, g: u64) -> u64
    requires { (n < 2 ^ 63) × (0 < g) }
    ensures { result ≡ nearest n g }
{
    let whole = n / g;
    let twice = 2 * (n % g);
    if twice < g {
        return whole;
    }
    if g < twice {
        return whole + 1;
    }
    whole + whole % 2
}

// The exponent of the spacing at a magnitude, with this number of fraction bits.
pub fn spacing_exponent(bits: u64, m: u64) -> u64
    requires { bits ≤ 62 }
    ensures { result ≡ spacing_exp bits m }
{
    let field = m >> bits;
    if field == 0 {
        return 0;
    }
    field - 1
}

// The magnitude of a number of spacings of 2^exponent least spacings each, a number that is 0 or reaches the binade with that spacing.
fn magnitude_at(bits: u64, exponent: u64, spacings: u64) -> u64
    requires { (bits ≤ 62) × (exponent * 2 ^ bits + spacings < 2 ^ 64) }
    ensures { result ≡ cond (eqb spacings 0) 0 (exponent * 2 ^ bits + spacings) }
{
    if spacings == 0 {
        return 0;
    }
    exponent * power(bits) + spacings
}

// The nearest multiple of any unit by whole numbers, clipped, for every width up to 64 bits: with this number of fraction bits, and the magnitude of infinity as the limit.
pub fn coarse_step(bits: u64, limit: u64, m: u64, q: u64) -> Coarse<u64>
    requires { (bits ≤ 62) × ((m < limit) × (limit < 2 ^ 63)) }
    ensures { (X : ℕ) → limit ≡ infinity bits X → Stepped bits X q m result.magnitude result.clipped }
{
    let exponent = spacing_exponent(bits, m);
    if q < exponent {
        return Coarse {
            magnitude: m,
            clipped: 0,
        };
    }
    // the unit is 2^above spacings; zero is nearest where that is more than twice the significand
    let above = q - exponent;
    if bits + 1 < above {
        return Coarse {
            magnitude: 0,
            clipped: 0,
        };
    }
    let significand = m - exponent * power(bits);
    let unit = power(above);
    let near = magnitude_at(bits, exponent, nearest_whole(significand, unit) * unit);
    if near < limit {
        return Coarse {
            magnitude: near,
            clipped: 0,
        };
    }
    let below = magnitude_at(bits, exponent, significand / unit * unit);
    Coarse {
        magnitude: below,
        clipped: 1,
    }
}

// The nearest multiple of any unit, ties to even, or the largest finite multiple where that would pass the largest finite single.
pub fn coarse_single(m: u32, q: u32) -> Coarse<u32>
    requires { m < 0x7f800000 }
    ensures magnitude { result.magnitude ≡ new_magnitude 23 8 (absolute q) 0 m }
    ensures clipped { result.clipped ≡ cond (clips 23 8 (absolute q) m) 1 0 }
{
    let step = coarse_step(23, 0x7f800000, u64::from(m), u64::from(q));
    Coarse {
        magnitude: step.magnitude as u32,
        clipped: step.clipped as u32,
    }
}

// The same of a double. Both are a call of `coarse_step`: a function for both would need infinity and the narrowing of a result as methods with two impls, which is no
// plainer, or bit by bit, as `Word::any_step` has them for a word of another crate, which is slower.
pub fn coarse_double(m: u64, q: u64) -> Coarse<u64>
    requires { m < 0x7ff0000000000000 }
    ensures magnitude { result.magnitude ≡ new_magnitude 52 11 (absolute q) 0 m }
    ensures clipped { result.clipped ≡ cond (clips 52 11 (absolute q) m) 1 0 }
{
    coarse_step(52, 0x7ff0000000000000, m, q)
}
