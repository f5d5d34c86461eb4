// Do two finite readings lie more than 2^q least spacings apart? By words of 64 bits, exact for every two patterns of either width. All is counted in halves of the larger
// magnitude's spacing: whole numbers for it and for the limit, and for the smaller one a fraction, which is rounded to the side that changes no answer. Both the limit
// and that fraction's denominator are cut to 2^(bits + 3), since what is above it gives the same answer.
// Internal: the calls open to users are those of `beyond`.
#![tactic(auto)]

ghost use Rattle.std.specs.Prelude.{◌≡◌, cond, ℕ, min, max, ◌+◌, ◌-◌, ◌*◌, ◌^◌, ◌<◌, ◌≤◌, ltb};
ghost use Rattle.meaning.specs.Readings.{size, spacing_exp, position, distance};
ghost use Rattle.reading_apart.specs.Words.{cut_limit, significand, Finite};

// Twice the significand of a magnitude whose spacing is 2^exponent, with this number of fraction bits.
fn twice_significand(bits: u64, m: u64, exponent: u64) -> u64
    requires { (bits ≤ 52) × (exponent ≡ spacing_exp bits m) }
    ensures value { result ≡ 2 * significand bits m }
    ensures small { result < 2 ^ 54 }
{
    2 * (m - exponent * absolute::power(bits))
}

// The limit of 2^q least spacings in halves of the spacing 2^exponent, cut to 2^(bits + 3); 0 where it is less than a half.
fn limit_at(bits: u64, exponent: u64, q: u64) -> u64
    requires { (bits ≤ 52) × (q < 4096) }
    ensures value { result ≡ cut_limit bits exponent q }
    ensures small { result ≤ 2 ^ 55 }
{
    if q + 1 < exponent {
        return 0;
    }
    absolute::power((q + 1 - exponent).min(bits + 3))
}

// Is the difference of two sizes, or with opposite signs their sum, more than 2^q? `high` and `low` are the magnitudes.
fn far(bits: u64, high: u64, low: u64, opposite: bool, q: u64) -> bool
    requires { (bits ≤ 52) × ((q < 4096) × (low ≤ high)) }
    ensures { result ≡ ltb (2 ^ q) (cond opposite (size bits high + size bits low) (size bits high - size bits low)) }
{
    let x = absolute::spacing_exponent(bits, high);
    let y = absolute::spacing_exponent(bits, low);
    let u = twice_significand(bits, high, x);
    let v = twice_significand(bits, low, y);
    let limit = limit_at(bits, x, q);
    let d = (x - y).min(bits + 3);
    if opposite {
        // rounded up: a sum is above a whole limit where it is so rounded up
        return limit < u + ((v + (absolute::power(d) - 1)) >> d);
    }
    limit + (v >> d) < u
}

// Do two finite patterns lie more than 2^q least spacings apart? `top` is the sign's bit.
pub fn apart(bits: u64, top: u64, w: u64, v: u64, q: u64) -> bool
    requires { (bits ≤ 52) × ((q < 4096) × (0 < top)) }
    ensures { (X : ℕ) → top ≡ 2 ^ (bits + X) → Finite bits X w → Finite bits X v → result ≡ ltb (2 ^ q) (distance (position bits X w) (position bits X v)) }
{
    let a = w % top;
    let b = v % top;
    far(bits, a.max(b), a.min(b), w / top != v / top, q)
}
