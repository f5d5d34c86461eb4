// The codes of a layer with two different values or more, exact whatever the exponents, and the least step that holds its span: all in words of 64 bits. Internal:
// the call open to users is packing's. The readings, the mark and the codes stay parameters beside the layer: they are the arrays of packing's call. Casts are proved to lose nothing.
#![tactic(auto)]

ghost use Rattle.std.specs.Prelude.{◌≡◌, ◌+◌, ◌-◌, ◌*◌, ◌/◌, ◌%◌, ◌^◌, ◌<◌, ◌≤◌, ◌≢◌, map, length, nat_le, slice_index, EachIndex};
ghost use Rattle.meaning.specs.Readings.{magnitude, sign, pattern, infinity, spacing_exp, size, position};
ghost use Rattle.meaning.specs.Methods.{nearest};
ghost use Rattle.meaning.specs.Layers.{least_from, code};
ghost use Rattle.codes.specs.Cut.{AllReady, CanCode, cut_of, reading_of, opposed, bump, round_word, layer_by, code_by};

// The smallest and the largest value of a layer, finite and different.
#[derive(Clone, Copy)]
pub struct Span {
    pub low: u32,
    pub high: u32,
    pub ghost low_finite: { magnitude 23 8 low < infinity 23 8 },
    pub ghost high_finite: { magnitude 23 8 high < infinity 23 8 },
    pub ghost order: { position 23 8 low < position 23 8 high },
}

// What a layer's codes go by: its reference, the exponent of its step counted from least spacings, and its width. The reference isn't so large beside the step that
// words of 64 bits can't hold its steps.
#[derive(Clone, Copy)]
pub struct LayerStep {
    pub reference: u32,
    pub exponent: u32,
    pub width: u32,
    pub ghost reference_finite: { magnitude 23 8 reference < infinity 23 8 },
    pub ghost reference_small: { size 23 (magnitude 23 8 reference) < 2 ^ (exponent + 41) },
    pub ghost exponent_bound: { exponent ≤ 277 },
    pub ghost width_bound: { width ≤ 16 },
}

// A signed size in whole units, rounded down, modulo 2^64, and how often something was lost: a number, since two of these are added.
#[derive(Clone, Copy)]
pub struct Cut {
    pub word: u64,
    pub lost: u64,
}

// What the codes of a layer share: its reference and exponent, and the opposite of the reference, cut.
#[derive(Clone, Copy)]
pub struct Base {
    pub reference: u32,
    pub exponent: u32,
    pub opposite: Cut,
    pub ghost reference_finite: { magnitude 23 8 reference < infinity 23 8 },
    pub ghost exponent_bound: { exponent ≤ 277 },
    pub ghost opposite_word: { opposite.word ≡ (reading_of (opposed reference) (exponent - 39)).word },
    pub ghost opposite_lost: { opposite.lost ≡ (reading_of (opposed reference) (exponent - 39)).lost },
}

// The spacing's exponent of a magnitude.
#[tactic(auto, unfolding(meaning::specs::Readings::spacing_exp, meaning::specs::Readings::exponent_field))]
fn spacing_of(magnitude: u32) -> u32
    ensures { result ≡ spacing_exp 23 magnitude }
{
    (magnitude >> 23).saturating_sub(1)
}

// Twice the significand of a magnitude whose spacing is 2^spacing.
fn twice_sig(magnitude: u32, spacing: u32) -> u64
    requires { spacing ≡ spacing_exp 23 magnitude }
    ensures size { result * 2 ^ spacing ≡ 2 * size 23 magnitude }
    ensures small { result < 2 ^ 25 }
{
    u64::from(magnitude - spacing * 0x0080_0000) * 2
}

// The size a * 2^x in units of 2^s.
fn cut_size(a: u64, x: u32, s: u32) -> Cut
    requires a_bound { a < 2 ^ 25 }
    requires x_bound { x < s + 64 }
    ensures { result ≡ cut_of 0 (a * 2 ^ x) (2 ^ s) }
{
    if s <= x {
        Cut {
            word: a << (x - s),
            lost: 0,
        }
    } else {
        // A shift that a word can do.
        let digits = (s - x).min(63);
        let word = a >> digits;
        Cut {
            word,
            lost: u64::from(word << digits != a),
        }
    }
}

// Twice the signed size of a reading in units of 2^unit.
fn cut_reading(reading: u32, unit: u32) -> Cut
    requires { spacing_exp 23 (magnitude 23 8 reading) < unit + 64 }
    ensures { result ≡ reading_of reading unit }
{
    let magnitude = reading % 0x8000_0000;
    let spacing = spacing_of(magnitude);
    let size = cut_size(twice_sig(magnitude, spacing), spacing, unit);
    if reading < 0x8000_0000 {
        size
    } else {
        let word = size.word.wrapping_neg().wrapping_sub(size.lost);
        Cut {
            word,
            lost: size.lost,
        }
    }
}

// The reading with the other sign.
#[tactic(auto, unfolding(crate::specs::Cut::opposed, meaning::specs::Readings::pattern, meaning::specs::Readings::sign, meaning::specs::Readings::magnitude))]
fn opposite(reading: u32) -> u32
    ensures { result ≡ opposed reading }
{
    reading.wrapping_add(0x8000_0000)
}

#[tactic(auto, unfolding(crate::specs::Cut::bump))]
fn bump_of(d: u64, k: u32, lost: u64) -> u64
    requires { k ≤ 40 }
    ensures { result ≡ bump d k lost }
{
    if lost == 0 { (d >> k) % 2 } else { 1 }
}

// A half of 2^k.
fn half(k: u32) -> u64
    requires le_k { 1 ≤ k }
    requires k_bound { k ≤ 40 }
    ensures { result ≡ 2 ^ (k - 1) }
{
    1 << (k - 1)
}

// d / 2^k to the nearest, a tie to the even number; `lost` says that d stands for a little more.
fn round_word(d: u64, k: u32, lost: u64) -> u64
    requires le_k { 1 ≤ k }
    requires k_bound { k ≤ 40 }
    ensures { result ≡ round_word d k lost }
{
    let bump = bump_of(d, k, lost);
    let raised = d.wrapping_add(half(k) - 1 + bump);
    raised >> k
}

// The exponent of the unit that sizes are cut to.
fn unit_of(exponent: u32) -> u32
    ensures { result ≡ exponent - 39 }
{
    exponent.saturating_sub(39)
}

impl Base {
    // The part of a code that is the same for the whole layer.
    pub fn of(reference: u32, exponent: u32) -> Self
        requires reference_finite { magnitude 23 8 reference < infinity 23 8 }
        requires exponent_bound { exponent ≤ 277 }
        requires reference_small { size 23 (magnitude 23 8 reference) < 2 ^ (exponent + 41) }
        ensures reference { result.reference ≡ reference }
        ensures exponent { result.exponent ≡ exponent }
    {
        Base {
            reference,
            exponent,
            opposite: cut_reading(opposite(reference), unit_of(exponent)),
        }
    }

    // The code of a reading.
    pub fn code(self, reading: u32) -> u16
        requires { CanCode reading self.reference self.exponent }
        ensures { result ≡ nearest (position 23 8 reading - position 23 8 self.reference) (2 ^ self.exponent) }
    {
        let unit = unit_of(self.exponent);
        let cut = cut_reading(reading, unit);
        let difference = cut.word.wrapping_add(self.opposite.word);
        let lost = cut.lost + self.opposite.lost;
        round_word(difference, self.exponent + 1 - unit, lost) as u16
    }

    // The code of a reading that may be missing.
    fn code_or_mark(self, reading: u32, mark: u32, missing: u16) -> u16
        requires { reading ≢ mark → CanCode reading self.reference self.exponent }
        ensures { result ≡ code_by missing mark self.reference self.exponent reading }
    {
        if reading == mark {
            missing
        } else {
            self.code(reading)
        }
    }
}

// So many steps of 2^k.
fn top_of(steps: u64, k: u32) -> u64
    requires steps_bound { steps ≤ 65534 }
    requires k_bound { k ≤ 40 }
    ensures { result ≡ steps * 2 ^ k }
{
    steps << k
}

// Do so many steps of 2^exponent hold a span?
fn holds_at(span: Span, exponent: u32, steps: u64) -> bool
    requires exponent_bound { exponent ≤ 277 }
    requires high_bound { spacing_exp 23 (magnitude 23 8 span.high) < exponent - 39 + 64 }
    requires low_bound { spacing_exp 23 (magnitude 23 8 span.low) < exponent - 39 + 64 }
    requires span_bound { (position 23 8 span.high - position 23 8 span.low) * 2 / 2 ^ (exponent - 39) < 2 ^ 60 }
    requires le_steps { 1 ≤ steps }
    requires steps_bound { steps ≤ 65534 }
    ensures { result ≡ nat_le (position 23 8 span.high - position 23 8 span.low) (steps * 2 ^ exponent) }
{
    let unit = unit_of(exponent);
    let high = cut_reading(span.high, unit);
    let low = cut_reading(opposite(span.low), unit);
    let lost = high.lost + low.lost;
    // Where both lost something, both are small beside one step. Each answer returns by itself: as one choice the search for a step takes a quarter longer.
    if lost == 2 {
        return true;
    }
    let difference = high.word.wrapping_add(low.word);
    let top = top_of(steps, exponent + 1 - unit);
    if difference < top {
        return true;
    }
    if top < difference {
        return false;
    }
    lost == 0
}

// The least exponent, in least spacings, whose steps hold a span.
pub fn least_step(span: Span, width: u32) -> u32
    requires le_width { 2 ≤ width }
    requires width_bound { width ≤ 16 }
    ensures { result ≡ least_from width (position 23 8 span.high - position 23 8 span.low) 277 0 }
{
    let steps = layer_width::steps_of(width);
    let low_spacing = spacing_of(span.low % 0x8000_0000);
    let high_spacing = spacing_of(span.high % 0x8000_0000);
    // From here down, as long as the exponent below holds the span too. A `while`: what it counts is what is looked for, and no place in a slice.
    let mut exponent = low_spacing.max(high_spacing) + 26 - width;
    while 0 < exponent && holds_at(span, exponent - 1, steps) {
        exponent -= 1;
    }
    exponent
}

// Gives each place of `out` what `code` makes of the reading at that place.
pub fn code_each<F: Fn(u32) -> u16>(readings: &[u32], out: &mut [u16], code: F)
    requires readings_len { length readings.now ≡ length out.old }
    requires codable { EachIndex readings.now (λ k. F.pre code (slice_index readings.now k)) }
    ensures { EachIndex readings.now (λ k. F.post code (slice_index readings.now k) (slice_index out.new k)) }
{
    // Not a zip with `out.iter_mut()`: a proof doesn't know what such a loop has written.
    for (i, reading) in readings.iter().enumerate() {
        out[i] = code(*reading);
    }
}

// The codes of a layer.
pub fn codes_of(readings: &[u32], mark: u32, layer: LayerStep, out: &mut [u16])
    requires all_ready { AllReady mark layer.reference layer.exponent readings.now }
    requires readings_len { length readings.now ≡ length out.old }
    ensures { out.new ≡ map (code 23 8 mark (layer_by layer.width layer.reference layer.exponent)) readings.now }
{
    let base = Base::of(layer.reference, layer.exponent);
    let missing = layer_width::missing_of(layer.width);
    code_each(
        readings,
        out,
        |reading| base.code_or_mark(reading, mark, missing),
    );
}
