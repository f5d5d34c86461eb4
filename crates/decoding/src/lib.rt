// How a code becomes a double: the code as a double, times its layer's step, plus the layer's reference, so that only the addition rounds. One code, and one layer.
// Internal: the call open to users is unpacking's. The `as` here are exact, and the laws of floats name them; a `From` for each code is no plainer.
#![tactic(auto)]

ghost use Rattle.std.specs.Prelude.{◌≡◌, true, map, ◌^◌, ◌≤◌, length};
ghost use Rattle.std.specs.Float.{binary32};
ghost use Rattle.std.specs.Float.Ieee.{to_bits};
ghost use Rattle.meaning.specs.Readings.{magnitude};
ghost use Rattle.meaning.specs.Questions.{exponent_in_range};
ghost use Rattle.decoding.specs.Floats.{finite_float, two_to, unpacked, Finite, decoded};

// A layer's reference and step as floats, which travel together, and the code that means missing in its width, as a double too.
#[derive(Clone, Copy)]
pub struct LayerFloats {
    pub reference: f32,
    pub step: f64,
    pub missing: f64,
}

// 2^exponent as a double, made by its pattern.
pub fn step_of(exponent: i32) -> f64
    requires { exponent_in_range exponent ≡ true }
    ensures { result ≡ two_to exponent }
{
    f64::from_bits(((exponent + 1023) as u64) << 52)
}

// A normal reference as a double: the machine's own widening. No proof needs that it is normal: tests/settings.c does.
fn widened_normal(reference: f32) -> f64
    requires reference_value { finite_float reference ≡ true }
    requires bound { 2 ^ 23 ≤ magnitude 23 8 (to_bits binary32 reference) }
    ensures { result ≡ reference }
{
    reference as f64
}

// The reference as a double, exact. Zero or a subnormal number goes by its magnitude, which counts least spacings: a caller's program may have its machine take
// subnormal numbers for zero, and its own widening would then lose them. In a loop over codes the compiler does this once.
fn widened(reference: f32) -> f64
    requires { finite_float reference ≡ true }
    ensures { result ≡ reference }
{
    let w = f32::to_bits(reference);
    let m = w % 0x8000_0000;
    if 0x0080_0000 <= m {
        return widened_normal(reference);
    }
    let size = (m as f64) * step_of(-149);
    if w < 0x8000_0000 { size } else { -size }
}

// The value of a code in a layer.
fn value_of(l: LayerFloats, code: u16) -> f64
    requires { Finite l }
    ensures { result ≡ unpacked l code }
{
    (code as f64) * l.step + widened(l.reference)
}

// A code unpacked to a double's pattern; a missing one becomes the mark.
fn unpack_code(l: LayerFloats, code: u16, mark: u64) -> u64
    requires { Finite l }
    ensures { result ≡ decoded l mark code }
{
    // Computed before it is chosen, so that a loop over this has no branch. Codes are compared as doubles, whose comparison is as wide as what is chosen.
    let double = f64::to_bits(value_of(l, code));
    if (code as f64) == l.missing {
        mark
    } else {
        double
    }
}

// One layer: its doubles go into the lent part.
pub fn unpack_layer(codes: &[u16], l: LayerFloats, mark: u64, readings: &mut [u64])
    requires { Finite l × (length codes.now ≡ length readings.old) }
    ensures { readings.new ≡ map (decoded l mark) codes.now }
{
    for (i, code) in codes.iter().enumerate() {
        readings[i] = unpack_code(l, *code, mark);
    }
}
