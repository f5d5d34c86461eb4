// The codes of a layer by doubles, where that is exact, and else by words of 64 bits. Internal: the call open to users is packing's.
#![tactic(auto)]

ghost use Rattle.std.specs.Prelude.{◌≡◌, map, ◌≢◌, ◌+◌, ◌-◌, ◌*◌, ◌^◌, ◌≤◌, length};
ghost use Rattle.std.specs.Float.{binary32, binary64};
ghost use Rattle.std.specs.Float.Ieee.{of_bits};
ghost use Rattle.meaning.specs.Readings.{position};
ghost use Rattle.meaning.specs.Layers.{last_code, code};
ghost use Rattle.codes.specs.Cut.{AllReady, CanCode, layer_by, code_by};
ghost use Rattle.quick.specs.Coarse.{Coarse, AllCoarse, AllHeld, or_top, finest};

use codes::LayerStep;

// What the codes of a layer share: what they go by, its reference as a double, and 2^52 steps as a double.
#[derive(Clone, Copy)]
pub struct Lift {
    pub layer: LayerStep,
    pub low: f64,
    pub lift: f64,
    pub ghost low_value: { low ≡ of_bits binary32 layer.reference },
    pub ghost lift_value: { lift ≡ of_bits binary64 ((layer.exponent + 926) * 2 ^ 52) },
}

// A number above all magnitudes for 0, and any other magnitude itself.
fn or_top(magnitude: u32) -> u32
    ensures { result ≡ or_top magnitude }
{
    summary::choose(magnitude, 0, u32::MAX, magnitude)
}

// The smallest magnitude of the present readings that are not zero; above all magnitudes where there is none.
fn finest_magnitude(readings: &[u32], mark: u32) -> u32
    ensures { result ≡ finest mark readings.now }
{
    // A `for`: the compiler takes several readings at once here, but not in a fold.
    let mut least = u32::MAX;
    for reading in readings {
        let magnitude = summary::choose(*reading, mark, 0, *reading % 0x8000_0000);
        least = or_top(magnitude).min(least);
    }
    least
}

// The first magnitude of a normal number whose spacing is at least 2^(exponent + width - 53); where exponent + width is below 53, of any normal number. A layer with a
// subnormal reading goes by words, so that a caller's program may have its machine take subnormal numbers for zero. No proof needs that of a reading: tests/settings.c does.
fn limit_of(layer: LayerStep) -> u32
    ensures { result ≡ (layer.exponent + layer.width - 53 + 1) * 8388608 }
{
    ((layer.exponent + layer.width).saturating_sub(53) + 1) * 0x0080_0000
}

impl Lift {
    // The layer's part of every code.
    fn of(layer: LayerStep) -> Self
        requires { Coarse 0 layer.reference }
        ensures { result.layer ≡ layer }
    {
        Lift {
            layer,
            low: f32::from_bits(layer.reference) as f64,
            lift: f64::from_bits(u64::from(layer.exponent + 926) << 52),
        }
    }

    // The code of a reading, by doubles. A missing reading is coded as the reference is, and then given its own code. A reading widens by `as`: `f64::from` tests for
    // a NaN first, and none of these is one.
    fn code(self, reading: u32, mark: u32, missing: u16) -> u16
        requires coarse { Coarse (self.layer.exponent + self.layer.width - 53) self.layer.reference }
        requires can_code { reading ≢ mark → CanCode reading self.layer.reference self.layer.exponent }
        requires coarse_reading { reading ≢ mark → Coarse (self.layer.exponent + self.layer.width - 53) reading }
        requires held { reading ≢ mark → position 23 8 reading - position 23 8 self.layer.reference ≤ last_code self.layer.width * 2 ^ self.layer.exponent }
        ensures { result ≡ code_by missing mark self.layer.reference self.layer.exponent reading }
    {
        let pattern = summary::choose(reading, mark, self.layer.reference, reading);
        let difference = (f32::from_bits(pattern) as f64) - self.low;
        let code = f64::to_bits(difference + self.lift) % 65536;
        // Computed before it is chosen, so that a loop over this has no branch.
        if reading == mark {
            missing
        } else {
            code as u16
        }
    }
}

// The codes of a layer by doubles.
fn quick_codes(readings: &[u32], mark: u32, layer: LayerStep, out: &mut [u16])
    requires coarse { Coarse (layer.exponent + layer.width - 53) layer.reference }
    requires all_ready { AllReady mark layer.reference layer.exponent readings.now }
    requires all_held { AllHeld mark layer.reference layer.exponent layer.width readings.now }
    requires all_coarse { AllCoarse mark (layer.exponent + layer.width - 53) readings.now }
    requires readings_len { length readings.now ≡ length out.old }
    ensures { out.new ≡ map (code 23 8 mark (layer_by layer.width layer.reference layer.exponent)) readings.now }
{
    let lift = Lift::of(layer);
    let missing = layer_width::missing_of(layer.width);
    codes::code_each(readings, out, |reading| lift.code(reading, mark, missing));
}

// The codes of a layer.
pub fn codes_of(readings: &[u32], mark: u32, layer: LayerStep, out: &mut [u16])
    requires all_ready { AllReady mark layer.reference layer.exponent readings.now }
    requires all_held { AllHeld mark layer.reference layer.exponent layer.width readings.now }
    requires readings_len { length readings.now ≡ length out.old }
    ensures { out.new ≡ map (code 23 8 mark (layer_by layer.width layer.reference layer.exponent)) readings.now }
{
    let reference = or_top(layer.reference % 0x8000_0000);
    let finest = finest_magnitude(readings, mark).min(reference);
    if finest < limit_of(layer) {
        codes::codes_of(readings, mark, layer, out);
    } else {
        quick_codes(readings, mark, layer, out);
    }
}
