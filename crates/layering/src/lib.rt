// How one layer of singles is packed: its reference, its step, and a code of its width for each reading. Internal: the call open to users is packing's. Its
// functions have the arrays of packing's call, and say the same of them; the cast of an exponent is proved to lose nothing.
#![tactic(auto)]

ghost use Rattle.std.specs.Prelude.{◌≡◌, map, ◌≤◌, length};
ghost use Rattle.std.proofs.Math.IntN.{sub_ℕ};
ghost use Rattle.std.specs.Float.{binary32};
ghost use Rattle.std.specs.Float.Ieee.{to_bits};
ghost use Rattle.meaning.specs.Layers.{Spread, summary, code, layer_of};
ghost use Rattle.layer_width.specs.Width.{Width};
ghost use Rattle.summary.specs.Summaries.{Packable};
ghost use Rattle.layering.specs.Layering.{flat_code, One, PackedAs};

use codes::{LayerStep, Span};
use summary::Summary;

// What is stored of a layer beside its width and its codes.
#[derive(Clone, Copy)]
pub struct LayerRecord {
    pub reference: f32,
    pub exponent: i32,
}

// The code of a reading in a layer with one value or none.
#[tactic(auto, unfolding(crate::specs::Layering::flat_code))]
fn flat_code(reading: u32, mark: u32, missing: u16) -> u16
    ensures { result ≡ flat_code missing mark reading }
{
    if reading == mark { missing } else { 0 }
}

// The codes of a layer with one value or none.
fn flat_codes(readings: &[u32], mark: u32, missing: u16, out: &mut [u16])
    requires { length readings.now ≡ length out.old }
    ensures { out.new ≡ map (flat_code missing mark) readings.now }
{
    codes::code_each(readings, out, |reading| flat_code(reading, mark, missing));
}

// E of an exponent counted from -149.
fn stored(exponent: u32) -> i32
    requires { exponent ≤ 277 }
    ensures { result ≡ sub_ℕ exponent 149 }
{
    (exponent as i32) - 149
}

// A layer with the one value `reference`, or with none and +0.
fn flat_layer(
    readings: &[u32],
    mark: u32,
    width: u32,
    reference: f32,
    out: &mut [u16],
) -> LayerRecord
    requires width { Width width }
    requires readings_len { length readings.now ≡ length out.old }
    requires one { One (summary 23 8 mark readings.now) (to_bits binary32 reference) }
    ensures layer { PackedAs result (layer_of 23 8 277 mark width readings.now) }
    ensures content { out.new ≡ map (code 23 8 mark (layer_of 23 8 277 mark width readings.now)) readings.now }
{
    let missing = layer_width::missing_of(width);
    flat_codes(readings, mark, missing, out);
    LayerRecord {
        reference,
        exponent: -149,
    }
}

// A layer with the smallest value `low` and the largest `high`.
fn spread_layer(
    readings: &[u32],
    mark: u32,
    width: u32,
    low: f32,
    high: f32,
    out: &mut [u16],
) -> LayerRecord
    requires width { Width width }
    requires readings_len { length readings.now ≡ length out.old }
    requires packable { Packable mark readings.now }
    requires readings_value { summary 23 8 mark readings.now ≡ Spread (to_bits binary32 low) (to_bits binary32 high) }
    ensures layer { PackedAs result (layer_of 23 8 277 mark width readings.now) }
    ensures content { out.new ≡ map (code 23 8 mark (layer_of 23 8 277 mark width readings.now)) readings.now }
{
    let span = Span {
        low: f32::to_bits(low),
        high: f32::to_bits(high),
    };
    let exponent = codes::least_step(span, width);
    let layer = LayerStep {
        reference: span.low,
        exponent,
        width,
    };
    quick::codes_of(readings, mark, layer, out);
    LayerRecord {
        reference: low,
        exponent: stored(exponent),
    }
}

// Packs one layer, each of whose readings is finite or missing, into its part of the codes, `out`.
pub fn pack_layer(readings: &[u32], mark: u32, width: u32, out: &mut [u16]) -> LayerRecord
    requires width { Width width }
    requires readings_len { length readings.now ≡ length out.old }
    requires packable { Packable mark readings.now }
    ensures layer { PackedAs result (layer_of 23 8 277 mark width readings.now) }
    ensures content { out.new ≡ map (code 23 8 mark (layer_of 23 8 277 mark width readings.now)) readings.now }
{
    match summary::summary_of(readings, mark) {
        Summary::Nothing => flat_layer(readings, mark, width, 0.0, out),
        Summary::Flat(value) => flat_layer(readings, mark, width, value, out),
        Summary::Spread(low, high) => spread_layer(readings, mark, width, low, high, out),
    }
}
