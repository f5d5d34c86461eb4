// All layers of an array, packed one after another. How one layer is packed is in `layering`. Internal: the call open to users is packing's.
#![tactic(auto)]

ghost use Rattle.std.specs.Prelude.{◌≡◌, map};
ghost use Rattle.std.specs.Float.{binary32};
ghost use Rattle.std.specs.Float.Ieee.{to_bits};
ghost use Rattle.meaning.specs.Layers.{packed_codes};
ghost use Rattle.summary.specs.Summaries.{Packable};
ghost use Rattle.all_layers.specs.Arrays.{Fit, packed_references, packed_exponents};

// Packs the layers, runs of `run` readings, one after another, each by its own width into its own part of the codes. All lengths fit, and each reading is finite or missing.
// What a layer has stands in three arrays, as C lends them. Its part is cut by hand: of a slice that `chunks_mut` lent, a proof knows the length alone.
pub fn pack_layers(
    readings: &[u32],
    run: usize,
    mark: u32,
    widths: &[u32],
    codes: &mut [u16],
    references: &mut [f32],
    exponents: &mut [i32],
)
    requires fit { Fit run widths.now readings.now codes.old references.old exponents.old }
    requires packable { Packable mark readings.now }
    ensures codes { codes.new ≡ packed_codes 23 8 277 mark run widths.now readings.now }
    ensures references { map (to_bits binary32) references.new ≡ packed_references mark run widths.now readings.now }
    ensures exponents { exponents.new ≡ packed_exponents mark run widths.now readings.now }
{
    let mut from = 0;
    for (i, width) in widths.iter().enumerate() {
        let to = from + run;
        let layer = layering::pack_layer(&readings[from..to], mark, *width, &mut codes[from..to]);
        references[i] = layer.reference;
        exponents[i] = layer.exponent;
        from = to;
    }
}
