// Unpacking layers of codes into doubles: the questions first, which are in `asking_layers`, `asking_values` and `asking_codes`, then layer by layer. How one layer's
// codes become doubles is in `decoding`.
#![tactic(auto)]

ghost use Rattle.std.specs.Prelude.{◌≡◌, map, length};
ghost use Rattle.std.specs.Float.{binary32};
ghost use Rattle.std.specs.Float.Ieee.{to_bits};
ghost use Rattle.meaning.specs.Layers.{unpacked_codes};
ghost use Rattle.meaning.specs.Calls.{stored_layers, unpack};
ghost use Rattle.unpacking.specs.Answers.{answer_of};
ghost use Rattle.unpacking.specs.Known.{Known};

use decoding::LayerFloats;
use refusal::Refusal;

// Unpacks the layers, runs of `run` codes, one after another, each into its own part of the readings. All lengths fit, and every width, reference and exponent is known.
// What a layer has stands in three arrays, as C lends them. Its part is cut by hand: of a slice that `chunks_mut` lent, a proof knows the length alone.
fn unpack_layers(
    widths: &[u32],
    codes: &[u16],
    references: &[f32],
    exponents: &[i32],
    run: usize,
    mark: u64,
    readings: &mut [u64],
)
    requires { Known widths.now codes.now references.now exponents.now run (length readings.old) }
    ensures { readings.new
        ≡ unpacked_codes mark run (stored_layers widths.now (map (to_bits binary32) references.now) exponents.now) codes.now }
{
    let mut from = 0;
    for (i, reference) in references.iter().enumerate() {
        let to = from + run;
        let layer = LayerFloats {
            reference: *reference,
            step: decoding::step_of(exponents[i]),
            missing: layer_width::missing_of(widths[i]) as f64,
        };
        decoding::unpack_layer(&codes[from..to], layer, mark, &mut readings[from..to]);
        from = to;
    }
}

// Unpacks codes in layers of `length` into doubles: a layer's width, reference and step exponent stand at its place in their arrays, and the missing code of its width
// becomes the mark, bit for bit. Refused, with nothing written, by 3 to 5 for the lengths, 11 for a width that isn't 2 to 16, 7 for a reference that is not finite or an
// exponent out of -149 to 128, 8 for a mark that is no NaN, 12 for a code above its layer's missing code.
pub fn unpack(
    widths: &[u32],
    codes: &[u16],
    references: &[f32],
    exponents: &[i32],
    length: usize,
    mark: u64,
    readings: &mut [u64],
) -> Result<(), Refusal>
    ensures answer { answer_of result
        ≡ (unpack mark length widths.now codes.now (map (to_bits binary32) references.now) exponents.now readings.old).answer }
    ensures content { readings.new
        ≡ (unpack mark length widths.now codes.now (map (to_bits binary32) references.now) exponents.now readings.old).readings }
{
    asking_layers::ask_layers(
        length,
        codes.len(),
        readings.len() == codes.len(),
        widths,
        references.len(),
        exponents.len(),
    )?;
    asking_values::ask_values(references, exponents, mark)?;
    if !asking_codes::all_known(codes, length, widths) {
        return Err(Refusal::CodeOutOfRange);
    }
    unpack_layers(widths, codes, references, exponents, length, mark, readings);
    Ok(())
}
