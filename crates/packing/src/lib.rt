// Packing: an array of singles cut into layers, each with a width, a reference, a step and a code of that width for each reading. The questions first, which are in
// `asking_layers` and `asking_readings`, then all layers, which are in `all_layers`.
#![tactic(auto)]

ghost use Rattle.std.specs.Prelude.{◌≡◌, map};
ghost use Rattle.std.specs.Float.{binary32};
ghost use Rattle.std.specs.Float.Ieee.{to_bits};
ghost use Rattle.packing.specs.Answers.{answer_of, packed};

use refusal::Refusal;

// Packs an array of singles, layer by layer. Each layer has `length` readings; the mark means missing and is compared by its bits; `widths` has a width for each layer,
// 2 to 16, and is only read. Each layer leaves a code for each reading, a reference and a step exponent. Or answers the refusal, and then no array is touched:
// 3 for a length that isn't 1 to 65,536, 4 where the readings do not fill whole layers, 5 where another array has the wrong length, 11 for a width that isn't 2 to 16,
// 6 where a reading is neither finite nor the mark.
pub fn pack(
    readings: &[u32],
    length: usize,
    mark: u32,
    widths: &[u32],
    codes: &mut [u16],
    references: &mut [f32],
    exponents: &mut [i32],
) -> Result<(), Refusal>
    ensures answer { answer_of result
        ≡ (packed mark length widths.now readings.now codes.old references.old exponents.old).answer }
    ensures codes { codes.new
        ≡ (packed mark length widths.now readings.now codes.old references.old exponents.old).codes }
    ensures references { map (to_bits binary32) references.new
        ≡ (packed mark length widths.now readings.now codes.old references.old exponents.old).references }
    ensures exponents { exponents.new
        ≡ (packed mark length widths.now readings.now codes.old references.old exponents.old).exponents }
{
    asking_layers::ask_layers(
        length,
        readings.len(),
        codes.len() == readings.len(),
        widths,
        references.len(),
        exponents.len(),
    )?;
    if !asking_readings::each_packable(readings, mark) {
        return Err(Refusal::ReadingNotFinite);
    }
    all_layers::pack_layers(readings, length, mark, widths, codes, references, exponents);
    Ok(())
}
