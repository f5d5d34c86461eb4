// The interface for C and every language that calls C: each name has a call here, those of singles and those of doubles, with C's parameters. An array is a pointer and a length; a call answers 0, or the refusal's number, and then writes nothing.
#![tactic(auto)]

ghost use Rattle.std.specs.Prelude.{◌≡◌, map};
ghost use Rattle.std.specs.Float.{binary32};
ghost use Rattle.std.specs.Float.Ieee.{to_bits};
ghost use Rattle.meaning.specs.Calls.{trim_singles, trim_doubles, loader, unpack};
ghost use Rattle.meaning.specs.Comparing.{first_beyond_singles, first_beyond_doubles};
ghost use Rattle.meaning.specs.Totals.{totals};
ghost use Rattle.meaning.specs.Planes.{to_planes, from_planes, trim_planes_singles, trim_planes_doubles};
ghost use Rattle.refusal.specs.Refusals.{outcome_of};
ghost use Rattle.trim.specs.Answers as trim;
ghost use Rattle.beyond.specs.Answers as beyond;
ghost use Rattle.packing.specs.Answers as packing;
ghost use Rattle.unpacking.specs.Answers as unpacking;
ghost use Rattle.totals.specs.Answers as totalled;
ghost use Rattle.capi.specs.ForC.{number_for_c, counts_for_c, found_for_c, totals_for_c};

use beyond::Compared;
use refusal::Refusal;
use totals::Total;
use trim::Counts;

// What a C caller gets of an answer: 0, or the refusal's number.
#[tactic(auto, unfolding(crate::specs::ForC::number_for_c))]
fn number_of<T: Drop>(answer: Result<T, Refusal>) -> u32
    ensures { result ≡ number_for_c (outcome_of (λ value. value) answer) }
{
    match answer {
        Ok(_) => 0,
        Err(refusal) => refusal.number(),
    }
}

// A trim's answer in C's form.
#[tactic(auto, unfolding(crate::specs::ForC::number_for_c, crate::specs::ForC::counts_for_c))]
fn hand_over(answer: Result<Counts, Refusal>, out: &mut [u64; 6]) -> u32
    ensures number { result ≡ number_for_c (outcome_of trim.counts answer) }
    ensures counted { out.new ≡ counts_for_c (outcome_of trim.counts answer) out.old }
{
    if let Ok(counts) = answer {
        *out = [
            counts.changed,
            counts.spared,
            counts.clipped,
            counts.missing,
            counts.risen,
            counts.fallen,
        ];
    }
    number_of(answer)
}

// Trims an array of singles in place. `counts` gets the places changed, spared, clipped, missing, risen and fallen.
#[unsafe(no_mangle)]
pub extern "C" fn megharutti_trim_singles(
    readings: &mut [u32],
    method: u32,
    setting: i32,
    mark: u32,
    counts: &mut [u64; 6],
) -> u32
    ensures answer { result ≡ number_for_c (trim_singles method setting mark readings.old).answer }
    ensures content { readings.new ≡ (trim_singles method setting mark readings.old).readings }
    ensures counted { counts.new ≡ counts_for_c (trim_singles method setting mark readings.old).answer counts.old }
{
    let answer = trim::trim_singles(readings, method, setting, mark);
    hand_over(answer, counts)
}

// Trims an array of doubles in place. `counts` gets the places changed, spared, clipped, missing, risen and fallen.
#[unsafe(no_mangle)]
pub extern "C" fn megharutti_trim_doubles(
    readings: &mut [u64],
    method: u32,
    setting: i32,
    mark: u64,
    counts: &mut [u64; 6],
) -> u32
    ensures answer { result ≡ number_for_c (trim_doubles method setting mark readings.old).answer }
    ensures content { readings.new ≡ (trim_doubles method setting mark readings.old).readings }
    ensures counted { counts.new ≡ counts_for_c (trim_doubles method setting mark readings.old).answer counts.old }
{
    let answer = trim::trim_doubles(readings, method, setting, mark);
    hand_over(answer, counts)
}

// Trims one single as the array call would at a turn, with so many present finite readings before it: the pattern that is left, plus 2^33 where its exact value rose and
// 2^34 where it fell; or 2^32 plus the refusal's number.
#[unsafe(no_mangle)]
pub extern "C" fn megharutti_trim_single(
    reading: u32,
    method: u32,
    setting: i32,
    mark: u32,
    turn: u64,
) -> u64
    ensures { result ≡ loader method setting mark turn reading }
{
    trim::trim_single(reading, method, setting, mark, turn)
}

// A comparison's answer in C's form.
#[tactic(auto, unfolding(crate::specs::ForC::number_for_c, crate::specs::ForC::place_for_c, crate::specs::ForC::found_for_c))]
fn hand_place(answer: Result<Compared, Refusal>, out: &mut [u64; 3]) -> u32
    ensures number { result ≡ number_for_c (beyond.answer_of answer) }
    ensures found { out.new ≡ found_for_c (beyond.answer_of answer) out.old }
{
    match answer {
        Ok(
            Compared {
                place: Some(place),
                read,
            },
        ) => {
            *out = [1, place as u64, read as u64];
            0
        }
        Ok(Compared { place: None, read }) => {
            *out = [0, 0, read as u64];
            0
        }
        Err(refusal) => refusal.number(),
    }
}

// Compares raw singles with trimmed ones. `found` gets 1 and the first place where both are present and finite and lie more than 2^p apart, or 0 and 0 where there is
// none; then the number of readings read.
#[unsafe(no_mangle)]
pub extern "C" fn megharutti_first_beyond_singles(
    raw: &[u32],
    trimmed: &[u32],
    mark: u32,
    p: i32,
    found: &mut [u64; 3],
) -> u32
    ensures answer { result ≡ number_for_c (first_beyond_singles mark p raw.now trimmed.now) }
    ensures found { found.new ≡ found_for_c (first_beyond_singles mark p raw.now trimmed.now) found.old }
{
    let answer = beyond::first_beyond_singles(raw, trimmed, mark, p);
    hand_place(answer, found)
}

// Compares raw doubles with trimmed ones.
#[unsafe(no_mangle)]
pub extern "C" fn megharutti_first_beyond_doubles(
    raw: &[u64],
    trimmed: &[u64],
    mark: u64,
    p: i32,
    found: &mut [u64; 3],
) -> u32
    ensures answer { result ≡ number_for_c (first_beyond_doubles mark p raw.now trimmed.now) }
    ensures found { found.new ≡ found_for_c (first_beyond_doubles mark p raw.now trimmed.now) found.old }
{
    let answer = beyond::first_beyond_doubles(raw, trimmed, mark, p);
    hand_place(answer, found)
}

#[tactic(auto, unfolding(crate::specs::ForC::number_for_c))]
// Packs an array of singles, layer by layer, each by its own width.
#[unsafe(no_mangle)]
pub extern "C" fn megharutti_pack(
    readings: &[u32],
    length: usize,
    mark: u32,
    widths: &[u32],
    codes: &mut [u16],
    references: &mut [f32],
    exponents: &mut [i32],
) -> u32
    ensures answer { result ≡ number_for_c (packing.packed mark length widths.now readings.now codes.old references.old exponents.old).answer }
    ensures codes { codes.new ≡ (packing.packed mark length widths.now readings.now codes.old references.old exponents.old).codes }
    ensures references { map (to_bits binary32) references.new ≡ (packing.packed mark length widths.now readings.now codes.old references.old exponents.old).references }
    ensures exponents { exponents.new ≡ (packing.packed mark length widths.now readings.now codes.old references.old exponents.old).exponents }
{
    number_of(packing::pack(readings, length, mark, widths, codes, references, exponents))
}

#[tactic(auto, unfolding(crate::specs::ForC::number_for_c))]
// Unpacks layers, each of its own width, into an array of doubles.
#[unsafe(no_mangle)]
pub extern "C" fn megharutti_unpack(
    widths: &[u32],
    codes: &[u16],
    references: &[f32],
    exponents: &[i32],
    length: usize,
    mark: u64,
    readings: &mut [u64],
) -> u32
    ensures answer { result ≡ number_for_c (unpack mark length widths.now codes.now (map (to_bits binary32) references.now) exponents.now readings.old).answer }
    ensures content { readings.new ≡ (unpack mark length widths.now codes.now (map (to_bits binary32) references.now) exponents.now readings.old).readings }
{
    number_of(unpacking::unpack(widths, codes, references, exponents, length, mark, readings))
}

// A layer's totals in C's form.
#[tactic(auto, unfolding(crate::specs::ForC::number_for_c, crate::specs::ForC::totals_for_c))]
fn hand_totals(answer: Result<Total, Refusal>, out: &mut [u64; 2]) -> u32
    ensures number { result ≡ number_for_c (totalled.answer_of answer) }
    ensures totals { out.new ≡ totals_for_c (totalled.answer_of answer) out.old }
{
    match answer {
        Ok(Total { count, sum }) => {
            *out = [u64::from(count), u64::from(sum)];
            0
        }
        Err(refusal) => refusal.number(),
    }
}

// Totals of one layer's codes. `out` gets the number of the present codes and their sum.
#[unsafe(no_mangle)]
pub extern "C" fn megharutti_totals(codes: &[u16], width: u32, out: &mut [u64; 2]) -> u32
    ensures answer { result ≡ number_for_c (totals width codes.now) }
    ensures totals { out.new ≡ totals_for_c (totals width codes.now) out.old }
{
    let answer = totals::totals(codes, width);
    hand_totals(answer, out)
}

// Writes the four byte planes of an array of singles, lowest byte first.
#[unsafe(no_mangle)]
pub extern "C" fn megharutti_planes_of_singles(readings: &[u32], planes: &mut [u8]) -> u32
    ensures answer { result ≡ number_for_c (to_planes 4 readings.now planes.old).answer }
    ensures content { planes.new ≡ (to_planes 4 readings.now planes.old).content }
{
    number_of(planes::planes_of_singles(readings, planes))
}

// Writes the array of singles that stands in four byte planes.
#[unsafe(no_mangle)]
pub extern "C" fn megharutti_singles_of_planes(planes: &[u8], readings: &mut [u32]) -> u32
    ensures answer { result ≡ number_for_c (from_planes 4 planes.now readings.old).answer }
    ensures content { readings.new ≡ (from_planes 4 planes.now readings.old).content }
{
    number_of(planes::singles_of_planes(planes, readings))
}

// Trims n singles in their byte planes. `counts` gets what it gets of an array.
#[unsafe(no_mangle)]
pub extern "C" fn megharutti_trim_planes_singles(
    planes: &mut [u8],
    n: usize,
    method: u32,
    setting: i32,
    mark: u32,
    counts: &mut [u64; 6],
) -> u32
    ensures answer { result ≡ number_for_c (trim_planes_singles method setting mark n planes.old).answer }
    ensures content { planes.new ≡ (trim_planes_singles method setting mark n planes.old).content }
    ensures counted { counts.new ≡ counts_for_c (trim_planes_singles method setting mark n planes.old).answer counts.old }
{
    let answer = planes::trim_planes_singles(planes, n, method, setting, mark);
    hand_over(answer, counts)
}

// Writes the eight byte planes of an array of doubles, lowest byte first.
#[unsafe(no_mangle)]
pub extern "C" fn megharutti_planes_of_doubles(readings: &[u64], planes: &mut [u8]) -> u32
    ensures answer { result ≡ number_for_c (to_planes 8 readings.now planes.old).answer }
    ensures content { planes.new ≡ (to_planes 8 readings.now planes.old).content }
{
    number_of(planes::planes_of_doubles(readings, planes))
}

// Writes the array of doubles that stands in eight byte planes.
#[unsafe(no_mangle)]
pub extern "C" fn megharutti_doubles_of_planes(planes: &[u8], readings: &mut [u64]) -> u32
    ensures answer { result ≡ number_for_c (from_planes 8 planes.now readings.old).answer }
    ensures content { readings.new ≡ (from_planes 8 planes.now readings.old).content }
{
    number_of(planes::doubles_of_planes(planes, readings))
}

// Trims n doubles in their byte planes. `counts` gets what it gets of an array.
#[unsafe(no_mangle)]
pub extern "C" fn megharutti_trim_planes_doubles(
    planes: &mut [u8],
    n: usize,
    method: u32,
    setting: i32,
    mark: u64,
    counts: &mut [u64; 6],
) -> u32
    ensures answer { result ≡ number_for_c (trim_planes_doubles method setting mark n planes.old).answer }
    ensures content { planes.new ≡ (trim_planes_doubles method setting mark n planes.old).content }
    ensures counted { counts.new ≡ counts_for_c (trim_planes_doubles method setting mark n planes.old).answer counts.old }
{
    let answer = planes::trim_planes_doubles(planes, n, method, setting, mark);
    hand_over(answer, counts)
}
