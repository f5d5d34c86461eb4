// The kinds of cases about packing and unpacking, with up to four readings. Each function runs a row's case on the library, prints it, and answers whether it is right.
ghost use Rattle.std.specs.Prelude.{◌≤◌};

use crate::trims::number_of;
use refusal::Refusal;
use table::fields::{Items, MARK, MARK_DOUBLE, Row};
use table::line::Printer;

// A reference by its pattern. Rattle makes no float of a NaN's bits, but a division gives one, and the library knows no other.
fn value(pattern: u32) -> f32 {
    if pattern % 0x80000000 > 0x7F800000 {
        let zero: f32 = 0.0;
        return zero / zero;
    }
    f32::from_bits(pattern)
}

// A reference's pattern. The library stores no NaN; one would show as 7FC00000.
fn pattern(x: f32) -> u32 {
    if x == x {
        return f32::to_bits(x);
    }
    0x7FC00000
}

// What the arrays hold before a call whose refusal is asked for: refused, they hold it still.
const BEFORE: u16 = 7;

// The arrays that a packing writes, references by their patterns.
#[derive(Clone, Copy, Debug, PartialEq, Eq)]
struct Written {
    codes: [u16; 4],
    references: [u32; 4],
    exponents: [i32; 4],
}

impl Written {
    // Arrays that hold `before` throughout.
    fn throughout(before: u16) -> Written {
        Written {
            codes: [before; 4],
            references: [pattern(before as f32); 4],
            exponents: [before as i32; 4],
        }
    }
}

// How many items each of these arrays has.
#[derive(Clone, Copy)]
struct Lengths {
    codes: usize,
    references: usize,
    exponents: usize,
    ghost at_most_four: { (codes ≤ 4) × (references ≤ 4) × (exponents ≤ 4) },
}

// Packs into arrays of these lengths, which held `before` throughout: what they hold then, and what was answered.
fn pack(
    before: u16,
    readings: &[u32],
    length: usize,
    widths: &[u32],
    room: Lengths,
) -> (Written, Result<(), Refusal>) {
    let mut codes = [before; 4];
    let mut references = [before as f32; 4];
    let mut exponents = [before as i32; 4];
    let answer = packing::pack(
        readings,
        length,
        MARK,
        widths,
        &mut codes[..room.codes],
        &mut references[..room.references],
        &mut exponents[..room.exponents],
    );
    let written = Written {
        codes,
        references: references.map(pattern),
        exponents,
    };
    (written, answer)
}

fn put_layers(
    out: &mut Printer<'_, impl Print>,
    references: &[u32],
    exponents: &[i32],
    codes: &[u16],
) {
    out.put(" R");
    out.patterns(references);
    out.put(" E");
    out.numbers(exponents);
    out.put(" codes");
    out.numbers(codes);
}

// Singles packed into as many layers as there are references, with document 01's mark.
pub fn layers(out: &mut Printer<'_, impl Print>, row: Row<'_>) -> bool {
    let length = row.decimal(2);
    let widths = row.widths(3);
    let readings = row.singles(4);
    let references = row.singles(5);
    let exponents = row.exponents(6);
    let codes = row.codes(7);
    let room = Lengths {
        codes: readings.len(),
        references: references.len(),
        exponents: references.len(),
    };
    let (got, answer) = pack(
        0,
        readings.as_slice(),
        length as usize,
        widths.as_slice(),
        room,
    );
    let got_references = &got.references[..room.references];
    let got_exponents = &got.exponents[..room.exponents];
    let got_codes = &got.codes[..room.codes];
    let ok = got_references == references.as_slice()
        && got_exponents == exponents.as_slice()
        && got_codes == codes.as_slice();
    out.start_list(row);
    out.patterns(readings.as_slice());
    out.put(format_args!(" L {length} widths"));
    out.numbers(widths.as_slice());
    out.expecting();
    put_layers(
        out,
        references.as_slice(),
        exponents.as_slice(),
        codes.as_slice(),
    );
    out.getting();
    put_layers(out, got_references, got_exponents, got_codes);
    out.put(" ");
    out.judge_accepted(row, answer.map(|_| ok))
}

// Packing's questions, with document 01's mark: lengths of the arrays, at most 4. Refused, nothing is written.
pub fn asked_pack(out: &mut Printer<'_, impl Print>, row: Row<'_>) -> bool {
    let length = row.decimal(2);
    let widths = row.widths(3);
    let readings = row.singles(4);
    let room = Lengths {
        codes: row.length(5),
        references: row.length(6),
        exponents: row.length(7),
    };
    let expected = row.refusal(8);
    let (left, answer) = pack(
        BEFORE,
        readings.as_slice(),
        length as usize,
        widths.as_slice(),
        room,
    );
    out.start(row);
    out.put(format_args!("pack, L {length}, widths"));
    out.numbers(widths.as_slice());
    out.put(format_args!(", {} readings", readings.len()));
    put_lengths(out, room);
    let ok = expected.is_none() || left == Written::throughout(BEFORE);
    out.answered(row, expected, number_of(answer), ok)
}

fn put_lengths(out: &mut Printer<'_, impl Print>, lengths: Lengths) {
    out.put(format_args!(
        ", {} codes, {} R, {} E",
        lengths.codes, lengths.references, lengths.exponents
    ));
}

// Layers as they are unpacked, references by their patterns.
#[derive(Clone, Copy)]
struct Packed<'a> {
    widths: &'a [u32],
    codes: &'a [u16],
    references: &'a [u32],
    exponents: &'a [i32],
    length: usize,
}

// Unpacks into an array of at most 4 readings, which held `before` throughout: what it holds then, and what was answered.
fn unpack(
    before: u16,
    layers: Packed<'_>,
    mark: u64,
    room: usize,
) -> ([u64; 4], Result<(), Refusal>)
    requires { room ≤ 4 }
{
    let mut references: Items<f32> = Items::new();
    for reference in layers.references {
        let _ = references.try_push(value(*reference));
    }
    let mut readings = [before as u64; 4];
    let answer = unpacking::unpack(
        layers.widths,
        layers.codes,
        references.as_slice(),
        layers.exponents,
        layers.length,
        mark,
        &mut readings[..room],
    );
    (readings, answer)
}

// The codes of one layer, unpacked into doubles.
pub fn unpacked(out: &mut Printer<'_, impl Print>, row: Row<'_>) -> bool {
    let width = row.width(2);
    let codes = row.codes(3);
    let missing = row.mark_double(6);
    let expected = row.doubles(7);
    let layer = Packed {
        widths: &[width],
        codes: codes.as_slice(),
        references: &[row.single(4)],
        exponents: &[row.signed(5)],
        length: codes.len(),
    };
    let (readings, answer) = unpack(0, layer, missing, codes.len());
    let got = &readings[..codes.len()];
    out.start_list(row);
    out.put(format_args!(" width {width}"));
    put_layers(out, layer.references, layer.exponents, layer.codes);
    out.put(" mark");
    out.pattern_at(0, missing);
    out.expecting();
    out.patterns(expected.as_slice());
    out.getting();
    out.patterns(got);
    out.put(" ");
    out.judge_accepted(row, answer.map(|_| got == expected.as_slice()))
}

// Do the readings hold what they held before?
fn untouched(readings: [u64; 4]) -> bool {
    readings == [BEFORE as u64; 4]
}

// Unpacking's questions on lengths of the arrays, at most 4. Refused, nothing is written.
pub fn asked_unpack(out: &mut Printer<'_, impl Print>, row: Row<'_>) -> bool {
    let length = row.decimal(2);
    let widths = row.widths(3);
    let given = Lengths {
        codes: row.length(4),
        references: row.length(5),
        exponents: row.length(6),
    };
    let room = row.length(7);
    let expected = row.refusal(8);
    let layers = Packed {
        widths: widths.as_slice(),
        codes: &[0; 4][..given.codes],
        references: &[0; 4][..given.references],
        exponents: &[0; 4][..given.exponents],
        length: length as usize,
    };
    let (left, answer) = unpack(BEFORE, layers, MARK_DOUBLE, room);
    out.start(row);
    out.put(format_args!("unpack, L {length}, widths"));
    out.numbers(widths.as_slice());
    put_lengths(out, given);
    out.put(format_args!(", {room} readings"));
    let ok = expected.is_none() || untouched(left);
    out.answered(row, expected, number_of(answer), ok)
}

// Unpacking's questions on a layer of one code and on the double mark. Refused, nothing is written.
pub fn asked_layer(out: &mut Printer<'_, impl Print>, row: Row<'_>) -> bool {
    let width = row.width(2);
    let codes = row.codes(3);
    let reference = row.single(4);
    let exponent = row.signed(5);
    let missing = row.mark_double(6);
    let expected = row.refusal(7);
    let layer = Packed {
        widths: &[width],
        codes: codes.as_slice(),
        references: &[reference],
        exponents: &[exponent],
        length: 1,
    };
    let (left, answer) = unpack(BEFORE, layer, missing, 1);
    out.start(row);
    out.put(format_args!("width {width}, code"));
    out.numbers(codes.as_slice());
    out.put(", R");
    out.pattern_at(0, reference);
    out.put(format_args!(", E {exponent}, mark"));
    out.pattern_at(0, missing);
    let ok = expected.is_none() || untouched(left);
    out.answered(row, expected, number_of(answer), ok)
}
