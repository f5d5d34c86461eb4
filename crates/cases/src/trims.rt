// The kinds of cases about trimming. Each function runs a row's case on the library, prints it, and answers whether it is right.
use refusal::Refusal;
use std::cmp::Ordering;
use table::fate::Fate;
use table::fields::{MARK, MARK_DOUBLE, Row};
use table::line::Printer;
use trim::{Counts, trim_doubles, trim_singles};

const PI: u32 = 0x40490FDB;

const PI_DOUBLE: u64 = 0x400921FB54442D18;

// Where the exact value went, from one pattern to another of the same sign.
#[derive(Clone, Copy, Debug, PartialEq, Eq)]
enum Way {
    Up,
    Down,
    Nowhere,
}

impl Way {
    // By how the pattern that came compares with the one before. Below zero, the larger pattern lies lower.
    fn of(is_negative: bool, order: Ordering) -> Way {
        match (order, is_negative) {
            (Ordering::Equal, _) => Way::Nowhere,
            (Ordering::Greater, false) | (Ordering::Less, true) => Way::Up,
            _ => Way::Down,
        }
    }

    // Do the counts of an array of one whose exact value went there say so?
    fn agrees(self, counts: Counts) -> bool {
        let (changed, risen, fallen) = match self {
            Way::Up => (1, 1, 0),
            Way::Down => (1, 0, 1),
            Way::Nowhere => (0, 0, 0),
        };
        counts.changed == changed && counts.risen == risen && counts.fallen == fallen
    }

    // What stands above the pattern in the loader's number.
    fn gain(self) -> u64 {
        match self {
            Way::Up => 2,
            Way::Down => 4,
            Way::Nowhere => 0,
        }
    }
}

// What the counts of an array of one say, whose exact value went there.
fn fate_of(answer: Result<Counts, Refusal>, to: Way) -> Fate {
    let Ok(counts) = answer else {
        return Fate::Refused;
    };
    if !to.agrees(counts) {
        return Fate::Contradictory;
    }
    match (counts.spared, counts.clipped, counts.missing) {
        (0, 0, 0) => Fate::Plain,
        (1, 0, 0) => Fate::Spared,
        (0, 1, 0) => Fate::Clipped,
        (0, 0, 1) => Fate::Missing,
        _ => Fate::Contradictory,
    }
}

// The columns of a case about one single: what was given, what was expected, what came.
fn columns(out: &mut Printer<'_, impl Print>, x: u32, mark: u32, expected: u32, got: u32) {
    out.pattern_at(44, x);
    out.pattern_at(54, mark);
    out.pattern_at(64, expected);
    out.pattern_at(74, got);
    out.fill(84);
}

// One single: an array of one, and the loader's call at turn 0, which must agree with it.
pub fn one_single(out: &mut Printer<'_, impl Print>, row: Row<'_>) -> bool {
    let call = row.call(2);
    let x = row.single(4);
    let missing = row.mark(5);
    let expected = row.single(6);
    let mut readings = [x];
    let answer = trim_singles(&mut readings, call.method, call.setting, missing);
    let got = readings[0];
    let to = Way::of(x >= 0x8000_0000, got.cmp(&x));
    let fate = fate_of(answer, to);
    let loaded = trim::trim_single(x, call.method, call.setting, missing, 0);
    out.start_call(row, call);
    columns(out, x, missing, expected, got);
    let is_told = loaded % 4294967296 == expected as u64 && loaded / 4294967296 == to.gain();
    let ok = got == expected && is_told && fate == row.fate(7);
    out.judge_fate(row, ok, fate)
}

// One single through two calls, the second on what the first left.
pub fn twice(out: &mut Printer<'_, impl Print>, row: Row<'_>) -> bool {
    let call = row.call(2);
    let second = row.call(8);
    let x = row.single(4);
    let missing = row.mark(5);
    let expected = row.single(6);
    let mut readings = [x];
    let before = trim_singles(&mut readings, call.method, call.setting, missing);
    let answer = trim_singles(&mut readings, second.method, second.setting, missing);
    let got = readings[0];
    out.start_call(row, call);
    out.put(", ");
    out.put(second);
    columns(out, x, missing, expected, got);
    out.judge_accepted(row, before.and(answer).map(|_| got == expected))
}

// A paper's row about pi, with its bits as they are printed there.
pub fn paper(out: &mut Printer<'_, impl Print>, row: Row<'_>) -> bool {
    let call = row.call(2);
    let expected = row.bits(4);
    let mut readings = [PI];
    let answer = trim_singles(&mut readings, call.method, call.setting, MARK);
    let got = readings[0];
    out.start_call(row, call);
    out.fill(36);
    out.put_bytes(row.field(4));
    out.pattern_at(72, expected);
    out.pattern_at(82, got);
    out.fill(92);
    out.judge_accepted(row, answer.map(|_| got == expected))
}

// The loader's call at any turn; its answer is a 64-bit number.
pub fn loader(out: &mut Printer<'_, impl Print>, row: Row<'_>) -> bool {
    let call = row.call(2);
    let x = row.single(4);
    let turn = row.hex(5);
    let expected = row.hex(6);
    let got = trim::trim_single(x, call.method, call.setting, MARK, turn);
    out.start_call(row, call);
    out.put(format_args!(" at {turn}"));
    out.pattern_at(56, x);
    out.pattern_at(66, expected);
    out.pattern_at(84, got);
    out.fill(102);
    out.judge(row, got == expected)
}

// One double, with a NaN for the mark. Not one function with `one_single`: that asks the loader too, and has other columns.
pub fn double(out: &mut Printer<'_, impl Print>, row: Row<'_>) -> bool {
    let call = row.call(2);
    let x = row.hex(4);
    let expected = row.hex(6);
    let mut readings = [x];
    let answer = trim_doubles(&mut readings, call.method, call.setting, MARK_DOUBLE);
    let got = readings[0];
    let fate = fate_of(answer, Way::of(x >= 0x8000_0000_0000_0000, got.cmp(&x)));
    out.start_call(row, call);
    out.pattern_at(38, x);
    out.pattern_at(56, expected);
    out.pattern_at(74, got);
    out.fill(92);
    out.judge_fate(row, got == expected && fate == row.fate(7), fate)
}

// A trim's questions, put to an array of one single and to the loader's call. Refused, the reading stays.
pub fn asked(out: &mut Printer<'_, impl Print>, row: Row<'_>) -> bool {
    let call = row.call(2);
    let expected = row.refusal(6);
    let mut readings = [PI];
    let answer = trim_singles(&mut readings, call.method, call.setting, MARK);
    let loaded = trim::trim_single(PI, call.method, call.setting, MARK, 0);
    let ok = match expected {
        None => matches!(loaded / 4294967296, 0 | 2 | 4),
        Some(number) => readings[0] == PI && loaded == 4294967296 + number as u64,
    };
    out.start_call(row, call);
    out.put(", singles");
    out.answered(row, expected, number_of(answer), ok)
}

// The same for doubles, which have no loader's call.
pub fn asked_double(out: &mut Printer<'_, impl Print>, row: Row<'_>) -> bool {
    let call = row.call(2);
    let expected = row.refusal(6);
    let mut readings = [PI_DOUBLE];
    let answer = trim_doubles(&mut readings, call.method, call.setting, MARK_DOUBLE);
    let ok = expected.is_none() || readings[0] == PI_DOUBLE;
    out.start_call(row, call);
    out.put(", doubles");
    out.answered(row, expected, number_of(answer), ok)
}

// A refusal's number, where a call got one.
pub fn number_of<T: Drop>(answer: Result<T, Refusal>) -> Option<u32> {
    answer.err().map(|refusal| refusal.number())
}

// Up to four singles as one array.
pub fn array(out: &mut Printer<'_, impl Print>, row: Row<'_>) -> bool {
    let call = row.call(2);
    let readings = row.singles(4);
    let missing = row.mark(5);
    let expected = row.singles(6);
    let mut left = row.singles(4);
    let answer = trim_singles(left.as_mut_slice(), call.method, call.setting, missing);
    out.start_list(row);
    out.patterns(readings.as_slice());
    out.put(format_args!(" {call}, mark"));
    out.pattern_at(0, missing);
    out.expecting();
    out.patterns(expected.as_slice());
    out.getting();
    out.patterns(left.as_slice());
    out.put(" ");
    out.judge_accepted(row, answer.map(|_| left == expected))
}
