// What stands in a row: fields parted by bars, counted from 0, and in some of them lists of up to four items parted by spaces. What a row doesn't have is empty, and 0.
ghost use Rattle.std.specs.Prelude.{◌<◌, ◌≤◌, IfSome};

use crate::call::Call;
use crate::fate::Fate;
use arrayvec::ArrayVec;

// The mark of document 01's listing; for doubles a NaN.
pub const MARK: u32 = 0x7CF00000;

pub const MARK_DOUBLE: u64 = 0x7FF8000000000000;

// A list in a field: up to four items.
pub type Items<T> = ArrayVec<T, 4>;

// Part k of what the byte `stop` parts.
pub fn part(s: &[u8], k: usize, stop: u8) -> &[u8] {
    s.split(|byte| *byte == stop).nth(k).unwrap_or(&[])
}

// How many parts the byte `stop` makes of a text: one more than it stands there.
pub fn parts(s: &[u8], stop: u8) -> usize {
    s.split(|byte| *byte == stop).count()
}

// The digits' value, with spaces between them passed over; of more digits than fit in 64 bits the last ones count.
pub fn number(s: &[u8], base: u64) -> u64
    requires { base ≤ 16 }
{
    let mut value: u64 = 0;
    for byte in s {
        if *byte != b' ' {
            let digit = fields_in::digit(*byte).unwrap_or(0);
            value = value % 0x1000_0000_0000_0000 * base + u64::from(digit);
        }
    }
    value
}

fn low(x: u64) -> u32 {
    (x % 0x1_0000_0000) as u32
}

// A single's pattern.
fn single_of(s: &[u8]) -> u32 {
    low(number(s, 16))
}

// A setting or a step exponent, as a setting stands in the program's text.
fn signed_of(s: &[u8]) -> i32 {
    fields_in::setting_at(s, 0).map_or(0, |read| read.value)
}

fn width_of(s: &[u8]) -> u32 {
    low(number(s, 10))
}

fn code_of(s: &[u8]) -> u16 {
    (number(s, 10) % 65536) as u16
}

// A method's number by its name, or as `method 7`.
fn method_of(s: &[u8]) -> u32 {
    match method_word::method_of(s, 0, s.len()) {
        Some(method) => method.number(),
        None => low(number(part(s, 1, b' '), 10)),
    }
}

// A line of a sheet.
#[derive(Clone, Copy)]
pub struct Row<'a>(pub &'a [u8]);

// Each method that takes a place answers what stands in the field there.
impl<'a> Row<'a> {
    pub fn field(self, k: usize) -> &'a [u8] {
        part(self.0, k, b'|')
    }

    pub fn is_empty(self, k: usize) -> bool {
        self.field(k).is_empty()
    }

    // Where the case comes from: what stands before the first semicolon of field 1.
    pub fn source(self) -> &'a [u8] {
        part(self.field(1), 0, b';')
    }

    // The case's note: the first semicolon of field 1, and what follows it.
    pub fn note(self) -> &'a [u8] {
        let s = self.field(1);
        match s.iter().position(|byte| *byte == b';') {
            Some(at) => &s[at..],
            None => &[],
        }
    }

    pub fn hex(self, k: usize) -> u64 {
        number(self.field(k), 16)
    }

    pub fn decimal(self, k: usize) -> u64 {
        number(self.field(k), 10)
    }

    pub fn single(self, k: usize) -> u32 {
        single_of(self.field(k))
    }

    // A single by its bits.
    pub fn bits(self, k: usize) -> u32 {
        low(number(self.field(k), 2))
    }

    // A refusal's number, which need be none that there is.
    pub fn refusal(self, k: usize) -> Option<u32>
        ensures { IfSome result (λ number. 0 < number) }
    {
        match low(self.decimal(k)) {
            0 => None,
            number => Some(number),
        }
    }

    // A number that may be left out.
    pub fn given(self, k: usize) -> Option<u64> {
        if self.is_empty(k) {
            return None;
        }
        Some(self.decimal(k))
    }

    // The length of an array, at most 4.
    pub fn length(self, k: usize) -> usize
        ensures { result ≤ 4 }
    {
        (self.decimal(k) % 5) as usize
    }

    pub fn signed(self, k: usize) -> i32 {
        signed_of(self.field(k))
    }

    // A method, and in the next field its setting.
    pub fn call(self, k: usize) -> Call {
        Call {
            method: method_of(self.field(k)),
            setting: self.signed(k.saturating_add(1)),
        }
    }

    // The mark, or 01's where none is named.
    pub fn mark(self, k: usize) -> u32 {
        if self.is_empty(k) {
            return MARK;
        }
        self.single(k)
    }

    // A double mark, or a NaN where none is named: another default than a single's.
    pub fn mark_double(self, k: usize) -> u64 {
        if self.is_empty(k) {
            return MARK_DOUBLE;
        }
        self.hex(k)
    }

    pub fn fate(self, k: usize) -> Fate {
        match self.field(k) {
            [b's', ..] => Fate::Spared,
            [b'c', ..] => Fate::Clipped,
            [b'm', ..] => Fate::Missing,
            _ => Fate::Plain,
        }
    }

    // A layer's width, whatever its size: the library asks whether it is 2 to 16.
    pub fn width(self, k: usize) -> u32 {
        width_of(self.field(k))
    }

    // A list's items, each as `read` has it. A row that is run has no more of them than four.
    fn items<T: Default + Drop, F: Fn(&[u8]) -> T>(self, k: usize, read: F) -> Items<T>
        requires { F.IsAlwaysCallable read }
    {
        let mut items = Items::new();
        if self.is_empty(k) {
            return items;
        }
        for item in self.field(k).split(|byte| *byte == b' ') {
            let _ = items.try_push(read(item));
        }
        items
    }

    pub fn singles(self, k: usize) -> Items<u32> {
        self.items(k, single_of)
    }

    pub fn doubles(self, k: usize) -> Items<u64> {
        self.items(k, |item| number(item, 16))
    }

    pub fn codes(self, k: usize) -> Items<u16> {
        self.items(k, code_of)
    }

    pub fn exponents(self, k: usize) -> Items<i32> {
        self.items(k, signed_of)
    }

    pub fn widths(self, k: usize) -> Items<u32> {
        self.items(k, width_of)
    }

    // The singles of a list, with zeros after them where there are fewer than four.
    pub fn four_singles(self, k: usize) -> [u32; 4] {
        let mut four = [0; 4];
        let singles = self.singles(k);
        for (place, single) in four.iter_mut().zip(singles.as_slice()) {
            *place = *single;
        }
        four
    }
}
