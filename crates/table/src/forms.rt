// The forms that a field can have.
use crate::fields::{number, part, parts};
use std::fmt;

#[derive(Clone, Copy, Debug, PartialEq, Eq)]
pub enum Form {
    Any,
    Bits,
    Code,
    Double,
    Empty,
    Fate,
    Hexadecimal,
    Integer,
    Length,
    Method,
    Quantity,
    Refusal,
    Single,
    Text,
    Width,
}

// Digits of the base, and nothing else.
fn digits(s: &[u8], base: u32) -> bool {
    s.iter().all(|byte| fields_in::digit(*byte).is_some_and(|digit| digit < base))
}

fn so_many(s: &[u8], n: usize, base: u32) -> bool {
    s.len() == n && digits(s, base)
}

fn at_most(s: &[u8], n: usize, base: u32) -> bool {
    !s.is_empty() && s.len() <= n && digits(s, base)
}

// A decimal number from 0 to `most`. Eighteen digits fit in 64 bits, whatever they are.
fn up_to(s: &[u8], most: u64) -> bool {
    at_most(s, 18, 10) && number(s, 10) <= most
}

fn is_integer(s: &[u8]) -> bool {
    fields_in::setting_at(s, 0).is_some_and(|read| read.next == s.len())
}

// `method` and a number that fits in 32 bits.
fn is_numbered(s: &[u8]) -> bool {
    parts(s, b' ') == 2
        && matches!(part(s, 0, b' '), b"method")
        && up_to(part(s, 1, b' '), 4294967295)
}

fn is_method(s: &[u8]) -> bool {
    method_word::method_of(s, 0, s.len()).is_some() || is_numbered(s)
}

// Sign, exponent and fraction of a single.
fn is_bits(s: &[u8]) -> bool {
    parts(s, b' ') == 3
        && so_many(part(s, 0, b' '), 1, 2)
        && so_many(part(s, 1, b' '), 8, 2)
        && so_many(part(s, 2, b' '), 23, 2)
}

fn is_fate(s: &[u8]) -> bool {
    matches!(s, b"spared" | b"clipped" | b"missing")
}

// Each backslash has its n: more than these two the reader of texts doesn't know. So none stands at the end, nor before another byte.
fn is_text(s: &[u8]) -> bool {
    let is_whole = s
        .split(|byte| *byte == b'\\')
        .skip(1)
        .all(|behind| behind.first() == Some(&b'n'));
    is_whole && s.len() <= 400
}

impl Form {
    // The form by the first letter of its name. The kind's own field has no form.
    pub fn named(name: &[u8]) -> Form {
        match name {
            [b'b', ..] => Form::Bits,
            [b'c', ..] => Form::Code,
            [b'd', ..] => Form::Double,
            [b'e', ..] => Form::Empty,
            [b'f', ..] => Form::Fate,
            [b'h', ..] => Form::Hexadecimal,
            [b'i', ..] => Form::Integer,
            [b'l', ..] => Form::Length,
            [b'm', ..] => Form::Method,
            [b'q', ..] => Form::Quantity,
            [b'r', ..] => Form::Refusal,
            [b's', ..] => Form::Single,
            [b't', ..] => Form::Text,
            [b'w', ..] => Form::Width,
            _ => Form::Any,
        }
    }

    // Has the text the form? It is asked by the readers that the row is then run with.
    pub fn fits(self, s: &[u8]) -> bool {
        match self {
            Form::Any => true,
            Form::Bits => is_bits(s),
            Form::Code => up_to(s, 65535),
            Form::Double => so_many(s, 16, 16),
            Form::Empty => s.is_empty(),
            Form::Fate => is_fate(s),
            Form::Hexadecimal => at_most(s, 16, 16),
            Form::Integer => is_integer(s),
            Form::Length => up_to(s, 999999999),
            Form::Method => is_method(s),
            Form::Quantity => up_to(s, 4),
            Form::Refusal => up_to(s, 19),
            Form::Single => so_many(s, 8, 16),
            Form::Text => is_text(s),
            Form::Width => up_to(s, 4294967295),
        }
    }
}

// What is said of a text that doesn't have it.
impl fmt::Display for Form {
    fn fmt<W: fmt::Write>(&self, f: &mut fmt::Formatter<W>) -> fmt::Result {
        f.write_str(match self {
            Form::Any => "",
            Form::Bits => "not 1, 8 and 23 bits with a space between",
            Form::Code => "not a number from 0 to 65535",
            Form::Double => "not 16 digits 0 to 9, A to F in capitals",
            Form::Empty => "this kind has it empty",
            Form::Fate => "not spared, clipped, missing or empty",
            Form::Hexadecimal => "not 1 to 16 digits 0 to 9, A to F in capitals",
            Form::Integer => "not a number of 1 to 4 digits, with or without a minus",
            Form::Length => "not a number from 0 to 999999999",
            Form::Method => "not a method's name, nor method and a number",
            Form::Quantity => "not a number from 0 to 4",
            Form::Refusal => "not a number from 0 to 19",
            Form::Single => "not 8 digits 0 to 9, A to F in capitals",
            Form::Text => "not at most 400 bytes, with an n after each backslash",
            Form::Width => "not a number from 0 to 4294967295",
        })
    }
}
