// The words of a reason.
use crate::faults::{Fault, Reason, until};
use method::Method;
use std::fmt;

// A byte of the text as it may stand on a terminal.
fn printable(byte: u8) -> char {
    match byte {
        b' '..=b'~' => char::from(byte),
        _ => '?',
    }
}

// A field, cut where it is long.
#[derive(Clone, Copy)]
struct Shown<'a>(&'a [u8]);

impl fmt::Display for Shown<'_> {
    fn fmt<W: fmt::Write>(&self, f: &mut fmt::Formatter<W>) -> fmt::Result {
        for byte in self.0.iter().take(24) {
            f.write_char(printable(*byte))?;
        }
        if self.0.len() > 24 {
            f.write_str(" ..")?;
        }
        Ok(())
    }
}

// "1 value", "2 values".
#[derive(Clone, Copy)]
struct Count(usize, &'static str);

impl fmt::Display for Count {
    fn fmt<W: fmt::Write>(&self, f: &mut fmt::Formatter<W>) -> fmt::Result {
        let Count(n, one) = *self;
        let ending = if n == 1 { "" } else { "s" };
        write!(f, "{n} {one}{ending}")
    }
}

impl fmt::Display for Fault<'_> {
    fn fmt<W: fmt::Write>(&self, f: &mut fmt::Formatter<W>) -> fmt::Result {
        match *self {
            Fault::Empty => f.write_str("the text is empty"),
            Fault::ByteOrderMark => f.write_str("the text begins with a byte order mark"),
            Fault::NoNewline => f.write_str("the last line has no newline"),
            Fault::LineMissing(line) => write!(
                f,
                "line {line} is missing: a text has a heading, a job and names"
            ),
            Fault::InLine { line, reason } => write!(f, "line {line}{reason}"),
        }
    }
}

// What follows "line 4": what is said of the line, and the field where one is named.
impl fmt::Display for Reason<'_> {
    fn fmt<W: fmt::Write>(&self, f: &mut fmt::Formatter<W>) -> fmt::Result {
        match *self {
            Reason::CarriageReturn => f.write_str(" ends in a carriage return (a Windows file?)"),
            Reason::FirstLine => f.write_str(" must be: method,setting,mark"),
            Reason::EmptyLine => f.write_str(" is empty"),
            Reason::ManyLines => f.write_str(": more than 512 lines of values"),
            Reason::LongLine => f.write_str(" is longer than any line of the form"),
            Reason::Semicolon => f.write_str(" has a semicolon: fields are parted by one comma"),
            Reason::Space => f.write_str(" has a space or a tab"),
            Reason::LastComma => f.write_str(" ends in a comma"),
            Reason::EmptyField { place } => write!(f, ": field {place} is empty"),
            Reason::JobFields { fields } => write!(
                f,
                ": {}, and a job has 3: method, setting and mark",
                Count(fields, "field")
            ),
            Reason::ManyNames { names } => {
                write!(f, ": {}, and there may be 8", Count(names, "name"))
            }
            Reason::Values { values, names } => {
                write!(f, ": {}, {}", Count(values, "value"), Count(names, "name"))
            }
            Reason::MethodCapital(field) => {
                write!(f, ": a method's name has small letters: {}", Shown(field))
            }
            Reason::MethodWord(field) => write!(
                f,
                ": a method's name has 1 to 16 letters a to z: {}",
                Shown(field)
            ),
            Reason::PlusSign(field) => write!(f, ": a setting has no plus sign: {}", Shown(field)),
            Reason::Setting(field) => write!(
                f,
                ": a setting has 1 to 4 digits, and may have a minus before them: {}",
                Shown(field)
            ),
            Reason::Name(field) => write!(
                f,
                ": a name has 1 to 16 letters a to z: {}",
                Shown(field)
            ),
            Reason::Prefix(field) => write!(f, ": a pattern has no 0x before it: {}", Shown(field)),
            Reason::LowerCase(field) => write!(
                f,
                ": a pattern's digits A to F are capitals: {}",
                Shown(field)
            ),
            Reason::Pattern(field) => write!(
                f,
                ": a pattern has 8 digits 0 to 9 and A to F: {}",
                Shown(field)
            ),
        }
    }
}

// Which settings a method takes.
fn range(method: Option<Method>) -> &'static str {
    match method {
        Some(Method::Absolute) => "a step's exponent from -149 to 127",
        Some(Method::Digits) => "1 to 7 digits",
        _ => "0 to 23 keep bits",
    }
}

// Refusals 1 and 2 are about the method and the setting of a text that has the form: its line 2 begins at byte 20.
#[derive(Clone, Copy)]
pub struct Job<'a> {
    pub text: &'a [u8],
    pub is_known: bool,
}

impl fmt::Display for Job<'_> {
    fn fmt<W: fmt::Write>(&self, f: &mut fmt::Formatter<W>) -> fmt::Result {
        let Some(job) = self.text.get(20..) else {
            return Ok(());
        };
        let end = until(job, b',');
        let method = &job[..end];
        write!(f, "line 2: {}", Shown(method))?;
        if !self.is_known {
            return f.write_str(
                " is none of shave, set, groom, halfshave, round, absolute and digits",
            );
        }
        write!(
            f,
            " takes {}",
            range(method_word::method_of(method, 0, method.len()))
        )?;
        if end == job.len() {
            return Ok(());
        }
        let rest = &job[end + 1..];
        let setting = &rest[..until(rest, b',')];
        write!(f, ": {}", Shown(setting))
    }
}
