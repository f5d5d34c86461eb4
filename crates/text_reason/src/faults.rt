// The first fault of a text that doesn't have the form, line by line from its start.
ghost use Rattle.std.specs.Prelude.{◌≤◌, length};

// What can be wrong with a text as a whole, or with one of its lines.
#[derive(Clone, Copy, Debug, PartialEq, Eq)]
pub enum Fault<'a> {
    Empty,
    ByteOrderMark,
    NoNewline,
    LineMissing(usize),
    InLine { line: usize, reason: Reason<'a> },
}

// What can be wrong in a line. Some speak of the field that has the fault, or of its place, which counts from 1; others of how many fields there are.
#[derive(Clone, Copy, Debug, PartialEq, Eq)]
pub enum Reason<'a> {
    CarriageReturn,
    FirstLine,
    EmptyLine,
    ManyLines,
    LongLine,
    Semicolon,
    Space,
    LastComma,
    EmptyField { place: usize },
    JobFields { fields: usize },
    ManyNames { names: usize },
    Values { values: usize, names: usize },
    MethodCapital(&'a [u8]),
    MethodWord(&'a [u8]),
    PlusSign(&'a [u8]),
    Setting(&'a [u8]),
    Name(&'a [u8]),
    Prefix(&'a [u8]),
    LowerCase(&'a [u8]),
    Pattern(&'a [u8]),
}

// One byte more than a text of the form can have, and all that `trimlist` reads: a text of so many bytes may go on.
const CUT: usize = 37053;

// The longest line of the form, eight names of 16 letters with commas between.
const LONGEST: usize = 135;

// Where the byte first stands; the length where it doesn't.
pub fn until(s: &[u8], byte: u8) -> usize
    ensures { result ≤ length s.now }
{
    s.iter().position(|b| *b == byte).unwrap_or(s.len())
}

// Of UTF-8, or of UTF-16.
fn is_byte_order_mark(s: &[u8]) -> bool {
    matches!(
        s,
        [0xEF, 0xBB, 0xBF, ..] | [0xFE, 0xFF, _, ..] | [0xFF, 0xFE, _, ..]
    )
}

// A name, or a method word by the letters that may stand in it.
fn is_word(field: &[u8]) -> bool {
    let letters = fields_in::letters_at(field, 0);
    letters > 0 && letters == field.len()
}

fn is_setting(field: &[u8]) -> bool {
    fields_in::setting_at(field, 0).is_some_and(|read| read.next == field.len())
}

fn is_pattern(field: &[u8]) -> bool {
    field.len() == 8 && fields_in::pattern_at(field, 0).is_some()
}

fn check_pattern(field: &[u8]) -> Result<(), Reason<'_>> {
    if is_pattern(field) {
        return Ok(());
    }
    if matches!(field, [b'0', b'x' | b'X', ..]) {
        return Err(Reason::Prefix(field));
    }
    if field.len() == 8 && field.iter().all(|byte| byte.is_ascii_hexdigit()) {
        return Err(Reason::LowerCase(field));
    }
    Err(Reason::Pattern(field))
}

fn check_name(field: &[u8]) -> Result<(), Reason<'_>> {
    if is_word(field) {
        return Ok(());
    }
    Err(Reason::Name(field))
}

fn check_method(field: &[u8]) -> Result<(), Reason<'_>> {
    if is_word(field) {
        return Ok(());
    }
    if field.iter().any(|byte| byte.is_ascii_uppercase()) {
        return Err(Reason::MethodCapital(field));
    }
    Err(Reason::MethodWord(field))
}

fn check_setting(field: &[u8]) -> Result<(), Reason<'_>> {
    if is_setting(field) {
        return Ok(());
    }
    if field.contains(&b'+') {
        return Err(Reason::PlusSign(field));
    }
    Err(Reason::Setting(field))
}

// A line without its newline.
#[derive(Clone, Copy)]
struct Line<'a> {
    number: usize,
    bytes: &'a [u8],
    has_newline: bool,
    // Whether the reading stopped in it: then nothing is known of its end.
    is_cut: bool,
}

impl<'a> Line<'a> {
    // How many fields it has: one more than it has commas.
    fn fields(self) -> usize {
        self.bytes.split(|byte| *byte == b',').count()
    }

    // The line as a whole, and how it ends.
    fn check_end(self) -> Result<(), Fault<'a>> {
        if self.bytes.ends_with(b"\r") && !self.is_cut {
            return Err(self.fault(Reason::CarriageReturn));
        }
        if self.number == 1 && !matches!(self.bytes, b"method,setting,mark") {
            return Err(self.fault(Reason::FirstLine));
        }
        if self.bytes.is_empty() {
            return Err(self.fault(Reason::EmptyLine));
        }
        if self.number > 515 {
            return Err(self.fault(Reason::ManyLines));
        }
        if self.bytes.len() > LONGEST {
            return Err(self.fault(Reason::LongLine));
        }
        if !self.has_newline {
            return Err(Fault::NoNewline);
        }
        Ok(())
    }

    // Signs that people put between fields.
    fn check_signs(self) -> Result<(), Reason<'a>> {
        if self.bytes.contains(&b';') {
            return Err(Reason::Semicolon);
        }
        if self.bytes.contains(&b' ') || self.bytes.contains(&b'\t') {
            return Err(Reason::Space);
        }
        Ok(())
    }

    // Has the line as many fields as it may? On line 3 there may be 1 to 8.
    fn check_count(self, names: usize) -> Result<(), Reason<'a>> {
        let fields = self.fields();
        match self.number {
            2 if fields != 3 => Err(Reason::JobFields { fields }),
            3 if fields > 8 => Err(Reason::ManyNames { names: fields }),
            4.. if fields != names => Err(Reason::Values {
                values: fields,
                names,
            }),
            _ => Ok(()),
        }
    }

    // The number of fields, and a comma at the end: it is one too many, or the field after it is empty.
    fn check_last(self, names: usize) -> Result<(), Reason<'a>> {
        let count = self.check_count(names);
        if !self.bytes.ends_with(b",") {
            return count;
        }
        if count.is_err() || self.number == 3 {
            return Err(Reason::LastComma);
        }
        Err(Reason::EmptyField {
            place: self.fields(),
        })
    }

    // The field at a place, which counts from 0: on line 2 method, setting and mark, on line 3 a name, and then a pattern.
    fn check_field(self, place: usize, field: &'a [u8]) -> Result<(), Reason<'a>> {
        if field.is_empty() {
            return Err(Reason::EmptyField {
                place: place.saturating_add(1),
            });
        }
        match (self.number, place) {
            (2, 0) => check_method(field),
            (2, 1) => check_setting(field),
            (3, _) => check_name(field),
            _ => check_pattern(field),
        }
    }

    // A walk of its own and no `split`: the must-fail edit `stands_still` is of a walk that stays at a comma.
    fn check_fields(self) -> Result<(), Reason<'a>> {
        let mut rest = self.bytes;
        let mut place: usize = 0;
        while !rest.is_empty() {
            let end = until(rest, b',');
            self.check_field(place, &rest[..end])?;
            if end == rest.len() {
                return Ok(());
            }
            rest = &rest[end + 1..];
            place = place.saturating_add(1);
        }
        Ok(())
    }

    // All but the heading, behind its end.
    fn check_inside(self, names: usize) -> Result<(), Reason<'a>> {
        self.check_signs()?;
        self.check_last(names)?;
        self.check_fields()
    }

    fn check(self, names: usize) -> Result<(), Fault<'a>> {
        self.check_end()?;
        if self.number == 1 {
            return Ok(());
        }
        let line = self.number;
        self.check_inside(names)
            .map_err(|reason| Fault::InLine { line, reason })
    }

    fn fault(self, reason: Reason<'a>) -> Fault<'a> {
        Fault::InLine {
            line: self.number,
            reason,
        }
    }
}

// The first fault of a text, by its lines; or that it ends before its names.
fn check_lines(s: &[u8]) -> Result<(), Fault<'_>> {
    let mut lines: usize = 0;
    let mut names: usize = 0;
    for piece in s.split_inclusive(|byte| *byte == b'\n') {
        lines = lines.saturating_add(1);
        let ended = piece.strip_suffix(b"\n");
        let line = Line {
            number: lines,
            bytes: ended.unwrap_or(piece),
            has_newline: ended.is_some(),
            is_cut: ended.is_none() && s.len() >= CUT,
        };
        line.check(names)?;
        if lines == 3 {
            names = line.fields();
        }
    }
    if lines < 3 {
        return Err(Fault::LineMissing(lines + 1));
    }
    Ok(())
}

// Why a text doesn't have the form.
pub fn check(s: &[u8]) -> Result<(), Fault<'_>> {
    if s.is_empty() {
        return Err(Fault::Empty);
    }
    if is_byte_order_mark(s) {
        return Err(Fault::ByteOrderMark);
    }
    check_lines(s)
}
