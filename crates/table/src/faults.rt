// A row is held against its kind's shape before it is run, so that nothing is run but what its author wrote. Of a row that doesn't fit, the first fault is printed.
use crate::fields::{Row, number, part, parts};
use crate::forms::Form;

// A shape is written as a row is. Its first field is the kind. Of each field after it, it has the name, a colon and the form, a word of which the first letter counts
// (`Form::named`). A question mark follows where the field may be empty. A star and a number follow where it is a list: of up to four items, and of as many as the
// field with that number.
#[derive(Clone, Copy)]
pub struct Shape<'a>(pub &'a [u8]);

impl<'a> Shape<'a> {
    fn kind(self) -> &'a [u8] {
        part(self.0, 0, b'|')
    }

    fn fields(self) -> usize {
        parts(self.0, b'|')
    }

    fn name(self, k: usize) -> &'a [u8] {
        part(part(self.0, k, b'|'), 0, b':')
    }

    // The form's word, and what follows it.
    fn form(self, k: usize) -> &'a [u8] {
        part(part(self.0, k, b'|'), 1, b':')
    }

    fn may_be_empty(self, k: usize) -> bool {
        self.form(k).contains(&b'?')
    }

    // Where the field is a list, the number of the field that has as many items.
    fn as_many_as(self, k: usize) -> Option<usize> {
        let form = self.form(k);
        if !form.contains(&b'*') {
            return None;
        }
        Some(number(part(form, 1, b'*'), 10) as usize)
    }
}

// What can be wrong with a row.
#[derive(Clone, Copy, Debug, PartialEq, Eq)]
pub enum Fault<'a> {
    ByteOrderMark,
    CarriageReturn,
    Miscounted {
        fields: usize,
        kind: &'a [u8],
        wanted: usize,
    },
    InField {
        name: &'a [u8],
        text: &'a [u8],
        reason: Reason<'a>,
    },
}

// What can be wrong in a field.
#[derive(Clone, Copy, Debug, PartialEq, Eq)]
pub enum Reason<'a> {
    NoKind,
    NotOfForm(Form),
    MoreThanFour,
    OtherNumber(&'a [u8]),
}

// A list of up to four items, each of the form, and of as many as the field has that it names.
fn check_list<'a>(row: Row<'a>, shape: Shape<'a>, k: usize, other: usize) -> Result<(), Fault<'a>> {
    let name = shape.name(k);
    let text = row.field(k);
    let form = Form::named(shape.form(k));
    if parts(text, b' ') > 4 {
        return Err(Fault::InField {
            name,
            text,
            reason: Reason::MoreThanFour,
        });
    }
    for item in text.split(|byte| *byte == b' ') {
        check_item(name, item, form)?;
    }
    if parts(text, b' ') != parts(row.field(other), b' ') {
        return Err(Fault::InField {
            name,
            text,
            reason: Reason::OtherNumber(shape.name(other)),
        });
    }
    Ok(())
}

fn check_item<'a>(name: &'a [u8], text: &'a [u8], form: Form) -> Result<(), Fault<'a>> {
    if form.fits(text) {
        return Ok(());
    }
    Err(Fault::InField {
        name,
        text,
        reason: Reason::NotOfForm(form),
    })
}

fn check_field<'a>(row: Row<'a>, shape: Shape<'a>, k: usize) -> Result<(), Fault<'a>> {
    if row.is_empty(k) && shape.may_be_empty(k) {
        return Ok(());
    }
    match shape.as_many_as(k) {
        Some(other) => check_list(row, shape, k, other),
        None => check_item(shape.name(k), row.field(k), Form::named(shape.form(k))),
    }
}

// The row's kind is none that there is.
pub fn no_kind(row: Row<'_>) -> Fault<'_> {
    Fault::InField {
        name: b"kind",
        text: row.field(0),
        reason: Reason::NoKind,
    }
}

// Has the row the shape of its kind?
pub fn check<'a>(row: Row<'a>, shape: Shape<'a>) -> Result<(), Fault<'a>> {
    let fields = parts(row.0, b'|');
    let wanted = shape.fields();
    if fields != wanted {
        return Err(Fault::Miscounted {
            fields,
            kind: shape.kind(),
            wanted,
        });
    }
    for k in 0..wanted {
        check_field(row, shape, k)?;
    }
    Ok(())
}

// Is the row without what some editors add to a line and don't show?
pub fn check_plain(row: Row<'_>) -> Result<(), Fault<'_>> {
    if row.0.starts_with(b"\xEF\xBB\xBF") {
        return Err(Fault::ByteOrderMark);
    }
    if row.0.contains(&b'\r') {
        return Err(Fault::CarriageReturn);
    }
    Ok(())
}
