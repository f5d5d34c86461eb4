// The lines of the table.
ghost use Rattle.std.specs.Prelude.{◌≡◌, ◌↔◌, IsTrue, false, MatchResult};

use crate::call::Call;
use crate::fate::Fate;
use crate::faults::{Fault, Reason};
use crate::fields::Row;
use refusal::Refusal;
use std::fmt;

// The table as it is written, piece by piece, and the column that its last line has come to. Where a piece can't be written the table goes on without it.
pub struct Printer<'a, P: Print> {
    out: &'a P,
    column: usize,
}

// By hand, since a derive would ask it of P too.
impl<P: Print> Drop for Printer<'_, P> {
    fn drop(self) {
        let Printer { out: _, column: _ } = self;
    }
}

impl<P: Print> fmt::Write for Printer<'_, P> {
    fn write_str(&mut self, text: &str) -> fmt::Result {
        self.put_bytes(text.as_bytes());
        Ok(())
    }
}

// A reading as it is printed: a single by 8 digits, a double by 16.
pub trait Pattern: Copy {
    fn write<W: fmt::Write>(self, out: &mut W) -> fmt::Result;
}

impl Pattern for u32 {
    fn write<W: fmt::Write>(self, out: &mut W) -> fmt::Result {
        write!(out, "{self:08X}")
    }
}

impl Pattern for u64 {
    fn write<W: fmt::Write>(self, out: &mut W) -> fmt::Result {
        write!(out, "{self:016X}")
    }
}

impl<'a, P: Print> Printer<'a, P> {
    pub fn new(out: &'a P) -> Self {
        Printer { out, column: 0 }
    }

    // Bytes of a sheet, which need not be text.
    pub fn put_bytes(&mut self, bytes: &[u8]) {
        let _ = self.out.write_all(bytes);
        self.column = self.column.wrapping_add(bytes.len());
    }

    pub fn put<D: fmt::Display + Drop>(&mut self, text: D) {
        let _ = fmt::Write::write(self, text);
    }

    pub fn end(&mut self) {
        self.put("\n");
        self.column = 0;
    }

    // Spaces up to a column, and one where the text is there already.
    pub fn fill(&mut self, column: usize) {
        self.put(" ");
        for _ in self.column..column {
            self.put(" ");
        }
    }

    // A pattern at a column.
    pub fn pattern_at<T: Pattern>(&mut self, column: usize, pattern: T) {
        self.fill(column);
        let _ = pattern.write(self);
    }

    // Patterns, with a space before each.
    pub fn patterns<T: Pattern>(&mut self, all: &[T]) {
        for pattern in all {
            self.pattern_at(0, *pattern);
        }
    }

    // Widths, codes or step exponents, likewise.
    pub fn numbers<T: fmt::Display>(&mut self, all: &[T]) {
        for x in all {
            self.put(format_args!(" {x}"));
        }
    }

    // A text on one line: the end of a line shows as \n.
    pub fn shown(&mut self, text: &[u8]) {
        for byte in text {
            match *byte {
                b'\n' => self.put("\\n"),
                other => self.put_bytes(&[other]),
            }
        }
    }

    // The source of a row's case, and then spaces to column 22.
    pub fn start(&mut self, row: Row<'_>) {
        self.put_bytes(row.source());
        self.fill(22);
    }

    // The same, and the call.
    pub fn start_call(&mut self, row: Row<'_>, call: Call) {
        self.start(row);
        self.put(call);
    }

    // The source before a list, whose items have a space before each.
    pub fn start_list(&mut self, row: Row<'_>) {
        self.put_bytes(row.source());
        self.fill(21);
    }

    // Some cases take three lines: what is given, and then these two.
    pub fn expecting(&mut self) {
        self.end();
        self.put("  expected");
        self.fill(21);
    }

    pub fn getting(&mut self) {
        self.end();
        self.put("  got");
        self.fill(21);
    }

    // Ends a case's line with the verdict, what the library's counts say, and the note.
    pub fn judge_fate(&mut self, row: Row<'_>, ok: bool, fate: Fate) -> bool
        ensures { result ≡ ok }
    {
        self.put(if ok { "ok" } else { "WRONG" });
        self.put(fate);
        self.put_bytes(row.note());
        self.end();
        ok
    }

    // Ends a case's line with the verdict and the note.
    pub fn judge(&mut self, row: Row<'_>, ok: bool) -> bool
        ensures { result ≡ ok }
    {
        self.judge_fate(row, ok, Fate::Plain)
    }

    // The same of a case whose call has to be accepted: refused, it is wrong whatever stands there.
    pub fn judge_accepted(&mut self, row: Row<'_>, answer: Result<bool, Refusal>) -> bool
        ensures { MatchResult answer (λ ok. result ≡ ok) (λ _. result ≡ false) }
    {
        match answer {
            Ok(ok) => self.judge(row, ok),
            Err(_) => self.judge_fate(row, false, Fate::Refused),
        }
    }

    // "accepted", or "refused" and the number.
    fn put_answer(&mut self, number: Option<u32>) {
        match number {
            None => self.put("accepted"),
            Some(number) => self.put(format_args!("refused {number}")),
        }
    }

    // The last columns of a case about a question: the refusal that is expected, the one that came, and the verdict.
    pub fn answered(
        &mut self,
        row: Row<'_>,
        expected: Option<u32>,
        got: Option<u32>,
        ok: bool,
    ) -> bool
        ensures { IsTrue result ↔ (IsTrue ok × (got ≡ expected)) }
    {
        self.fill(86);
        self.put_answer(expected);
        self.fill(97);
        self.put_answer(got);
        self.fill(108);
        self.judge(row, ok && got == expected)
    }

    fn put_reason(&mut self, reason: Reason<'_>) {
        match reason {
            Reason::NoKind => self.put("not a kind of case"),
            Reason::NotOfForm(form) => self.put(form),
            Reason::MoreThanFour => self.put("more than 4 items"),
            Reason::OtherNumber(other) => {
                self.put("not as many items as ");
                self.put_bytes(other);
            }
        }
    }

    // The line of a row that can't be run.
    pub fn put_fault(&mut self, row: Row<'_>, fault: Fault<'_>) {
        self.start(row);
        self.put("WRONG, ");
        match fault {
            Fault::ByteOrderMark => {
                self.put("a byte order mark stands before the row: save the sheet as plain text");
            }
            Fault::CarriageReturn => self.put(
                "a carriage return stands in the row: save the sheet with the line ends of Linux, not of Windows",
            ),
            Fault::Miscounted {
                fields,
                kind,
                wanted,
            } => {
                self.put(format_args!("{fields} fields, and "));
                self.put_bytes(kind);
                self.put(format_args!(" has {wanted}"));
            }
            Fault::InField { name, text, reason } => {
                self.put_bytes(name);
                self.put(" \"");
                self.put_bytes(text);
                self.put("\": ");
                self.put_reason(reason);
            }
        }
        self.end();
    }
}
