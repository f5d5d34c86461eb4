// The rows of the table: a case to a line, with bars between its fields. A line that begins with # is printed as it stands.
use crate::kinds::Kind;
use std::io::ErrorKind;
use table::fields::Row;
use table::line::Printer;

// Nobody reads the table any more.
pub struct NoReader;

// How many cases there are, and how many of them are wrong.
#[derive(Clone, Copy, Debug, PartialEq, Eq)]
struct Count {
    cases: u64,
    wrong: u64,
}

impl Count {
    fn add(&mut self, is_right: bool) {
        self.cases = self.cases.wrapping_add(1);
        if !is_right {
            self.wrong = self.wrong.wrapping_add(1);
        }
    }
}

// A line's case: whether it is right. Not each line has one.
fn run_line(out: &mut Printer<'_, impl Print>, line: &[u8]) -> Option<bool> {
    match line {
        [] | b"\r" => None,
        [b'#', text @ ..] => {
            out.put_bytes(text);
            out.end();
            None
        }
        _ => Some(run_row(out, Row(line))),
    }
}

fn run_row(out: &mut Printer<'_, impl Print>, row: Row<'_>) -> bool {
    match Kind::of(row) {
        Ok(kind) => kind.run(out, row),
        Err(fault) => {
            out.put_fault(row, fault);
            false
        }
    }
}

fn put_total(out: &impl Print, count: Count) -> Result<(), NoReader> {
    let Count { cases, wrong } = count;
    let _ = print!(out; "\n{cases} cases, {wrong}");
    match out.write_all(b" wrong\n") {
        Err(error) if error.kind() == ErrorKind::BrokenPipe => Err(NoReader),
        _ => Ok(()),
    }
}

// The last line. A sheet without a case is a slip of whoever wrote it, or can't be read: it counts as a case that is wrong.
fn total(out: &impl Print, count: Count) -> Result<(), NoReader> {
    if count.cases == 0 {
        let _ = out.print("WRONG, the sheet has no case, or can't be read: cases <sheet\n");
        return put_total(out, Count { cases: 1, wrong: 1 });
    }
    put_total(out, count)
}

// What is said of a sheet that is longer than the room for it. Its rows aren't run: the last one might be cut.
pub fn too_long(out: &impl Print) -> Result<(), NoReader> {
    let _ = out.print(
        "WRONG, the sheet is longer than 65536 bytes, and no row of it was run: make it two sheets\n",
    );
    total(out, Count { cases: 1, wrong: 1 })
}

// The whole table: every line, and at the end how many cases there are and how many are wrong.
pub fn rows(out: &impl Print, sheet: &[u8]) -> Result<(), NoReader> {
    let mut printer = Printer::new(out);
    let mut count = Count { cases: 0, wrong: 0 };
    for line in sheet.split(|byte| *byte == b'\n') {
        if let Some(is_right) = run_line(&mut printer, line) {
            count.add(is_right);
        }
    }
    total(out, count)
}
