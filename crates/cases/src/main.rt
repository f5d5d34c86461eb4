// The test program that people read: cases of documents 01 and 02 and of the papers, run on the library and printed as a table. The cases stand in `stdin`, one to a line.
//
// To add a case, write it beside its like: its kind, where it stands in which document, what is given, what that document says must come. Type what must come from the
// document and never from what the program printed. `kinds.rt` has how a row of each kind is written.
#![tactic(auto)]

ghost use Rattle.std.specs.Prelude.{◌≤◌, length};

mod grouped;
mod kinds;
mod layers;
mod limits;
mod sheet_rows;
mod sums;
mod texts;
mod trims;

use sheet_rows::{NoReader, rows, too_long};
use std::env::FillError;
use std::io::Read;
use std::process::ExitCode;
use std::rt::Env;

// The status by which a program ends that nobody reads any more: a shell's number for one that a signal ended.
const NO_READER: u8 = 141;

// Was the program given an argument?
fn has_argument(rt: &impl Env) -> bool {
    let mut start = [0u8; 1];
    !matches!(rt.arg(1, &mut start), Err(FillError::NotPresent))
}

// The program takes no argument: whoever names a sheet as one should see at once that it reads standard input.
fn about(rt: &impl Eprint) {
    let _ = rt.eprint(
        "cases runs the cases of the sheet that it reads from standard input: cases <sheet\n",
    );
}

// Reads until `text` is full, the input ends or a read fails: how many bytes came. A `while`, since each read says where the next one begins.
fn read_full(input: &mut impl Read, text: &mut [u8]) -> usize
    ensures { result ≤ length text.new }
{
    let mut bytes: usize = 0;
    while bytes < text.len() {
        match input.read(&mut text[bytes..]) {
            Ok(0) | Err(_) => return bytes,
            Ok(more) => bytes += more,
        }
    }
    bytes
}

// Runs the sheet.
fn run(rt: &(impl Input + Print)) -> Result<(), NoReader> {
    let mut input = rt.reader();
    let mut text = [0u8; 65536];
    let n = read_full(&mut input, &mut text);
    let mut more = [0u8; 1];
    if n == 65536 && read_full(&mut input, &mut more) > 0 {
        return too_long(rt);
    }
    rows(rt, &text[..n])
}

fn main(rt: HostRuntime) -> ExitCode {
    if has_argument(&rt) {
        about(&rt);
        return ExitCode::SUCCESS;
    }
    match run(&rt) {
        Ok(()) => ExitCode::SUCCESS,
        Err(NoReader) => ExitCode::from(NO_READER),
    }
}
