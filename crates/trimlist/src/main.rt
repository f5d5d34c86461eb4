// trimlist: reads a text from standard input, trims its series as its job says, and writes the answer to standard output. `listing` does the work; here are the
// input and the output, of which no contract can tell.
#![tactic(auto)]

ghost use Rattle.std.specs.Prelude.{◌≤◌, length, IfOk};

use std::env::FillError;
use std::io;
use std::io::{ErrorKind, Read};
use std::process::ExitCode;
use std::rt::Env;

// Nobody reads the answer any more.
struct NoReader;

// Reads until the input ends, `text` is full or a read fails: how many bytes came. A read that a signal interrupted brings nothing. A proved loop has to end, and nothing
// says that the input does, so the turns are counted, up to a number that no run comes to: one that did would have been interrupted all along.
fn read_input(input: &mut impl Read, text: &mut [u8]) -> io::Result<usize>
    ensures { IfOk result (λ bytes. bytes ≤ length text.new) }
{
    let mut bytes: usize = 0;
    for _ in 0..u64::MAX {
        match input.read(&mut text[bytes..]) {
            Ok(0) => return Ok(bytes),
            Ok(more) => bytes += more,
            Err(error) if error.kind() == ErrorKind::Interrupted => {}
            Err(error) => return Err(error),
        }
    }
    Err(io::Error::from(ErrorKind::Interrupted))
}

// A line on standard error: what failed, and why, in the system's words. Its number of the error, which std has behind them, is left out.
fn fail<R: Eprint + AllocGlobal>(rt: &R, what: &str, error: io::Error) {
    let _ = match format!(in rt.alloc(); "{error}") {
        Ok(words) => {
            let why = words
                .split_once(" (os error ")
                .map_or(words.as_str(), |parts| parts.0);
            eprintln!(rt; "{what}: {why}")
        }
        Err(_) => rt.eprintln(what),
    };
}

// Writes the answer. Whatever fails but for the reader is told on standard error.
fn write_answer<R: Print + Eprint + AllocGlobal>(rt: &R, answer: &[u8]) -> Result<(), NoReader> {
    match rt.write_all(answer) {
        Ok(()) => Ok(()),
        Err(error) if error.kind() == ErrorKind::BrokenPipe => Err(NoReader),
        Err(error) => {
            fail(
                rt,
                "trimlist: the answer could not be written to standard output",
                error,
            );
            Ok(())
        }
    }
}

// A refusal's number by its digit. A number and no `Refusal`, since `text_reason::say` takes any number, as it did.
fn number_of(digit: u8) -> u32 {
    match digit {
        b'1' => 1,
        b'2' => 2,
        _ => 9,
    }
}

// Writes what `listing` answers to a text. Of all answers only a refusal has 10 bytes, `refused,9` and the newline: then the reason goes to standard error.
fn answer<R: Print + Eprint + AllocGlobal>(rt: &R, text: &[u8]) -> Result<(), NoReader> {
    let mut out = [0u8; 65536];
    let n = listing::listing(text, &mut out);
    write_answer(rt, &out[..n])?;
    if n == 10 {
        text_reason::say(rt, text, number_of(out[8]));
    }
    Ok(())
}

// The longest text that has the form has 37,052 bytes: 20 of the header, 32 of the job, 136 of the names and 512 lines of 72. Once 37,053 bytes
// are read the text is refused with 9 whatever follows them, so no more is read.
fn run<R: io::Input + Print + Eprint + AllocGlobal>(rt: &R) -> Result<(), NoReader> {
    let mut text = [0u8; 37053];
    match read_input(&mut rt.reader(), &mut text) {
        Ok(n) => answer(rt, &text[..n]),
        Err(error) => {
            fail(
                rt,
                "trimlist: standard input could not be read to its end",
                error,
            );
            write_answer(rt, b"refused,9\n")
        }
    }
}

// The program takes no argument: whatever it is given, it says what it is. On standard error, so that no file takes this for an answer.
fn about(rt: &impl Eprint) {
    let _ = rt.eprint(
        "trimlist 2.5.0\ntrims the text that it reads from standard input: trimlist <text\n",
    );
}

// Was the program given an argument?
fn has_argument(rt: &impl Env) -> bool {
    let mut start = [0u8; 1];
    !matches!(rt.arg(1, &mut start), Err(FillError::NotPresent))
}

// What a shell shows of a program that writes to a pipe whose reader has gone, and is ended for it.
const NO_READER: u8 = 141;

fn main(rt: HostRuntime) -> ExitCode {
    if has_argument(&rt) {
        about(&rt);
        return ExitCode::SUCCESS;
    }
    match run(&rt) {
        Ok(()) => ExitCode::SUCCESS,
        Err(NoReader) => ExitCode::from(NO_READER),
    }
}
