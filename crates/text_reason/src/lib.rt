// Why a text was refused, in words for people: the place and a plain reason, as one line on standard error.
// Internal: `trimlist` calls it after a refusal. It changes nothing, and no answer hangs on it: whether a text has the form is `listing`'s to say.
#![tactic(auto)]

mod faults;
mod words;

use std::io;
use words::Job;

fn say_fault(rt: &impl Eprint, s: &[u8]) -> io::Result<()> {
    match faults::check(s) {
        Err(fault) => eprintln!(rt; "trimlist: {fault}"),
        Ok(()) => eprintln!(rt; "trimlist: the text doesn't have the form"),
    }
}

// Says why a text got a refusal by this number. Where the line can't be written the program goes on without it.
// A number and no `Refusal`: as before it may be any number, and a `Refusal` would ask more of the caller.
pub fn say(rt: &impl Eprint, s: &[u8], number: u32) {
    let _ = if number == 9 {
        say_fault(rt, s)
    } else {
        let job = Job {
            text: s,
            is_known: number != 1,
        };
        eprintln!(rt; "trimlist: {job}")
    };
}
