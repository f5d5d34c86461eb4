// A text in, a text out: all of trimlist but its input and output.
#![tactic(auto)]

ghost use Rattle.std.specs.Prelude.{◌≡◌, [], ◌+◌, ◌*◌, ◌≤◌, length};
ghost use Rattle.meaning.specs.Calls.{leaving};
ghost use Rattle.form.specs.Output.{counts_line, counts_lines, listed};
ghost use Rattle.refusal.specs.Refusals.{outcome_of};
ghost use Rattle.text_in.specs.Places.{area_series};
ghost use Rattle.text_out.specs.Places.{paste};
ghost use Rattle.trim.specs.Answers.{counts};
ghost use Rattle.listing.specs.Jobs.{JobRead, job_trimmed, left_readings, Small, pieces};

use method::Method;
use refusal::Refusal;
use text_in::{Text, Work};
use trim::Counts;

// A job that is accepted: what its text holds, and the method that its word names.
#[derive(Clone, Copy)]
struct Accepted {
    text: Text,
    method: Method,
}

// The questions of a text, in their order: does it have the form, is its word known, is its setting in range? Its values go to the work area.
fn accept(input: &[u8], work: &mut Work) -> Result<Accepted, Refusal>
    ensures { JobRead input.now work.new result }
{
    let text = text_in::read_text(input, work).ok_or(Refusal::TextNotOfTheForm)?;
    let method = method_word::method_of(input, 20, text.job.letters).ok_or(Refusal::MethodUnknown)?;
    let number = method.number();
    asking::ask_single(number, text.job.setting)?;
    Ok(Accepted { text, method })
}

// The line of a trimmed series' six counts from `at` on; the place after it. A refused trim has none.
fn put_answer(out: &mut [u8], at: usize, answer: Result<Counts, Refusal>) -> usize
    requires small { Small (outcome_of counts answer) }
    requires at_in_bounds { at + 24 ≤ length out.old }
    ensures value { result ≡ at + length (leaving (outcome_of counts answer) counts_line []) }
    ensures out_after { out.new ≡ paste out.old at (leaving (outcome_of counts answer) counts_line []) }
{
    match answer {
        Ok(counts) => {
            let columns = [
                counts.changed as usize,
                counts.spared as usize,
                counts.clipped as usize,
                counts.missing as usize,
                counts.risen as usize,
                counts.fallen as usize,
            ];
            text_out::put_counts(out, at, &columns)
        }
        Err(_) => at,
    }
}

// Trims each series of a job in the work area as one array: a part of 512 places for each, of which the first hold its lines' values. The lines of their counts go to
// `counts`, from its start on; answers how many bytes those are.
fn trim_series(work: &mut Work, job: Accepted, counts: &mut [u8]) -> usize
    requires { (job.text.count ≤ 8) × (job.text.lines ≤ 512) × (length counts.old ≡ 192) }
    ensures work { area_series work.new job.text.count job.text.lines ≡ left_readings (job_trimmed work.old job) }
    ensures answer { result ≡ length (counts_lines (job_trimmed work.old job)) }
    ensures counts { counts.new ≡ paste counts.old 0 (counts_lines (job_trimmed work.old job)) }
    ensures short { result ≤ 24 * job.text.count }
{
    let text = job.text;
    let number = job.method.number();
    let mut p = 0;
    for j in 0..text.count {
        let from = 512 * j;
        let to = from + text.lines;
        let answer = trim::trim_singles(
            &mut work[from..to],
            number,
            text.job.setting,
            text.job.mark,
        );
        p = put_answer(counts, p, answer);
    }
    p
}

// The output of an accepted job: the names, the lines of values in the work area, and the counts. Answers how many bytes it has.
fn put_output(
    out: &mut [u8],
    names: &[u8],
    work: &Work,
    count: usize,
    lines: usize,
    counts: &[u8],
) -> usize
    requires count_bound { (count ≤ 8) × (lines ≤ 512) × (length out.old ≡ 65536) }
    requires names_len_bound { (length names.now ≤ 136) × (length counts.now ≤ 192) }
    ensures value { result ≡ length (pieces names.now work.now count lines counts.now) }
    ensures out_after { out.new ≡ paste out.old 0 (pieces names.now work.now count lines counts.now) }
{
    let p = text_out::put_bytes(out, 0, names);
    let q = text_out::put_lines(out, p, count, lines, work);
    let r = text_out::put_bytes(out, q, b"changed,spared,clipped,missing,risen,fallen\n");
    text_out::put_bytes(out, r, counts)
}

// What trimlist prints for a text goes to the start of `out`; answers how many bytes it has. The longest has some 37,000, so every answer has room.
pub fn listing(input: &[u8], out: &mut [u8; 65536]) -> usize
    ensures answer { result ≡ length (listed input.now) }
    ensures content { out.new ≡ paste out.old 0 (listed input.now) }
{
    let mut work = [0u32; 4096];
    match accept(input, &mut work) {
        Ok(job) => {
            let text = job.text;
            let mut counts = [0u8; 192];
            let n = trim_series(&mut work, job, &mut counts);
            put_output(
                out,
                &input[text.names..text.first],
                &work,
                text.count,
                text.lines,
                &counts[..n],
            )
        }
        Err(refusal) => text_out::put_refusal(out, refusal.number() as usize),
    }
}
