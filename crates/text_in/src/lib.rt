// The text of trimlist, read line by line. Its values go to a work area of 8 parts of 512, one for each series. The fields of a line are read by `fields_in`.
// A reader answers what stands from a place on, with the next place, or none where it doesn't have the form.
// Internal: `listing` is made of them, and of the writers in `text_out`.
#![tactic(auto)]

ghost use Rattle.std.specs.Prelude.{◌≡◌, ◌<◌, ◌≤◌, length};
ghost use Rattle.form.specs.Form.{header};
ghost use Rattle.form.specs.Parse.{skip};
ghost use Rattle.text_in.specs.Places.{EndingRead, RowsRead, NamesRead, header_got, StartRead, TextRead, RowRead};

use fields_in::Read;

// The work area: 8 parts of 512 places, one for each series.
pub type Work = [u32; 4096];

const HEADER: [u8; 20] = *b"method,setting,mark\n";

// Does the text begin with the header line?
pub fn header_at(s: &[u8]) -> bool
    ensures { skip header s.now ≡ header_got s.now result }
{
    s.starts_with(&HEADER)
}

// The place after the byte that follows a field with `left` more on its line, or none where that byte doesn't stand at `at`.
fn past_ending(s: &[u8], at: usize, left: usize) -> Option<usize>
    ensures { EndingRead s.now at left result }
{
    if fields_in::ending_at(s, at, left) {
        Some(at + 1)
    } else {
        None
    }
}

// The job values, the word by its number of letters.
#[derive(Clone, Copy)]
pub struct Job {
    pub letters: usize,
    pub setting: i32,
    pub mark: u32,
}

// The job line from `at` on: a word of so many letters, the setting's value, the mark.
pub fn start_at(s: &[u8], at: usize) -> Option<Read<Job>>
    requires { at ≤ length s.now }
    ensures { StartRead s.now at result }
{
    let letters = fields_in::letters_at(s, at);
    if letters == 0 {
        return None;
    }
    let after_word = past_ending(s, at + letters, 1)?;
    let setting = fields_in::setting_at(s, after_word)?;
    let after_setting = past_ending(s, setting.next, 1)?;
    let mark = fields_in::pattern_at(s, after_setting)?;
    let next = past_ending(s, after_setting + 8, 0)?;
    Some(Read {
        value: Job {
            letters,
            setting: setting.value,
            mark,
        },
        next,
    })
}

// 1 to 8 names from `at` to the end of the line: how many.
pub fn names_at(s: &[u8], at: usize) -> Option<Read<usize>>
    requires { at ≤ length s.now }
    ensures { NamesRead s.now at result }
{
    let mut p = at;
    for k in 0..8 {
        let n = fields_in::letters_at(s, p);
        if n == 0 {
            return None;
        }
        let end = p + n;
        if let Some(next) = past_ending(s, end, 0) {
            return Some(Read { value: k + 1, next });
        }
        p = past_ending(s, end, 1)?;
    }
    None
}

// A line of n patterns from `at` on: pattern j goes to place row + 512 * j. Answers the place after the line.
pub fn row_at(s: &[u8], at: usize, n: usize, row: usize, work: &mut Work) -> Option<usize>
    requires { (at ≤ length s.now) × (n ≤ 8) × (row < 512) }
    ensures { RowRead s.now at n row work.old work.new result }
{
    let mut p = at;
    for j in 0..n {
        let v = fields_in::pattern_at(s, p)?;
        p = past_ending(s, p + 8, n - 1 - j)?;
        work[row + 512 * j] = v;
    }
    Some(p)
}

// Lines of n patterns from `at` to the end of the text: pattern j of line i goes to place i + 512 * j. Answers how many lines there are.
pub fn rows_at(s: &[u8], at: usize, n: usize, work: &mut Work) -> Option<usize>
    requires { (at ≤ length s.now) × (n ≤ 8) }
    ensures { RowsRead s.now at n work.old work.new result }
{
    let mut i = 0;
    let mut p = at;
    // A `while`, since it goes from line to line by the place in the text, which no count ends.
    while p < s.len() {
        if i == 512 {
            return None;
        }
        p = row_at(s, p, n, i, work)?;
        i += 1;
    }
    Some(i)
}

// What a text of the form holds: its job, the places of its names and of its first line of values, how many series and lines there are.
#[derive(Clone, Copy)]
pub struct Text {
    pub job: Job,
    pub names: usize,
    pub first: usize,
    pub count: usize,
    pub lines: usize,
}

// The whole text: its job, with the patterns in the work area, series by series; or none, which is question 9's no.
pub fn read_text(s: &[u8], work: &mut Work) -> Option<Text>
    ensures { TextRead s.now work.new result }
{
    if !header_at(s) {
        return None;
    }
    let job = start_at(s, 20)?;
    let names = names_at(s, job.next)?;
    let lines = rows_at(s, names.next, names.value, work)?;
    Some(Text {
        job: job.value,
        names: job.next,
        first: names.next,
        count: names.value,
        lines,
    })
}
