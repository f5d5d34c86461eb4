// The text of trimlist, written at places of slices. A writer lays bytes over a slice from a place on. Lines of values come from a work area of 8 parts of 512, one for
// each series, as `text_in` fills it.
// A buffer of fixed length and a place, since no call has memory of its own; the casts are of digits.
// Internal: `listing` is made of them, and of the readers in `text_in`.
#![tactic(auto)]

ghost use Rattle.std.specs.Prelude.{◌≡◌, map, ◌+◌, ◌*◌, ◌<◌, ◌≤◌, length};
ghost use Rattle.meaning.specs.Questions.{refused};
ghost use Rattle.form.specs.Form.{All, hex_char, hex_text, line, pattern, value_lines};
ghost use Rattle.form.specs.Parse.{ending};
ghost use Rattle.form.specs.Output.{decimal, columns, printed};
ghost use Rattle.text_in.specs.Places.{area_series};
ghost use Rattle.text_out.specs.Places.{paste, gather, field};

use text_in::Work;

// One hexadecimal digit as a byte.
#[tactic(auto, using(std::proofs::lemmas::Bool::Decides::nat_tests), unfolding(form::specs::Form::hex_char))]
pub fn hex_char(d: u32) -> u8
    requires { d < 16 }
    ensures { result ≡ hex_char d }
{
    if d < 10 {
        b'0' + d as u8
    } else {
        b'A' + (d - 10) as u8
    }
}

// The eight digits of v from `at` on.
pub fn put_pattern(out: &mut [u8], at: usize, v: u32)
    requires { at + 8 ≤ length out.old }
    ensures { out.new ≡ paste out.old at (hex_text 8 v) }
{
    let mut rest = v;
    for done in 0..8 {
        out[at + (7 - done)] = hex_char(rest % 16);
        rest /= 16;
    }
}

// A number below 1000 in decimal from `at` on; the place after it.
pub fn put_number(out: &mut [u8], at: usize, n: usize) -> usize
    requires { (n < 1000) × (at + 3 ≤ length out.old) }
    ensures value { result ≡ at + length (decimal n) }
    ensures out_after { out.new ≡ paste out.old at (decimal n) }
{
    if n < 10 {
        out[at] = (48 + n) as u8;
        return at + 1;
    }
    if n < 100 {
        out[at] = (48 + n / 10) as u8;
        out[at + 1] = (48 + n % 10) as u8;
        return at + 2;
    }
    out[at] = (48 + n / 10 / 10) as u8;
    out[at + 1] = (48 + n / 10 % 10) as u8;
    out[at + 2] = (48 + n % 10) as u8;
    at + 3
}

// The byte that follows a field with `left` more on its line.
pub fn ending_byte(left: usize) -> u8
    ensures { result ≡ ending left }
{
    if left == 0 { b'\n' } else { b',' }
}

// Line i of the work area: pattern j from place i + 512 * j; the place after it.
pub fn put_line(out: &mut [u8], at: usize, n: usize, i: usize, work: &Work) -> usize
    requires { (n ≤ 8) × (i < 512) × (at + 9 * n ≤ length out.old) }
    ensures value { result ≡ at + 9 * n }
    ensures out_after { out.new ≡ paste out.old at (line (map pattern (gather work.now i n))) }
{
    for j in 0..n {
        let p = at + 9 * j;
        put_pattern(out, p, work[i + 512 * j]);
        out[p + 8] = ending_byte(n - 1 - j);
    }
    at + 9 * n
}

// The bytes of `source` from `at` on; the place after them.
pub fn put_bytes(out: &mut [u8], at: usize, source: &[u8]) -> usize
    requires { at + length source.now ≤ length out.old }
    ensures value { result ≡ at + length source.now }
    ensures out_after { out.new ≡ paste out.old at source.now }
{
    let end = at + source.len();
    out[at..end].copy_from_slice(source);
    end
}

// A number below 1000 and the byte after it, with `left` more fields on its line; the place after them.
pub fn put_field(out: &mut [u8], at: usize, n: usize, left: usize) -> usize
    requires { (n < 1000) × (at + 4 ≤ length out.old) }
    ensures value { result ≡ at + length (field n left) }
    ensures out_after { out.new ≡ paste out.old at (field n left) }
{
    let p = put_number(out, at, n);
    out[p] = ending_byte(left);
    p + 1
}

// The line of counts below 1000 from `at` on; the place after it.
pub fn put_counts(out: &mut [u8], at: usize, counts: &[usize]) -> usize
    requires all { All (λ n. n < 1000) counts.now }
    requires counts_in_bounds { at + 4 * length counts.now ≤ length out.old }
    ensures value { result ≡ at + length (line (map decimal counts.now)) }
    ensures out_after { out.new ≡ paste out.old at (line (map decimal counts.now)) }
{
    let mut p = at;
    for (i, n) in counts.iter().enumerate() {
        p = put_field(out, p, *n, counts.len() - 1 - i);
    }
    p
}

// The lines of values of the n series in the work area from `at` on, with room for 72 bytes each; the place after them.
pub fn put_lines(out: &mut [u8], at: usize, n: usize, lines: usize, work: &Work) -> usize
    requires { (n ≤ 8) × (lines ≤ 512) × (at + 72 * lines ≤ length out.old) }
    ensures value { result ≡ at + length (value_lines (columns lines (area_series work.now n lines))) }
    ensures out_after { out.new ≡ paste out.old at (value_lines (columns lines (area_series work.now n lines))) }
{
    let mut p = at;
    for i in 0..lines {
        p = put_line(out, p, n, i, work);
    }
    p
}

// What is printed for the refusal with number n, from the start on; how many bytes it has.
// A number, and no `Refusal`, since the clause takes each number below 1000 and the type would take fewer.
pub fn put_refusal(out: &mut [u8], n: usize) -> usize
    requires { (n < 1000) × (12 ≤ length out.old) }
    ensures value { result ≡ length (printed (refused n)) }
    ensures out_after { out.new ≡ paste out.old 0 (printed (refused n)) }
{
    let p = put_bytes(out, 0, b"refused,");
    put_field(out, p, n, 0)
}
