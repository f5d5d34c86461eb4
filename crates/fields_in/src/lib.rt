// The fields of a line of trimlist's text, read at places of slices, byte by byte: a pattern, a word or a name, a setting, and the byte that follows a field.
// A reader answers what stands from a place on, or none where it doesn't have the form.
// A slice and a place, and not what is left of the slice: `listing` cuts its output from the text by places. A number has at most four digits, so `as` loses nothing.
// Internal: `text_in` reads whole lines with them. Which method a word names is in `method_word`.
#![tactic(auto)]

ghost use Rattle.std.specs.Prelude.{◌≡◌, [], ◌∷◌, ◌<◌, ◌≤◌, length, drop, MatchOption};
ghost use Rattle.form.specs.Form.{is_letter, is_digit};
ghost use Rattle.form.specs.Parse.{digit_of, read_pattern, run_of, skip, ending};
ghost use Rattle.fields_in.specs.Fields.{pattern_got, read_number, number_got, NumberSmall, read_setting, setting_got, skip_got};

// What a field says, and the place after it.
#[derive(Clone, Copy)]
pub struct Read<T> {
    pub value: T,
    pub next: usize,
}

// The value of a hexadecimal digit, or none where the byte is no such digit.
#[tactic(auto, using(std::proofs::lemmas::Bool::Decides::nat_tests), unfolding(form::specs::Parse::digit_of))]
pub fn digit(b: u8) -> Option<u32>
    ensures { MatchOption result (digit_of b ≡ 16) (λ d. (d ≡ digit_of b) × (d < 16)) }
{
    match b {
        b'0'..=b'9' => Some(u32::from(b - b'0')),
        b'A'..=b'F' => Some(u32::from(b - 55)),
        _ => None,
    }
}

// Eight digits from `at` on.
pub fn pattern_at(s: &[u8], at: usize) -> Option<u32>
    requires { at ≤ length s.now }
    ensures { read_pattern (drop at s.now) ≡ pattern_got s.now at result }
{
    let mut v = 0;
    for i in 0..8 {
        v = v * 16 + digit(*s.get(at + i)?)?;
    }
    Some(v)
}

// How many letters stand from `at` on, at most 16.
pub fn letters_at(s: &[u8], at: usize) -> usize
    requires { at ≤ length s.now }
    ensures { result ≡ length (run_of is_letter 16 (drop at s.now)) }
{
    s[at..]
        .iter()
        .take(16)
        .take_while(|b| b.is_ascii_lowercase())
        .count()
}

// How many decimal digits stand from `at` on, at most 4.
pub fn digits_at(s: &[u8], at: usize) -> usize
    requires { at ≤ length s.now }
    ensures { result ≡ length (run_of is_digit 4 (drop at s.now)) }
{
    s[at..]
        .iter()
        .take(4)
        .take_while(|b| b.is_ascii_digit())
        .count()
}

// A decimal number of 1 to 4 digits from `at` on.
pub fn number_at(s: &[u8], at: usize) -> Option<Read<u32>>
    requires { at ≤ length s.now }
    ensures s_value { read_number (drop at s.now) ≡ number_got s.now result }
    ensures number_small { NumberSmall result }
{
    let n = digits_at(s, at);
    if n == 0 {
        return None;
    }
    let mut value = 0;
    for b in &s[at..at + n] {
        value = value * 10 + u32::from(*b - b'0');
    }
    Some(Read {
        value,
        next: at + n,
    })
}

// A setting from `at` on: an optional minus, 1 to 4 digits.
pub fn setting_at(s: &[u8], at: usize) -> Option<Read<i32>>
    requires { at ≤ length s.now }
    ensures { read_setting (drop at s.now) ≡ setting_got s.now result }
{
    if s.get(at) == Some(&b'-') {
        let Read { value, next } = number_at(s, at + 1)?;
        return Some(Read {
            value: -(value as i32),
            next,
        });
    }
    let Read { value, next } = number_at(s, at)?;
    Some(Read {
        value: value as i32,
        next,
    })
}

// Is the byte at `at` the one that follows a field with `left` more on its line?
pub fn ending_at(s: &[u8], at: usize, left: usize) -> bool
    ensures { skip (ending left ∷ []) (drop at s.now) ≡ skip_got s.now at result }
{
    let ending = if left == 0 { b'\n' } else { b',' };
    s.get(at) == Some(&ending)
}
