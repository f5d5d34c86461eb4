// The first reading beyond a limit: the raw array beside the trimmed one, before the raw one is wiped. The questions first, then place by place until a place is beyond,
// and no further, so that the number of readings read is the one that the loop has counted.
#![tactic(auto)]

ghost use Rattle.std.specs.Prelude.{◌≡◌, ◌≢◌, ℕ, ◌+◌, ◌^◌, ◌<◌, MatchResult, length, map, get_or};
ghost use Rattle.meaning.specs.Comparing.{beyond, compared, first_beyond_singles, first_beyond_doubles};
ghost use Rattle.reading_pair.specs.Limit.{limit_for};
ghost use Rattle.beyond.specs.Answers.{found_of, answer_of, FirstTrue};

use method::Method;
use reading_pair::Near;
use refusal::Refusal;
use word::Word;

// What a comparison answers: the first place beyond the limit, where there is one, and how many readings of each array were read.
#[derive(Clone, Copy, Debug, PartialEq, Eq)]
pub struct Compared {
    pub place: Option<usize>,
    pub read: usize,
}

// Are two lengths the same?
fn ask_lengths(raw: usize, trimmed: usize) -> Result<(), Refusal>
    ensures { MatchResult result (λ _. raw ≡ trimmed) (λ refusal. (refusal ≡ Refusal.LengthsDiffer) × (raw ≢ trimmed)) }
{
    if raw != trimmed {
        return Err(Refusal::LengthsDiffer);
    }
    Ok(())
}

// The first of n places that is beyond, and how many were read: counted as they are read, and not told by the place or the length.
fn scan<F: Fn(usize) -> bool>(n: usize, beyond: F) -> Compared
    requires { (i : ℕ) → i < n → F.pre beyond i }
    ensures { FirstTrue (F.post beyond) n result }
{
    // A `while`: how many were read is what it counts. Beside a `for` the count is one number more, and the loop takes up to half as long again.
    let mut read: usize = 0;
    while read < n {
        let place = read;
        let found = beyond(place);
        read += 1;
        if found {
            return Compared {
                place: Some(place),
                read,
            };
        }
    }
    Compared { place: None, read }
}

// The first place of two arrays of one length where both readings are present and finite and lie more than 2^q least spacings apart.
fn first_beyond<W: Near>(raw: &[W], trimmed: &[W], mark: W, q: u32) -> Compared
    requires { (length raw.now ≡ length trimmed.now) × (q + 2 < 2 ^ W.EXPONENT + W.FRACTION) }
    ensures { found_of result ≡ compared W.FRACTION W.EXPONENT (W.value mark) q (map W.value raw.now) (map W.value trimmed.now) }
{
    let q = u64::from(q);
    let limit = reading_pair::limit_of(q);
    scan(
        raw.len(),
        |i: usize| -> bool
            requires { (i < length raw.now) × (length raw.now ≡ length trimmed.now) × (q + 2 < 2 ^ W.EXPONENT + W.FRACTION) × (W.value limit ≡ limit_for W.FRACTION q) }
            ensures { result ≡ beyond W.FRACTION W.EXPONENT (W.value mark) q (get_or (map W.value raw.entry.now) i 0) (get_or (map W.value trimmed.entry.now) i 0) }
        { reading_pair::is_beyond(raw[i], trimmed[i], mark, q, limit) },
    )
}

// The first place where the raw and the trimmed single are both present and finite and lie more than 2^p apart, exactly; or none. The mark means missing and is compared
// by its bits. Refused with 10 where the arrays differ in length, with 2 for a p that isn't -149 to 127.
pub fn first_beyond_singles(
    raw: &[u32],
    trimmed: &[u32],
    mark: u32,
    p: i32,
) -> Result<Compared, Refusal>
    ensures { answer_of result ≡ first_beyond_singles mark p raw.now trimmed.now }
{
    ask_lengths(raw.len(), trimmed.len())?;
    let asked = asking::ask_single(Method::Absolute.number(), p)?;
    Ok(first_beyond(raw, trimmed, mark, asked.number))
}

// The two calls differ by the question that they put, and by both widths in the clause: C calls each, and a generic one above them would be no plainer.
// The same of doubles; 2 for a p that isn't -1074 to 1023.
pub fn first_beyond_doubles(
    raw: &[u64],
    trimmed: &[u64],
    mark: u64,
    p: i32,
) -> Result<Compared, Refusal>
    ensures { answer_of result ≡ first_beyond_doubles mark p raw.now trimmed.now }
{
    ask_lengths(raw.len(), trimmed.len())?;
    let asked = asking::ask_double(Method::Absolute.number(), p)?;
    Ok(first_beyond(raw, trimmed, mark, asked.number))
}
