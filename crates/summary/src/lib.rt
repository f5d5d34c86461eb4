// A layer's summary: nothing present, one value throughout, or a smallest and a largest value. Internal: the call open to users is packing's.
#![tactic(auto)]

ghost use Rattle.std.specs.Prelude.{◌≡◌, cond, ◌≤◌, eqb};
ghost use Rattle.std.specs.Float.{binary32};
ghost use Rattle.std.specs.Float.Ieee.{to_bits};
ghost use Rattle.meaning.specs.Layers.{summary};
ghost use Rattle.summary.specs.Keys.{key, unkey, lowest, highest, between, Key};
ghost use Rattle.summary.specs.Summaries.{summary_of, Packable};

// The three kinds that the definitions have: none of them is the lack of another, so no `Option`. Each value is held as a single. A zero is +0.
#[derive(Clone, Copy)]
pub enum Summary {
    Nothing,
    Flat(f32),
    Spread(f32, f32),
}

// The smallest and the largest key of the present readings; the smallest is above the largest where none is present.
#[derive(Clone, Copy)]
pub struct Ends {
    pub low: u32,
    pub high: u32,
}

// A number in the order of the values, the same for both zeros.
#[tactic(auto, unfolding(crate::specs::Keys::key))]
fn key_of(reading: u32) -> u32
    ensures { result ≡ key reading }
{
    if reading < 0x8000_0000 {
        reading + 0x8000_0000
    } else {
        0x8000_0000 - (reading - 0x8000_0000)
    }
}

// The reading of a key.
#[tactic(auto, unfolding(crate::specs::Keys::unkey))]
fn reading_of(key: u32) -> u32
    requires { Key key }
    ensures { result ≡ unkey key }
{
    if key < 0x8000_0000 {
        (0x8000_0000 - key) + 0x8000_0000
    } else {
        key - 0x8000_0000
    }
}

// `yes` where a and b are equal, `no` where they differ. In a loop over readings this stands for an `if`: a proof reads it as one equation, and no branch is left.
pub fn choose(a: u32, b: u32, yes: u32, no: u32) -> u32
    ensures { result ≡ cond (eqb a b) yes no }
{
    if a == b { yes } else { no }
}

// The ends of a run of readings. A missing one counts for the last key at the low end and for the first at the high end, so that it plays no part.
fn ends_of(readings: &[u32], mark: u32) -> Ends
    ensures low { result.low ≡ lowest mark readings.now }
    ensures high { result.high ≡ highest mark readings.now }
{
    let mut low = u32::MAX;
    let mut high = 0;
    for reading in readings {
        let key = key_of(*reading);
        low = choose(*reading, mark, u32::MAX, key).min(low);
        high = choose(*reading, mark, 0, key).max(high);
    }
    Ends { low, high }
}

// The value of a key.
fn value_of(key: u32) -> f32
    requires { Key key }
    ensures { to_bits binary32 result ≡ unkey key }
{
    f32::from_bits(reading_of(key))
}

// The summary of two ends.
fn between_ends(ends: Ends) -> Summary
    requires { ends.low ≤ ends.high → Key ends.low × Key ends.high }
    ensures { summary_of result ≡ between ends.low ends.high }
{
    let Ends { low, high } = ends;
    if high < low {
        Summary::Nothing
    } else if low == high {
        Summary::Flat(value_of(low))
    } else {
        Summary::Spread(value_of(low), value_of(high))
    }
}

// The summary of a run of readings, each of them finite or missing.
pub fn summary_of(readings: &[u32], mark: u32) -> Summary
    requires { Packable mark readings.now }
    ensures { summary_of result ≡ summary 23 8 mark readings.now }
{
    between_ends(ends_of(readings, mark))
}
