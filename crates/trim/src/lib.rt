// Trims of arrays and of one single: the questions first, then the method's loop, then the answer.
#![tactic(auto)]

ghost use Rattle.std.specs.Prelude.{◌≡◌, ◌+◌, ◌-◌, ◌*◌, ◌^◌, ◌≤◌};
ghost use Rattle.refusal.specs.Refusals.{outcome_of};
ghost use Rattle.meaning.specs.Calls.{trim_singles, trim_doubles, loader};
ghost use Rattle.loops.specs.Tallies.{totals_of};
ghost use Rattle.trim.specs.Answers.{counts, counts_of};

use loops::Totals;
use reading::Trimmed;
use refusal::Refusal;

// What a trim answers: the places changed, spared, clipped and missing, and those whose exact value rose and fell.
#[derive(Clone, Copy, Debug, PartialEq, Eq)]
pub struct Counts {
    pub changed: u64,
    pub spared: u64,
    pub clipped: u64,
    pub missing: u64,
    pub risen: u64,
    pub fallen: u64,
}

// The counts of an accepted trim, by the sums over its array.
impl From<Totals> for Counts {
    ghost from_gives = { λ t c. counts c ≡ counts_of (totals_of t) };

    fn from(t: Totals) -> Counts {
        Counts {
            changed: t.changed,
            spared: t.marked.saturating_sub(t.missing),
            clipped: t.clipped,
            missing: t.missing,
            risen: t.risen,
            fallen: t.changed.saturating_sub(t.risen),
        }
    }
}

// Trims an array of singles in place by a method, 0 to 6, and its setting. The mark means missing and is compared by its bits. Answers the six counts, or the
// refusal's number: 1 for an unknown method, 2 for a setting out of its range; then the array is as it was.
pub fn trim_singles(
    readings: &mut [u32],
    method: u32,
    setting: i32,
    mark: u32,
) -> Result<Counts, Refusal>
    ensures answer { outcome_of counts result ≡ (trim_singles method setting mark readings.old).answer }
    ensures content { readings.new ≡ (trim_singles method setting mark readings.old).readings }
{
    let asked = asking::ask_single(method, setting)?;
    let sums = arrays::by_method(readings, asked.method, asked.number, mark);
    Ok(Counts::from(sums))
}

// The two array calls differ by each call that they make and by both widths in each clause: a generic one would be a closure for each line, and no plainer.
// Trims an array of doubles in place by a method, 0 to 6, and its setting. The mark means missing and is compared by its bits. Answers the six counts, or the
// refusal's number: 1 for an unknown method, 2 for a setting out of its range; then the array is as it was.
pub fn trim_doubles(
    readings: &mut [u64],
    method: u32,
    setting: i32,
    mark: u64,
) -> Result<Counts, Refusal>
    ensures answer { outcome_of counts result ≡ (trim_doubles method setting mark readings.old).answer }
    ensures content { readings.new ≡ (trim_doubles method setting mark readings.old).readings }
{
    let asked = asking::ask_double(method, setting)?;
    let sums = arrays::by_method(readings, asked.method, asked.number, mark);
    Ok(Counts::from(sums))
}

// What the loader's number gains: 2^33 where the exact value rose, 2^34 where it fell.
fn gain(one: Trimmed<u32>) -> u64
    requires { (one.risen ≤ one.changed) × (one.changed ≤ 1) }
    ensures value { result ≡ 2 ^ 33 * one.risen + 2 ^ 34 * (one.changed - one.risen) }
    ensures most { result ≤ 2 ^ 34 }
{
    let risen = u64::from(one.risen);
    let fallen = u64::from(one.changed - one.risen);
    0x2_0000_0000 * risen + 0x4_0000_0000 * fallen
}

// Trims one single as the array call would at a turn, with so many present finite readings before it, through numbers alone: the pattern that is left, with 2^33 added
// where the exact value rose and 2^34 where it fell, or 2^32 plus the refusal's number. Only the turn's parity matters.
// C's loader takes one number, so a refusal is a number here, and no `Err`.
pub fn trim_single(x: u32, method: u32, setting: i32, mark: u32, turn: u64) -> u64
    ensures { result ≡ loader method setting mark turn x }
{
    let asked = match asking::ask_single(method, setting) {
        Ok(asked) => asked,
        Err(refusal) => return 4294967296 + u64::from(refusal.number()),
    };
    let one = arrays::one_by_method(x, asked.method, asked.number, mark, turn);
    u64::from(one.pattern) + gain(one)
}
