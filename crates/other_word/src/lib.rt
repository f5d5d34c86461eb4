// A word that another crate brings: a double's pattern in a struct of its own, with u64's operators. It has what `Word` asks of an impl and nothing else, so what `Word` has
// a body for runs as it stands there. And callers of `Word`, for every such word. Internal: in no program; the proof shows that this can be written, and the tests run it.
#![tactic(auto)]

ghost use Rattle.std.specs.Prelude.{◌≡◌, ◌<◌, if◌then◌else◌};
ghost use Rattle.std.proofs.Common.{rules};
ghost use Rattle.meaning.specs.Readings.{infinity};
ghost use Rattle.meaning.specs.Methods.{absolute, clips, new_magnitude};
ghost use Rattle.reading.specs.Left.{settled_by};
ghost use Rattle.reading.specs.Words.{settled_at};
ghost use Rattle.word.specs.Widths.{one_finite_double};

use absolute::Coarse;
use reading::Trimmed;
use word::{Left, Word};

#[derive(Clone, Copy)]
pub struct Own(pub u64);

impl Word for Own {
    const FRACTION: u32 = 52;

    ghost FRACTION = { 52 };

    ghost EXPONENT = { 11 };

    ghost DIGITS = { 15 };

    const FINE: u32 = 53;

    ghost FINE = { 53 };

    const COARSE: u32 = 2044;

    ghost COARSE = { 2044 };

    ghost value = { λ w. w.0 };

    ghost bits = { Prim.search rules };

    ghost narrow = { Prim.search rules };

    ghost one_finite = { one_finite_double };

    fn zero() -> Self {
        Own(0)
    }

    fn one() -> Self {
        Own(1)
    }

    fn wide(self) -> u64 {
        self.0
    }

    fn and(self, other: Self) -> Self {
        Own(self.0.and(other.0))
    }

    fn xor(self, other: Self) -> Self {
        Own(self.0.xor(other.0))
    }

    fn choose(self, other: Self, yes: Self, no: Self) -> Self {
        Own(self.0.choose(other.0, yes.0, no.0))
    }

    fn unit(t: u32) -> Self {
        Own(u64::unit(t))
    }

    fn shifted(self, t: u32) -> Self {
        Own(self.0.shifted(t))
    }

    fn sum(self, more: Self) -> Self {
        Own(self.0.sum(more.0))
    }

    fn minus(self, less: Self) -> Self {
        Own(self.0.minus(less.0))
    }

    fn wrapping_add(self, more: Self) -> Self {
        Own(Word::wrapping_add(self.0, more.0))
    }

    fn wrapping_sub(self, less: Self) -> Self {
        Own(Word::wrapping_sub(self.0, less.0))
    }

    fn sign(self) -> Self {
        Own(self.0.sign())
    }

    fn magnitude(self) -> Self {
        Own(self.0.magnitude())
    }

    fn finite(self, yes: Self, no: Self) -> Self {
        Own(self.0.finite(yes.0, no.0))
    }

    fn left(self, new: Self, mark: Self) -> Left<Self> {
        let left = self.0.left(new.0, mark.0);
        Left {
            wanted: Own(left.wanted),
            pattern: Own(left.pattern),
            lost: Own(left.lost),
        }
    }

    fn added_step(self, q: u32) -> Self {
        Own(self.0.added_step(q))
    }

    fn digits_tail(self, table: &[u64; 633], n: u32) -> u32 {
        self.0.digits_tail(table, n)
    }
}

// Method 5 with any unit 2^q on one reading, whose q is a number of 32 bits for every width.
pub fn by_words<W: Word>(x: W, q: u32, mark: W) -> Trimmed<W>
    ensures { settled_at W.value result ≡ settled_by W.FRACTION W.EXPONENT (absolute q) (W.value mark) 0 (W.value x) }
{
    word::one::stepped_by_words(x, W::of(q), mark)
}

// The same by the trait's method.
pub fn by_method<W: Word>(x: W, q: u32, mark: W) -> Trimmed<W>
    ensures { settled_at W.value result ≡ settled_by W.FRACTION W.EXPONENT (absolute q) (W.value mark) 0 (W.value x) }
{
    x.stepped_by_words(W::of(q), mark)
}

// And the step on a finite magnitude.
pub fn step_of<W: Word>(a: W, q: u32) -> Coarse<W>
    requires { W.value a < infinity W.FRACTION W.EXPONENT }
    ensures magnitude { W.value result.magnitude ≡ new_magnitude W.FRACTION W.EXPONENT (absolute q) 0 (W.value a) }
    ensures clipped { W.value result.clipped ≡ (if clips W.FRACTION W.EXPONENT (absolute q) (W.value a) then 1 else 0) }
{
    a.step(q)
}

// Beside values that exact fractions gave. The unit is 2^q least spacings: 1 is q = 1074 for doubles, q = 149 for singles.
#[cfg(test)]
mod tests {
    use super::*;

    fn told<W: Word>(step: Coarse<W>) -> [u64; 2] {
        [step.magnitude.wide(), step.clipped.wide()]
    }

    #[test]
    #[tactic(auto, unfolding(meaning::specs::Readings::infinity))]
    fn steps(rt: HostRuntime) {
        let doubles: [(u64, u32, u64, u64); 16] = [
            // 2.5 and 3.5 by 1: ties, to the even 2 and 4
            (0x4004_0000_0000_0000, 1074, 0x4000_0000_0000_0000, 0),
            (0x400c_0000_0000_0000, 1074, 0x4010_0000_0000_0000, 0),
            // 0.3 by 1/8
            (0x3fd3_3333_3333_3333, 1071, 0x3fd0_0000_0000_0000, 0),
            // zero by the largest unit
            (0x0000_0000_0000_0000, 4294967295, 0x0000_0000_0000_0000, 0),
            // the least number by itself, and by twice that: a tie, to 0
            (0x0000_0000_0000_0001, 0, 0x0000_0000_0000_0001, 0),
            (0x0000_0000_0000_0001, 1, 0x0000_0000_0000_0000, 0),
            // the largest subnormal number by two: a tie, to the least normal one
            (0x000f_ffff_ffff_ffff, 1, 0x0010_0000_0000_0000, 0),
            // the least normal number, half a unit: a tie, to 0; and the next
            (0x0010_0000_0000_0000, 53, 0x0000_0000_0000_0000, 0),
            (0x0010_0000_0000_0001, 53, 0x0020_0000_0000_0000, 0),
            // the largest by its spacing, by twice that, and by its binade: the last two clip
            (0x7fef_ffff_ffff_ffff, 2045, 0x7fef_ffff_ffff_ffff, 0),
            (0x7fef_ffff_ffff_ffff, 2046, 0x7fef_ffff_ffff_fffe, 1),
            (0x7fef_ffff_ffff_ffff, 2097, 0x7fe0_0000_0000_0000, 1),
            // and by the first power of two that is not finite, and the next: it is less than half of that
            (0x7fef_ffff_ffff_ffff, 2098, 0x0000_0000_0000_0000, 1),
            (0x7fef_ffff_ffff_ffff, 2099, 0x0000_0000_0000_0000, 0),
            // q is more than its last 16 bits: they are 1074
            (0x4004_0000_0000_0000, 66610, 0x0000_0000_0000_0000, 0),
            (0x7fef_ffff_ffff_ffff, 2147483648, 0x0000_0000_0000_0000, 0),
        ];
        for (m, q, magnitude, clipped) in doubles {
            assert!(rt; m < 0x7ff0_0000_0000_0000);
            let want = [magnitude, clipped];
            assert_eq!(rt; told(m.step(q)), want, "u64 at {m} by {q}");
            assert_eq!(rt; told(step_of(m, q)), want, "step_of, u64 at {m} by {q}");
            assert_eq!(rt; told(Own(m).step(q)), want, "Own at {m} by {q}");
            assert_eq!(rt;
                told(step_of(Own(m), q)),
                want,
                "step_of, Own at {m} by {q}"
            );
        }

        let singles: [(u32, u32, u64, u64); 8] = [
            // 2.5 and 3.5 by 1: ties, to the even 2 and 4
            (0x4020_0000, 149, 0x4000_0000, 0),
            (0x4060_0000, 149, 0x4080_0000, 0),
            // the least number by twice itself: a tie, to 0
            (0x0000_0001, 1, 0x0000_0000, 0),
            // the largest by its spacing, by twice that, and by its binade: the last two clip
            (0x7f7f_ffff, 253, 0x7f7f_ffff, 0),
            (0x7f7f_ffff, 254, 0x7f7f_fffe, 1),
            (0x7f7f_ffff, 276, 0x7f00_0000, 1),
            // and by the first power of two that is not finite, and the largest unit
            (0x7f7f_ffff, 277, 0x0000_0000, 1),
            (0x7f7f_ffff, 4294967295, 0x0000_0000, 0),
        ];
        for (m, q, magnitude, clipped) in singles {
            assert!(rt; m < 0x7f80_0000);
            let want = [magnitude, clipped];
            assert_eq!(rt; told(m.step(q)), want, "u32 at {m} by {q}");
            assert_eq!(rt; told(step_of(m, q)), want, "step_of, u32 at {m} by {q}");
        }
    }

    // A q that no number of 32 bits holds: its last 32 bits are 1074.
    #[test]
    #[tactic(auto, unfolding(meaning::specs::Readings::infinity))]
    fn unit_of_64_bits(rt: HostRuntime) {
        let q = 0x1_0000_0432;
        let m = 0x4004_0000_0000_0000;
        assert_eq!(rt; told(m.any_step(q)), [0, 0]);
        assert_eq!(rt; told(Own(m).any_step(Own(q))), [0, 0]);
        assert_eq!(rt;
            told(Own(m).any_step(Own(1074))),
            [0x4000_0000_0000_0000, 0]
        );
    }

    // -2.5 by 1 becomes -2, and rises; where -2 is the mark it stays, and where it is the mark itself it is missing.
    #[test]
    fn trims(rt: HostRuntime) {
        let x = 0xc004_0000_0000_0000;
        let two = 0xc000_0000_0000_0000;
        for (mark, pattern, risen) in [(0, two, 1), (two, x, 0), (x, x, 0)] {
            let want = [pattern, risen];
            for left in [by_words(x, 1074, mark), by_method(x, 1074, mark)] {
                assert_eq!(rt; [left.pattern, left.risen], want, "u64, mark {mark}");
            }
            let own = Own(mark);
            for left in [by_words(Own(x), 1074, own), by_method(Own(x), 1074, own)] {
                assert_eq!(rt; [left.pattern.0, left.risen.0], want, "Own, mark {mark}");
            }
        }
    }
}
