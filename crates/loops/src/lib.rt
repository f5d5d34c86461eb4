// The sums that a loop over readings gathers. Internal: the calls open to users are those of `trim`.
#![tactic(auto)]

ghost use Rattle.std.specs.Prelude.{◌≡◌, ◌+◌, ◌-◌, ◌^◌};
ghost use Rattle.reading.specs.Words.{settled_at};
ghost use Rattle.loops.specs.Tallies.{none, plus, Few, sums_at, totals_of};

use reading::Trimmed;
use word::Word;

// Places changed, places where the reading or its result is the mark, places clipped, places missing, places where the exact value rose. Over a part of up to 65,536 readings the
// counters are as narrow as a reading, so that LLVM can work on four singles at once.
#[derive(Clone, Copy)]
pub struct Sums<C> {
    pub changed: C,
    pub marked: C,
    pub clipped: C,
    pub missing: C,
    pub risen: C,
}

// The sums over a whole array.
pub type Totals = Sums<u64>;

impl<W: Word> Sums<W> {
    // Of no reading.
    pub fn new() -> Self
        ensures { sums_at W.value result ≡ none }
    {
        Self {
            changed: W::zero(),
            marked: W::zero(),
            clipped: W::zero(),
            missing: W::zero(),
            risen: W::zero(),
        }
    }

    // With one reading more.
    pub fn plus(self, one: Trimmed<W>) -> Self
        requires { Few (plus (sums_at W.value self) (settled_at W.value one).tally) (2 ^ (W.FRACTION + W.EXPONENT + 1) - 1) }
        ensures { sums_at W.value result ≡ plus (sums_at W.value self) (settled_at W.value one).tally }
    {
        Self {
            changed: self.changed.sum(one.changed),
            marked: self.marked.sum(one.marked),
            clipped: self.clipped.sum(one.clipped),
            missing: self.missing.sum(one.missing),
            risen: self.risen.sum(one.risen),
        }
    }
}

impl Sums<u64> {
    // With those of a part.
    pub fn join<W: Word>(self, part: Sums<W>) -> Self
        requires { Few (plus (totals_of self) (sums_at W.value part)) 0xffff_ffff_ffff_ffff }
        ensures { totals_of result ≡ plus (totals_of self) (sums_at W.value part) }
    {
        Self {
            changed: self.changed + part.changed.wide(),
            marked: self.marked + part.marked.wide(),
            clipped: self.clipped + part.clipped.wide(),
            missing: self.missing + part.missing.wide(),
            risen: self.risen + part.risen.wide(),
        }
    }
}
