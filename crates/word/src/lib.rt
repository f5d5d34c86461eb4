// The words that readings are stored in: of 32 bits for singles, of 64 for doubles. Whatever is done to an array, and to one reading (`one`), is written once, for every such
// word; only what differs by width stands in the two impls. Internal: the calls open to users are those of `trim` and `planes`.
#![tactic(auto)]

ghost use Rattle.std.specs.Prelude.{◌≡◌, ℕ, false, ◌+◌, ◌-◌, ◌/◌, ◌%◌, ◌^◌, ◌<◌, ◌≤◌, if◌then◌else◌, nat_eq, nat_lt};
ghost use Rattle.std.specs.Int.Bits.{bit_and, bit_xor};
ghost use Rattle.std.specs.Mem.{type_size};
ghost use Rattle.std.proofs.Common.{rules};
ghost use Rattle.meaning.specs.Readings.{sign, magnitude, infinity};
ghost use Rattle.meaning.specs.Methods.{round, absolute, digits, halfshaved, clips, new_magnitude};
ghost use Rattle.powers.specs.Table.{powers};
ghost use Rattle.reading.specs.Left.{unless_missing, left_from, settled_by, settled_tail, takes};
ghost use Rattle.reading.specs.Tails.{constants, TailOf};
ghost use Rattle.reading.specs.Words.{settled_at, constants_at};
ghost use Rattle.word.specs.Widths.{one_finite_single, one_finite_double};

use absolute::Coarse;
use reading::{Tail, Trimmed};

pub mod one;

// What is left of a reading by its new pattern: the new pattern, or the reading itself where it is missing; the pattern that is left, which is the reading too where the
// former is the mark; and what the reading loses by that, a difference that wraps around.
#[derive(Clone, Copy)]
pub struct Left<W> {
    pub wanted: W,
    pub pattern: W,
    pub lost: W,
}

pub trait Word: Copy + Drop {
    // How many bits its floats have for the fraction and for the exponent, and the most digits that they can keep.
    const FRACTION: u32;

    ghost FRACTION: { ℕ };

    ghost EXPONENT: { ℕ };

    ghost DIGITS: { ℕ };

    // The units of method 5, in least spacings, from and to which the float adder serves: 2^FINE to 2^COARSE.
    const FINE: u32;

    ghost FINE: { ℕ };

    const COARSE: u32;

    ghost COARSE: { ℕ };

    // The word as a number.
    ghost value: { Self → ℕ };

    // Zero, all of whose bits are 0.
    fn zero() -> Self
        ensures { value result ≡ 0 };

    fn one() -> Self
        ensures { value result ≡ 1 };

    // A number of 32 bits as a word. An impl may replace this body, and any other here that isn't `final`.
    fn of(n: u32) -> Self
        ensures { value result ≡ n }
    {
        Self::from_wide(u64::from(n))
    }

    // The word as a number of 64 bits.
    fn wide(self) -> u64
        ensures { result ≡ value self };

    // The word of such a number, where words have room for it: bit by bit.
    fn from_wide(n: u64) -> Self
        requires { n < 2 ^ (FRACTION + EXPONENT + 1) }
        ensures { value result ≡ n }
    {
        let mut word = Self::zero();
        for t in 0..64 {
            if (n >> t) % 2 == 1 {
                word = word.sum(Self::unit(t));
            }
        }
        word
    }

    fn and(self, other: Self) -> Self
        ensures { value result ≡ bit_and (value self) (value other) };

    fn xor(self, other: Self) -> Self
        ensures { value result ≡ bit_xor (value self) (value other) };

    // `yes` where the two are equal, `no` where they differ. Both are there before one is chosen, so that a loop over this has no branch.
    fn choose(self, other: Self, yes: Self, no: Self) -> Self
        ensures { value result ≡ (if nat_eq (value self) (value other) then value yes else value no) };

    // 2^t, and the word by that.
    fn unit(t: u32) -> Self
        requires { t ≤ FRACTION + EXPONENT }
        ensures { value result ≡ 2 ^ t };

    fn shifted(self, t: u32) -> Self
        requires { t ≤ FRACTION + EXPONENT }
        ensures { value result ≡ value self / 2 ^ t };

    fn sum(self, more: Self) -> Self
        requires { value self + value more < 2 ^ (FRACTION + EXPONENT + 1) }
        ensures { value result ≡ value self + value more };

    fn minus(self, less: Self) -> Self
        requires { value less ≤ value self }
        ensures { value result ≡ value self - value less };

    fn wrapping_add(self, more: Self) -> Self
        ensures { value result ≡ (value self + value more) % 2 ^ (FRACTION + EXPONENT + 1) };

    fn wrapping_sub(self, less: Self) -> Self
        ensures { value result ≡ (value self + (2 ^ (FRACTION + EXPONENT + 1) - value less)) % 2 ^ (FRACTION + EXPONENT + 1) };

    // The sign of a reading, and its magnitude. A word has one bit more than its magnitudes.
    fn sign(self) -> Self
        ensures { value result ≡ sign FRACTION EXPONENT (value self) };

    fn magnitude(self) -> Self
        ensures value { value result ≡ magnitude FRACTION EXPONENT (value self) }
        ensures room { value self < 2 ^ (FRACTION + EXPONENT + 1) };

    // `yes` where this is a finite magnitude, `no` where it isn't.
    fn finite(self, yes: Self, no: Self) -> Self
        ensures { value result ≡ (if nat_lt (value self) (infinity FRACTION EXPONENT) then value yes else value no) };

    // What is left of a reading whose new pattern would be `new`.
    fn left(self, new: Self, mark: Self) -> Left<Self>
        ensures wanted { value result.wanted ≡ unless_missing (value mark) (value self) (value new) }
        ensures pattern { value result.pattern ≡ left_from (value mark) (value self) (value new) }
        ensures lost { (value result.lost + value result.pattern) % 2 ^ (FRACTION + EXPONENT + 1) ≡ value self }
        ensures room { (value self < 2 ^ (FRACTION + EXPONENT + 1)) × (value result.pattern < 2 ^ (FRACTION + EXPONENT + 1)) × (value result.lost < 2 ^ (FRACTION + EXPONENT + 1)) };

    // The new magnitude of a finite one by method 5 with the unit 2^q, by the float adder.
    fn added_step(self, q: u32) -> Self
        requires { (value self < infinity FRACTION EXPONENT) × (FINE ≤ q) × (q ≤ COARSE) }
        ensures magnitude { value result ≡ new_magnitude FRACTION EXPONENT (absolute q) 0 (value self) }
        ensures unclipped { clips FRACTION EXPONENT (absolute q) (value self) ≡ false };

    // The same with any unit.
    fn step(self, q: u32) -> Coarse<Self>
        requires { value self < infinity FRACTION EXPONENT }
        ensures magnitude { value result.magnitude ≡ new_magnitude FRACTION EXPONENT (absolute q) 0 (value self) }
        ensures clipped { value result.clipped ≡ (if clips FRACTION EXPONENT (absolute q) (value self) then 1 else 0) }
    {
        self.any_step(Self::of(q))
    }

    // The same with any unit, whose q is a word too: by numbers of 64 bits.
    fn any_step(self, q: Self) -> Coarse<Self>
        requires { value self < infinity FRACTION EXPONENT }
        ensures magnitude { value result.magnitude ≡ new_magnitude FRACTION EXPONENT (absolute (value q)) 0 (value self) }
        ensures clipped { value result.clipped ≡ (if clips FRACTION EXPONENT (absolute (value q)) (value self) then 1 else 0) }
    {
        // infinity is what a word of ones has left without its sign and its fraction
        let ones = Self::zero().wrapping_sub(Self::one()).wide();
        let fraction = Self::unit(Self::FRACTION).wide() - 1;
        let step = absolute::coarse_step(
            u64::from(Self::FRACTION),
            ones / 2 - fraction,
            self.wide(),
            q.wide(),
        );
        Coarse {
            magnitude: Self::from_wide(step.magnitude),
            clipped: Self::from_wide(step.clipped),
        }
    }

    // How many bits of a finite magnitude that is not zero are its tail by method 6 with n digits.
    fn digits_tail(self, table: &[u64; 633], n: u32) -> u32
        requires { (0 < value self) × (value self < infinity FRACTION EXPONENT) × (1 ≤ n) × (n ≤ DIGITS) × (table.now ≡ powers) }
        ensures { (result ≤ FRACTION) × (new_magnitude FRACTION EXPONENT (digits n) 0 (value self) ≡ halfshaved result (value self)) };

    // The bit of row r.
    final fn bit(r: u32) -> Self
        requires { r ≤ 31 }
        ensures { value result ≡ 2 ^ r }
    {
        Self::unit(r)
    }

    // `bit` where a reading takes a turn when an array is groomed; 0 where it is missing or isn't finite.
    final fn turn(self, bit: Self, mark: Self) -> Self
        ensures { value result ≡ takes FRACTION EXPONENT (value bit) (value mark) (value self) }
    {
        one::turn(self, bit, mark)
    }

    // The tail under k keep bits.
    final fn tail_of(k: u32) -> Tail<Self>
        requires { k ≤ FRACTION }
        ensures { constants_at value result ≡ constants FRACTION k }
    {
        one::tail_of(k)
    }

    // Methods 0 to 3: the tail becomes `add`, and zero stays.
    final fn with_tail(self, tail: Tail<Self>, add: Self, mark: Self) -> Trimmed<Self>
        requires { (TailOf FRACTION (constants_at value tail)) × (value add ≤ value tail.ones) }
        ensures { settled_at value result ≡ settled_tail FRACTION EXPONENT tail.bits (value add) (value mark) (value self) }
    {
        one::with_tail(self, tail, add, mark)
    }

    // Method 4 with a tail, not none.
    final fn rounded(self, tail: Tail<Self>, mark: Self) -> Trimmed<Self>
        requires { (TailOf FRACTION (constants_at value tail)) × (1 ≤ tail.bits) }
        ensures { settled_at value result ≡ settled_by FRACTION EXPONENT (round (FRACTION - tail.bits)) (value mark) 0 (value self) }
    {
        one::rounded(self, tail, mark)
    }

    // Method 5 with the unit 2^q, for the units that the float adder serves.
    final fn stepped(self, q: u32, mark: Self) -> Trimmed<Self>
        requires { (FINE ≤ q) × (q ≤ COARSE) }
        ensures { settled_at value result ≡ settled_by FRACTION EXPONENT (absolute q) (value mark) 0 (value self) }
    {
        one::stepped(self, q, mark)
    }

    // Method 5 with any unit.
    final fn stepped_by_words(self, q: Self, mark: Self) -> Trimmed<Self>
        ensures { settled_at value result ≡ settled_by FRACTION EXPONENT (absolute (value q)) (value mark) 0 (value self) }
    {
        one::stepped_by_words(self, q, mark)
    }

    // Method 6 with n digits, by the table of the powers of ten.
    final fn with_digits(self, table: &[u64; 633], n: u32, mark: Self) -> Trimmed<Self>
        requires { ((1 ≤ n) × (n ≤ DIGITS)) × (table.now ≡ powers) }
        ensures { settled_at value result ≡ settled_by FRACTION EXPONENT (digits n) (value mark) 0 (value self) }
    {
        one::with_digits(self, table, n, mark)
    }

    // A word has at least 32 bits, and at most 8 bytes, so that an array of 513 of them may be lent. One is a finite magnitude.
    ghost bits: { 31 ≤ FRACTION + EXPONENT };

    ghost narrow: { type_size Self.row ≤ 8 };

    ghost one_finite: { 1 < infinity FRACTION EXPONENT };
}

// The two impls say the same operators of two types: each is one line, and no macro may write an impl.
impl Word for u32 {
    const FRACTION: u32 = 23;

    ghost FRACTION = { 23 };

    ghost EXPONENT = { 8 };

    ghost DIGITS = { 7 };

    const FINE: u32 = 24;

    ghost FINE = { 24 };

    const COARSE: u32 = 252;

    ghost COARSE = { 252 };

    ghost value = { λ w. w };

    ghost bits = { Prim.search rules };

    ghost narrow = { Prim.search rules };

    ghost one_finite = { one_finite_single };

    fn zero() -> Self {
        0
    }

    fn one() -> Self {
        1
    }

    fn of(n: u32) -> Self {
        n
    }

    fn wide(self) -> u64 {
        u64::from(self)
    }

    fn and(self, other: Self) -> Self {
        self & other
    }

    fn xor(self, other: Self) -> Self {
        self ^ other
    }

    fn choose(self, other: Self, yes: Self, no: Self) -> Self {
        if self == other { yes } else { no }
    }

    fn unit(t: u32) -> Self {
        1u32 << t
    }

    fn shifted(self, t: u32) -> Self {
        self >> t
    }

    fn sum(self, more: Self) -> Self {
        self + more
    }

    fn minus(self, less: Self) -> Self {
        self - less
    }

    fn wrapping_add(self, more: Self) -> Self {
        std::num::wrapping_add_u32(self, more)
    }

    fn wrapping_sub(self, less: Self) -> Self {
        std::num::wrapping_sub_u32(self, less)
    }

    fn sign(self) -> Self {
        self >> 31
    }

    fn magnitude(self) -> Self {
        self % 0x8000_0000
    }

    fn finite(self, yes: Self, no: Self) -> Self {
        if self < 0x7f80_0000 { yes } else { no }
    }

    // The patterns come from what the reading loses too: the loops over singles are faster so than by a choice between patterns, as doubles have it.
    fn left(self, new: Self, mark: Self) -> Left<Self> {
        let loses = self.choose(mark, 0, std::num::wrapping_sub_u32(self, new));
        let wanted = std::num::wrapping_sub_u32(self, loses);
        let lost = wanted.choose(mark, 0, loses);
        let pattern = std::num::wrapping_sub_u32(self, lost);
        Left {
            wanted,
            pattern,
            lost,
        }
    }

    fn added_step(self, q: u32) -> Self {
        absolute::fine_single(self, q)
    }

    fn any_step(self, q: Self) -> Coarse<Self> {
        absolute::coarse_single(self, q)
    }

    fn digits_tail(self, table: &[u64; 633], n: u32) -> u32 {
        digit_tails::single_tail(table, self, n)
    }
}

impl Word for u64 {
    const FRACTION: u32 = 52;

    ghost FRACTION = { 52 };

    ghost EXPONENT = { 11 };

    ghost DIGITS = { 15 };

    const FINE: u32 = 53;

    ghost FINE = { 53 };

    const COARSE: u32 = 2044;

    ghost COARSE = { 2044 };

    ghost value = { λ w. w };

    ghost bits = { Prim.search rules };

    ghost narrow = { Prim.search rules };

    ghost one_finite = { one_finite_double };

    fn zero() -> Self {
        0
    }

    fn one() -> Self {
        1
    }

    fn of(n: u32) -> Self {
        u64::from(n)
    }

    fn wide(self) -> u64 {
        self
    }

    fn and(self, other: Self) -> Self {
        self & other
    }

    fn xor(self, other: Self) -> Self {
        self ^ other
    }

    fn choose(self, other: Self, yes: Self, no: Self) -> Self {
        if self == other { yes } else { no }
    }

    fn unit(t: u32) -> Self {
        1u64 << t
    }

    fn shifted(self, t: u32) -> Self {
        self >> t
    }

    fn sum(self, more: Self) -> Self {
        self + more
    }

    fn minus(self, less: Self) -> Self {
        self - less
    }

    fn wrapping_add(self, more: Self) -> Self {
        std::num::wrapping_add_u64(self, more)
    }

    fn wrapping_sub(self, less: Self) -> Self {
        std::num::wrapping_sub_u64(self, less)
    }

    fn sign(self) -> Self {
        self >> 63
    }

    fn magnitude(self) -> Self {
        self % 0x8000_0000_0000_0000
    }

    fn finite(self, yes: Self, no: Self) -> Self {
        if self < 0x7ff0_0000_0000_0000 {
            yes
        } else {
            no
        }
    }

    fn left(self, new: Self, mark: Self) -> Left<Self> {
        let wanted = self.choose(mark, self, new);
        let pattern = wanted.choose(mark, self, wanted);
        Left {
            wanted,
            pattern,
            lost: std::num::wrapping_sub_u64(self, pattern),
        }
    }

    fn added_step(self, q: u32) -> Self {
        absolute::fine_double(self, u64::from(q))
    }

    fn any_step(self, q: Self) -> Coarse<Self> {
        absolute::coarse_double(self, q)
    }

    fn digits_tail(self, table: &[u64; 633], n: u32) -> u32 {
        digit_tails::double_tail(table, self, n)
    }
}
