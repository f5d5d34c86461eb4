// Arrays of numbers and arrays of their halves: the low or the high halves of numbers, and numbers joined from their halves. A byte is half of 16 bits, these are half of 32, and
// those half of 64. Halving is what the machine does best with 16 bytes at once: to cut the bytes straight out of a wider number takes 1.4 to 2.2 times as long. Internal: the calls
// open to users are those of `planes`.
#![tactic(auto)]

ghost use Rattle.std.specs.Prelude.{◌≡◌, ◌+◌, ◌*◌, ◌/◌, ◌%◌, ◌^◌, ◌≤◌, ℕ, length};
ghost use mathlib.Core.List.{map, zip_with};
ghost use Rattle.std.proofs.Math.Nat.{le-add_right};

// A number of some bytes, which contracts read as a natural number.
pub trait Number: Copy {
    ghost value: { Self → ℕ };

    ghost BYTES: { ℕ };

    // At most eight: the number of their bits is a u32.
    ghost few_bytes: { BYTES ≤ 8 };

    const BYTES: usize;
}

impl Number for u8 {
    ghost value = { λ x. x };

    ghost BYTES = { 1 };

    ghost few_bytes = { le-add_right 1 7 };

    const BYTES: usize = 1;
}

impl Number for u16 {
    ghost value = { λ x. x };

    ghost BYTES = { 2 };

    ghost few_bytes = { le-add_right 2 6 };

    const BYTES: usize = 2;
}

impl Number for u32 {
    ghost value = { λ x. x };

    ghost BYTES = { 4 };

    ghost few_bytes = { le-add_right 4 4 };

    const BYTES: usize = 4;
}

impl Number for u64 {
    ghost value = { λ x. x };

    ghost BYTES = { 8 };

    ghost few_bytes = { le-add_right 8 0 };

    const BYTES: usize = 8;
}

// A number of two halves.
pub trait Halves<Half: Number>: Number {
    // The half of a number that starts at this bit, the low one at 0.
    fn half(self, shift: u32) -> Half
        requires { shift ≤ 8 * Half.BYTES }
        ensures { Half.value result ≡ Self.value self / 2 ^ shift % 256 ^ Half.BYTES };

    // A number of its low and its high half.
    fn joined(low: Half, high: Half) -> Self
        ensures { Self.value result ≡ Half.value low + 256 ^ Half.BYTES * Half.value high };
}

impl Halves<u8> for u16 {
    fn half(self, shift: u32) -> u8 {
        ((self >> shift) % 256) as u8
    }

    fn joined(low: u8, high: u8) -> u16 {
        u16::from(low) + 256 * u16::from(high)
    }
}

impl Halves<u16> for u32 {
    fn half(self, shift: u32) -> u16 {
        ((self >> shift) % 65536) as u16
    }

    fn joined(low: u16, high: u16) -> u32 {
        u32::from(low) + 65536 * u32::from(high)
    }
}

impl Halves<u32> for u64 {
    fn half(self, shift: u32) -> u32 {
        ((self >> shift) % 4294967296) as u32
    }

    fn joined(low: u32, high: u32) -> u64 {
        u64::from(low) + 4294967296 * u64::from(high)
    }
}

// The halves of numbers that start at this bit.
pub fn cut<Half: Number, Whole: Halves<Half>>(numbers: &[Whole], shift: u32, halves: &mut [Half])
    requires { (shift ≤ 8 * Half.BYTES) × (length numbers.now ≡ length halves.old) }
    ensures { map Half.value halves.new ≡ map (λ w. Whole.value w / 2 ^ shift % 256 ^ Half.BYTES) numbers.now }
{
    // No `zip`: after an adapter of `iter_mut` a proof knows no element that was written.
    for (i, half) in halves.iter_mut().enumerate() {
        *half = numbers[i].half(shift);
    }
}

// The numbers of their low and their high halves.
pub fn join<Half: Number, Whole: Halves<Half>>(low: &[Half], high: &[Half], numbers: &mut [Whole])
    requires { (length low.now ≡ length numbers.old) × (length high.now ≡ length numbers.old) }
    ensures { map Whole.value numbers.new ≡ zip_with (λ l h. Half.value l + 256 ^ Half.BYTES * Half.value h) low.now high.now }
{
    // No `zip`, as in `cut`.
    for (i, number) in numbers.iter_mut().enumerate() {
        *number = Whole::joined(low[i], high[i]);
    }
}
