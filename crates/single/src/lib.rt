// What singles alone have: which of them are subnormal, and method 6 by the tables of the exponent fields. What is done to a reading of either width is `word::one`.
// Everything is computed first and chosen last, so that a loop over these functions has no branch on the data. Internal: the calls open to users are those of `trim`.
#![tactic(auto)]

ghost use Rattle.std.specs.Prelude.{◌≡◌, ◌≤◌, if◌then◌else◌, nat_lt};
ghost use Rattle.meaning.specs.Methods.{digits};
ghost use Rattle.digit_tables.specs.Fields.{Limits, Masks};
ghost use Rattle.reading.specs.Left.{settled_by};
ghost use Rattle.reading.specs.Words.{settled_of};
ghost use Rattle.single.specs.Left.{subnormal};

use reading::Trimmed;
use word::one;

// 1 where a single is subnormal and not zero, 0 elsewhere.
pub fn subnormal_single(x: u32) -> u32
    ensures { result ≡ subnormal 23 8 x }
{
    let m = x % 0x8000_0000;
    if m == 0 {
        return 0;
    }
    if m < 0x80_0000 { 1 } else { 0 }
}

// 0 where m is below the limit, 1 elsewhere.
fn decade_single(m: u32, limit: u32) -> usize
    ensures { result ≡ (if nat_lt m limit then 0 else 1) }
{
    if m < limit { 0 } else { 1 }
}

// Method 6 with n digits on a single that isn't subnormal, by the tables of the exponent fields: the limit says which mask, and the mask's bits become a one and zeros.
pub fn field_single(
    limits: &[u32; 256],
    masks: &[u32; 512],
    x: u32,
    n: u32,
    mark: u32,
) -> Trimmed<u32>
    requires { ((1 ≤ n) × (n ≤ 7)) × (Limits limits.now) × (Masks n masks.now) × (subnormal 23 8 x ≡ 0) }
    ensures { settled_of result ≡ settled_by 23 8 (digits n) mark 0 x }
{
    let m = x % 0x8000_0000;
    let f = (m >> 23) as usize;
    let s = decade_single(m, limits[f]);
    let ones = masks[f * 2 + s];
    let z = x - (m & ones) + (ones + 1) / 2;
    one::settle(x, z, 0, mark)
}
