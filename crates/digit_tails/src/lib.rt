// Method 6 of document 01, digits: how many last bits of a reading the method changes. A table of the powers of ten gives the decade of the reading's size;
// the step, a power of two, follows from the decade, and the tail is what the step has above the reading's spacing. Internal: the calls open to users are those of `trim`.
#![tactic(auto)]

ghost use Rattle.std.specs.Prelude.{◌≡◌, ◌+◌, ◌-◌, ◌*◌, ◌^◌, ◌<◌, ◌≤◌};
ghost use Rattle.meaning.specs.Readings.{size, least_exp};
ghost use Rattle.meaning.specs.Methods.{digits, decade, new_magnitude, halfshaved};
ghost use Rattle.powers.specs.Table.{powers};
ghost use Rattle.digit_tails.specs.Step.{step_exponent};

// The place in the table of the last power of ten that is not above a subnormal double.
fn subnormal_place(table: &[u64; 633], m: u64) -> usize
    requires { (0 < m) × (m < 0x0010_0000_0000_0000) × (table.now ≡ powers) }
    ensures { (result ≤ 632) × (decade 52 11 m ≡ result + 751) }
{
    // Down from the largest, which most are near. `partition_point` in its place made the method a fifth slower on all doubles.
    let mut r: usize = 16;
    while m < table[r] {
        r -= 1;
    }
    r
}

// The place in the table of the last power of ten that is not above a double. Its exponent field leaves two places, and one look at the table decides.
fn decade_place(table: &[u64; 633], m: u64) -> usize
    requires { (0 < m) × (m < 0x7ff0_0000_0000_0000) × (table.now ≡ powers) }
    ensures { (result ≤ 632) × (decade 52 11 m ≡ result + 751) }
{
    let e = m >> 52;
    if e == 0 {
        return subnormal_place(table, m);
    }
    let r = ((e * 77 + 4100) >> 8) as usize;
    if table[r + 1] <= m {
        return r + 1;
    }
    r
}

// The exponent of the largest power of two that is not above 10^(i - 323), counted from that of the least double.
pub fn step_exponent(i: usize) -> u32
    requires { i ≤ 632 }
    ensures is { result ≡ step_exponent i }
    ensures power { (2 ^ result * 10 ^ 323 ≤ 2 ^ 1074 * 10 ^ i) × (2 ^ 1074 * 10 ^ i < 2 ^ (result + 1) * 10 ^ 323) }
{
    ((i * 108853 + 33340) >> 15) as u32
}

// How many last bits of a double the method changes when it keeps n digits; 0 says that the reading stays.
pub fn double_tail(table: &[u64; 633], m: u64, n: u32) -> u32
    requires { (0 < m) × (m < 0x7ff0_0000_0000_0000) × (1 ≤ n) × (n ≤ 15) × (table.now ≡ powers) }
    ensures { (result ≤ 52) × (new_magnitude 52 11 (digits n) 0 m ≡ halfshaved result m) }
{
    let c = ((m >> 52) as u32).saturating_sub(1);
    let r = decade_place(table, m);
    let d = n as usize;
    if r < d {
        return 0;
    }
    let j = step_exponent(r - d);
    j.saturating_sub(c)
}

// The double of the same size as a subnormal single: doubled until it is as long as a normal one. No count of places, so no `for`.
fn subnormal_widened(m: u32) -> u64
    requires { (0 < m) × (m < 0x80_0000) }
    ensures { (0 < result) × (result < 0x7ff0_0000_0000_0000) × (size 52 result ≡ size 23 m * 2 ^ (least_exp 52 11 - least_exp 23 8)) }
{
    let mut x = u64::from(m);
    let mut f: u64 = 896;
    while x < 0x80_0000 {
        x = x * 2;
        f -= 1;
    }
    f * 0x0010_0000_0000_0000 + x * 0x2000_0000
}

// The double of the same size as a single.
fn widened(m: u32) -> u64
    requires { (0 < m) × (m < 0x7f80_0000) }
    ensures { (0 < result) × (result < 0x7ff0_0000_0000_0000) × (size 52 result ≡ size 23 m * 2 ^ (least_exp 52 11 - least_exp 23 8)) }
{
    if m < 0x80_0000 {
        return subnormal_widened(m);
    }
    u64::from(m) * 0x2000_0000 + 0x3800_0000_0000_0000
}

// Beside the double's a function of its own: a single goes by the double of its size, and its spacings are others.
// How many last bits of a single the method changes when it keeps n digits; 0 says that the reading stays.
pub fn single_tail(table: &[u64; 633], m: u32, n: u32) -> u32
    requires { (0 < m) × (m < 0x7f80_0000) × (1 ≤ n) × (n ≤ 7) × (table.now ≡ powers) }
    ensures { (result ≤ 23) × (new_magnitude 23 8 (digits n) 0 m ≡ halfshaved result m) }
{
    let c = 925 + (m >> 23).saturating_sub(1);
    let w = widened(m);
    let r = decade_place(table, w);
    let d = n as usize;
    if r < d {
        return 0;
    }
    let j = step_exponent(r - d);
    j.saturating_sub(c)
}
