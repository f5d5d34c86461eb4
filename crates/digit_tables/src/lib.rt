// Method 6 of document 01, digits, for arrays of singles: two tables, made once from the powers of ten. A single's exponent field leaves two decades: one table holds
// for each field the limit where the second begins, the other the bits that the method changes in each of the two. Internal: the calls open to users are those of `trim`.
#![tactic(auto)]

ghost use Rattle.std.specs.Prelude.{◌≡◌, ◌-◌, ◌/◌, ◌%◌, ◌^◌, ◌<◌, ◌≤◌};
ghost use Rattle.powers.specs.Table.{powers};
ghost use Rattle.digit_tables.specs.Fields.{field_place, least_single, field_limit, field_tail, Limits, Masks};

// The place in the table of the first of the two decades that a single's exponent field f leaves.
fn field_place(f: usize) -> usize
    requires { f < 256 }
    ensures { result ≡ field_place f }
{
    ((f + 896) * 77 + 4100) >> 8
}

// The least magnitude of a single whose double is not below v.
fn least_single(v: u64) -> u64
    ensures { result ≡ least_single v }
{
    if v <= 0x3800_0000_0000_0000 {
        return 0;
    }
    (v - 0x3800_0000_0000_0000 + 0x1fff_ffff) >> 29
}

// The least magnitude of a single with the exponent field f that lies in the second decade.
fn field_limit(table: &[u64; 633], f: usize) -> u32
    requires { (f < 256) × (table.now ≡ powers) }
    ensures { result ≡ field_limit f }
{
    let place = field_place(f);
    let least = least_single(table[place + 1]);
    if least < 0x7f80_0000 {
        return least as u32;
    }
    0x7f80_0000
}

// The limits of all exponent fields.
pub fn limits(table: &[u64; 633]) -> [u32; 256]
    requires { table.now ≡ powers }
    ensures { Limits result }
{
    let mut all = [0; 256];
    for (f, limit) in all.iter_mut().enumerate() {
        *limit = field_limit(table, f);
    }
    all
}

// The bits that the method changes when it keeps n digits, as ones: of the field i / 2, in the first decade where i is even and in the second where it is odd.
fn field_mask(i: usize, n: u32) -> u32
    requires { (i < 512) × (n ≤ 7) }
    ensures { result ≡ 2 ^ field_tail n (i / 2) (i % 2) - 1 }
{
    let f = i / 2;
    if f == 0 {
        return 0;
    }
    if f == 255 {
        return 0;
    }
    let place = field_place(f) + i % 2;
    let j = digit_tails::step_exponent(place - n as usize);
    let t = j.saturating_sub(924 + f as u32);
    (1u32 << t) - 1
}

// The masks of all exponent fields.
pub fn masks(n: u32) -> [u32; 512]
    requires { n ≤ 7 }
    ensures { Masks n result }
{
    let mut all = [0; 512];
    for (i, mask) in all.iter_mut().enumerate() {
        *mask = field_mask(i, n);
    }
    all
}
