// Totals of one packed layer: the number of its present codes, and their sum, gathered in four lanes. The questions first, which are in `asking_layers` and `asking_codes`.
#![tactic(auto)]

ghost use Rattle.std.specs.Prelude.{◌≡◌, ◌+◌, ◌≤◌, ◌<◌, length};
ghost use Rattle.meaning.specs.Totals.{in_order_sum, one_present, if_present, totals};
ghost use Rattle.totals.specs.Answers.{answer_of};
ghost use Rattle.totals.specs.Gathered.{value_at, Room, added, added_at, joined_of, Gathered};

use refusal::Refusal;

// How many codes are present, and their sum.
#[derive(Clone, Copy, Debug, PartialEq, Eq)]
pub struct Total {
    pub count: u32,
    pub sum: u32,
}

// 1, or 0 where the code is the missing one.
#[tactic(auto, unfolding(meaning::specs::Totals::one_present))]
fn one_present(code: u16, missing: u16) -> u16
    ensures is { result ≡ one_present missing code }
    ensures small { result ≤ 1 }
{
    u16::from(code != missing)
}

// The number of the present codes of half a layer. It fits in 16 bits, as a code does, so that the compiler counts eight codes at a time.
fn count_half(codes: &[u16], missing: u16) -> u16
    requires { length codes.now ≤ 32768 }
    ensures is { result ≡ in_order_sum (one_present missing) codes.now }
    ensures small { result ≤ 32768 }
{
    let mut count: u16 = 0;
    for code in codes {
        count += one_present(*code, missing);
    }
    count
}

// The number of the present codes of a layer.
fn count_present(codes: &[u16], missing: u16) -> u32
    requires { length codes.now ≤ 65536 }
    ensures { result ≡ in_order_sum (one_present missing) codes.now }
{
    let half = codes.len() / 2;
    let first = count_half(&codes[0..half], missing);
    let second = count_half(&codes[half..], missing);
    u32::from(first) + u32::from(second)
}

// The code, or 0 where it is the missing one.
#[tactic(auto, unfolding(meaning::specs::Totals::if_present))]
fn if_present(code: u16, missing: u16) -> u32
    ensures is { result ≡ if_present missing code }
    ensures small { result ≤ 65535 }
{
    if code == missing { 0 } else { u32::from(code) }
}

// The code at a place, or the missing one past the end.
fn code_at(codes: &[u16], i: usize, missing: u16) -> u16
    ensures { result ≡ value_at missing codes.now i }
{
    codes.get(i).copied().unwrap_or(missing)
}

// Four sums: lane a takes the places 0, 4, 8 .., lane b the places 1, 5, 9 .., and so on. By name and no array: a loop over four lanes would be no plainer than four lines.
#[derive(Clone, Copy)]
pub struct Lanes {
    pub a: u32,
    pub b: u32,
    pub c: u32,
    pub d: u32,
}

// Four codes, each added to its lane where it is present.
fn add_codes(lanes: Lanes, a: u16, b: u16, c: u16, d: u16, missing: u16) -> Lanes
    requires { Room lanes }
    ensures { result ≡ added (if_present missing) lanes a b c d }
{
    Lanes {
        a: lanes.a + if_present(a, missing),
        b: lanes.b + if_present(b, missing),
        c: lanes.c + if_present(c, missing),
        d: lanes.d + if_present(d, missing),
    }
}

// The codes at four places from i on, which are there.
fn add_four(lanes: Lanes, codes: &[u16], i: usize, missing: u16) -> Lanes
    requires room { Room lanes }
    requires i_in_bounds { i + 4 ≤ length codes.now }
    ensures { result ≡ added_at missing lanes codes.now i }
{
    let a = codes[i];
    let b = codes[i + 1];
    let c = codes[i + 2];
    let d = codes[i + 3];
    add_codes(lanes, a, b, c, d, missing)
}

// The same where the codes may end before.
fn add_last(lanes: Lanes, codes: &[u16], i: usize, missing: u16) -> Lanes
    requires room { Room lanes }
    requires i_bound { i ≤ 65544 }
    ensures { result ≡ added_at missing lanes codes.now i }
{
    let a = code_at(codes, i, missing);
    let b = code_at(codes, i + 1, missing);
    let c = code_at(codes, i + 2, missing);
    let d = code_at(codes, i + 3, missing);
    add_codes(lanes, a, b, c, d, missing)
}

// Eight places on. Taken modulo a power of two that it never reaches, so that the compiler keeps the four lanes in one vector, and does not work on several turns at once,
// for which it would have to take the places apart.
fn onward(i: usize) -> usize
    requires { i ≤ 65536 }
    ensures { result ≡ i + 8 }
{
    (i + 8) % 131072
}

// The present codes gathered in four lanes, place mod 4. The place is counted by hand, since how it goes on is chosen for the compiler, as `onward` says.
fn gather(codes: &[u16], missing: u16) -> Lanes
    requires { length codes.now ≤ 65536 }
    ensures { Gathered (if_present missing) codes.now result }
{
    let mut lanes = Lanes {
        a: 0,
        b: 0,
        c: 0,
        d: 0,
    };
    let mut i: usize = 0;
    while 8 <= codes.len() - i {
        lanes = add_four(lanes, codes, i, missing);
        lanes = add_four(lanes, codes, i + 4, missing);
        i = onward(i);
    }
    lanes = add_last(lanes, codes, i, missing);
    add_last(lanes, codes, i + 4, missing)
}

// The lanes joined.
fn join_lanes(lanes: Lanes) -> u32
    requires { joined_of lanes < 4294967296 }
    ensures { result ≡ joined_of lanes }
{
    lanes.a + lanes.b + lanes.c + lanes.d
}

// The totals of one layer's codes, of the given width. Or answers the refusal: 3 where there are no codes or more than 65,536, 11 for a width that isn't 2 to 16,
// 12 for a code above the missing code of the width.
pub fn totals(codes: &[u16], width: u32) -> Result<Total, Refusal>
    ensures { answer_of result ≡ totals width codes.now }
{
    if !asking_layers::length_in_range(codes.len()) {
        return Err(Refusal::LengthOutOfRange);
    }
    if !asking_layers::width_in_range(width) {
        return Err(Refusal::WidthOutOfRange);
    }
    let missing = layer_width::missing_of(width);
    if missing < asking_codes::bits_of(codes) {
        return Err(Refusal::CodeOutOfRange);
    }
    let count = count_present(codes, missing);
    let lanes = gather(codes, missing);
    let sum = join_lanes(lanes);
    Ok(Total { count, sum })
}
