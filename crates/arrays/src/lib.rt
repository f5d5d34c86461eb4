// Trimming an array of readings in place, singles or doubles: each method's loop but grooming's, and the loader's one reading. The loops run over parts of an array, so that counters
// as narrow as a reading serve and LLVM can work on four singles at once. Internal: the calls open to users are those of `trim` and `planes`.
#![tactic(auto)]

ghost use Rattle.std.specs.Prelude.{◌≡◌, ◌≢◌, true, ℕ, ◌-◌, ◌≤◌, length, map, All};
ghost use Rattle.meaning.specs.Methods.{round, absolute, digits, turn_after};
ghost use Rattle.method.specs.Kinds.{number_of};
ghost use Rattle.asking.specs.Asked.{method_by};
ghost use Rattle.reading.specs.Left.{Settled, settled_by, settled_tail};
ghost use Rattle.reading.specs.Tails.{TailOf};
ghost use Rattle.reading.specs.Words.{settled_at, constants_at};
ghost use Rattle.loops.specs.Tallies.{sums_at, totals_of};
ghost use Rattle.loops.specs.Methods.{Fitting, add_at, add_by, keep_of, Suits, Filling, settled_with, next_with};
ghost use Rattle.arrays.specs.Outcomes.{CountsOnce, Leaves, EachOnce, AllTrimmed, AllTrimmedFrom};
ghost use Rattle.loops.specs.Walk.{state_at};
ghost use Rattle.arrays.specs.Subnormal.{NoSubnormal};

use groom::Part;
use loops::{Sums, Totals};
use method::Method;
use reading::{Tail, Trimmed};
use word::Word;

// The length of a part: its counters may be as narrow as a single.
const PART: usize = 65536;

// Trims each reading of a part, up to 65,536, and adds up what they count for.
pub fn each<W: Word, F: Fn(W) -> Trimmed<W>>(readings: &mut [W], trim: F) -> Sums<W>
    requires few { length readings.old ≤ 65536 }
    requires callable { All (F.pre trim) readings.old }
    requires counted { CountsOnce W.value (F.post trim) }
    ensures { (f : ℕ → Settled) → EachOnce f → Leaves W.value (F.post trim) f → AllTrimmed W.value f readings.old readings.new (sums_at W.value result) }
{
    let mut sums = Sums::new();
    for reading in readings.iter_mut() {
        let one = trim(*reading);
        *reading = one.pattern;
        sums = sums.plus(one);
    }
    sums
}

// ---- each method over a part

// Methods 0, 1 and 3: every tail becomes `add`.
fn with_tails<W: Word>(readings: &mut [W], tail: Tail<W>, add: W, mark: W) -> Sums<W>
    requires { ((TailOf W.FRACTION (constants_at W.value tail)) × (W.value add ≤ W.value tail.ones)) × (length readings.old ≤ 65536) }
    ensures { AllTrimmed W.value (settled_tail W.FRACTION W.EXPONENT tail.bits (W.value add) (W.value mark)) readings.old readings.new (sums_at W.value result) }
{
    each(readings, |x: W| x.with_tail(tail, add, mark))
}

// Method 4. With no tail, every reading stays.
fn rounded<W: Word>(readings: &mut [W], tail: Tail<W>, mark: W) -> Sums<W>
    requires { (TailOf W.FRACTION (constants_at W.value tail)) × (length readings.old ≤ 65536) }
    ensures { AllTrimmed W.value (settled_by W.FRACTION W.EXPONENT (round (W.FRACTION - tail.bits)) (W.value mark) 0) readings.old readings.new (sums_at W.value result) }
{
    if tail.bits == 0 {
        return with_tails(readings, tail, W::zero(), mark);
    }
    each(readings, |x: W| x.rounded(tail, mark))
}

// Method 5 with the unit 2^q.
fn stepped<W: Word>(readings: &mut [W], q: u32, mark: W) -> Sums<W>
    requires { length readings.old ≤ 65536 }
    ensures { AllTrimmed W.value (settled_by W.FRACTION W.EXPONENT (absolute q) (W.value mark) 0) readings.old readings.new (sums_at W.value result) }
{
    if W::FINE <= q && q <= W::COARSE {
        return each(readings, |x: W| x.stepped(q, mark));
    }
    let q = W::of(q);
    each(readings, |x: W| x.stepped_by_words(q, mark))
}

// Method 6. What is worked out before its loop differs by width: singles go by tables of their exponent fields where these serve.
pub trait Digits: Word {
    // A part with n digits.
    fn with_digits_kept(readings: &mut [Self], n: u32, mark: Self) -> Sums<Self>
        requires { ((1 ≤ n) × (n ≤ Self.DIGITS)) × (length readings.old ≤ 65536) }
        ensures { AllTrimmed Self.value (settled_by Self.FRACTION Self.EXPONENT (digits n) (Self.value mark) 0) readings.old readings.new (sums_at Self.value result) };
}

// By the table of the powers of ten.
fn by_powers<W: Word>(readings: &mut [W], n: u32, mark: W) -> Sums<W>
    requires { ((1 ≤ n) × (n ≤ W.DIGITS)) × (length readings.old ≤ 65536) }
    ensures { AllTrimmed W.value (settled_by W.FRACTION W.EXPONENT (digits n) (W.value mark) 0) readings.old readings.new (sums_at W.value result) }
{
    let table = powers::POWERS;
    each(readings, |x: W| x.with_digits(&table, n, mark))
}

impl Digits for u64 {
    fn with_digits_kept(readings: &mut [Self], n: u32, mark: Self) -> Sums<Self>
        requires { ((1 ≤ n) × (n ≤ 15)) × (length readings.old ≤ 65536) }
        ensures { AllTrimmed (λ w. w) (settled_by 52 11 (digits n) mark 0) readings.old readings.new (sums_at (λ w. w) result) }
    {
        by_powers(readings, n, mark)
    }
}

// Whether the tables of the exponent fields serve a part of singles: it is long enough to make them for, and no reading is subnormal.
fn fields_serve(readings: &[u32]) -> bool
    requires { length readings.now ≤ 65536 }
    ensures { result ≡ true → NoSubnormal readings.now }
{
    readings.len() >= 1024 && count_subnormal(readings) == 0
}

// How many singles of a part are subnormal and not zero. Counted and not only looked for, so that the loop has no branch.
fn count_subnormal(readings: &[u32]) -> u32
    requires { length readings.now ≤ 65536 }
    ensures { result ≡ 0 → NoSubnormal readings.now }
{
    let mut found: u32 = 0;
    for reading in readings {
        found += single::subnormal_single(*reading);
    }
    found
}

impl Digits for u32 {
    fn with_digits_kept(readings: &mut [Self], n: u32, mark: Self) -> Sums<Self>
        requires { ((1 ≤ n) × (n ≤ 7)) × (length readings.old ≤ 65536) }
        ensures { AllTrimmed (λ w. w) (settled_by 23 8 (digits n) mark 0) readings.old readings.new (sums_at (λ w. w) result) }
    {
        if !fields_serve(&*readings) {
            return by_powers(readings, n, mark);
        }
        let limits = digit_tables::limits(&powers::POWERS);
        let masks = digit_tables::masks(n);
        each(
            readings,
            |x: u32| single::field_single(&limits, &masks, x, n, mark),
        )
    }
}

// ---- an array by a method

// A method with its setting as a natural number, and the constants of its tail, worked out once for an array: those of the keep bits of methods 0 to 4, and no tail for the others.
#[derive(Clone, Copy)]
pub struct Job<W> {
    pub method: Method,
    pub n: u32,
    pub tail: Tail<W>,
}

// The keep bits of methods 0 to 4; the others have no tail.
fn keep_bits<W: Word>(method: Method, n: u32) -> u32
    ensures { result ≡ keep_of W.FRACTION (number_of method) n }
{
    match method {
        Method::Absolute | Method::Digits => W::FRACTION,
        _ => n,
    }
}

pub fn job_of<W: Word>(method: Method, n: u32) -> Job<W>
    requires { Fitting (number_of method) n W.FRACTION W.DIGITS }
    ensures method { result.method ≡ method }
    ensures setting { result.n ≡ n }
    ensures tail { Suits W.FRACTION W.DIGITS (number_of result.method) result.n (constants_at W.value result.tail) }
{
    Job {
        method,
        n,
        tail: W::tail_of(keep_bits::<W>(method, n)),
    }
}

// What methods 0, 1 and 3 put into every tail.
fn add_for<W: Word>(method: Method, tail: Tail<W>) -> W
    ensures { W.value result ≡ add_by (number_of method) (constants_at W.value tail) }
{
    match method {
        Method::Set => tail.ones,
        Method::Halfshave => tail.half,
        _ => W::zero(),
    }
}

// A part by any method but grooming.
fn plain<W: Digits>(readings: &mut [W], job: Job<W>, mark: W) -> Sums<W>
    requires { (Suits W.FRACTION W.DIGITS (number_of job.method) job.n (constants_at W.value job.tail)) × (number_of job.method ≢ 2) × (length readings.old ≤ 65536) }
    ensures { AllTrimmed W.value (settled_by W.FRACTION W.EXPONENT (method_by (number_of job.method) job.n) (W.value mark) 0) readings.old readings.new (sums_at W.value result) }
{
    match job.method {
        Method::Digits => W::with_digits_kept(readings, job.n, mark),
        Method::Absolute => stepped(readings, job.n, mark),
        Method::Round => rounded(readings, job.tail, mark),
        _ => with_tails(readings, job.tail, add_for(job.method, job.tail), mark),
    }
}

// A whole array by any method but grooming, part by part.
fn all<W: Digits>(readings: &mut [W], job: Job<W>, mark: W) -> Totals
    requires { (Suits W.FRACTION W.DIGITS (number_of job.method) job.n (constants_at W.value job.tail)) × (number_of job.method ≢ 2) }
    ensures { AllTrimmed W.value (settled_by W.FRACTION W.EXPONENT (method_by (number_of job.method) job.n) (W.value mark) 0) readings.old readings.new (totals_of result) }
{
    let mut totals = Totals::new();
    for part in 0..readings.len().div_ceil(PART) {
        let start = part * PART;
        let end = start + PART.min(readings.len() - start);
        let sums = plain(&mut readings[start..end], job, mark);
        totals = totals.join(sums);
    }
    totals
}

// An array, or a part of one, where grooming's first turn puts `add` into the tail.
pub fn part<W: Digits>(readings: &mut [W], job: Job<W>, add: W, mark: W) -> Part<W>
    requires { (Suits W.FRACTION W.DIGITS (number_of job.method) job.n (constants_at W.value job.tail)) × (Filling (W.value job.tail.ones) (W.value add)) }
    ensures trimmed { AllTrimmedFrom W.value (next_with W.FRACTION W.EXPONENT (number_of job.method) job.n (W.value mark)) (settled_with W.FRACTION W.EXPONENT (number_of job.method) job.n (W.value mark)) (W.value add) readings.old readings.new (totals_of result.sums) }
    ensures add { W.value result.add ≡ state_at (next_with W.FRACTION W.EXPONENT (number_of job.method) job.n (W.value mark)) (W.value add) (map W.value readings.old) (length readings.old) }
{
    match job.method {
        Method::Groom => groom::groom(readings, job.tail, add, mark),
        _ => Part {
            sums: all(readings, job, mark),
            add,
        },
    }
}

// An array by a method with a setting that is in its range.
pub fn by_method<W: Digits>(readings: &mut [W], method: Method, n: u32, mark: W) -> Totals
    requires { Fitting (number_of method) n W.FRACTION W.DIGITS }
    ensures { AllTrimmedFrom W.value (turn_after W.FRACTION W.EXPONENT (W.value mark)) (settled_by W.FRACTION W.EXPONENT (method_by (number_of method) n) (W.value mark)) 0 readings.old readings.new (totals_of result) }
{
    part(readings, job_of(method, n), W::zero(), mark).sums
}

// ---- the loader's one reading

// One reading by method 4. With no tail it stays.
fn rounded_one<W: Word>(x: W, tail: Tail<W>, mark: W) -> Trimmed<W>
    requires { TailOf W.FRACTION (constants_at W.value tail) }
    ensures { settled_at W.value result ≡ settled_by W.FRACTION W.EXPONENT (round (W.FRACTION - tail.bits)) (W.value mark) 0 (W.value x) }
{
    if tail.bits > 0 {
        return x.rounded(tail, mark);
    }
    x.with_tail(tail, W::zero(), mark)
}

// One reading by any method but grooming.
fn plain_one<W: Word>(x: W, job: Job<W>, mark: W) -> Trimmed<W>
    requires { (Suits W.FRACTION W.DIGITS (number_of job.method) job.n (constants_at W.value job.tail)) × (number_of job.method ≢ 2) }
    ensures { settled_at W.value result ≡ settled_by W.FRACTION W.EXPONENT (method_by (number_of job.method) job.n) (W.value mark) 0 (W.value x) }
{
    match job.method {
        Method::Digits => x.with_digits(&powers::POWERS, job.n, mark),
        Method::Absolute => x.stepped_by_words(W::of(job.n), mark),
        Method::Round => rounded_one(x, job.tail, mark),
        _ => x.with_tail(job.tail, add_for(job.method, job.tail), mark),
    }
}

// One reading groomed: an even turn shaves, an odd one sets.
fn groomed_one<W: Word>(x: W, tail: Tail<W>, mark: W, turn: u64) -> Trimmed<W>
    requires { TailOf W.FRACTION (constants_at W.value tail) }
    ensures { settled_at W.value result ≡ settled_tail W.FRACTION W.EXPONENT tail.bits (add_at 0 (W.value tail.ones) turn) (W.value mark) (W.value x) }
{
    let none = W::zero();
    let ones = tail.ones;
    let add = if turn % 2 == 0 { none } else { ones };
    x.with_tail(tail, add, mark)
}

// One reading by a method with a setting that is in its range, at a turn. Only the turn's parity matters.
pub fn one_by_method<W: Word>(x: W, method: Method, n: u32, mark: W, turn: u64) -> Trimmed<W>
    requires { Fitting (number_of method) n W.FRACTION W.DIGITS }
    ensures { settled_at W.value result ≡ settled_by W.FRACTION W.EXPONENT (method_by (number_of method) n) (W.value mark) turn (W.value x) }
{
    let job = job_of(method, n);
    match method {
        Method::Groom => groomed_one(x, job.tail, mark, turn),
        _ => plain_one(x, job, mark),
    }
}
