// Trimming readings in byte planes: block by block they are read into an array, trimmed there by the loops over arrays, and written back. What grooming's next turn does goes on from
// block to block. Internal: the calls open to users are those of `planes`.
#![tactic(auto)]

ghost use Rattle.std.specs.Prelude.{◌≡◌, ℕ, ◌*◌, ◌≤◌, length, map};
ghost use Rattle.meaning.specs.Methods.{turn_after};
ghost use Rattle.meaning.specs.Planes as P;
ghost use Rattle.method.specs.Kinds.{number_of};
ghost use Rattle.asking.specs.Asked.{method_by};
ghost use Rattle.reading.specs.Left.{settled_by};
ghost use Rattle.reading.specs.Words.{constants_at};
ghost use Rattle.loops.specs.Tallies.{totals_of};
ghost use Rattle.loops.specs.Walk.{state_at, walked_by, tallied_by};
ghost use Rattle.loops.specs.Methods.{Fitting, Suits, Filling, settled_with, next_with};
ghost use Rattle.array_planes.specs.Places.{stored, fetched, Room};

use arrays::{Digits, Job};
use groom::Part;
use loops::Totals;
use method::Method;

// A word whose bytes stand in planes.
pub trait InPlanes: Digits {
    // How many bytes it has.
    ghost BYTES: { ℕ };

    fn read(planes: &[u8], n: usize, at: usize, readings: &mut [Self])
        requires { Room BYTES n at (length readings.old) (length planes.now) }
        ensures { map Self.value readings.new ≡ fetched BYTES n at (length readings.old) planes.now };

    fn write(readings: &[Self], planes: &mut [u8], n: usize, at: usize)
        requires { (length readings.now ≤ n) × Room BYTES n at (length readings.now) (length planes.old) }
        ensures { planes.new ≡ stored BYTES n at (length readings.now) (map Self.value readings.now) planes.old };
}

impl InPlanes for u32 {
    ghost BYTES = { 4 };

    fn read(planes: &[u8], n: usize, at: usize, readings: &mut [u32]) {
        array_planes::read_singles(planes, n, at, readings);
    }

    fn write(readings: &[u32], planes: &mut [u8], n: usize, at: usize) {
        array_planes::write_singles(readings, planes, n, at);
    }
}

impl InPlanes for u64 {
    ghost BYTES = { 8 };

    fn read(planes: &[u8], n: usize, at: usize, readings: &mut [u64]) {
        array_planes::read_doubles(planes, n, at, readings);
    }

    fn write(readings: &[u64], planes: &mut [u8], n: usize, at: usize) {
        array_planes::write_doubles(readings, planes, n, at);
    }
}

// One block, as long as the room that is lent for it, where grooming's first turn puts `add` into the tail.
fn block<W: InPlanes>(
    planes: &mut [u8],
    n: usize,
    at: usize,
    room: &mut [W],
    job: Job<W>,
    add: W,
    mark: W,
) -> Part<W>
    requires { ((Suits W.FRACTION W.DIGITS (number_of job.method) job.n (constants_at W.value job.tail)) × (Filling (W.value job.tail.ones) (W.value add))) × (length room.old ≤ n) × (Room W.BYTES n at (length room.old) (length planes.old)) }
    ensures sums { totals_of result.sums ≡ tallied_by (next_with W.FRACTION W.EXPONENT (number_of job.method) job.n (W.value mark)) (settled_with W.FRACTION W.EXPONENT (number_of job.method) job.n (W.value mark)) (W.value add) (fetched W.BYTES n at (length room.old) planes.old) }
    ensures add { W.value result.add ≡ state_at (next_with W.FRACTION W.EXPONENT (number_of job.method) job.n (W.value mark)) (W.value add) (fetched W.BYTES n at (length room.old) planes.old) (length (fetched W.BYTES n at (length room.old) planes.old)) }
    ensures content { planes.new ≡ stored W.BYTES n at (length room.old) (walked_by (next_with W.FRACTION W.EXPONENT (number_of job.method) job.n (W.value mark)) (settled_with W.FRACTION W.EXPONENT (number_of job.method) job.n (W.value mark)) (W.value add) (fetched W.BYTES n at (length room.old) planes.old)) planes.old }
{
    W::read(&*planes, n, at, room);
    let part = arrays::part(room, job, add, mark);
    W::write(&*room, planes, n, at);
    part
}

// All blocks.
fn blocks<W: InPlanes>(planes: &mut [u8], n: usize, room: &mut [W], job: Job<W>, mark: W) -> Totals
    requires { (Suits W.FRACTION W.DIGITS (number_of job.method) job.n (constants_at W.value job.tail)) × (1 ≤ length room.old) × (length planes.old ≡ n * W.BYTES) }
    ensures sums { totals_of result ≡ tallied_by (next_with W.FRACTION W.EXPONENT (number_of job.method) job.n (W.value mark)) (settled_with W.FRACTION W.EXPONENT (number_of job.method) job.n (W.value mark)) 0 (P.readings W.BYTES n planes.old) }
    ensures content { planes.new ≡ P.planes W.BYTES (walked_by (next_with W.FRACTION W.EXPONENT (number_of job.method) job.n (W.value mark)) (settled_with W.FRACTION W.EXPONENT (number_of job.method) job.n (W.value mark)) 0 (P.readings W.BYTES n planes.old)) }
{
    let mut sums = Totals::new();
    let mut add = W::zero();
    let mut a: usize = 0;
    // A count by hand: the room says how long a block is, and what is left decides on the last one.
    while a < n {
        let k = room.len().min(n - a);
        let part = block(planes, n, a, &mut room[0..k], job, add, mark);
        sums = sums.join(part.sums);
        add = part.add;
        a += k;
    }
    sums
}

// All blocks, with room for N readings.
fn blocks_of<W: InPlanes, const N: usize>(
    planes: &mut [u8],
    n: usize,
    method: Method,
    number: u32,
    mark: W,
) -> Totals
    requires { (Fitting (number_of method) number W.FRACTION W.DIGITS) × ((1 ≤ N) × (N ≤ 16384)) × (length planes.old ≡ n * W.BYTES) }
    ensures sums { totals_of result ≡ tallied_by (turn_after W.FRACTION W.EXPONENT (W.value mark)) (settled_by W.FRACTION W.EXPONENT (method_by (number_of method) number) (W.value mark)) 0 (P.readings W.BYTES n planes.old) }
    ensures content { planes.new ≡ P.planes W.BYTES (walked_by (turn_after W.FRACTION W.EXPONENT (W.value mark)) (settled_by W.FRACTION W.EXPONENT (method_by (number_of method) number) (W.value mark)) 0 (P.readings W.BYTES n planes.old)) }
{
    let mut room = [W::zero(); N];
    blocks(planes, n, &mut room, arrays::job_of(method, number), mark)
}

// Readings by a method with a setting that is in its range. A long array goes by long blocks, so that what is worked out once for a block costs less. A short one has no large room to clear.
fn by_method<W: InPlanes, const MIDDLE: usize, const LONG: usize>(
    planes: &mut [u8],
    n: usize,
    method: Method,
    number: u32,
    mark: W,
) -> Totals
    requires fitting { (Fitting (number_of method) number W.FRACTION W.DIGITS) × (length planes.old ≡ n * W.BYTES) }
    requires rooms { ((1 ≤ MIDDLE) × (MIDDLE ≤ 16384)) × ((1 ≤ LONG) × (LONG ≤ 16384)) }
    ensures sums { totals_of result ≡ tallied_by (turn_after W.FRACTION W.EXPONENT (W.value mark)) (settled_by W.FRACTION W.EXPONENT (method_by (number_of method) number) (W.value mark)) 0 (P.readings W.BYTES n planes.old) }
    ensures content { planes.new ≡ P.planes W.BYTES (walked_by (turn_after W.FRACTION W.EXPONENT (W.value mark)) (settled_by W.FRACTION W.EXPONENT (method_by (number_of method) number) (W.value mark)) 0 (P.readings W.BYTES n planes.old)) }
{
    if n <= 512 {
        return blocks_of::<W, 512>(planes, n, method, number, mark);
    }
    if 16384 < n {
        return blocks_of::<W, LONG>(planes, n, method, number, mark);
    }
    blocks_of::<W, MIDDLE>(planes, n, method, number, mark)
}

// Two calls of a line: a block of singles and one of doubles have as many bytes, and the length of an array can't be computed from a type.
pub fn method_singles(planes: &mut [u8], n: usize, method: Method, number: u32, mark: u32) -> Totals
    requires { (Fitting (number_of method) number 23 7) × (length planes.old ≡ n * 4) }
    ensures sums { totals_of result ≡ tallied_by (turn_after 23 8 mark) (settled_by 23 8 (method_by (number_of method) number) mark) 0 (P.readings 4 n planes.old) }
    ensures content { planes.new ≡ P.planes 4 (walked_by (turn_after 23 8 mark) (settled_by 23 8 (method_by (number_of method) number) mark) 0 (P.readings 4 n planes.old)) }
{
    by_method::<u32, 4096, 16384>(planes, n, method, number, mark)
}

pub fn method_doubles(planes: &mut [u8], n: usize, method: Method, number: u32, mark: u64) -> Totals
    requires { (Fitting (number_of method) number 52 15) × (length planes.old ≡ n * 8) }
    ensures sums { totals_of result ≡ tallied_by (turn_after 52 11 mark) (settled_by 52 11 (method_by (number_of method) number) mark) 0 (P.readings 8 n planes.old) }
    ensures content { planes.new ≡ P.planes 8 (walked_by (turn_after 52 11 mark) (settled_by 52 11 (method_by (number_of method) number) mark) 0 (P.readings 8 n planes.old)) }
{
    by_method::<u64, 2048, 8192>(planes, n, method, number, mark)
}
