// Readings in byte planes: what is written to the planes of n readings from a place on, and what is read there. All bytes of a plane stand together, so the next byte of a reading
// stands n further on. By blocks that stay in the nearest cache, and by halves (`array_halves`): a double is two words, a single or a word two pairs, a pair two bytes. `n` and `at`
// stay beside the buffer: the planes of one array stand n apart in it, and a block is written at its place in each. Internal: the calls open to users are those of `planes`.
#![tactic(auto)]

ghost use Rattle.std.specs.Prelude.{◌≡◌, ◌+◌, ◌≤◌, ◌<◌, length};
ghost use mathlib.Core.List.{map};
ghost use native.Mathlib.Nat.{zero-lt-suc};
ghost use Rattle.array_planes.specs.Places.{stored, fetched, Room};

use array_halves::{Halves, Number};

// As many readings go by halves at once: they stay in the nearest cache.
const BLOCK: usize = 512;

// A number whose bytes stand in planes. A block is written and read by its halves, and they by theirs, in lent room: with room of its own each level would be cleared for each block.
trait Planes: Number {
    // Room for the halves of a block that is written, and for those of one that is read.
    type WriteRoom;

    type ReadRoom;

    // Writes a block to its planes.
    fn write(block: &[Self], planes: &mut [u8], n: usize, at: usize, room: &mut Self::WriteRoom)
        requires block { (length block.now ≤ BLOCK) × (length block.now ≤ n) }
        requires room { Room Self.BYTES n at (length block.now) (length planes.old) }
        ensures { planes.new ≡ stored Self.BYTES n at (length block.now) (map Self.value block.now) planes.old };

    // Reads a block from its planes.
    fn read(planes: &[u8], n: usize, at: usize, block: &mut [Self], room: &mut Self::ReadRoom)
        requires block { length block.old ≤ BLOCK }
        requires room { Room Self.BYTES n at (length block.old) (length planes.now) }
        ensures { map Self.value block.new ≡ fetched Self.BYTES n at (length block.old) planes.now };

    // There is a plane.
    ghost has_bytes: { 0 < Self.BYTES };
}

// A pair's halves are bytes: they need no room.
impl Planes for u16 {
    type WriteRoom = ();

    type ReadRoom = ();

    ghost has_bytes = { zero-lt-suc 1 };

    fn write(block: &[u16], planes: &mut [u8], n: usize, at: usize, _room: &mut ()) {
        let to = at + block.len();
        array_halves::cut(block, 0, &mut planes[at..to]);
        array_halves::cut(block, 8, &mut planes[n + at..n + to]);
    }

    fn read(planes: &[u8], n: usize, at: usize, block: &mut [u16], _room: &mut ()) {
        let to = at + block.len();
        array_halves::join(&planes[at..to], &planes[n + at..n + to], block);
    }
}

impl Planes for u32 {
    type WriteRoom = [u16; BLOCK];

    type ReadRoom = ([u16; BLOCK], [u16; BLOCK]);

    ghost has_bytes = { zero-lt-suc 3 };

    fn write(block: &[u32], planes: &mut [u8], n: usize, at: usize, room: &mut Self::WriteRoom) {
        write_halves(block, planes, n, at, room, &mut ());
    }

    fn read(planes: &[u8], n: usize, at: usize, block: &mut [u32], room: &mut Self::ReadRoom) {
        read_halves(planes, n, at, block, &mut room.0, &mut room.1, &mut ());
    }
}

impl Planes for u64 {
    type WriteRoom = ([u32; BLOCK], <u32 as Planes>::WriteRoom);

    type ReadRoom = ([u32; BLOCK], [u32; BLOCK], <u32 as Planes>::ReadRoom);

    ghost has_bytes = { zero-lt-suc 7 };

    fn write(block: &[u64], planes: &mut [u8], n: usize, at: usize, room: &mut Self::WriteRoom) {
        write_halves(block, planes, n, at, &mut room.0, &mut room.1);
    }

    fn read(planes: &[u8], n: usize, at: usize, block: &mut [u64], room: &mut Self::ReadRoom) {
        read_halves(planes, n, at, block, &mut room.0, &mut room.1, &mut room.2);
    }
}

// ---- a block by its halves

// Writes a block: the planes of the low halves, then those of the high ones.
fn write_halves<Half: Planes, Whole: Halves<Half>>(
    block: &[Whole],
    planes: &mut [u8],
    n: usize,
    at: usize,
    halves: &mut [Half],
    room: &mut Half::WriteRoom,
)
    requires block { (length block.now ≤ BLOCK) × (length block.now ≤ n) }
    requires halves { length halves.old ≡ BLOCK }
    requires room { Room (Half.BYTES + Half.BYTES) n at (length block.now) (length planes.old) }
    ensures { planes.new ≡ stored (Half.BYTES + Half.BYTES) n at (length block.now) (map Whole.value block.now) planes.old }
{
    let bytes = Half::BYTES;
    let halves = &mut halves[..block.len()];
    array_halves::cut(block, 0, halves);
    Half::write(halves, planes, n, at, room);
    array_halves::cut(block, 8 * bytes as u32, halves);
    Half::write(halves, planes, n, bytes * n + at, room);
}

// Reads a block: the low halves from their planes, then the high ones from theirs.
fn read_halves<Half: Planes, Whole: Halves<Half>>(
    planes: &[u8],
    n: usize,
    at: usize,
    block: &mut [Whole],
    low: &mut [Half],
    high: &mut [Half],
    room: &mut Half::ReadRoom,
)
    requires block { length block.old ≤ BLOCK }
    requires halves { (length low.old ≡ BLOCK) × (length high.old ≡ BLOCK) }
    requires room { Room (Half.BYTES + Half.BYTES) n at (length block.old) (length planes.now) }
    ensures { map Whole.value block.new ≡ fetched (Half.BYTES + Half.BYTES) n at (length block.old) planes.now }
{
    let low = &mut low[..block.len()];
    let high = &mut high[..block.len()];
    Half::read(planes, n, at, low, room);
    Half::read(planes, n, Half::BYTES * n + at, high, room);
    array_halves::join(low, high, block);
}

// ---- any number of readings, block by block

fn write_blocks<Reading: Planes>(
    readings: &[Reading],
    planes: &mut [u8],
    n: usize,
    at: usize,
    room: &mut Reading::WriteRoom,
)
    requires readings { length readings.now ≤ n }
    requires room { Room Reading.BYTES n at (length readings.now) (length planes.old) }
    ensures { planes.new ≡ stored Reading.BYTES n at (length readings.now) (map Reading.value readings.now) planes.old }
{
    for start in (0..readings.len()).step_by(BLOCK) {
        let end = start + BLOCK.min(readings.len() - start);
        Reading::write(&readings[start..end], planes, n, at + start, room);
    }
}

fn read_blocks<Reading: Planes>(
    planes: &[u8],
    n: usize,
    at: usize,
    readings: &mut [Reading],
    room: &mut Reading::ReadRoom,
)
    requires { Room Reading.BYTES n at (length readings.old) (length planes.now) }
    ensures { map Reading.value readings.new ≡ fetched Reading.BYTES n at (length readings.old) planes.now }
{
    for start in (0..readings.len()).step_by(BLOCK) {
        let end = start + BLOCK.min(readings.len() - start);
        Reading::read(planes, n, at + start, &mut readings[start..end], room);
    }
}

// ---- for the crates above: singles and doubles apart, since their rooms have lengths of their own, and the crates above call them by these names

// Writes singles to 4 planes.
pub fn write_singles(readings: &[u32], planes: &mut [u8], n: usize, at: usize)
    requires { (length readings.now ≤ n) × Room 4 n at (length readings.now) (length planes.old) }
    ensures { planes.new ≡ stored 4 n at (length readings.now) readings.now planes.old }
{
    write_blocks(readings, planes, n, at, &mut [0; BLOCK]);
}

// Reads singles from 4 planes.
pub fn read_singles(planes: &[u8], n: usize, at: usize, readings: &mut [u32])
    requires { Room 4 n at (length readings.old) (length planes.now) }
    ensures { readings.new ≡ fetched 4 n at (length readings.old) planes.now }
{
    read_blocks(planes, n, at, readings, &mut ([0; BLOCK], [0; BLOCK]));
}

// Writes doubles to 8 planes.
pub fn write_doubles(readings: &[u64], planes: &mut [u8], n: usize, at: usize)
    requires { (length readings.now ≤ n) × Room 8 n at (length readings.now) (length planes.old) }
    ensures { planes.new ≡ stored 8 n at (length readings.now) readings.now planes.old }
{
    write_blocks(readings, planes, n, at, &mut ([0; BLOCK], [0; BLOCK]));
}

// Reads doubles from 8 planes.
pub fn read_doubles(planes: &[u8], n: usize, at: usize, readings: &mut [u64])
    requires { Room 8 n at (length readings.old) (length planes.now) }
    ensures { readings.new ≡ fetched 8 n at (length readings.old) planes.now }
{
    read_blocks(
        planes,
        n,
        at,
        readings,
        &mut ([0; BLOCK], [0; BLOCK], ([0; BLOCK], [0; BLOCK])),
    );
}
