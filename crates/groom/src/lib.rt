// Grooming an array in place, by turns. Who takes a turn, and whether an even or odd number did before, is found for a whole block first, so that no reading waits for the one
// before it and LLVM can work on four singles or two doubles at once. A block is read as up to 32 rows of 512 readings. `turns` has a word for each column of them, in which each row
// has a bit: first whether the row's reading there takes a turn, then whether an odd number of readings before it do. Internal: the calls open to users are those of `trim`.
#![tactic(auto)]

ghost use Rattle.std.specs.Prelude.{◌≡◌, cond, ℕ, suc, ◌^◌, ◌≤◌, eqb, length, get_or, map};
ghost use Rattle.std.specs.Int.Bits.{bit_and, bit_xor};
ghost use Rattle.reading.specs.Left.{settled_tail, takes};
ghost use Rattle.reading.specs.Tails.{TailOf};
ghost use Rattle.reading.specs.Words.{constants_at};
ghost use Rattle.loops.specs.Tallies.{sums_at, totals_of};
ghost use Rattle.loops.specs.Walk.{state_at, walked_by, tallied_by};
ghost use Rattle.loops.specs.Methods.{Filling, filling_after};
ghost use Rattle.rows.specs.Rows.{row_of, bit_of, fill_at, Counted};

use loops::{Sums, Totals};
use reading::Tail;
use word::Word;

// ---- who takes a turn

// Puts a one into a row's bit of each column where the reading takes a turn; the bit was zero.
fn mark_row<W: Word>(row: &[W], turns: &mut [W; 513], bit: W, mark: W)
    requires { (length row.now ≤ 512) × (length turns.old ≡ 513) }
    ensures long { length turns.new ≡ 513 }
    ensures content { (c : ℕ) → get_or (map W.value turns.new) c 0 ≡ bit_xor (get_or (map W.value turns.old) c 0) (takes W.FRACTION W.EXPONENT (W.value bit) (W.value mark) (get_or (map W.value row.now) c (W.value mark))) }
{
    // The words are written by index: of a write through `iter_mut().zip(..)` a proof knows nothing afterwards.
    for (i, reading) in row.iter().enumerate() {
        turns[i] = turns[i].xor(reading.turn(bit, mark));
    }
}

// The bits of all rows of a block, where all are zero yet.
fn mark_rows<W: Word>(block: &[W], turns: &mut [W; 513], mark: W)
    requires { (length block.now ≤ 16384) × (length turns.old ≡ 513) × ((c : ℕ) → get_or (map W.value turns.old) c 0 ≡ 0) }
    ensures long { length turns.new ≡ 513 }
    ensures content { (r c : ℕ) → bit_of r (get_or (map W.value turns.new) c 0) ≡ takes W.FRACTION W.EXPONENT 1 (W.value mark) (get_or (row_of r (map W.value block.now)) c (W.value mark)) }
{
    for (r, row) in block.chunks(512).enumerate() {
        mark_row(row, turns, W::bit(r as u32), mark);
    }
}

// From who takes a turn to whether an odd number did before, for n columns and the one after them.
fn count_turns<W: Word>(turns: &mut [W; 513], n: usize)
    requires { (n ≤ 512) × (length turns.old ≡ 513) }
    ensures long { length turns.new ≡ 513 }
    ensures content { (c : ℕ) → c ≤ n → get_or (map W.value turns.new) c 0 ≡ state_at (λ w s. bit_xor s w) 0 (map W.value turns.old) c }
{
    let mut odd = W::zero();
    for word in turns[..n].iter_mut() {
        let taken = *word;
        *word = odd;
        odd = odd.xor(taken);
    }
    turns[n] = odd;
}

// ---- what goes into the tails

// Nothing where a row's bit is as wanted, and all ones where it isn't.
fn filling<W: Word>(odd: W, bit: W, want: W, ones: W) -> W
    ensures value { W.value result ≡ cond (eqb (bit_and (W.value odd) (W.value bit)) (W.value want)) 0 (W.value ones) }
    ensures most { W.value result ≤ W.value ones }
{
    odd.and(bit).choose(want, W::zero(), ones)
}

// A row: each tail gets what its column's bit says.
fn groom_row<W: Word>(
    row: &mut [W],
    turns: &[W; 513],
    bit: W,
    want: W,
    tail: Tail<W>,
    mark: W,
) -> Sums<W>
    requires { (TailOf W.FRACTION (constants_at W.value tail)) × (length row.old ≤ 512) }
    ensures sums { sums_at W.value result ≡ tallied_by (λ w c. suc c) (λ c w. settled_tail W.FRACTION W.EXPONENT tail.bits (fill_at (map W.value turns.now) (W.value bit) (W.value want) (W.value tail.ones) c) (W.value mark) w) 0 (map W.value row.old) }
    ensures content { map W.value row.new ≡ walked_by (λ w c. suc c) (λ c w. settled_tail W.FRACTION W.EXPONENT tail.bits (fill_at (map W.value turns.now) (W.value bit) (W.value want) (W.value tail.ones) c) (W.value mark) w) 0 (map W.value row.old) }
{
    let mut sums = Sums::<W>::new();
    for (i, reading) in row.iter_mut().enumerate() {
        let one = reading.with_tail(tail, filling(turns[i], bit, want, tail.ones), mark);
        *reading = one.pattern;
        sums = sums.plus(one);
    }
    sums
}

// The sums over a part of an array, and what the turn after it puts into the tail, nothing or all ones.
#[derive(Clone, Copy)]
pub struct Part<W> {
    pub sums: Totals,
    pub add: W,
}

// The rows of a block, one after the other; the first turn puts `first` into the tail. `add` is what a row's first turn gets, and so do all its turns whose bit is 0. So
// the bit that gets nothing is 0 where `add` is nothing, and 1 where it is all ones: that is `want`.
fn groom_rows<W: Word>(
    block: &mut [W],
    turns: &[W; 513],
    tail: Tail<W>,
    first: W,
    mark: W,
) -> Part<W>
    requires { ((TailOf W.FRACTION (constants_at W.value tail)) × (Filling (W.value tail.ones) (W.value first))) × (length block.old ≤ 16384) × (Counted W.FRACTION W.EXPONENT (W.value mark) (map W.value block.old) (map W.value turns.now)) }
    ensures sums { totals_of result.sums ≡ tallied_by (filling_after W.FRACTION W.EXPONENT (W.value tail.ones) (W.value mark)) (λ s w. settled_tail W.FRACTION W.EXPONENT tail.bits s (W.value mark) w) (W.value first) (map W.value block.old) }
    ensures add { W.value result.add ≡ state_at (filling_after W.FRACTION W.EXPONENT (W.value tail.ones) (W.value mark)) (W.value first) (map W.value block.old) (length block.old) }
    ensures content { map W.value block.new ≡ walked_by (filling_after W.FRACTION W.EXPONENT (W.value tail.ones) (W.value mark)) (λ s w. settled_tail W.FRACTION W.EXPONENT tail.bits s (W.value mark) w) (W.value first) (map W.value block.old) }
{
    let mut sums = Totals::new();
    let mut add = first;
    // By index: of what is written through `chunks_mut` a proof knows nothing afterwards.
    for r in 0..block.len().div_ceil(512) {
        let start = r * 512;
        let n = (block.len() - start).min(512);
        let bit = W::bit(r as u32);
        let want = add.choose(W::zero(), W::zero(), bit);
        let row = groom_row(&mut block[start..start + n], turns, bit, want, tail, mark);
        sums = sums.join::<W>(row);
        add = filling(turns[n], bit, want, tail.ones);
    }
    Part { sums, add }
}

// A block of up to 16,384 readings.
fn groom_block<W: Word>(block: &mut [W], tail: Tail<W>, first: W, mark: W) -> Part<W>
    requires { ((TailOf W.FRACTION (constants_at W.value tail)) × (Filling (W.value tail.ones) (W.value first))) × (length block.old ≤ 16384) }
    ensures sums { totals_of result.sums ≡ tallied_by (filling_after W.FRACTION W.EXPONENT (W.value tail.ones) (W.value mark)) (λ s w. settled_tail W.FRACTION W.EXPONENT tail.bits s (W.value mark) w) (W.value first) (map W.value block.old) }
    ensures add { W.value result.add ≡ state_at (filling_after W.FRACTION W.EXPONENT (W.value tail.ones) (W.value mark)) (W.value first) (map W.value block.old) (length block.old) }
    ensures content { map W.value block.new ≡ walked_by (filling_after W.FRACTION W.EXPONENT (W.value tail.ones) (W.value mark)) (λ s w. settled_tail W.FRACTION W.EXPONENT tail.bits s (W.value mark) w) (W.value first) (map W.value block.old) }
{
    let mut turns = [W::zero(); 513];
    mark_rows(&*block, &mut turns, mark);
    count_turns(&mut turns, block.len().min(512));
    groom_rows(block, &turns, tail, first, mark)
}

// Method 2 over any number of readings, block by block; the first turn puts `first` into the tail, nothing or all ones.
pub fn groom<W: Word>(readings: &mut [W], tail: Tail<W>, first: W, mark: W) -> Part<W>
    requires { (TailOf W.FRACTION (constants_at W.value tail)) × (Filling (W.value tail.ones) (W.value first)) }
    ensures sums { totals_of result.sums ≡ tallied_by (filling_after W.FRACTION W.EXPONENT (W.value tail.ones) (W.value mark)) (λ s w. settled_tail W.FRACTION W.EXPONENT tail.bits s (W.value mark) w) (W.value first) (map W.value readings.old) }
    ensures add { W.value result.add ≡ state_at (filling_after W.FRACTION W.EXPONENT (W.value tail.ones) (W.value mark)) (W.value first) (map W.value readings.old) (length readings.old) }
    ensures content { map W.value readings.new ≡ walked_by (filling_after W.FRACTION W.EXPONENT (W.value tail.ones) (W.value mark)) (λ s w. settled_tail W.FRACTION W.EXPONENT tail.bits s (W.value mark) w) (W.value first) (map W.value readings.old) }
{
    let mut sums = Totals::new();
    let mut add = first;
    // By index, as above.
    for b in 0..readings.len().div_ceil(16384) {
        let start = b * 16384;
        let end = start + (readings.len() - start).min(16384);
        let block = groom_block(&mut readings[start..end], tail, add, mark);
        sums = sums.join::<u64>(block.sums);
        add = block.add;
    }
    Part { sums, add }
}
