// The questions on layers that packing and unpacking ask first: each in a test of its own, so that a call may ask some of them alone, as totals does, and then all in their
// order. Internal: the calls open to users are those of `packing`, `unpacking` and `totals`.
#![tactic(auto)]

ghost use Rattle.std.specs.Prelude.{◌≡◌, ◌&&◌, [], ◌∷◌, ◌≤◌, eqb, length};
ghost use Rattle.meaning.specs.Questions.{all, length_in_range, whole, width_in_range};
ghost use Rattle.asking_layers.specs.LayerAsked.{layer_refusal, number_or_0};

use refusal::Refusal;

// Question 3: is a layer's length 1 to 65,536?
pub fn length_in_range(length: usize) -> bool
    ensures { result ≡ length_in_range length }
{
    (1..=65536).contains(&length)
}

// Question 4: is the number of readings (or codes) a whole multiple of the length?
pub fn is_whole(n: usize, length: usize) -> bool
    requires { 1 ≤ length }
    ensures { result ≡ whole n length }
{
    n % length == 0
}

// Question 5, of the arrays with one entry for each layer: have they the number of layers?
fn one_each(layers: usize, widths: usize, references: usize, exponents: usize) -> bool
    ensures { result ≡ eqb widths layers && all (λ k. eqb k layers) (references ∷ exponents ∷ []) }
{
    [widths, references, exponents]
        .iter()
        .all(|entries| *entries == layers)
}

// Is the width 2 to 16?
pub fn width_in_range(width: u32) -> bool
    ensures { result ≡ width_in_range width }
{
    (2..=16).contains(&width)
}

// Question 11: is every layer's width 2 to 16?
pub fn all_widths(widths: &[u32]) -> bool
    ensures { result ≡ all width_in_range widths.now }
{
    widths.iter().all(|width| width_in_range(*width))
}

// The questions before layers of `length` readings are packed or unpacked: of `n` readings (or codes), whether the array beside them has its length, and of the arrays
// with one entry for each layer.
#[tactic(auto, unfolding(crate::specs::LayerAsked::layer_refusal))]
pub fn ask_layers(
    length: usize,
    n: usize,
    beside: bool,
    widths: &[u32],
    references: usize,
    exponents: usize,
) -> Result<(), Refusal>
    ensures { number_or_0 result ≡ layer_refusal length n beside (references ∷ exponents ∷ []) widths.now }
{
    if !length_in_range(length) {
        return Err(Refusal::LengthOutOfRange);
    }
    if !is_whole(n, length) {
        return Err(Refusal::NoWholeLayers);
    }
    if !beside {
        return Err(Refusal::ArrayOfWrongLength);
    }
    if !one_each(n / length, widths.len(), references, exponents) {
        return Err(Refusal::ArrayOfWrongLength);
    }
    if !all_widths(widths) {
        return Err(Refusal::WidthOutOfRange);
    }
    Ok(())
}
