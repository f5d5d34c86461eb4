// Questions 7 and 8 of unpacking: is each reference finite and each exponent one that a step has, and is the mark a NaN? Internal: the call open to users is unpacking's.
#![tactic(auto)]

ghost use Rattle.std.specs.Prelude.{◌≡◌, ◌&&◌};
ghost use Rattle.meaning.specs.Questions.{all, is_nan, exponent_in_range};
ghost use Rattle.decoding.specs.Floats.{finite_float};
ghost use Rattle.asking_layers.specs.LayerAsked.{number_or_0};
ghost use Rattle.asking_values.specs.Asked.{refusal_of};

use refusal::Refusal;

// Is the single finite?
fn is_finite(x: f32) -> bool
    ensures { result ≡ finite_float x }
{
    x - x == 0.0
}

// Is every reference finite?
fn all_finite(references: &[f32]) -> bool
    ensures { result ≡ all finite_float references.now }
{
    references.iter().all(|reference| is_finite(*reference))
}

// Is the exponent one that a step has, -149 to 128?
fn is_step(exponent: i32) -> bool
    ensures { result ≡ exponent_in_range exponent }
{
    (-149..=128).contains(&exponent)
}

// Is every exponent one that a step has?
fn all_steps(exponents: &[i32]) -> bool
    ensures { result ≡ all exponent_in_range exponents.now }
{
    exponents.iter().all(|exponent| is_step(*exponent))
}

// Is the double a NaN?
fn is_nan(mark: u64) -> bool
    ensures { result ≡ is_nan 52 11 mark }
{
    0x7ff0000000000000 < mark % 0x8000000000000000
}

// Question 7: is each reference finite, and each exponent one that a step has?
fn layers_known(references: &[f32], exponents: &[i32]) -> bool
    ensures { result ≡ all finite_float references.now && all exponent_in_range exponents.now }
{
    all_finite(references) && all_steps(exponents)
}

// 7 where a reference is not finite or an exponent out of range, 8 where the mark is no NaN.
#[tactic(auto, unfolding(crate::specs::Asked::refusal_of))]
pub fn ask_values(references: &[f32], exponents: &[i32], mark: u64) -> Result<(), Refusal>
    ensures { number_or_0 result ≡ refusal_of (all finite_float references.now && all exponent_in_range exponents.now) (is_nan 52 11 mark) }
{
    if !layers_known(references, exponents) {
        return Err(Refusal::ReferenceOrExponentOutOfRange);
    }
    if !is_nan(mark) {
        return Err(Refusal::MarkNotNan);
    }
    Ok(())
}
