// Question 12, of unpacking and of totals: is each code at most its layer's missing code? Internal: the calls open to users are those of `unpacking` and `totals`.
#![tactic(auto)]

ghost use Rattle.std.specs.Prelude.{◌≡◌};
ghost use mathlib.Core.List.{zip_with};
ghost use Rattle.meaning.specs.Layers.{layers};
ghost use Rattle.meaning.specs.Questions.{all, code_in_range};
ghost use Rattle.asking_codes.specs.Codes.{BitsOf, InLayers};

// The bits that any of the codes has: they stay within a width exactly where every code does. No test in the loop ends it, so that the compiler takes many codes at once.
pub fn bits_of(codes: &[u16]) -> u16
    ensures { BitsOf result codes.now }
{
    codes.iter().fold(0, |bits, code| bits | *code)
}

// Question 12, layer by layer; a layer has `run` codes, and the widths are 2 to 16.
pub fn all_known(codes: &[u16], run: usize, widths: &[u32]) -> bool
    requires { InLayers run widths.now codes.now }
    ensures { result ≡ all (λ good. good) (zip_with (λ w part. all (code_in_range w) part) widths.now (layers run codes.now)) }
{
    for (width, part) in widths.iter().zip(codes.chunks(run)) {
        if layer_width::missing_of(*width) < bits_of(part) {
            return false;
        }
    }
    true
}
