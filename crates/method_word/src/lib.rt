// Which method a word of trimlist's text names: its bytes are compared with the seven methods' words.
// Internal: `listing` asks for the method with it.
#![tactic(auto)]

ghost use Rattle.std.specs.Prelude.{◌≡◌, ◌+◌, ◌≤◌, length, take, drop};
ghost use Rattle.form.specs.Output.{same_word, method_number};
ghost use Rattle.method_word.specs.Words.{named_number};

use method::Method;

// Are the bytes the word's? A function of its own, since `==` of a slice with an array's literal is refused.
#[tactic(auto, using(crate::proofs::WordLaws::same_bytes))]
fn word_is(bytes: &[u8], word: &[u8]) -> bool
    ensures { result ≡ same_word bytes.now word.now }
{
    bytes == word
}

// The method whose word is the n bytes from `at` on, or none where it is no method's. A test for each word: a `match` on the bytes left some fifty goals open.
#[tactic(auto, unfolding(form::specs::Output::method_number, form::specs::Output::method_words, form::specs::Output::place_of, form::specs::Form::bytes))]
pub fn method_of(s: &[u8], at: usize, n: usize) -> Option<Method>
    requires { at + n ≤ length s.now }
    ensures { named_number result ≡ method_number (take n (drop at s.now)) }
{
    let word = &s[at..at + n];
    if word_is(word, b"shave") {
        Some(Method::Shave)
    } else if word_is(word, b"set") {
        Some(Method::Set)
    } else if word_is(word, b"groom") {
        Some(Method::Groom)
    } else if word_is(word, b"halfshave") {
        Some(Method::Halfshave)
    } else if word_is(word, b"round") {
        Some(Method::Round)
    } else if word_is(word, b"absolute") {
        Some(Method::Absolute)
    } else if word_is(word, b"digits") {
        Some(Method::Digits)
    } else {
        None
    }
}
