// The questions that a trim asks before it begins, in both widths: is the method known, is its setting in range?
// What they answer holds the setting as a natural number, so that no code after it works with signed numbers.
// Internal: the calls open to users are those of `trim` and `beyond`.
#![tactic(auto)]

ghost use Rattle.std.specs.Prelude.{◌≡◌, ℕ, ◌<◌, ℤ, pos, nat_abs, if◌then◌else◌, IfOk};
ghost use Rattle.method.specs.Kinds.{number_of as method_number};
ghost use Rattle.meaning.specs.Questions.{between};
ghost use Rattle.asking.specs.Asked.{refusal_of, asked_number, refusal_in, number_in, limits_of, natural_setting};

use method::Method;
use refusal::Refusal;

// An accepted job: its method, and its setting as a natural number: for absolute steps the setting plus 149 (1074 for doubles), else the setting itself.
#[derive(Clone, Copy)]
pub struct Asked {
    pub method: Method,
    pub number: u32,
}

// What a width's settings may be.
#[derive(Clone, Copy)]
struct Limits {
    // The most bits to keep.
    kept: u32,
    // The exponent of the least unit is this far below 0, and that of the greatest is `units` above the least.
    lift: u32,
    units: u32,
    // The most digits.
    digits: u32,
}

const SINGLE: Limits = Limits {
    kept: 23,
    lift: 149,
    units: 276,
    digits: 7,
};

const DOUBLE: Limits = Limits {
    kept: 52,
    lift: 1074,
    units: 2097,
    digits: 15,
};

// The setting where it is from `least` to `most`.
fn in_range(setting: i64, least: u32, most: u32) -> Option<u32>
    ensures { result ≡ (if between (pos least) setting (pos most) then Some (nat_abs setting) else None) }
{
    u32::try_from(setting)
        .ok()
        .filter(|n| (least..=most).contains(n))
}

// The setting as a natural number, where it is in the method's range.
fn natural(method: Method, setting: i32, limits: Limits) -> Option<u32>
    ensures { (F X : ℕ) → limits ≡ limits_of F X → result ≡ natural_setting F X (method_number method) setting }
{
    let setting = i64::from(setting);
    match method {
        Method::Absolute => in_range(setting + i64::from(limits.lift), 0, limits.units),
        Method::Digits => in_range(setting, 1, limits.digits),
        _ => in_range(setting, 0, limits.kept),
    }
}

// Both questions, in their order.
fn ask(method: u32, setting: i32, limits: Limits) -> Result<Asked, Refusal>
    ensures refusal { (F X : ℕ) → limits ≡ limits_of F X → refusal_in result ≡ refusal_of F X method setting }
    ensures number { (F X : ℕ) → limits ≡ limits_of F X → number_in result ≡ asked_number F X method setting }
    ensures method { IfOk result (λ asked. method_number asked.method ≡ method) }
{
    let method = Method::try_from(method).map_err(|_| Refusal::MethodUnknown)?;
    let number = natural(method, setting, limits).ok_or(Refusal::SettingOutOfRange)?;
    Ok(Asked { method, number })
}

// The questions before singles are trimmed. A method comes as a number here and in the calls above: any number may be given, and whether it is a method's is the first question. Two calls of
// a line, singles and doubles: their limits are all that differs.
pub fn ask_single(method: u32, setting: i32) -> Result<Asked, Refusal>
    ensures refusal { refusal_in result ≡ refusal_of 23 8 method setting }
    ensures number { number_in result ≡ asked_number 23 8 method setting }
    ensures method { IfOk result (λ asked. method_number asked.method ≡ method) }
{
    ask(method, setting, SINGLE)
}

// The questions before doubles are trimmed.
pub fn ask_double(method: u32, setting: i32) -> Result<Asked, Refusal>
    ensures refusal { refusal_in result ≡ refusal_of 52 11 method setting }
    ensures number { number_in result ≡ asked_number 52 11 method setting }
    ensures method { IfOk result (λ asked. method_number asked.method ≡ method) }
{
    ask(method, setting, DOUBLE)
}
