// Why a call is refused: the first question that is answered with "no". Each has a number, the same for every call and every language, and whoever reads the number in a log
// finds it in the header and in the README.
#![tactic(auto)]

ghost use Rattle.std.specs.Prelude.{◌≡◌};
ghost use Rattle.refusal.specs.Refusals.{number_of};

use std::fmt;

#[derive(Clone, Copy, Debug, PartialEq, Eq)]
pub enum Refusal {
    MethodUnknown,
    SettingOutOfRange,
    LengthOutOfRange,
    NoWholeLayers,
    ArrayOfWrongLength,
    ReadingNotFinite,
    ReferenceOrExponentOutOfRange,
    MarkNotNan,
    TextNotOfTheForm,
    LengthsDiffer,
    WidthOutOfRange,
    CodeOutOfRange,
    PlanesOfWrongLength,
}

impl Refusal {
    // The number that stands for it.
    pub fn number(self) -> u32
        ensures { result ≡ number_of self }
    {
        match self {
            Refusal::MethodUnknown => 1,
            Refusal::SettingOutOfRange => 2,
            Refusal::LengthOutOfRange => 3,
            Refusal::NoWholeLayers => 4,
            Refusal::ArrayOfWrongLength => 5,
            Refusal::ReadingNotFinite => 6,
            Refusal::ReferenceOrExponentOutOfRange => 7,
            Refusal::MarkNotNan => 8,
            Refusal::TextNotOfTheForm => 9,
            Refusal::LengthsDiffer => 10,
            Refusal::WidthOutOfRange => 11,
            Refusal::CodeOutOfRange => 12,
            Refusal::PlanesOfWrongLength => 13,
        }
    }
}

// The number, as `refused 9`.
impl fmt::Display for Refusal {
    fn fmt<W: fmt::Write>(&self, f: &mut fmt::Formatter<W>) -> fmt::Result {
        write!(f, "refused {}", self.number())
    }
}
