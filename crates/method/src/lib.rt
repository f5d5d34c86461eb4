// The seven methods, each with its number and its name.
#![tactic(auto)]

ghost use Rattle.std.specs.Prelude.{◌≡◌};
ghost use Rattle.method.specs.Kinds.{number_of, Numbered};

use std::fmt;

#[derive(Clone, Copy, Debug, PartialEq, Eq)]
pub enum Method {
    Shave,
    Set,
    Groom,
    Halfshave,
    Round,
    Absolute,
    Digits,
}

// A number that no method has.
#[derive(Clone, Copy, Debug, PartialEq, Eq)]
pub struct UnknownMethod(pub u32);

impl Method {
    // The number that stands for it.
    pub fn number(self) -> u32
        ensures { result ≡ number_of self }
    {
        match self {
            Method::Shave => 0,
            Method::Set => 1,
            Method::Groom => 2,
            Method::Halfshave => 3,
            Method::Round => 4,
            Method::Absolute => 5,
            Method::Digits => 6,
        }
    }
}

impl TryFrom<u32> for Method {
    type Error = UnknownMethod;

    ghost try_from_gives = { Numbered };

    fn try_from(number: u32) -> Result<Self, UnknownMethod> {
        match number {
            0 => Ok(Method::Shave),
            1 => Ok(Method::Set),
            2 => Ok(Method::Groom),
            3 => Ok(Method::Halfshave),
            4 => Ok(Method::Round),
            5 => Ok(Method::Absolute),
            6 => Ok(Method::Digits),
            _ => Err(UnknownMethod(number)),
        }
    }
}

// The name, as a job has it.
impl fmt::Display for Method {
    fn fmt<W: fmt::Write>(&self, f: &mut fmt::Formatter<W>) -> fmt::Result {
        f.write_str(match self {
            Method::Shave => "shave",
            Method::Set => "set",
            Method::Groom => "groom",
            Method::Halfshave => "halfshave",
            Method::Round => "round",
            Method::Absolute => "absolute",
            Method::Digits => "digits",
        })
    }
}
