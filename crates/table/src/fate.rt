// What the counts say of a reading, beside whether it changed.
use std::fmt;

#[derive(Clone, Copy, Debug, PartialEq, Eq)]
pub enum Fate {
    Plain,
    Spared,
    Clipped,
    Missing,
    Refused,
    Contradictory,
}

// As it stands behind the verdict.
impl fmt::Display for Fate {
    fn fmt<W: fmt::Write>(&self, f: &mut fmt::Formatter<W>) -> fmt::Result {
        f.write_str(match self {
            Fate::Plain => "",
            Fate::Spared => ", spared",
            Fate::Clipped => ", clipped",
            Fate::Missing => ", missing",
            Fate::Refused => ", refused",
            Fate::Contradictory => ", with counts that contradict it",
        })
    }
}
