// A trim's call as a row has it: the number of its method, which any number may be, and its setting.
use method::{Method, UnknownMethod};
use std::fmt;

#[derive(Clone, Copy, Debug, PartialEq, Eq)]
pub struct Call {
    pub method: u32,
    pub setting: i32,
}

// As `round 7`, or `method 7 0` where no method has the number.
impl fmt::Display for Call {
    fn fmt<W: fmt::Write>(&self, f: &mut fmt::Formatter<W>) -> fmt::Result {
        let setting = self.setting;
        match Method::try_from(self.method) {
            Ok(method) => write!(f, "{method} {setting}"),
            Err(UnknownMethod(number)) => write!(f, "method {number} {setting}"),
        }
    }
}
