// A table of cases: what stands in a row, whether the row can be run, and how it is printed. Internal: `cases` is made of it.
#![tactic(auto)]

pub mod call;
pub mod fate;
pub mod faults;
pub mod fields;
pub mod forms;
pub mod line;
