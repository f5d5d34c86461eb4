// What one single and one double share: what is left of a reading, and the laws of its methods, for every width. A width's words are `W`: of 32 bits for singles, of 64 for doubles.
#![tactic(auto)]

// What is left of a reading, and numbers of 0 or 1: whether it is changed, whether it or its result is the mark, whether it is clipped, whether it is missing, whether
// its exact value rose. The numbers are as wide as the reading, so that a loop over readings adds them up lane by lane.
#[derive(Clone, Copy)]
pub struct Trimmed<W> {
    pub pattern: W,
    pub changed: W,
    pub marked: W,
    pub clipped: W,
    pub missing: W,
    pub risen: W,
}

// What methods 0 to 4 need of a tail, worked out once for an array: how many bits it has, all of them ones, and its top bit.
#[derive(Clone, Copy)]
pub struct Tail<W> {
    pub bits: u32,
    pub ones: W,
    pub half: W,
}
