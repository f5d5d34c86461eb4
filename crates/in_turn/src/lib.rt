// Lists of trims over one array with one mark, and the packing that may follow, as demand 3 speaks of them. Call i is methods[i] with settings[i], and the list is the
// pairs that both slices have. Internal: they show that the demand holds of calls as they run.
#![tactic(auto)]

ghost use Rattle.std.specs.Prelude.{◌≡◌, map};
ghost use Rattle.std.specs.Float.{binary32};
ghost use Rattle.std.specs.Float.Ieee.{to_bits};
ghost use Rattle.meaning.specs.Calls.{in_turn};
ghost use Rattle.packing.specs.Answers.{answer_of, packed};
ghost use Rattle.in_turn.specs.Lists.{calls_of, Promised};
ghost use Rattle.in_turn.specs.Packed.{PackPromised};

use refusal::Refusal;

// The calls of a list over singles, one after the other. A refused one changes nothing, and the list goes on.
fn run_singles(readings: &mut [u32], methods: &[u32], settings: &[i32], mark: u32)
    ensures { readings.new ≡ in_turn 23 8 (calls_of methods.now settings.now) mark readings.old }
{
    for (method, setting) in methods.iter().zip(settings) {
        let _ = trim::trim_singles(readings, *method, *setting, mark);
    }
}

// The calls of a list over doubles. One function for both would take a closure that changes the array, and its contract would say again what `trim` says: no plainer.
fn run_doubles(readings: &mut [u64], methods: &[u32], settings: &[i32], mark: u64)
    ensures { readings.new ≡ in_turn 52 11 (calls_of methods.now settings.now) mark readings.old }
{
    for (method, setting) in methods.iter().zip(settings) {
        let _ = trim::trim_doubles(readings, *method, *setting, mark);
    }
}

// Trims an array of singles by each call of a list in turn: what document 01 defines (demand 2), and what demand 3 promises of the array before and after it.
pub fn in_turn_singles(readings: &mut [u32], methods: &[u32], settings: &[i32], mark: u32)
    ensures content { readings.new ≡ in_turn 23 8 (calls_of methods.now settings.now) mark readings.old }
    ensures promised { Promised 23 8 (calls_of methods.now settings.now) mark readings.old readings.new }
{
    run_singles(readings, methods, settings, mark);
}

// The same for doubles: a call of its own, as each width has its own statement.
pub fn in_turn_doubles(readings: &mut [u64], methods: &[u32], settings: &[i32], mark: u64)
    ensures content { readings.new ≡ in_turn 52 11 (calls_of methods.now settings.now) mark readings.old }
    ensures promised { Promised 52 11 (calls_of methods.now settings.now) mark readings.old readings.new }
{
    run_doubles(readings, methods, settings, mark);
}

// Trims an array of singles by each call of a list in turn, then packs it with the list's mark and answers what the packing answers. Where that refuses, the readings are
// trimmed all the same. What the documents define (demand 2), and what demand 3 promises of the arrays before and after. No call open to users, and not exported.
pub fn in_turn_packed(
    readings: &mut [u32],
    methods: &[u32],
    settings: &[i32],
    length: usize,
    mark: u32,
    widths: &[u32],
    codes: &mut [u16],
    references: &mut [f32],
    exponents: &mut [i32],
) -> Result<(), Refusal>
    ensures readings { readings.new ≡ in_turn 23 8 (calls_of methods.now settings.now) mark readings.old }
    ensures answer { answer_of result ≡ (packed mark length widths.now
        (in_turn 23 8 (calls_of methods.now settings.now) mark readings.old) codes.old references.old exponents.old).answer }
    ensures codes { codes.new ≡ (packed mark length widths.now
        (in_turn 23 8 (calls_of methods.now settings.now) mark readings.old) codes.old references.old exponents.old).codes }
    ensures references { map (to_bits binary32) references.new ≡ (packed mark length widths.now
        (in_turn 23 8 (calls_of methods.now settings.now) mark readings.old) codes.old references.old exponents.old).references }
    ensures exponents { exponents.new ≡ (packed mark length widths.now
        (in_turn 23 8 (calls_of methods.now settings.now) mark readings.old) codes.old references.old exponents.old).exponents }
    ensures promised { Promised 23 8 (calls_of methods.now settings.now) mark readings.old readings.new }
    ensures claim { PackPromised (calls_of methods.now settings.now) mark readings.old readings.new length widths.now
        (answer_of result) codes.new (map (to_bits binary32) references.new) exponents.new }
{
    in_turn_singles(readings, methods, settings, mark);
    packing::pack(readings, length, mark, widths, codes, references, exponents)
}
