// Byte planes: the lowest bytes of all readings stand together, then all second bytes, and so on. Conversions of an array to its planes and back, and trimming of readings in planes.
#![tactic(auto)]

ghost use Rattle.std.specs.Prelude.{◌≡◌, ◌≢◌, ◌*◌, MatchResult};
ghost use Rattle.refusal.specs.Refusals.{outcome_of};
ghost use Rattle.meaning.specs.Planes.{to_planes, from_planes, trim_planes_singles, trim_planes_doubles};
ghost use Rattle.trim.specs.Answers.{counts};
ghost use Rattle.planes.specs.Answers.{answer_of};

use refusal::Refusal;
use trim::Counts;

// Does a buffer of so many bytes hold n readings of `each` bytes exactly? The product of a number that a caller tells could wrap around.
fn ask_planes(bytes: usize, each: usize, n: usize) -> Result<(), Refusal>
    ensures { MatchResult result (λ _. bytes ≡ n * each) (λ refusal. (refusal ≡ Refusal.PlanesOfWrongLength) × (bytes ≢ n * each)) }
{
    if n.checked_mul(each) != Some(bytes) {
        return Err(Refusal::PlanesOfWrongLength);
    }
    Ok(())
}

// ---- singles

// Writes the planes of an array of singles, lowest byte first. Refused with 13, and nothing written, unless there are exactly 4 bytes for each reading.
#[tactic(auto, using(crate::proofs::Calls::to_refused, crate::proofs::Calls::to_done))]
pub fn planes_of_singles(readings: &[u32], planes: &mut [u8]) -> Result<(), Refusal>
    ensures answer { answer_of result ≡ (to_planes 4 readings.now planes.old).answer }
    ensures content { planes.new ≡ (to_planes 4 readings.now planes.old).content }
{
    let n = readings.len();
    ask_planes(planes.len(), 4, n)?;
    array_planes::write_singles(readings, planes, n, 0);
    Ok(())
}

// Writes the array of singles that stands in planes. Refused with 13, and nothing written, unless there are exactly 4 bytes for each reading.
#[tactic(auto, using(crate::proofs::Calls::from_refused, crate::proofs::Calls::from_done))]
pub fn singles_of_planes(planes: &[u8], readings: &mut [u32]) -> Result<(), Refusal>
    ensures answer { answer_of result ≡ (from_planes 4 planes.now readings.old).answer }
    ensures content { readings.new ≡ (from_planes 4 planes.now readings.old).content }
{
    let n = readings.len();
    ask_planes(planes.len(), 4, n)?;
    array_planes::read_singles(planes, n, 0, readings);
    Ok(())
}

// Trims n singles in planes, as `trim::trim_singles` trims them in an array. Refused, and nothing written, as there, and then with 13 unless there are exactly 4 bytes for each reading.
pub fn trim_planes_singles(
    planes: &mut [u8],
    n: usize,
    method: u32,
    setting: i32,
    mark: u32,
) -> Result<Counts, Refusal>
    ensures answer { outcome_of counts result ≡ (trim_planes_singles method setting mark n planes.old).answer }
    ensures content { planes.new ≡ (trim_planes_singles method setting mark n planes.old).content }
{
    let asked = asking::ask_single(method, setting)?;
    ask_planes(planes.len(), 4, n)?;
    let sums = plane_blocks::method_singles(planes, n, asked.method, asked.number, mark);
    Ok(Counts::from(sums))
}

// ---- doubles: they differ from the singles by the bytes of a reading and by each call that they make, so one generic function would be no plainer

// Writes the planes of an array of doubles, lowest byte first. Refused with 13, and nothing written, unless there are exactly 8 bytes for each reading.
#[tactic(auto, using(crate::proofs::Calls::to_refused, crate::proofs::Calls::to_done))]
pub fn planes_of_doubles(readings: &[u64], planes: &mut [u8]) -> Result<(), Refusal>
    ensures answer { answer_of result ≡ (to_planes 8 readings.now planes.old).answer }
    ensures content { planes.new ≡ (to_planes 8 readings.now planes.old).content }
{
    let n = readings.len();
    ask_planes(planes.len(), 8, n)?;
    array_planes::write_doubles(readings, planes, n, 0);
    Ok(())
}

// Writes the array of doubles that stands in planes. Refused with 13, and nothing written, unless there are exactly 8 bytes for each reading.
#[tactic(auto, using(crate::proofs::Calls::from_refused, crate::proofs::Calls::from_done))]
pub fn doubles_of_planes(planes: &[u8], readings: &mut [u64]) -> Result<(), Refusal>
    ensures answer { answer_of result ≡ (from_planes 8 planes.now readings.old).answer }
    ensures content { readings.new ≡ (from_planes 8 planes.now readings.old).content }
{
    let n = readings.len();
    ask_planes(planes.len(), 8, n)?;
    array_planes::read_doubles(planes, n, 0, readings);
    Ok(())
}

// Trims n doubles in planes, as `trim::trim_doubles` trims them in an array. Refused, and nothing written, as there, and then with 13 unless there are exactly 8 bytes for each reading.
pub fn trim_planes_doubles(
    planes: &mut [u8],
    n: usize,
    method: u32,
    setting: i32,
    mark: u64,
) -> Result<Counts, Refusal>
    ensures answer { outcome_of counts result ≡ (trim_planes_doubles method setting mark n planes.old).answer }
    ensures content { planes.new ≡ (trim_planes_doubles method setting mark n planes.old).content }
{
    let asked = asking::ask_double(method, setting)?;
    ask_planes(planes.len(), 8, n)?;
    let sums = plane_blocks::method_doubles(planes, n, asked.method, asked.number, mark);
    Ok(Counts::from(sums))
}
