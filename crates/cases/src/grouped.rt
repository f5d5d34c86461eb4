// The kinds of cases about byte planes, where the bytes of readings are grouped: of four singles, so that each plane has four bytes and is written as a pattern is. Each function
// runs a row's case on the library, prints it, and answers whether it is right.
ghost use Rattle.std.specs.Prelude.{◌≤◌};

use crate::trims::number_of;
use refusal::Refusal;
use table::call::Call;
use table::fields::{MARK, Row};
use table::line::Printer;
use trim::Counts;

// The planes, each as its four bytes stand, the first one first.
fn each_plane(planes: [u8; 16]) -> [u32; 4] {
    let mut each = [0; 4];
    for (plane, bytes) in each.iter_mut().zip(planes.chunks(4)) {
        for byte in bytes {
            *plane = *plane % 0x0100_0000 * 0x100 + *byte as u32;
        }
    }
    each
}

// The planes of four readings after a trim there, the readings that come back from them, and what the trim answered.
#[derive(Clone, Copy)]
struct InPlanes {
    planes: [u32; 4],
    readings: [u32; 4],
    answer: Result<Counts, Refusal>,
}

fn in_planes(readings: [u32; 4], call: Call, missing: u32) -> InPlanes {
    let mut planes = [0u8; 16];
    let _ = planes::planes_of_singles(&readings, &mut planes);
    let answer = planes::trim_planes_singles(&mut planes, 4, call.method, call.setting, missing);
    let mut back = [0u32; 4];
    let _ = planes::singles_of_planes(&planes, &mut back);
    InPlanes {
        planes: each_plane(planes),
        readings: back,
        answer,
    }
}

// The same trim of the array.
fn in_array(readings: [u32; 4], call: Call, missing: u32) -> [u32; 4] {
    let mut left = readings;
    let _ = trim::trim_singles(&mut left, call.method, call.setting, missing);
    left
}

// Four singles: their planes after a trim there. And that what comes back from these planes is what the trim leaves of the array.
pub fn grouped(out: &mut Printer<'_, impl Print>, row: Row<'_>) -> bool {
    let call = row.call(2);
    let readings = row.four_singles(4);
    let missing = row.mark(5);
    let expected = row.four_singles(6);
    let are_four = row.singles(4).len() == 4 && row.singles(6).len() == 4;
    let got = in_planes(readings, call, missing);
    let ok = are_four
        && got.planes == expected
        && got.readings == in_array(readings, call, missing);
    out.start_list(row);
    out.patterns(&readings);
    out.put(format_args!(" {call} in planes, mark"));
    out.pattern_at(0, missing);
    out.expecting();
    out.patterns(&expected);
    out.getting();
    out.patterns(&got.planes);
    out.put(" ");
    out.judge_accepted(row, got.answer.map(|_| ok))
}

// What a trim answers in a buffer of n bytes, at most 20.
fn asked_of(n: usize, told: u64, call: Call) -> Result<Counts, Refusal>
    requires { n ≤ 20 }
{
    let mut planes = [0u8; 20];
    planes::trim_planes_singles(
        &mut planes[..n],
        told as usize,
        call.method,
        call.setting,
        MARK,
    )
}

// The questions of trimming in planes: a buffer of whole readings and more bytes, and the number of readings that is told.
pub fn held(out: &mut Printer<'_, impl Print>, row: Row<'_>) -> bool {
    let call = row.call(2);
    let bytes = 4 * row.length(4) + row.length(5);
    let told = row.hex(6);
    let answer = asked_of(bytes, told, call);
    out.start_call(row, call);
    out.put(format_args!(", {bytes} bytes, told {told}"));
    out.answered(row, row.refusal(7), number_of(answer), true)
}
