// Question 6 of packing: is each reading finite or the mark? Internal: the call open to users is packing's.
#![tactic(auto)]

ghost use Rattle.std.specs.Prelude.{◌≡◌, max};
ghost use Rattle.meaning.specs.Questions.{all, packable};
ghost use Rattle.asking_readings.specs.Largest.{largest_present};

// The larger of two numbers. By a test, and not by the library's `max` in a fold: there the compiler joined it with the choice before it, and took one reading at a time.
fn larger(a: u32, b: u32) -> u32
    ensures { result ≡ max a b }
{
    if a < b { b } else { a }
}

// The largest magnitude of the present readings, 0 where none is present.
fn largest_magnitude(readings: &[u32], mark: u32) -> u32
    ensures { result ≡ largest_present mark readings.now }
{
    let mut most: u32 = 0;
    for w in readings {
        let m = summary::choose(*w, mark, 0, *w % 0x8000_0000);
        most = larger(m, most);
    }
    most
}

// Question 6: is each reading finite or the mark?
pub fn each_packable(readings: &[u32], mark: u32) -> bool
    ensures { result ≡ all (packable mark) readings.now }
{
    largest_magnitude(readings, mark) < 0x7f80_0000
}
