// The kinds of cases about the first reading beyond a limit, with up to four readings in each array. Each function runs a row's case on the library, prints it, and answers
// whether it is right.
use beyond::Compared;
use refusal::Refusal;
use table::fields::Row;
use table::line::{Pattern, Printer};

// What a comparison answers, or has to: the refusal's number, the place that was found, and how many readings were read.
#[derive(Clone, Copy, Debug, PartialEq, Eq)]
struct Seen {
    refusal: Option<u32>,
    place: Option<u64>,
    read: Option<u64>,
}

impl Seen {
    fn of(answer: Result<Compared, Refusal>) -> Seen {
        match answer {
            Ok(compared) => Seen {
                refusal: None,
                place: compared.place.map(|place| place as u64),
                read: Some(compared.read as u64),
            },
            Err(refusal) => Seen {
                refusal: Some(refusal.number()),
                place: None,
                read: None,
            },
        }
    }

    // What the row says: place, number read and refusal. An empty place is none, and an empty number is none.
    fn expected(row: Row<'_>) -> Seen {
        Seen {
            refusal: row.refusal(8),
            place: row.given(6),
            read: row.given(7),
        }
    }

    fn put(self, out: &mut Printer<'_, impl Print>) {
        if let Some(number) = self.refusal {
            out.put(format_args!(" refused {number}"));
        }
        match (self.place, self.refusal) {
            (Some(place), _) => out.put(format_args!(" place {place}")),
            (None, None) => out.put(" none"),
            (None, Some(_)) => {}
        }
        if let Some(read) = self.read {
            out.put(format_args!(", read {read}"));
        }
    }
}

// Prints a comparison of two arrays, and what came beside what had to.
fn judged<T: Pattern>(
    out: &mut Printer<'_, impl Print>,
    row: Row<'_>,
    raw: &[T],
    trimmed: &[T],
    mark: T,
    answer: Result<Compared, Refusal>,
) -> bool {
    let p = row.signed(2);
    let expected = Seen::expected(row);
    let got = Seen::of(answer);
    out.start_list(row);
    out.patterns(raw);
    out.put(" beside");
    out.patterns(trimmed);
    out.put(format_args!(", limit 2^{p}, mark"));
    out.pattern_at(0, mark);
    out.expecting();
    expected.put(out);
    out.getting();
    got.put(out);
    out.put(" ");
    out.judge(row, got == expected)
}

// Up to four singles as they were sent, beside as many as they were trimmed.
pub fn exceeds(out: &mut Printer<'_, impl Print>, row: Row<'_>) -> bool {
    let raw = row.singles(3);
    let trimmed = row.singles(4);
    let mark = row.mark(5);
    let answer = beyond::first_beyond_singles(
        raw.as_slice(),
        trimmed.as_slice(),
        mark,
        row.signed(2),
    );
    judged(out, row, raw.as_slice(), trimmed.as_slice(), mark, answer)
}

// The same of doubles.
pub fn outside(out: &mut Printer<'_, impl Print>, row: Row<'_>) -> bool {
    let raw = row.doubles(3);
    let trimmed = row.doubles(4);
    let mark = row.mark_double(5);
    let answer = beyond::first_beyond_doubles(
        raw.as_slice(),
        trimmed.as_slice(),
        mark,
        row.signed(2),
    );
    judged(out, row, raw.as_slice(), trimmed.as_slice(), mark, answer)
}
