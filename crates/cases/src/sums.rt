// The kind of cases about the totals of a layer, with up to four codes. The function `number` runs a row's case on the library, prints it, and answers whether it is right.
use refusal::Refusal;
use table::fields::Row;
use table::line::Printer;
use totals::Total;

// What a call answers, or has to: the refusal's number, how many codes are present, and their sum.
#[derive(Clone, Copy, Debug, PartialEq, Eq)]
struct Summed {
    refusal: Option<u32>,
    count: Option<u64>,
    sum: Option<u64>,
}

impl Summed {
    fn of(answer: Result<Total, Refusal>) -> Summed {
        match answer {
            Ok(total) => Summed {
                refusal: None,
                count: Some(u64::from(total.count)),
                sum: Some(u64::from(total.sum)),
            },
            Err(refusal) => Summed {
                refusal: Some(refusal.number()),
                count: None,
                sum: None,
            },
        }
    }

    // What the row says. An empty number is none, and an empty sum; both are empty where the call is refused.
    fn expected(row: Row<'_>) -> Summed {
        Summed {
            refusal: row.refusal(6),
            count: row.given(4),
            sum: row.given(5),
        }
    }

    fn put(self, out: &mut Printer<'_, impl Print>) {
        if let Some(number) = self.refusal {
            out.put(format_args!(" refused {number}"));
        }
        if let Some(count) = self.count {
            out.put(format_args!(" {count} present"));
        }
        if self.count.is_some() && self.sum.is_some() {
            out.put(",");
        }
        if let Some(sum) = self.sum {
            out.put(format_args!(" sum {sum}"));
        }
    }
}

// The codes of one layer: how many are present, and their sum.
pub fn number(out: &mut Printer<'_, impl Print>, row: Row<'_>) -> bool {
    let width = row.width(2);
    let codes = row.codes(3);
    let expected = Summed::expected(row);
    let got = Summed::of(totals::totals(codes.as_slice(), width));
    out.start_list(row);
    out.put(format_args!(" width {width} codes"));
    out.numbers(codes.as_slice());
    out.expecting();
    expected.put(out);
    out.getting();
    got.put(out);
    out.put(" ");
    out.judge(row, got == expected)
}
