// The kind of cases about texts, run on `listing`, the text function of trimlist.
use arrayvec::ArrayVec;
use table::fields::Row;
use table::line::Printer;

// The text that a field stands for: a backslash and an n are a newline. A field that is run has no other backslash, and has at most 400 bytes.
fn unfolded(field: &[u8]) -> ArrayVec<u8, 400> {
    let mut text = ArrayVec::new();
    let mut is_behind = false;
    for byte in field {
        let is_backslash = *byte == b'\\';
        if !is_behind {
            let _ = text.try_push(if is_backslash { b'\n' } else { *byte });
        }
        is_behind = is_backslash && !is_behind;
    }
    text
}

// A whole text, with \n where a line ends. Its lines: what was given, what was expected and what came, both as they stand and unfolded.
pub fn file(out: &mut Printer<'_, impl Print>, row: Row<'_>) -> bool {
    let text = unfolded(row.field(2));
    let expected = unfolded(row.field(3));
    let mut answer = [0u8; 65536];
    let n = listing::listing(text.as_slice(), &mut answer);
    let got = &answer[..n];
    out.start(row);
    out.put_bytes(row.field(2));
    out.expecting();
    out.put(" ");
    out.put_bytes(row.field(3));
    out.getting();
    out.put(" ");
    out.shown(got);
    out.put(" ");
    out.judge(row, got == expected.as_slice())
}
