// The kinds of cases, how a row of each is written, and the function that runs it.
use crate::grouped::{grouped, held};
use crate::layers::{asked_layer, asked_pack, asked_unpack, layers, unpacked};
use crate::limits::{exceeds, outside};
use crate::sums::number;
use crate::texts::file;
use crate::trims::{array, asked, asked_double, double, loader, one_single, paper, twice};
use table::faults::{Fault, Shape, check, check_plain, no_kind};
use table::fields::Row;
use table::line::Printer;

#[derive(Clone, Copy, Debug, PartialEq, Eq)]
pub enum Kind {
    Single,
    Twice,
    Double,
    Loader,
    Bits,
    Question,
    Wide,
    Array,
    Readings,
    Codes,
    Pack,
    Unpack,
    Values,
    Exceeds,
    Outside,
    Grouped,
    Held,
    Number,
    File,
}

// A word that is no kind's.
#[derive(Clone, Copy, Debug, PartialEq, Eq)]
pub struct UnknownKind;

impl TryFrom<&[u8]> for Kind {
    type Error = UnknownKind;

    fn try_from(word: &[u8]) -> Result<Self, UnknownKind> {
        match word {
            b"single" => Ok(Kind::Single),
            b"twice" => Ok(Kind::Twice),
            b"double" => Ok(Kind::Double),
            b"loader" => Ok(Kind::Loader),
            b"bits" => Ok(Kind::Bits),
            b"question" => Ok(Kind::Question),
            b"wide" => Ok(Kind::Wide),
            b"array" => Ok(Kind::Array),
            b"readings" => Ok(Kind::Readings),
            b"codes" => Ok(Kind::Codes),
            b"pack" => Ok(Kind::Pack),
            b"unpack" => Ok(Kind::Unpack),
            b"values" => Ok(Kind::Values),
            b"exceeds" => Ok(Kind::Exceeds),
            b"outside" => Ok(Kind::Outside),
            b"grouped" => Ok(Kind::Grouped),
            b"held" => Ok(Kind::Held),
            b"number" => Ok(Kind::Number),
            b"file" => Ok(Kind::File),
            _ => Err(UnknownKind),
        }
    }
}

impl Kind {
    // How a row is written, as `table::faults` has it: the kind, and the name and the form of each further field.
    // The forms are any, bits, code, double, empty, fate, hexadecimal, integer, length, method, quantity, refusal, single, text and width.
    fn shape(self) -> Shape<'static> {
        Shape(match self {
            Kind::Single => {
                b"single|source:any|method:method|setting:integer|reading:single|mark:single?|what must come:single|fate:fate?"
            }
            Kind::Twice => {
                b"twice|source:any|method:method|setting:integer|reading:single|mark:single?|what must come:single|fate:empty|second method:method|second setting:integer"
            }
            Kind::Double => {
                b"double|source:any|method:method|setting:integer|reading:double|mark:empty|what must come:double|fate:fate?"
            }
            Kind::Loader => {
                b"loader|source:any|method:method|setting:integer|reading:single|turn:hexadecimal|what must come:hexadecimal"
            }
            Kind::Bits => b"bits|source:any|method:method|setting:integer|what must come:bits",
            Kind::Question => {
                b"question|source:any|method:method|setting:integer|reading:empty|mark:empty|refusal:refusal"
            }
            Kind::Wide => {
                b"wide|source:any|method:method|setting:integer|reading:empty|mark:empty|refusal:refusal"
            }
            Kind::Array => {
                b"array|source:any|method:method|setting:integer|readings:single*4|mark:single?|what must come:single*4"
            }
            Kind::Readings => {
                b"readings|source:any|L:length|widths:width*5|readings:single*4|references:single*5|exponents:integer*5|codes:code*4"
            }
            Kind::Codes => {
                b"codes|source:any|width:width|codes:code*3|reference:single|exponent:integer|mark:double?|what must come:double*3"
            }
            Kind::Pack => {
                b"pack|source:any|L:length|widths:width?*3|readings:single?*4|codes:quantity|references:quantity|exponents:quantity|refusal:refusal"
            }
            Kind::Unpack => {
                b"unpack|source:any|L:length|widths:width?*3|codes:quantity|references:quantity|exponents:quantity|readings:quantity|refusal:refusal"
            }
            Kind::Values => {
                b"values|source:any|width:width|code:code|reference:single|exponent:integer|mark:double?|refusal:refusal"
            }
            Kind::Exceeds => {
                b"exceeds|source:any|p:integer|raw:single?*3|trimmed:single?*4|mark:single?|place:quantity?|read:quantity?|refusal:refusal"
            }
            Kind::Outside => {
                b"outside|source:any|p:integer|raw:double?*3|trimmed:double?*4|mark:double?|place:quantity?|read:quantity?|refusal:refusal"
            }
            Kind::Grouped => {
                b"grouped|source:any|method:method|setting:integer|readings:single*4|mark:single?|planes:single*4"
            }
            Kind::Held => {
                b"held|source:any|method:method|setting:integer|readings:quantity|more bytes:quantity|told:hexadecimal|refusal:refusal"
            }
            Kind::Number => {
                b"number|source:any|width:width|codes:code?*3|present:quantity?|sum:length?|refusal:refusal"
            }
            Kind::File => b"file|source:any|text:text|what must come:text",
        })
    }

    // The kind of a row that can be run; of another one, why it can't.
    pub fn of(row: Row<'_>) -> Result<Kind, Fault<'_>> {
        check_plain(row)?;
        let Ok(kind) = Kind::try_from(row.field(0)) else {
            return Err(no_kind(row));
        };
        check(row, kind.shape())?;
        Ok(kind)
    }

    // Runs a row that is written so: whether it is right.
    pub fn run(self, out: &mut Printer<'_, impl Print>, row: Row<'_>) -> bool {
        match self {
            Kind::Single => one_single(out, row),
            Kind::Twice => twice(out, row),
            Kind::Double => double(out, row),
            Kind::Loader => loader(out, row),
            Kind::Bits => paper(out, row),
            Kind::Question => asked(out, row),
            Kind::Wide => asked_double(out, row),
            Kind::Array => array(out, row),
            Kind::Readings => layers(out, row),
            Kind::Codes => unpacked(out, row),
            Kind::Pack => asked_pack(out, row),
            Kind::Unpack => asked_unpack(out, row),
            Kind::Values => asked_layer(out, row),
            Kind::Exceeds => exceeds(out, row),
            Kind::Outside => outside(out, row),
            Kind::Grouped => grouped(out, row),
            Kind::Held => held(out, row),
            Kind::Number => number(out, row),
            Kind::File => file(out, row),
        }
    }
}
