// Lines of fields, of which one may be blank.
#![tactic(auto)]

ghost use Rattle.std.specs.Prelude.{◌≡◌, ◌≤◌, ◌<◌, ◌^◌, length, take};
ghost use Rattle.fields.specs.Quantities.{columns};
ghost use Rattle.fields.specs.Outcomes.{over};
ghost use Rattle.line.specs.Lines.{digits_of, field_of, blank_reads, line_length, is_shaped, is_right, line_numbers};
ghost use Rattle.line.specs.Conditions.{LineFits};

pub mod lines;

// The field that may be blank, by its number, and what it then reads.
#[derive(Clone, Copy)]
pub struct Blank {
    pub field: usize,
    pub reads: u64,
}

pub const COLUMNS: usize = 14;

pub const SPACE: u8 = b' ';

pub const ZERO: u8 = b'0';

pub const LINE_FEED: u8 = b'\n';

// By hand, since the library's `parse` takes a sign and a number of any length.
#[tactic(auto, using(crate::proofs::Fields::digits_along, std::proofs::lemmas::Grind::common_steps))]
fn digits(bytes: &[u8]) -> Option<u64>
    requires { length bytes.now ≤ columns }
    ensures { result ≡ digits_of 0 bytes.now }
{
    let mut number = 0u64;
    for &byte in bytes {
        if !byte.is_ascii_digit() {
            return None;
        }
        number = number * 10 + u64::from(byte - ZERO);
    }
    Some(number)
}

// What field number `field` reads where it is blank.
fn blank_reads(blank: Option<Blank>, field: usize) -> Option<u64>
    ensures { result ≡ blank_reads blank field }
{
    blank
        .filter(|blank| blank.field == field)
        .map(|blank| blank.reads)
}

// The number in the columns that `part` begins with, which are field number `field`.
fn read_field(part: &[u8], blank: Option<Blank>, field: usize) -> Option<u64>
    requires { columns ≤ length part.now }
    ensures { result ≡ field_of (blank_reads blank field) (take columns part.now) }
{
    let bytes = &part[..COLUMNS];
    match bytes.iter().position(|byte| *byte != SPACE) {
        Some(first) => digits(&bytes[first..]),
        None => blank_reads(blank, field),
    }
}

// Whether a line of `count` fields is all there and ends where it should.
fn is_shaped(bytes: &[u8], count: usize) -> bool
    requires { line_length count < 2 ^ 64 }
    ensures { result ≡ is_shaped count bytes.now }
{
    bytes.get(COLUMNS * count) == Some(&LINE_FEED)
}

// The line at the front of some bytes: `count` fields, the first of them numbered `field`. Whether it is right; the numbers before its
// first wrong field are written at the front of `fields`.
pub fn read_line(
    bytes: &[u8],
    blank: Option<Blank>,
    count: usize,
    field: usize,
    fields: &mut [u64],
) -> bool
    requires { LineFits count field fields.old }
    ensures value { result ≡ is_right blank count field bytes.now }
    ensures fields_after { fields.new ≡ over (line_numbers blank count field bytes.now) fields.old }
{
    if !is_shaped(bytes, count) {
        return false;
    }
    // Document 01 names this form: the slice part beginning at a field's column is handed to the number reader.
    let mut part = bytes;
    for (done, number) in fields[..count].iter_mut().enumerate() {
        match read_field(part, blank, field + done) {
            Some(read) => *number = read,
            None => return false,
        }
        part = &part[COLUMNS..];
    }
    true
}
