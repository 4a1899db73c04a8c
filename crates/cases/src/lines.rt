// The lists and the sheets: a line of lists.txt or sheets.txt for each. Bars part it. A list's has two decimal numbers of room, in report
// and scratch, then the list, each double as the 16 hexadecimal digits of its bits. A sheet's has one number of room, then the card, each
// byte as two such digits. Then comes the answer, which is passed over. The last lines of either file stand at the edges of document 02's
// requests; edge_lists.txt and edge_sheets.txt say which.
//
// A file is read in parts and passed byte by byte, so that one of any length takes the same memory. Each line with a line feed is run, up to
// the most reads, whatever its bytes are: one that is no digit counts as 0, and what is parted otherwise than above is read as far as it
// goes.
ghost use Rattle.std.specs.Prelude.{◌<◌};

use crate::answers::{print_list, print_sheet};
use fields::limits::MOST_FIELDS;
use std::fs;
use std::io::Read;
use std::rt::Files;
use text::MOST_READ_BYTES;

// One more than the longest good list has. Doubles past it are ignored: a list of more has a wrong length, and so have its first doubles.
const MOST_DOUBLES: usize = MOST_FIELDS + 1;

// Reads of a file at most, which may have no end, and the bytes of each but the last.
const MOST_READS: usize = 65536;

const READ_BYTES: usize = 4096;

pub(crate) const LINE_FEED: u8 = b'\n';

const SPACE: u8 = b' ';

const BAR: u8 = b'|';

// The bases of digits, and how many a double's bits and a byte have.
const DECIMAL: u64 = 10;

const HEXADECIMAL: u64 = 16;

const DIGITS_OF_DOUBLE: u64 = 16;

const DIGITS_OF_BYTE: u64 = 2;

// The weight of a double's highest digit, and how many values a byte has.
const HIGHEST: u64 = 1 << 60;

const BYTE_VALUES: u64 = 256;

// What the next byte of a line belongs to.
#[derive(Clone, Copy)]
enum Part {
    Room,
    ScratchRoom,
    List,
    Card,
    AnswerOfList,
    AnswerOfSheet,
}

// The doubles and bytes of lines. What a line does not write over stays of those before it.
#[derive(Drop)]
struct Kept {
    list: [f64; MOST_DOUBLES],
    card: [u8; MOST_READ_BYTES],
}

// A line as far as it is read: its part, the rooms in report or sheet and in scratch, the digits of the next double or byte and the bits
// that they make, and how many doubles or bytes are kept.
#[derive(Drop)]
struct Line {
    part: Part,
    room: u64,
    scratch_room: u64,
    digits: u64,
    bits: u64,
    kept: usize,
}

// What a digit adds. By hand: any other byte counts as 0, a capital letter too.
fn value_of(byte: u8) -> u64
    ensures { result < 16 }
{
    match byte {
        b'0'..=b'9' => u64::from(byte - b'0'),
        b'a'..=b'f' => u64::from(byte - b'a') + 10,
        _ => 0,
    }
}

// A room of one decimal digit more.
fn longer(room: u64, byte: u8) -> u64 {
    room % HIGHEST * DECIMAL + value_of(byte)
}

impl Line {
    fn new() -> Line {
        Line {
            part: Part::Room,
            room: 0,
            scratch_room: 0,
            digits: 0,
            bits: 0,
            kept: 0,
        }
    }

    fn pass_space(&mut self) {
        if let Part::Room = self.part {
            self.part = Part::ScratchRoom;
        }
    }

    fn pass_bar(&mut self) {
        self.part = match self.part {
            Part::Room => Part::Card,
            Part::ScratchRoom => Part::List,
            Part::Card => Part::AnswerOfSheet,
            Part::List => Part::AnswerOfList,
            answer => answer,
        };
    }

    // The bits of a number of so many digits, once all of them are read.
    fn number(&mut self, digits: u64, byte: u8) -> Option<u64> {
        self.bits = self.bits % HIGHEST * HEXADECIMAL + value_of(byte);
        if self.digits < digits.saturating_sub(1) {
            self.digits += 1;
            return None;
        }
        self.digits = 0;
        Some(self.bits)
    }

    // A double or a byte behind those that are kept, if there is room.
    fn keep<T: Copy>(&mut self, all: &mut [T], next: T) {
        if self.kept < all.len() {
            all[self.kept] = next;
            self.kept += 1;
        }
    }

    fn pass_digit(&mut self, byte: u8, kept: &mut Kept) {
        match self.part {
            Part::Room => self.room = longer(self.room, byte),
            Part::ScratchRoom => self.scratch_room = longer(self.scratch_room, byte),
            Part::List => {
                if let Some(bits) = self.number(DIGITS_OF_DOUBLE, byte) {
                    let double = numbers::double_of(bits).unwrap_or(f64::NAN);
                    self.keep(&mut kept.list, double);
                }
            }
            Part::Card => {
                if let Some(bits) = self.number(DIGITS_OF_BYTE, byte) {
                    self.keep(&mut kept.card, (bits % BYTE_VALUES) as u8);
                }
            }
            Part::AnswerOfList | Part::AnswerOfSheet => {}
        }
    }

    // A list is run and a sheet made at the end of its line.
    fn end(&self, rt: &impl Print, kept: &Kept) {
        let room = self.room as usize;
        if let Part::AnswerOfSheet = self.part {
            if let Some(card) = kept.card.get(..self.kept) {
                print_sheet(rt, card, room);
            }
        } else if let Some(list) = kept.list.get(..self.kept) {
            print_list(rt, list, room, self.scratch_room as usize);
        }
    }

    // Past any byte.
    fn pass(&mut self, rt: &impl Print, byte: u8, kept: &mut Kept) {
        match byte {
            LINE_FEED => {
                self.end(rt, kept);
                *self = Line::new();
            }
            SPACE => self.pass_space(),
            BAR => self.pass_bar(),
            digit => self.pass_digit(digit, kept),
        }
    }
}

// Past the bytes of a part of a file.
fn pass_all(rt: &impl Print, part: &[u8], line: &mut Line, kept: &mut Kept) {
    for &byte in part {
        line.pass(rt, byte, kept);
    }
}

// Each line of an open file.
fn run_file<R: Read>(rt: &impl Print, file: &mut R) {
    let mut kept = Kept {
        list: [0.0; MOST_DOUBLES],
        card: [0; MOST_READ_BYTES],
    };
    let mut line = Line::new();
    let mut part = [0u8; READ_BYTES];
    for _ in 0..MOST_READS {
        let count = input::read_full(file, &mut part);
        if count == 0 {
            return;
        }
        pass_all(rt, &part[..count], &mut line, &mut kept);
    }
}

fn run_named(rt: &(impl Files + Print + Eprint), name: &str) {
    match fs::open(rt, name) {
        Ok(mut file) => run_file(rt, &mut file),
        Err(error) => {
            let _ = eprintln!(rt; "{name}: {error}");
        }
    }
}

pub(crate) fn run_lists(rt: &(impl Files + Print + Eprint)) {
    run_named(rt, "lists.txt");
}

pub(crate) fn run_sheets(rt: &(impl Files + Print + Eprint)) {
    run_named(rt, "sheets.txt");
}
