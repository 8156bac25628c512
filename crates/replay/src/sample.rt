// A recorded call with its answer, read from the sample's numbers (docs/NUMBERS.md).

use host::layout::{ANSWER, ANSWER_KIND, CALL, RECORD};
use workflow::layout::NUMBERS as SHEET;

// A number that is read digit by digit; none between numbers.
#[derive(Default, Drop)]
pub struct Digits(Option<u64>);

impl Digits {
    // Takes a byte, and gives the number that it ends. A byte below the digits ends one, any other is a digit.
    pub fn take(&mut self, byte: u8) -> Option<u64> {
        if byte < b'0' {
            return self.0.take();
        }
        let tens = self.0.unwrap_or(0).wrapping_mul(10);
        self.0 = Some(tens.wrapping_add(u64::from(byte % 16)));
        None
    }
}

// Which array is read.
#[derive(Clone, Copy, PartialEq, Eq)]
pub enum Kind {
    Sheet,
    Call,
    Record,
    Answer,
    // a number of no kind: its values are the answer's, but no call is made
    Unknown,
}

impl From<u64> for Kind {
    // Kept: the sample's numbers, which no enum of the library names (a).
    fn from(number: u64) -> Kind {
        match number {
            1 => Kind::Sheet,
            2 => Kind::Call,
            3 => Kind::Record,
            4 => Kind::Answer,
            _ => Kind::Unknown,
        }
    }
}

// What the next number is.
#[derive(Clone, Copy)]
enum Due {
    Kind,
    // how many numbers are not 0
    Count { kind: Kind },
    // of the next of them its place, and then what it is
    Place { kind: Kind, left: u64 },
    Value { kind: Kind, left: u64, place: u64 },
}

// What a recorded answer is.
#[derive(Clone, Copy, PartialEq, Eq)]
pub enum Answered {
    Next,
    Wants,
    Refused,
    Unknown,
}

// Each array as it was read last.
#[derive(Drop)]
pub struct Sample {
    pub sheet: [u32; SHEET],
    pub call: [u64; CALL],
    pub record: [u64; RECORD],
    pub answer: [u64; ANSWER],
    due: Due,
}

fn put<const N: usize>(array: &mut [u64; N], place: u64, value: u64) {
    if let Some(x) = array.get_mut(place as usize) {
        *x = value;
    }
}

impl Sample {
    pub fn new() -> Sample {
        Sample {
            sheet: [0; SHEET],
            call: [0; CALL],
            record: [0; RECORD],
            answer: [0; ANSWER],
            due: Due::Kind,
        }
    }

    // Takes a number, and tells which array it ends.
    pub fn take(&mut self, number: u64) -> Option<Kind> {
        match self.due {
            Due::Kind => {
                let kind = Kind::from(number);
                self.clear(kind);
                self.due = Due::Count { kind };
            }
            Due::Count { kind } => self.due = Due::Place { kind, left: number },
            Due::Place { kind, left } => {
                self.due = Due::Value {
                    kind,
                    left,
                    place: number,
                }
            }
            Due::Value { kind, left, place } => {
                self.set(kind, place, number);
                if left == 1 {
                    self.due = Due::Kind;
                    return Some(kind);
                }
                // Kept: a count of 0 has no end, as it never had; so it wraps (d).
                self.due = Due::Place {
                    kind,
                    left: left.wrapping_sub(1),
                };
            }
        }
        None
    }

    fn clear(&mut self, kind: Kind) {
        match kind {
            Kind::Sheet => self.sheet = [0; SHEET],
            Kind::Call => self.call = [0; CALL],
            Kind::Record => self.record = [0; RECORD],
            Kind::Answer | Kind::Unknown => self.answer = [0; ANSWER],
        }
    }

    // Sets a number of an array; a place that it doesn't have is passed over.
    // Kept: the arrays are fields of two types, so their kinds are matched; and the cast cuts what a sheet's number can't hold, as it always did (d).
    fn set(&mut self, kind: Kind, place: u64, value: u64) {
        match kind {
            Kind::Sheet => {
                if let Some(x) = self.sheet.get_mut(place as usize) {
                    *x = (value % 0x1_0000_0000) as u32;
                }
            }
            Kind::Call => put(&mut self.call, place, value),
            Kind::Record => put(&mut self.record, place, value),
            Kind::Answer | Kind::Unknown => put(&mut self.answer, place, value),
        }
    }

    // Kept: the layout's numbers of a recorded answer, which the library writes but doesn't read (a).
    pub fn answered(&self) -> Answered {
        match self.answer[ANSWER_KIND] {
            1 => Answered::Next,
            2 => Answered::Wants,
            3 => Answered::Refused,
            _ => Answered::Unknown,
        }
    }
}
