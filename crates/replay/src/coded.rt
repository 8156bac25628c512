// The recorded calls in bytes (docs/BYTES.md): each is written as bytes, made, and its answer compared with the bytes of the recorded one.

ghost use Rattle.std.specs.Prelude.{◌≡◌, ◌<◌, ◌↔◌, IfOk, IsErr, length, take};

use crate::sample::{Answered, Sample};
use host::layout;

// More bytes than a call has, or an answer.
const ENOUGH: usize = 65536;

// What an exported function returns is two numbers: the lower half and the upper.
// Kept: a bound, which no enum names (d).
const HALF: u64 = 0x1_0000_0000;

// What a call in bytes shows.
#[derive(Clone, Copy, PartialEq, Eq)]
pub enum Judged {
    Unwritten,
    Agrees,
    Differs,
}

// It has no bytes.
#[derive(Clone, Copy)]
struct Unwritten;

// Bytes one behind another.
// Kept: an array with its count, since a `Vec` may find no memory, and this program uses none but its stack (a).
#[derive(Drop)]
struct Bytes {
    room: [u8; ENOUGH],
    used: usize,
}

impl Bytes {
    fn new() -> Bytes {
        Bytes {
            room: [0; ENOUGH],
            used: 0,
        }
    }

    // A byte more. Past the room none is taken: no call and no answer is as long.
    fn push(&mut self, byte: u8) {
        if self.used < ENOUGH {
            self.room[self.used] = byte;
            self.used += 1;
        }
    }

    fn as_slice(&self) -> &[u8] {
        &self.room[..self.used.min(ENOUGH)]
    }
}

// A number as LEB128.
fn number(out: &mut Bytes, n: u64) {
    let mut rest = n;
    // Kept: groups of a number, which the loop takes off until none is left; it counts no index (d).
    while 128 <= rest {
        out.push((rest % 128) as u8 + 128);
        rest /= 128;
    }
    out.push(rest as u8);
}

// Kept: `numbers` and `rows` are one loop each, over items of another kind (d).
fn numbers(out: &mut Bytes, xs: &[u64]) {
    for x in xs {
        number(out, *x);
    }
}

// As many rows as a count says; refused where there are fewer.
// Kept: rows and their count stand apart in the layout (a).
fn first<const N: usize>(rows: &[[u64; N]], count: u64) -> Result<&[[u64; N]], Unwritten>
    ensures rows { IfOk result (λ xs. xs.now ≡ take count rows.now) }
    ensures refused { IsErr result ↔ length rows.now < count }
{
    rows.get(..count as usize).ok_or(Unwritten)
}

fn rows<const N: usize>(out: &mut Bytes, xs: &[[u64; N]]) {
    for row in xs {
        numbers(out, row);
    }
}

// What an exported function wrote into a buffer, by what it returned; none where it refused.
fn written(told: u64, buffer: &[u8]) -> Option<&[u8]> {
    if told % HALF != 0 {
        return None;
    }
    buffer.get(..(told / HALF) as usize)
}

// Puts behind `out` what an exported function writes.
fn put<F: FnOnce(&mut [u8]) -> u64>(out: &mut Bytes, write: F) -> Result<(), Unwritten>
    requires { F.IsAlwaysCallable write }
{
    let mut buffer = [0; ENOUGH];
    let told = write(&mut buffer);
    for byte in written(told, &buffer).ok_or(Unwritten)? {
        out.push(*byte);
    }
    Ok(())
}

fn run(out: &mut Bytes, record: &[u64]) -> Result<(), Unwritten> {
    put(out, |buffer: &mut [u8]| {
        in_bytes::kuxhoveza_write_run(record, buffer)
    })
}

// A recorded call; refused where its sheet or its run is, or it has more mapping answers than a call in bytes can have.
fn call(out: &mut Bytes, sample: &Sample) -> Result<(), Unwritten> {
    let call = &sample.call;
    numbers(out, &call[..layout::CALL_HAS_RECORD]);
    put(out, |buffer: &mut [u8]| {
        in_bytes::kuxhoveza_write_sheet(&sample.sheet, buffer)
    })?;
    numbers(out, &call[layout::CALL_HAS_RECORD..layout::CALL_SEQUENCE]);
    if call[layout::CALL_HAS_RECORD] == 1 {
        run(out, &sample.record)?;
    }
    numbers(out, &call[layout::CALL_SEQUENCE..layout::CALL_MAPPINGS]);
    let (mappings, _) = call[layout::CALL_MAPPINGS..].as_chunks::<{ layout::MAPPING_WIDTH }>();
    rows(out, first(mappings, call[layout::CALL_ANSWERED])?);
    Ok(())
}

// A recorded answer that isn't a refusal.
fn answer(out: &mut Bytes, sample: &Sample) -> Result<(), Unwritten> {
    let xs = &sample.answer;
    if sample.answered() == Answered::Wants {
        numbers(out, &xs[..layout::WANT_WIDTH]);
    } else {
        let notes = &xs[layout::ANSWER_NOTES..layout::ANSWER_ENDINGS];
        let (notes, _) = notes.as_chunks::<{ layout::NOTE_WIDTH }>();
        let endings = &xs[layout::ANSWER_ENDINGS..layout::ANSWER_RECORD];
        let (endings, _) = endings.as_chunks::<{ layout::ENDING_WIDTH }>();
        numbers(out, &xs[..layout::ANSWER_NOTES]);
        rows(out, first(notes, xs[layout::ANSWER_NOTED])?);
        rows(out, first(endings, xs[layout::ANSWER_ENDED])?);
    }
    run(out, &xs[layout::ANSWER_RECORD..])
}

// What the call in bytes says is what the recorded answer says, and past its bytes nothing is written.
fn agrees(told: u64, out: &[u8], sample: &Sample) -> Result<bool, Unwritten> {
    let xs = &sample.answer;
    match sample.answered() {
        Answered::Next | Answered::Wants => {}
        Answered::Refused => {
            return Ok(
                told % HALF == xs[layout::ANSWER_REFUSAL_NUMBER]
                    && told / HALF == xs[layout::ANSWER_REFUSAL_ITEM],
            );
        }
        Answered::Unknown => return Ok(false),
    }
    let mut due = Bytes::new();
    answer(&mut due, sample)?;
    let bytes = written(told, out).ok_or(Unwritten)?;
    Ok(bytes == due.as_slice() && out.iter().skip(bytes.len()).all(|x| *x == 0))
}

pub fn judge(sample: &Sample) -> Judged {
    let mut bytes = Bytes::new();
    let Ok(()) = call(&mut bytes, sample) else {
        return Judged::Unwritten;
    };
    let mut out = [0; ENOUGH];
    let told = in_bytes::kuxhoveza_call(bytes.as_slice(), &mut out);
    match agrees(told, &out, sample) {
        Ok(true) => Judged::Agrees,
        Ok(false) | Err(Unwritten) => Judged::Differs,
    }
}
