// An answer as bytes: a next record with its order, notes and endings, or a want; the run stands last.
ghost use Rattle.std.specs.Prelude.{◌≡◌, ◌≤◌, min, length, get_or, ◌+◌, ◌*◌};
ghost use Rattle.laws.specs.Splice.{splice};
ghost use Rattle.host.specs.Layout.{answer_kind, answer_notes, answer_noted, answer_endings, answer_ended, answer_record, answer_length, note_width, ending_width, notes, endings};
ghost use Rattle.codec.specs.Numbers.{bytes_of, part};
ghost use Rattle.in_bytes.specs.Answer.{answer, answer_head};

use crate::run::{run_size, write_run};
use codec::numbers::{numbers_size, write_numbers};
use host::layout;

// A count of rows. No more of them stand in an answer than there is room for, whatever the count says.
fn rows(count: u64, capacity: usize) -> usize
    ensures { result ≡ min count capacity }
{
    // Kept: casts, since there is no `From` between u64 and usize (d).
    count.min(capacity as u64) as usize
}

// Where the notes end, and the endings.
// Kept: one function of both would take its four names as parameters (d).
fn notes_end(xs: &[u64; layout::ANSWER]) -> usize
    ensures { result ≡ answer_notes + note_width * min (get_or xs.now answer_noted 0) notes }
{
    layout::ANSWER_NOTES + layout::NOTE_WIDTH * rows(xs[layout::ANSWER_NOTED], layout::NOTES)
}

fn endings_end(xs: &[u64; layout::ANSWER]) -> usize
    ensures { result ≡ answer_endings + ending_width * min (get_or xs.now answer_ended 0) endings }
{
    layout::ANSWER_ENDINGS + layout::ENDING_WIDTH * rows(xs[layout::ANSWER_ENDED], layout::ENDINGS)
}

// What stands before the run.
// Kept: the kind as its number, 1 of a next record, as the definition says it: layout.rt has where the kind stands and no kinds (d).

fn head_size(xs: &[u64; layout::ANSWER]) -> usize
    ensures { result ≡ length (bytes_of (answer_head xs.now)) }
{
    if xs[layout::ANSWER_KIND] == 1 {
        return numbers_size(&xs[..notes_end(xs)])
            + numbers_size(&xs[layout::ANSWER_ENDINGS..endings_end(xs)]);
    }
    numbers_size(&xs[..layout::WANT_WIDTH])
}

fn write_head(out: &mut [u8], xs: &[u64; layout::ANSWER]) -> usize
    requires { length (bytes_of (answer_head xs.now)) ≤ length out.old }
    ensures value { result ≡ length (bytes_of (answer_head xs.now)) }
    ensures out_after { out.new ≡ splice out.old 0 (bytes_of (answer_head xs.now)) }
{
    if xs[layout::ANSWER_KIND] == 1 {
        let place = write_numbers(out, 0, &xs[..notes_end(xs)]);
        return write_numbers(out, place, &xs[layout::ANSWER_ENDINGS..endings_end(xs)]);
    }
    write_numbers(out, 0, &xs[..layout::WANT_WIDTH])
}

// The run, which stands last.
fn run(xs: &[u64; layout::ANSWER]) -> &[u64; layout::RECORD]
    ensures { result.now ≡ part xs.now answer_record answer_length }
{
    <&[u64; layout::RECORD]>::try_from(&xs[layout::ANSWER_RECORD..]).unwrap()
}

// How many bytes an answer takes.
pub fn answer_size(xs: &[u64; layout::ANSWER]) -> usize
    ensures { result ≡ length (bytes_of ((answer (get_or xs.now answer_kind 0)).fields xs.now)) }
{
    head_size(xs) + run_size(run(xs))
}

// Its bytes are written to the buffer's beginning.
pub fn write_answer(out: &mut [u8], xs: &[u64; layout::ANSWER])
    requires { length (bytes_of ((answer (get_or xs.now answer_kind 0)).fields xs.now)) ≤ length out.old }
    ensures { out.new ≡ splice out.old 0 (bytes_of ((answer (get_or xs.now answer_kind 0)).fields xs.now)) }
{
    let place = write_head(out, xs);
    write_run(out, place, run(xs));
}
