// The boundary for hosts in bytes (docs/BYTES.md): sheets, runs and events written and read, and the call.
#![tactic(auto)]

mod answer;
mod call;
pub mod run;
mod sheet;
pub mod structs;

ghost use Rattle.std.specs.Prelude.{◌≡◌, ◌≤◌, length};
ghost use Rattle.laws.specs.Splice.{splice};
ghost use Rattle.workflow.specs.Layout.{numbers as sheet_length};
ghost use Rattle.workflow.specs.Refusal.{number};
ghost use Rattle.in_bytes.specs.Boundary.{no_item, packed, returned, left, write_sheet, write_run, write_event, read_sheet, read_run, read_event, said, told, decide, decide_on, is_said, said_in, Of64Bits, call_bytes, call_bytes_on};
ghost use Rattle.in_bytes.specs.Tests.{ends_at};

use crate::answer::{answer_size, write_answer};
use crate::call::{read_call, read_call_on};
use crate::run::{read_run, run_size, run_tidy, tidy_fits, write_run};
use crate::sheet::{read_sheet, sheet_size, sheet_tidy, write_sheet};
use codec::numbers::{numbers_size, read_numbers, write_numbers};
use host::read::{event_fits, run_fits};
use host::{kuxhoveza_transition, layout};
use workflow::layout::NUMBERS;
use workflow::refusal::Refusal;

// The item of a refusal that names none.
// Kept: numbers, here and below, since what is returned is one (a).
const NO_ITEM: u64 = 255;

const HALF: u64 = 0x1_0000_0000;

// What a function returns: a number, and above its 32 bits an item or a size.
fn packed(number: u64, rest: u64) -> u64
    ensures { result ≡ packed number rest }
{
    number % HALF + HALF * (rest % HALF)
}

fn refused(refusal: Refusal) -> u64
    ensures { result ≡ packed (number refusal) no_item }
{
    packed(u64::from(refusal.number()), NO_ITEM)
}

fn done(size: usize) -> u64
    ensures { result ≡ packed 0 size }
{
    // Kept: a cast, since there is no `From` between usize and u64 (d).
    packed(0, size as u64)
}

// A receipt of the number form.
fn receipt(number: u32) -> u64
    ensures { result ≡ packed number 0 }
{
    packed(u64::from(number), 0)
}

// What was read ends where the bytes end.
fn ends(place: Option<usize>, bytes: &[u8]) -> bool
    ensures { result ≡ ends_at (length bytes.now) place }
{
    place == Some(bytes.len())
}

// Kept: the exported functions take slices and return a number, and the answers' arrays are lent: the C interface, and fixed memory (a).
// Kept: three that write and three that read, where they are alike too: each has tests of its own, and one of all three would need a trait of six methods (d).

// A SHEET.

pub fn kuxhoveza_write_sheet(sheet: &[u32], out: &mut [u8]) -> u64
    ensures value { result ≡ returned (write_sheet sheet.now (length out.old)) }
    ensures out_after { out.new ≡ left (write_sheet sheet.now (length out.old)) out.old }
{
    let Ok(sheet) = <&[u32; NUMBERS]>::try_from(sheet) else {
        return receipt(layout::BAD_SHEET_LENGTH);
    };
    if !sheet_tidy(sheet) {
        return refused(Refusal::Form);
    }
    let size = sheet_size(sheet);
    if out.len() < size {
        return refused(Refusal::ShortBuffer);
    }
    write_sheet(out, sheet);
    done(size)
}

pub fn kuxhoveza_read_sheet(bytes: &[u8], sheet: &mut [u32]) -> u64
    ensures value { result ≡ returned (read_sheet bytes.now (length sheet.old)) }
    ensures sheet_after { sheet.new ≡ left (read_sheet bytes.now (length sheet.old)) sheet.old }
{
    if sheet.len() != NUMBERS {
        return receipt(layout::BAD_SHEET_LENGTH);
    }
    let mut numbers = [0u32; NUMBERS];
    let place = read_sheet(bytes, 0, &mut numbers);
    if !ends(place, bytes) {
        return refused(Refusal::BadBytes);
    }
    sheet.copy_from_slice(&numbers);
    done(0)
}

// A RUN.

pub fn kuxhoveza_write_run(run: &[u64], out: &mut [u8]) -> u64
    ensures value { result ≡ returned (write_run run.now (length out.old)) }
    ensures out_after { out.new ≡ left (write_run run.now (length out.old)) out.old }
{
    let Ok(run) = <&[u64; layout::RECORD]>::try_from(run) else {
        return receipt(layout::BAD_RECORD_LENGTH);
    };
    if !run_fits(run) {
        return receipt(layout::BAD_RECORD);
    }
    if !run_tidy(run) {
        return refused(Refusal::Inconsistent);
    }
    let size = run_size(run);
    if out.len() < size {
        return refused(Refusal::ShortBuffer);
    }
    write_run(out, 0, run);
    done(size)
}

pub fn kuxhoveza_read_run(bytes: &[u8], run: &mut [u64]) -> u64
    ensures value { result ≡ returned (read_run bytes.now (length run.old)) }
    ensures run_after { run.new ≡ left (read_run bytes.now (length run.old)) run.old }
{
    if run.len() != layout::RECORD {
        return receipt(layout::BAD_RECORD_LENGTH);
    }
    let mut numbers = [0u64; layout::RECORD];
    let place = read_run(bytes, 0, &mut numbers);
    if !ends(place, bytes) {
        return refused(Refusal::BadBytes);
    }
    if !tidy_fits(&numbers) {
        return refused(Refusal::BadBytes);
    }
    run.copy_from_slice(&numbers);
    done(0)
}

// AN EVENT.

pub fn kuxhoveza_write_event(event: &[u64], out: &mut [u8]) -> u64
    ensures value { result ≡ returned (write_event event.now (length out.old)) }
    ensures out_after { out.new ≡ left (write_event event.now (length out.old)) out.old }
{
    let Ok(event) = <&[u64; layout::EVENT]>::try_from(event) else {
        return receipt(layout::BAD_CALL_LENGTH);
    };
    if !event_fits(event) {
        return receipt(layout::BAD_CALL);
    }
    let size = numbers_size(event);
    if out.len() < size {
        return refused(Refusal::ShortBuffer);
    }
    write_numbers(out, 0, event);
    done(size)
}

pub fn kuxhoveza_read_event(bytes: &[u8], event: &mut [u64]) -> u64
    ensures value { result ≡ returned (read_event bytes.now (length event.old)) }
    ensures event_after { event.new ≡ left (read_event bytes.now (length event.old)) event.old }
{
    if event.len() != layout::EVENT {
        return receipt(layout::BAD_CALL_LENGTH);
    }
    let mut numbers = [0u64; layout::EVENT];
    let place = read_numbers(bytes, 0, &mut numbers);
    if !ends(place, bytes) {
        return refused(Refusal::BadBytes);
    }
    if !event_fits(&numbers) {
        return refused(Refusal::BadBytes);
    }
    event.copy_from_slice(&numbers);
    done(0)
}

// A CALL.

// The answer's numbers; false where the bytes are bad.
// Kept: a bool, and the lent array beside it, since memory is fixed (a); `return false`, since && before a call that writes would hide that it does (d).
// Kept: `decide_on` is as this but for what is read, and what both could share has no definition of its own (d).
pub fn decide(bytes: &[u8], answer: &mut [u64; layout::ANSWER]) -> bool
    ensures value { result ≡ is_said (decide bytes.now) }
    ensures answer_after { answer.new ≡ said_in (decide bytes.now) answer.old }
    ensures of_64_bits { Of64Bits (decide bytes.now) }
{
    let mut sheet = [0u32; NUMBERS];
    let mut call = [0u64; layout::CALL];
    let mut run = [0u64; layout::RECORD];
    let place = read_call(bytes, &mut sheet, &mut call, &mut run);
    if !ends(place, bytes) {
        return false;
    }
    kuxhoveza_transition(&sheet, NUMBERS, &call, &run, answer) == layout::WRITTEN
}

// What is told of an answer's numbers.
fn answered(answer: &[u64; layout::ANSWER], out: &mut [u8]) -> u64
    ensures value { result ≡ returned (told (length out.old) (said answer.now)) }
    ensures out_after { out.new ≡ left (told (length out.old) (said answer.now)) out.old }
{
    // Kept: the kind as its number, 3 of a refusal, as in answer.rt (d).
    if answer[layout::ANSWER_KIND] == 3 {
        return packed(
            answer[layout::ANSWER_REFUSAL_NUMBER],
            answer[layout::ANSWER_REFUSAL_ITEM],
        );
    }
    let size = answer_size(answer);
    if out.len() < size {
        return refused(Refusal::ShortBuffer);
    }
    write_answer(out, answer);
    done(size)
}

// Kept: `kuxhoveza_call_on` is as this but for its sheet: what they share is `answered`, and one of both would take `decide` or `decide_on` as a closure with its contract (d).
pub fn kuxhoveza_call(bytes: &[u8], out: &mut [u8]) -> u64
    ensures value { result ≡ returned (call_bytes bytes.now (length out.old)) }
    ensures out_after { out.new ≡ left (call_bytes bytes.now (length out.old)) out.old }
    ensures of_64_bits { Of64Bits (decide bytes.now) }
{
    let mut answer = [0u64; layout::ANSWER];
    if decide(bytes, &mut answer) {
        return answered(&answer, out);
    }
    refused(Refusal::BadBytes)
}

// The same on a sheet in numbers: the bytes are those of a call without its sheet.

fn decide_on(sheet: &[u32; NUMBERS], bytes: &[u8], answer: &mut [u64; layout::ANSWER]) -> bool
    ensures value { result ≡ is_said (decide_on sheet.now bytes.now) }
    ensures answer_after { answer.new ≡ said_in (decide_on sheet.now bytes.now) answer.old }
    ensures of_64_bits { Of64Bits (decide_on sheet.now bytes.now) }
{
    let mut call = [0u64; layout::CALL];
    let mut run = [0u64; layout::RECORD];
    let place = read_call_on(bytes, &mut call, &mut run);
    if !ends(place, bytes) {
        return false;
    }
    kuxhoveza_transition(sheet, NUMBERS, &call, &run, answer) == layout::WRITTEN
}

pub fn kuxhoveza_call_on(
    sheet: &[u32; NUMBERS],
    sheet_len: usize,
    bytes: &[u8],
    out: &mut [u8],
) -> u64
    ensures value { result ≡ returned (call_bytes_on sheet.now sheet_len bytes.now (length out.old)) }
    ensures out_after { out.new ≡ left (call_bytes_on sheet.now sheet_len bytes.now (length out.old)) out.old }
    ensures of_64_bits { sheet_len ≡ sheet_length → Of64Bits (decide_on sheet.now bytes.now) }
{
    if sheet_len != NUMBERS {
        return receipt(layout::BAD_SHEET_LENGTH);
    }
    let mut answer = [0u64; layout::ANSWER];
    if decide_on(sheet, bytes, &mut answer) {
        return answered(&answer, out);
    }
    refused(Refusal::BadBytes)
}
