// A call from bytes: ceilings and limits; the sheet; 0, or 1 and a run; the event; the mapping answers after their count.
ghost use Rattle.std.specs.Prelude.{◌≡◌, replicate};
ghost use Rattle.workflow.specs.Layout.{numbers as sheet_length};
ghost use Rattle.host.specs.Layout.{record_length, call_length, call_has_record};
ghost use Rattle.host.specs.Write.{marked};
ghost use Rattle.codec.specs.Stored.{place_of, Stored, ZeroFrom};
ghost use Rattle.in_bytes.specs.Call.{given_shape, rest, call as whole_call, call_on};
ghost use Rattle.in_bytes.specs.CallStored.{RestStored, CallStored, OnStored};

use crate::run::read_run;
use crate::sheet::read_sheet;
use codec::numbers::read_numbers;
use host::layout;
use workflow::layout::NUMBERS;

// Kept: here, in sheet.rt and in run.rt a reader gets the bytes with a place and a lent array that is all zero, and its contract says so: memory is fixed, and what a
// reader returns is the next place, for `?` (a).

// Kept: the mark as a bool, tested in one place and made where it is passed: the definition says it so too (d).
fn read_given(
    bytes: &[u8],
    start: usize,
    has_record: bool,
    run: &mut [u64; layout::RECORD],
) -> Option<usize>
    requires { run.old ≡ replicate record_length 0 }
    ensures value { result ≡ place_of ((given_shape (marked has_record)).read bytes.now start) }
    ensures stored { Stored ((given_shape (marked has_record)).read bytes.now start) run.old 0 run.new }
{
    if has_record {
        return read_run(bytes, start, run);
    }
    Some(start)
}

// What stands behind the sheet.
fn read_rest(
    bytes: &[u8],
    start: usize,
    call: &mut [u64; layout::CALL],
    run: &mut [u64; layout::RECORD],
) -> Option<usize>
    requires { ZeroFrom call_has_record call.old × (run.old ≡ replicate record_length 0) }
    ensures value { result ≡ place_of (rest.read bytes.now start) }
    ensures rest_stored { RestStored (rest.read bytes.now start) call.old call.new run.new }
{
    let first = read_numbers(
        bytes,
        start,
        &mut call[layout::CALL_HAS_RECORD..layout::CALL_SEQUENCE],
    )?;
    if 1 < call[layout::CALL_HAS_RECORD] {
        return None;
    }
    let second = read_given(bytes, first, call[layout::CALL_HAS_RECORD] == 1, run)?;
    let third = read_numbers(
        bytes,
        second,
        &mut call[layout::CALL_SEQUENCE..layout::CALL_ANSWERED],
    )?;
    let fourth = read_numbers(
        bytes,
        third,
        &mut call[layout::CALL_ANSWERED..layout::CALL_MAPPINGS],
    )?;
    let answered = call[layout::CALL_ANSWERED];
    if 2 < answered {
        return None;
    }
    let end = layout::CALL_MAPPINGS + layout::MAPPING_WIDTH * (answered as usize);
    read_numbers(bytes, fourth, &mut call[layout::CALL_MAPPINGS..end])
}

// From bytes into numbers that are all zero.
pub fn read_call(
    bytes: &[u8],
    sheet: &mut [u32; NUMBERS],
    call: &mut [u64; layout::CALL],
    run: &mut [u64; layout::RECORD],
) -> Option<usize>
    requires { (sheet.old ≡ replicate sheet_length 0) × (call.old ≡ replicate call_length 0) × (run.old ≡ replicate record_length 0) }
    ensures value { result ≡ place_of (whole_call.read bytes.now 0) }
    ensures call_stored { CallStored (whole_call.read bytes.now 0) sheet.new call.new run.new }
{
    let first = read_numbers(bytes, 0, &mut call[..layout::CALL_HAS_RECORD])?;
    let second = read_sheet(bytes, first, sheet)?;
    read_rest(bytes, second, call, run)
}

// The same without a sheet.
pub fn read_call_on(
    bytes: &[u8],
    call: &mut [u64; layout::CALL],
    run: &mut [u64; layout::RECORD],
) -> Option<usize>
    requires { (call.old ≡ replicate call_length 0) × (run.old ≡ replicate record_length 0) }
    ensures value { result ≡ place_of (call_on.read bytes.now 0) }
    ensures on_stored { OnStored (call_on.read bytes.now 0) call.new run.new }
{
    let next = read_numbers(bytes, 0, &mut call[..layout::CALL_HAS_RECORD])?;
    read_rest(bytes, next, call, run)
}
