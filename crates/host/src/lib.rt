// The boundary for hosts: a call, a run record and an answer as plain numbers (docs/NUMBERS.md).
#![tactic(auto, using(laws::specs::Bool::deciding), unfolding(crate::specs::Receipt::by_numbers, crate::specs::Host::verdict_numbers))]

pub mod layout;
pub mod read;
mod rows;
pub mod write;

ghost use Rattle.std.specs.Prelude.{◌≡◌, length};
ghost use Rattle.kernel.specs.Call.{given_record};
ghost use Rattle.host.specs.Layout.{layout_version, written};
ghost use Rattle.host.specs.Read.{has_record, record_of};
ghost use Rattle.host.specs.ByCount.{UsedRows};
ghost use Rattle.host.specs.Write.{decision_numbers};
ghost use Rattle.host.specs.Host.{receipt, decided, answered, Full, verdict_receipt, verdict_numbers, judged};
ghost use Rattle.host.specs.Receipt.{fault_number, outcome_number, by_numbers};

use crate::read::{Used, call_fits, read_call, read_record, record_fits, used_rows};
use crate::write::write_decision;
use graph::{Broken, Ceilings};
use model::State;
use workflow::capped;
use workflow::layout::{NODE_COUNT, NUMBERS};

// Why what is lent gets no answer.
// Kept: the numbers beside it (layout.rt), since the C header is made from them (a).
#[derive(Clone, Copy, PartialEq, Eq, Debug)]
enum Fault {
    ShortBuffer,
    BadCall,
    BadRecord,
    SheetLength,
    CallLength,
    RecordLength,
}

impl Fault {
    // The number that a function returns.
    fn number(self) -> u32
        ensures { result ≡ fault_number self }
    {
        match self {
            Fault::ShortBuffer => layout::SHORT_BUFFER,
            Fault::BadCall => layout::BAD_CALL,
            Fault::BadRecord => layout::BAD_RECORD,
            Fault::SheetLength => layout::BAD_SHEET_LENGTH,
            Fault::CallLength => layout::BAD_CALL_LENGTH,
            Fault::RecordLength => layout::BAD_RECORD_LENGTH,
        }
    }
}

// The version of the layout of sheet, call, record, answer and verdict.
pub fn kuxhoveza_layout_version() -> u32
    ensures { result ≡ layout_version }
{
    layout::LAYOUT_VERSION
}

// What the numbers say. The record is looked at only where the call says that one goes with it.
fn by_numbers(
    call: &[u64; layout::CALL],
    given: &[u64; layout::RECORD],
    used: Used,
) -> Result<(), Fault>
    requires { UsedRows (has_record call.now) given.now used }
    ensures { result ≡ by_numbers call.now given.now }
{
    if !call_fits(call) {
        return Err(Fault::BadCall);
    }
    if call[layout::CALL_HAS_RECORD] == 1 && !record_fits(given, used) {
        return Err(Fault::BadRecord);
    }
    Ok(())
}

// The record that goes with a call, if one does.
// Kept: a mark beside the record: the call says whether it counts, and an `Option` of it would be made only to be taken apart here (d).
fn read_given(given: &[u64; layout::RECORD], has_record: bool, used: Used) -> Option<State>
    requires { UsedRows has_record given.now used }
    ensures { result ≡ given_record has_record (record_of given.now) }
{
    if has_record {
        return Some(read_record(given, used));
    }
    None
}

// One call: the lengths are tested before a number is read.
// Kept: the sheet's length beside the sheet, here and in the exported functions: the C interface lends a pointer and a length (a).
#[tactic(auto, using(laws::specs::Bool::deciding), unfolding(crate::specs::Host::receipt, crate::specs::Host::answered))]
fn answer_call(
    sheet: &[u32; NUMBERS],
    sheet_len: usize,
    call: &[u64],
    given: &[u64],
    answer: &mut [u64],
) -> Result<(), Fault>
    ensures value { outcome_number result ≡ receipt sheet_len call.now given.now (length answer.old) }
    ensures answer_after { answer.new ≡ answered sheet.now sheet_len call.now given.now answer.old }
    ensures full { outcome_number result ≡ written → Full (decision_numbers (decided sheet.now call.now given.now)) }
{
    if sheet_len != NUMBERS {
        return Err(Fault::SheetLength);
    }
    let Some(call) = call.as_array() else {
        return Err(Fault::CallLength);
    };
    let Some(given) = given.as_array() else {
        return Err(Fault::RecordLength);
    };
    if answer.len() < layout::ANSWER {
        return Err(Fault::ShortBuffer);
    }
    let has_record = call[layout::CALL_HAS_RECORD] == 1;
    let nodes = capped(sheet[NODE_COUNT], layout::NODES);
    let used = used_rows(given, has_record, nodes);
    by_numbers(call, given, used)?;
    write_decision(
        answer,
        kernel::transition(sheet, read_given(given, has_record, used), read_call(call)),
        nodes,
    );
    Ok(())
}

// One call. Each array comes with its length. The answer's numbers are written to the buffer's beginning where the result
// is 0; else the buffer stays as it is.
pub fn kuxhoveza_transition(
    sheet: &[u32; NUMBERS],
    sheet_len: usize,
    call: &[u64],
    given: &[u64],
    answer: &mut [u64],
) -> u32
    ensures value { result ≡ receipt sheet_len call.now given.now (length answer.old) }
    ensures answer_after { answer.new ≡ answered sheet.now sheet_len call.now given.now answer.old }
    ensures full { result ≡ written → Full (decision_numbers (decided sheet.now call.now given.now)) }
{
    match answer_call(sheet, sheet_len, call, given, answer) {
        Ok(()) => layout::WRITTEN,
        Err(fault) => fault.number(),
    }
}

fn verdict_numbers(verdict: Result<(), Broken>) -> [u32; layout::VERDICT]
    ensures { result ≡ verdict_numbers verdict }
{
    match verdict {
        Ok(()) => [0, 0],
        Err(Broken { refusal, item }) => [refusal.number(), item],
    }
}

// The verdict on a sheet: the refusal's number and its item, or 0 and 0.
#[tactic(auto, using(laws::specs::Bool::deciding), unfolding(crate::specs::Host::verdict_receipt, crate::specs::Host::judged))]
pub fn kuxhoveza_verdict(
    sheet: &[u32; NUMBERS],
    sheet_len: usize,
    nodes: u32,
    visits: u32,
    activations: u32,
    attempts: u32,
    out: &mut [u32],
) -> u32
    ensures value { result ≡ verdict_receipt sheet_len (length out.old) }
    ensures out_after { out.new ≡ judged sheet.now sheet_len (record { nodes = nodes; visits = visits; activations = activations; attempts = attempts }) out.old }
{
    if sheet_len != NUMBERS {
        return Fault::SheetLength.number();
    }
    if out.len() < layout::VERDICT {
        return Fault::ShortBuffer.number();
    }
    let verdict = graph::validate(
        sheet,
        Ceilings {
            nodes,
            visits,
            activations,
            attempts,
        },
    );
    out[..layout::VERDICT].copy_from_slice(&verdict_numbers(verdict));
    layout::WRITTEN
}
