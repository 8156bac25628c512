// What hosts in C call: the functions of crates host and in_bytes under their names, with their contracts (include/kuxhoveza.h).
#![tactic(auto)]

ghost use Rattle.std.specs.Prelude.{◌≡◌, length};
ghost use Rattle.workflow.specs.Layout.{numbers as sheet_length};
ghost use Rattle.host.specs.Layout.{layout_version, written};
ghost use Rattle.host.specs.Write.{decision_numbers};
ghost use Rattle.host.specs.Host.{receipt, decided, answered, Full, verdict_receipt, judged};
ghost use Rattle.in_bytes.specs.Boundary.{returned, left, write_sheet, write_run, write_event, read_sheet, read_run, read_event, decide, decide_on, Of64Bits, call_bytes, call_bytes_on};

use workflow::layout::NUMBERS;

// Kept: each export calls its twin, and `sheet_len` stands beside the sheet, whose type doesn't tell it to C (a).

// CALLS IN NUMBERS.

#[unsafe(no_mangle)]
pub extern "C" fn kuxhoveza_layout_version() -> u32
    ensures { result ≡ layout_version }
{
    host::kuxhoveza_layout_version()
}

#[unsafe(no_mangle)]
pub extern "C" fn kuxhoveza_transition(
    sheet: &[u32; NUMBERS],
    sheet_len: usize,
    call: &[u64],
    given: &[u64],
    answer: &mut [u64],
) -> u32
    ensures value { result ≡ receipt sheet_len call.now given.now (length answer.old) }
    ensures answer_after { answer.new ≡ answered sheet.now sheet_len call.now given.now answer.old }
    ensures full { result ≡ written → Full (decision_numbers (decided sheet.now call.now given.now)) }
{
    host::kuxhoveza_transition(sheet, sheet_len, call, given, answer)
}

#[unsafe(no_mangle)]
pub extern "C" fn kuxhoveza_verdict(
    sheet: &[u32; NUMBERS],
    sheet_len: usize,
    nodes: u32,
    visits: u32,
    activations: u32,
    attempts: u32,
    out: &mut [u32],
) -> u32
    ensures value { result ≡ verdict_receipt sheet_len (length out.old) }
    ensures out_after { out.new ≡ judged sheet.now sheet_len (record { nodes = nodes; visits = visits; activations = activations; attempts = attempts }) out.old }
{
    host::kuxhoveza_verdict(sheet, sheet_len, nodes, visits, activations, attempts, out)
}

// SHEETS, RUNS AND EVENTS IN BYTES.

#[unsafe(no_mangle)]
pub extern "C" fn kuxhoveza_write_sheet(sheet: &[u32], out: &mut [u8]) -> u64
    ensures value { result ≡ returned (write_sheet sheet.now (length out.old)) }
    ensures out_after { out.new ≡ left (write_sheet sheet.now (length out.old)) out.old }
{
    in_bytes::kuxhoveza_write_sheet(sheet, out)
}

#[unsafe(no_mangle)]
pub extern "C" fn kuxhoveza_read_sheet(bytes: &[u8], sheet: &mut [u32]) -> u64
    ensures value { result ≡ returned (read_sheet bytes.now (length sheet.old)) }
    ensures sheet_after { sheet.new ≡ left (read_sheet bytes.now (length sheet.old)) sheet.old }
{
    in_bytes::kuxhoveza_read_sheet(bytes, sheet)
}

#[unsafe(no_mangle)]
pub extern "C" fn kuxhoveza_write_run(run: &[u64], out: &mut [u8]) -> u64
    ensures value { result ≡ returned (write_run run.now (length out.old)) }
    ensures out_after { out.new ≡ left (write_run run.now (length out.old)) out.old }
{
    in_bytes::kuxhoveza_write_run(run, out)
}

#[unsafe(no_mangle)]
pub extern "C" fn kuxhoveza_read_run(bytes: &[u8], run: &mut [u64]) -> u64
    ensures value { result ≡ returned (read_run bytes.now (length run.old)) }
    ensures run_after { run.new ≡ left (read_run bytes.now (length run.old)) run.old }
{
    in_bytes::kuxhoveza_read_run(bytes, run)
}

#[unsafe(no_mangle)]
pub extern "C" fn kuxhoveza_write_event(event: &[u64], out: &mut [u8]) -> u64
    ensures value { result ≡ returned (write_event event.now (length out.old)) }
    ensures out_after { out.new ≡ left (write_event event.now (length out.old)) out.old }
{
    in_bytes::kuxhoveza_write_event(event, out)
}

#[unsafe(no_mangle)]
pub extern "C" fn kuxhoveza_read_event(bytes: &[u8], event: &mut [u64]) -> u64
    ensures value { result ≡ returned (read_event bytes.now (length event.old)) }
    ensures event_after { event.new ≡ left (read_event bytes.now (length event.old)) event.old }
{
    in_bytes::kuxhoveza_read_event(bytes, event)
}

// CALLS IN BYTES.

#[unsafe(no_mangle)]
pub extern "C" fn kuxhoveza_call(bytes: &[u8], out: &mut [u8]) -> u64
    ensures value { result ≡ returned (call_bytes bytes.now (length out.old)) }
    ensures out_after { out.new ≡ left (call_bytes bytes.now (length out.old)) out.old }
    ensures of_64_bits { Of64Bits (decide bytes.now) }
{
    in_bytes::kuxhoveza_call(bytes, out)
}

#[unsafe(no_mangle)]
pub extern "C" fn kuxhoveza_call_on(
    sheet: &[u32; NUMBERS],
    sheet_len: usize,
    bytes: &[u8],
    out: &mut [u8],
) -> u64
    ensures value { result ≡ returned (call_bytes_on sheet.now sheet_len bytes.now (length out.old)) }
    ensures out_after { out.new ≡ left (call_bytes_on sheet.now sheet_len bytes.now (length out.old)) out.old }
    ensures of_64_bits { sheet_len ≡ sheet_length → Of64Bits (decide_on sheet.now bytes.now) }
{
    in_bytes::kuxhoveza_call_on(sheet, sheet_len, bytes, out)
}
