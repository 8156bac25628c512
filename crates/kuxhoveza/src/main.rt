// One call from standard input, in bytes; its answer on standard output, an item a line (docs/BYTES.md).
#![tactic(auto)]

use host::layout;
use std::io::{BufWriter, Read, Write};
use std::{fmt, io};
use workflow::code::NONE;
use workflow::refusal::Refusal;

const ANSWER: usize = layout::ANSWER;

// The run in an answer.
const RUN: usize = layout::ANSWER_RECORD;

// More bytes than a call has.
const ENOUGH: usize = 65536;

// No run has more: a number has at most ten.
const RUN_BYTES: usize = 10 * layout::RECORD;

// Numbers, each behind a blank.
#[derive(Drop)]
struct Row<'a>(&'a [u64]);

impl fmt::Display for Row<'_> {
    fn fmt<W: fmt::Write>(&self, f: &mut fmt::Formatter<W>) -> fmt::Result {
        for number in self.0 {
            write!(f, " {number}")?;
        }
        Ok(())
    }
}

// As many rows as a count says, or all where there are fewer.
// Kept: rows and their count stand apart in the layout (a).
fn first<const N: usize>(rows: &[[u64; N]], count: u64) -> &[[u64; N]] {
    &rows[..rows.len().min(count as usize)]
}

// A line for each row.
fn rows<W: Write, const N: usize>(to: &mut W, word: &str, xs: &[[u64; N]]) -> io::Result<()> {
    for row in xs {
        writeln!(to, "{word}{}", Row(row))?;
    }
    Ok(())
}

// A line for each node whose row has a lead that isn't 0: the node, then the row.
fn nodes<W: Write, const N: usize>(
    to: &mut W,
    word: &str,
    xs: &[[u64; N]],
    lead: usize,
) -> io::Result<()> {
    for (node, row) in xs.iter().enumerate() {
        if row.get(lead).is_some_and(|x| *x != 0) {
            writeln!(to, "{word} {node}{}", Row(row))?;
        }
    }
    Ok(())
}

fn digit(n: u8) -> u8 {
    match n {
        0..=9 => b'0' + n,
        10..=15 => b'a' + (n - 10),
        _ => b'?',
    }
}

// The run's bytes, two digits each, and the end of the line.
// Kept: digits by hand in one text, since `{byte:02x}` for each byte took twice the whole program's work (b).
fn hexadecimal<W: Write>(to: &mut W, xs: &[u64; ANSWER]) -> io::Result<()> {
    let run = <&[u64; layout::RECORD]>::try_from(&xs[RUN..]).unwrap();
    let mut bytes = [0u8; RUN_BYTES];
    let size = in_bytes::run::run_size(run);
    if size <= RUN_BYTES {
        in_bytes::run::write_run(&mut bytes, 0, run);
        let mut text = [b'\n'; 2 * RUN_BYTES + 1];
        let (pairs, _) = text.as_chunks_mut::<2>();
        for (pair, byte) in pairs.iter_mut().zip(&bytes[..size]) {
            *pair = [digit(byte / 16), digit(byte % 16)];
        }
        to.write_all(&text[..2 * size + 1])?;
    }
    Ok(())
}

fn run<W: Write>(to: &mut W, xs: &[u64; ANSWER]) -> io::Result<()> {
    let run = &xs[RUN..];
    writeln!(to, "status {}", run[layout::RECORD_STATUS])?;
    writeln!(to, "input {}", run[layout::RECORD_INPUT])?;
    writeln!(to, "activations {}", run[layout::RECORD_ACTIVATIONS])?;
    writeln!(to, "sequence {}", run[layout::RECORD_LAST_SEQUENCE])?;
    writeln!(to, "time {}", run[layout::RECORD_LAST_ACCEPTED_AT])?;
    let position = &run[layout::RECORD_POSITION_NODE..layout::RECORD_PHASE];
    writeln!(to, "position{}", Row(position))?;
    let invocation = &run[layout::RECORD_PHASE..layout::RECORD_ERROR];
    writeln!(to, "invocation{}", Row(invocation))?;
    let kept = &run[layout::RECORD_ERROR..layout::RECORD_RESULT];
    writeln!(to, "kept{}", Row(kept))?;
    let result = &run[layout::RECORD_RESULT..layout::RECORD_STORED];
    writeln!(to, "result{}", Row(result))?;
    let signals = &run[layout::RECORD_SIGNALS..layout::RECORD_VISITS];
    let (signals, _) = signals.as_chunks::<{ layout::SIGNAL_WIDTH }>();
    rows(to, "signal", first(signals, run[layout::RECORD_STORED]))?;
    let visits = &run[layout::RECORD_VISITS..layout::RECORD_STREAKS];
    let (visits, _) = visits.as_chunks::<1>();
    nodes(to, "visits", visits, 0)?;
    let streaks = &run[layout::RECORD_STREAKS..layout::RECORD_RESULTS];
    let (streaks, _) = streaks.as_chunks::<{ layout::STREAK_WIDTH }>();
    nodes(to, "streak", streaks, 1)?;
    let (outputs, _) = run[layout::RECORD_RESULTS..].as_chunks::<{ layout::RESULT_WIDTH }>();
    nodes(to, "output", outputs, 2)
}

// Kept: an order's kind is a number of the layout, which the library writes but doesn't read back (a).
fn order<W: Write>(to: &mut W, xs: &[u64; ANSWER]) -> io::Result<()> {
    let order = &xs[layout::ANSWER_ORDER_NODE..layout::ANSWER_NOTED];
    match xs[layout::ANSWER_ORDER] {
        1 => writeln!(to, "schedule{}", Row(order)),
        2 => writeln!(
            to,
            "retry {} {} {} {}",
            xs[layout::ANSWER_ORDER_NODE],
            xs[layout::ANSWER_ORDER_VISIT],
            xs[layout::ANSWER_ORDER_ATTEMPT],
            xs[layout::ANSWER_ORDER_NOT_BEFORE]
        ),
        _ => Ok(()),
    }
}

fn next<W: Write>(to: &mut W, xs: &[u64; ANSWER]) -> io::Result<()> {
    writeln!(to, "next {}", xs[layout::ANSWER_MICROSTEPS])?;
    order(to, xs)?;
    let notes = &xs[layout::ANSWER_NOTES..layout::ANSWER_ENDINGS];
    let (notes, _) = notes.as_chunks::<{ layout::NOTE_WIDTH }>();
    rows(to, "note", first(notes, xs[layout::ANSWER_NOTED]))?;
    let endings = &xs[layout::ANSWER_ENDINGS..layout::ANSWER_RECORD];
    let (endings, _) = endings.as_chunks::<{ layout::ENDING_WIDTH }>();
    rows(to, "ending", first(endings, xs[layout::ANSWER_ENDED]))?;
    run(to, xs)?;
    write!(to, "run ")?;
    hexadecimal(to, xs)
}

fn want<W: Write>(to: &mut W, xs: &[u64; ANSWER]) -> io::Result<()> {
    let want = &xs[layout::ANSWER_WANT_NODE..layout::WANT_WIDTH];
    writeln!(to, "want{}", Row(want))?;
    run(to, xs)?;
    write!(to, "moment ")?;
    hexadecimal(to, xs)
}

// Kept: so is an answer's kind (a).
fn show<W: Write>(to: &mut W, xs: &[u64; ANSWER]) -> io::Result<()> {
    match xs[layout::ANSWER_KIND] {
        1 => next(to, xs),
        2 => want(to, xs),
        _ => {
            let number = xs[layout::ANSWER_REFUSAL_NUMBER];
            let item = xs[layout::ANSWER_REFUSAL_ITEM];
            writeln!(to, "refused {number} {item}")
        }
    }
}

// The answer's numbers; none where the bytes are no call.
fn decided(bytes: &[u8]) -> Option<[u64; ANSWER]> {
    let mut answer = [0; ANSWER];
    let is_call = bytes.len() < ENOUGH && in_bytes::decide(bytes, &mut answer);
    is_call.then_some(answer)
}

fn main(rt: HostRuntime) -> io::Result<()> {
    let mut call = Vec::new(rt.alloc());
    // Kept: a cast, since there is no `From` from usize to u64 (d).
    rt.stdin().take(ENOUGH as u64).read_to_end(&mut call)?;
    let mut out = BufWriter::new(rt.alloc(), rt.stdout())?;
    match decided(&call) {
        Some(answer) => show(&mut out, &answer)?,
        None => writeln!(out, "refused {} {NONE}", Refusal::BadBytes.number())?,
    }
    out.flush()
}
