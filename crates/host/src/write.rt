// A run record and an answer into a lent buffer (docs/NUMBERS.md).
#![tactic(auto, using(crate::specs::RowLaws::marked_is), unfolding(crate::specs::Write::scalar_numbers, crate::specs::Write::event_numbers))]

ghost use Rattle.std.specs.Prelude.{◌≡◌, ◌+◌, ◌≤◌, ◌++◌, length, replicate};
ghost use Rattle.laws.specs.Splice.{splice};
ghost use Rattle.host.specs.Layout.{nodes, record_signals, record_length, answer_length};
ghost use Rattle.host.specs.Write.{scalar_numbers, head_numbers, record_numbers, decision_numbers, event_numbers};
ghost use Rattle.host.specs.ByCount.{Zeros};
ghost use Rattle.host.specs.WriteRows.{front_numbers, is_refused, Counted};

use crate::layout;
use crate::rows::{leading, write_rows};
use kernel::Decision;
use model::State;
use model::answer::{Answer, Ending, Note};
use model::event::Event;
use workflow::capped;

#[tactic(auto, unfolding(laws::specs::Splice::splice))]
pub(crate) fn write(out: &mut [u64], xs: &[u64])
    requires { length xs.now ≤ length out.old }
    ensures { out.new ≡ splice out.old 0 xs.now }
{
    out[..xs.len()].copy_from_slice(xs);
}

fn scalars(s: &State) -> [u64; layout::RECORD_ERROR]
    ensures { result ≡ scalar_numbers s.now }
{
    [
        u64::from(s.status),
        u64::from(s.input),
        u64::from(s.activations),
        s.last_sequence,
        s.last_accepted_at,
        u64::from(s.position.node),
        u64::from(s.position.visit),
        u64::from(s.invocation.phase),
        u64::from(s.invocation.node),
        u64::from(s.invocation.visit),
        u64::from(s.invocation.action),
        u64::from(s.invocation.attempt),
        u64::from(s.invocation.input),
    ]
}

// A record up to its rows.
fn write_head(out: &mut [u64], s: &State)
    requires { record_signals ≤ length out.old }
    ensures { out.new ≡ splice out.old 0 (head_numbers s.now) }
{
    let first = scalars(s);
    let kept = model::kept_numbers(s.invocation.error);
    let ended = s.result.output.numbers();
    let count = [u64::from(s.signal_count)];
    write(out, &first);
    write(&mut out[layout::RECORD_ERROR..], &kept);
    write(&mut out[layout::RECORD_RESULT..], &ended);
    write(&mut out[layout::RECORD_STORED..], &count);
}

// A record over zeros, with the sheet's count of nodes.
// Kept: the count is of the sheet's nodes, here and below, and says nothing of the buffer (d).
fn write_record(out: &mut [u64], s: &State, count: usize)
    requires { (record_length ≤ length out.old) × (count ≤ nodes) × Zeros out.old 0 record_length }
    ensures { out.new ≡ splice out.old 0 (record_numbers s.now) }
{
    let stored = capped(s.signal_count, layout::STORE);
    write_head(out, s);
    write_rows(
        &mut out[layout::RECORD_SIGNALS..],
        leading(&s.signals, stored),
    );
    write_rows(&mut out[layout::RECORD_VISITS..], leading(&s.visits, count));
    write_rows(
        &mut out[layout::RECORD_STREAKS..],
        leading(&s.streaks, count),
    );
    write_rows(
        &mut out[layout::RECORD_RESULTS..],
        leading(&s.results, count),
    );
}

// A record's numbers by themselves.
pub fn record_numbers(s: State) -> [u64; layout::RECORD]
    ensures { result ≡ record_numbers s }
{
    let mut out = [0; layout::RECORD];
    write_record(&mut out, &s, layout::NODES);
    out
}

// An event's numbers: those of a call from its sequence on.
pub fn event_numbers(e: Event) -> [u64; layout::EVENT]
    ensures { result ≡ event_numbers e }
{
    [
        e.sequence,
        e.accepted_at,
        u64::from(e.event_id),
        u64::from(e.kind),
        u64::from(e.input),
        u64::from(e.signal),
        u64::from(e.outcome),
        u64::from(e.data),
        u64::from(e.node),
        u64::from(e.visit),
        u64::from(e.attempt),
        u64::from(e.status),
        u64::from(e.output),
        u64::from(e.has_error),
        u64::from(e.code),
        u64::from(e.detail),
        u64::from(e.retryable),
        e.delay,
        u64::from(e.resolution),
    ]
}

fn is_refused(answer: Answer) -> bool
    ensures { result ≡ is_refused answer }
{
    matches!(answer, Answer::Refused { .. })
}

// What stands before the record, and zeros in its place.
fn write_front(out: &mut [u64], d: &Decision)
    requires { (answer_length ≤ length out.old) × Counted d.now }
    ensures { out.new ≡ splice out.old 0 (front_numbers d.now ++ replicate record_length 0) }
{
    let counts = [u64::from(d.notes.count), u64::from(d.endings.count)];
    let notes: &[Option<Note>] = &d.notes.rows;
    let endings: &[Option<Ending>] = &d.endings.rows;
    let noted = capped(d.notes.count, layout::NOTES);
    let ended = capped(d.endings.count, layout::ENDINGS);
    out[..layout::ANSWER].fill(0);
    write(out, &d.answer.numbers());
    write(&mut out[layout::ANSWER_NOTED..], &counts);
    write_rows(&mut out[layout::ANSWER_NOTES..], &notes[..noted]);
    write_rows(&mut out[layout::ANSWER_ENDINGS..], &endings[..ended]);
}

// With the sheet's count of nodes. A refusal has no record: zeros are left.
pub fn write_decision(out: &mut [u64], d: Decision, count: usize)
    requires { (answer_length ≤ length out.old) × (count ≤ nodes) × Counted d }
    ensures out_after { out.new ≡ splice out.old 0 (decision_numbers d) }
    ensures d_len { length (decision_numbers d) ≡ answer_length }
{
    write_front(out, &d);
    if is_refused(d.answer) {
        return;
    }
    write_record(&mut out[layout::ANSWER_RECORD..], &d.state, count);
}
