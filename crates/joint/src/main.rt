// Walks Joint A from its start to an end, once until its loop is exhausted and once until the weld is accepted, and prints
// for each call what the tablet shows next: where the run stands, its order, its notes and endings.
#![tactic(auto)]

use graph::Ceilings;
use kernel::{Call, Decision, Limits};
use model::answer::{Answer, Ended, Note, Noted, Order};
use model::event::{Event, Mapping, Mappings};
use model::{Position, State, code};
use std::{fmt, io};
use workflow::code::NONE;
use workflow::layout::NUMBERS;

// An event of no kind.
const BLANK: Event = Event {
    sequence: 0,
    accepted_at: 0,
    delay: 0,
    event_id: 0,
    kind: 0,
    input: 0,
    signal: 0,
    outcome: NONE,
    data: 0,
    node: 0,
    visit: 0,
    attempt: 0,
    status: 0,
    output: 0,
    code: 0,
    detail: 0,
    resolution: 0,
    has_error: false,
    retryable: false,
};

// A mapping answer of no kind.
// Kept: zeros by hand, here and above, since the library's events and mapping answers have no `Default` (d).
const NO_MAPPING: Mapping = Mapping {
    kind: 0,
    value: 0,
    code: 0,
    detail: 0,
    operations: 0,
};

// The call with an event, within the limits of Joint A and with one value.
fn call_with(event: Event) -> Call {
    let value = Mapping {
        kind: code::VALUE,
        value: 7,
        ..NO_MAPPING
    };
    Call {
        ceilings: Ceilings {
            nodes: 64,
            visits: 64,
            activations: 64,
            attempts: 64,
        },
        limits: Limits {
            microsteps: 130,
            commands: 10,
            operations: 10,
        },
        event,
        mappings: Mappings {
            answers: [value, NO_MAPPING],
            count: 1,
        },
    }
}

fn status_word(status: u32) -> &'static str {
    match status {
        code::RUNNING => "running",
        code::WAITING => "waiting",
        code::NEEDS_INTERVENTION => "waiting for a person",
        code::RUN_COMPLETED => "completed",
        _ => "failed",
    }
}

fn ending_word(ending: Ended) -> &'static str {
    match ending {
        Ended::Routed => "routed",
        Ended::Unrouted => "unrouted",
        Ended::Overflow => "overflow",
        Ended::Ignored => "ignored",
        Ended::LeftOver => "left over",
    }
}

// The line of a note: its code in words, and its values.
#[derive(Drop)]
struct NoteLine(Note);

impl fmt::Display for NoteLine {
    fn fmt<W: fmt::Write>(&self, f: &mut fmt::Formatter<W>) -> fmt::Result {
        let [code, _, a, b, c] = self.0.numbers();
        f.write_str("  note: ")?;
        match self.0.noted {
            Noted::Ignored { .. } => f.write_str("ignored, the run has ended")?,
            Noted::Stale { .. } => f.write_str("stale result")?,
            Noted::Unrouted { .. } => f.write_str("unrouted signal")?,
            Noted::Exhausted { .. } => f.write_str("loop exhausted")?,
            _ => write!(f, "number {code}")?,
        }
        writeln!(f, " ({a}, {b}, {c})")
    }
}

// Where a run stands, if it does.
#[derive(Drop)]
struct Place(Position);

impl fmt::Display for Place {
    fn fmt<W: fmt::Write>(&self, f: &mut fmt::Formatter<W>) -> fmt::Result {
        match self.0 {
            Position { node: NONE, .. } => Ok(()),
            Position { node, visit } => write!(f, " at node {node}, visit {visit}"),
        }
    }
}

// The line of an order.
#[derive(Drop)]
struct OrderLine(Order);

impl fmt::Display for OrderLine {
    fn fmt<W: fmt::Write>(&self, f: &mut fmt::Formatter<W>) -> fmt::Result {
        match self.0 {
            Order::Schedule(x) => writeln!(
                f,
                "  order: action {} at node {}, visit {}, attempt {}",
                x.action, x.node, x.visit, x.attempt
            ),
            Order::Retry(x) => writeln!(
                f,
                "  order: again at node {}, visit {}, attempt {}",
                x.node, x.visit, x.attempt
            ),
        }
    }
}

// What the tablet shows of a decision.
#[derive(Drop)]
struct Shown<'a>(&'a Decision);

impl fmt::Display for Shown<'_> {
    fn fmt<W: fmt::Write>(&self, f: &mut fmt::Formatter<W>) -> fmt::Result {
        let decision = self.0;
        match decision.answer {
            Answer::Next { order, microsteps } => {
                let status = status_word(decision.state.status);
                let place = Place(decision.state.position);
                writeln!(f, "{status}{place}; microsteps {microsteps}")?;
                if let Some(order) = order {
                    write!(f, "{}", OrderLine(order))?;
                }
                for note in decision.notes.rows.iter().flatten() {
                    write!(f, "{}", NoteLine(*note))?;
                }
                for it in decision.endings.rows.iter().flatten() {
                    let word = ending_word(it.ending);
                    writeln!(f, "  signal {}: {word}", it.sequence)?;
                }
                Ok(())
            }
            Answer::Wants { node, field, .. } => {
                writeln!(f, "wants field {} of node {node}", field.number())
            }
            Answer::Refused { refusal, item } => {
                writeln!(f, "refused with {}, item {item}", refusal.number())
            }
        }
    }
}

// A run of a sheet: its last accepted record, if it has started.
#[derive(Drop)]
struct Run<'a> {
    sheet: &'a [u32; NUMBERS],
    record: Option<State>,
}

impl Run<'_> {
    // The next event, with nothing but its kind and its number.
    fn event(&self, kind: u32) -> Event {
        let last = self.record.map_or(0, |x| x.last_sequence);
        let sequence = last.wrapping_add(1);
        Event {
            kind,
            sequence,
            accepted_at: sequence,
            ..BLANK
        }
    }

    // Kept: `rt` and `what` are parameters; `rt` as a field would make `Run` generic, with no line fewer (d).
    // One call, shown. The record of an accepted call stands from then on; any other leaves the run as it was.
    fn go(&mut self, rt: &impl Print, what: &str, event: Event) -> io::Result<()> {
        let decision = kernel::transition(self.sheet, self.record, call_with(event));
        if matches!(decision.answer, Answer::Next { .. }) {
            self.record = Some(decision.state);
        }
        print!(rt; "{what}: {}", Shown(&decision))
    }

    fn start(&mut self, rt: &impl Print) -> io::Result<()> {
        self.go(rt, "start", self.event(code::RUN_STARTED))
    }

    // Kept: `success` and `verdict` set other fields of their events; what they share is `event` and `go` (d).
    // The panel's shot and its correction succeeded.
    fn success(&mut self, rt: &impl Print, what: &str, visit: u32) -> io::Result<()> {
        let event = Event {
            visit,
            attempt: 1,
            status: code::SUCCESS,
            ..self.event(code::ACTIVITY_RESULT)
        };
        self.go(rt, what, event)
    }

    // The verdict came: signal 5 with an outcome.
    fn verdict(&mut self, rt: &impl Print, what: &str, outcome: u32) -> io::Result<()> {
        let event = Event {
            signal: 5,
            outcome,
            ..self.event(code::SIGNAL_RECEIVED)
        };
        self.go(rt, what, event)
    }
}

fn main(rt: HostRuntime) -> io::Result<()> {
    let sheet = joint_a::sheet(1);
    println!(rt; "JOINT A, SHOT AGAIN UNTIL ITS LOOP IS EXHAUSTED")?;
    let mut run = Run {
        sheet: &sheet,
        record: None,
    };
    run.start(&rt)?;
    run.success(&rt, "success", 1)?;
    run.verdict(&rt, "verdict: shoot again", 4)?;
    run.success(&rt, "the first success, a second time", 1)?;
    run.success(&rt, "success", 2)?;
    run.verdict(&rt, "verdict: shoot again", 4)?;
    run.verdict(&rt, "verdict: accepted", NONE)?;
    println!(rt; "JOINT A, ACCEPTED")?;
    run.record = None;
    run.start(&rt)?;
    run.success(&rt, "success", 1)?;
    run.verdict(&rt, "verdict: accepted", NONE)
}
