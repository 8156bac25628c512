// A call. The definition is in specs/.
#![tactic(auto)]

pub mod code;
mod drive;
pub mod listed;

ghost use Rattle.std.specs.Prelude.{◌≡◌, ◌+◌, eqb};
ghost use Rattle.workflow.specs.View.{workflow};
ghost use Rattle.kernel.specs.Call.{start_stage, next_stage, admission, transition};
ghost use Rattle.kernel.specs.Decision.{decision_of};

use graph::{Broken, Ceilings, rule};
use listed::Listed;
use model::answer::{Answer, Ending, Note};
use model::event::{Event, Mappings};
use model::{State, code as record};
use workflow::layout::NUMBERS;
use workflow::refusal::Refusal;

// The most that a call may count.
#[derive(Clone, Copy, Debug, PartialEq, Eq)]
pub struct Limits {
    pub microsteps: u32,
    pub commands: u32,
    pub operations: u32,
}

// What a call carries beside the sheet and the record.
#[derive(Clone, Copy, Debug, PartialEq, Eq)]
pub struct Call {
    pub ceilings: Ceilings,
    pub limits: Limits,
    pub event: Event,
    pub mappings: Mappings,
}

// An answer with its lists and its record. A want has neither list; a refusal has the fresh record, which tells nothing.
#[derive(Clone, Copy, Debug, PartialEq, Eq)]
pub struct Decision {
    pub notes: Listed<Note>,
    pub endings: Listed<Ending>,
    pub answer: Answer,
    pub state: State,
}

// The sequence number is the next one.
fn is_next(sequence: u64, last: u64) -> bool
    ensures { result ≡ eqb sequence (last + 1) }
{
    last.checked_add(1) == Some(sequence)
}

// Without a record: 23, 22.
fn start_stage(kind: u32, sequence: u64) -> Result<(), Broken>
    ensures { result ≡ start_stage kind sequence }
{
    rule(Refusal::NotStarted, kind == record::RUN_STARTED)?;
    rule(Refusal::OutOfSequence, sequence == 1)
}

// With a record: 24, 25, 22.
fn next_stage(w: &[u32; NUMBERS], s: &State, kind: u32, sequence: u64) -> Result<(), Broken>
    ensures { result ≡ next_stage (workflow w.now) s.now kind sequence }
{
    rule(Refusal::StartedBefore, kind != record::RUN_STARTED)?;
    rule(Refusal::Inconsistent, snapshot::consistent(w, s))?;
    rule(Refusal::OutOfSequence, is_next(sequence, s.last_sequence))
}

// The stages of a call before its step: sheet, event, record.
pub fn admit(w: &[u32; NUMBERS], given: &Option<State>, c: &Call) -> Result<(), Broken>
    ensures { result ≡ admission (workflow w.now) given.now c.now }
{
    graph::validate(w, c.ceilings)?;
    rule(
        Refusal::EventUnfit,
        snapshot::event_fits(c.event, c.mappings),
    )?;
    match given {
        Some(s) => next_stage(w, s, c.event.kind, c.event.sequence),
        None => start_stage(c.event.kind, c.event.sequence),
    }
}

// One call on the record that stands, if there is one: the record that comes next with its order, notes and endings; a want; or a refusal.
pub fn transition(w: &[u32; NUMBERS], given: Option<State>, c: Call) -> Decision
    ensures { result ≡ decision_of (transition (workflow w.now) given c) }
{
    if let Err(broken) = admit(w, &given, &c) {
        return drive::refusal(broken.refusal, broken.item);
    }
    let s = given.unwrap_or_else(|| State::fresh(c.event.input));
    drive::drive(w, s, c.limits, c.event, c.mappings)
}
