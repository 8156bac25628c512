// The moves of a call, one after the other, and its answer.
ghost use Rattle.std.specs.Prelude.{◌≡◌, ◌+◌, ◌≤◌, List, [], take};
ghost use Rattle.model.specs.declared.answer.Note.{Note};
ghost use Rattle.model.specs.declared.answer.Ending.{Ending};
ghost use Rattle.workflow.specs.View.{workflow};
ghost use Rattle.kernel.specs.Drive.{operations_of, driven};
ghost use Rattle.kernel.specs.Cost.{takes};
ghost use Rattle.kernel.specs.Call.{refused, orders, finish};
ghost use Rattle.kernel.specs.Listed.{listed};
ghost use Rattle.kernel.specs.Decision.{decision, decision_of};
ghost use Rattle.kernel.specs.DriveLaws.{entries, round_of, is_over, closing, decide, rest_answer, answer_of, at_end, Begins};

use crate::listed::Listed;
use crate::{Decision, Limits};
use machine::events::arrival;
use model::answer::{Answer, Ending, Note, Order};
use model::event::{Event, Mappings};
use model::moves::{Move, Next};
use model::store::leaves_over;
use model::{BufferedSignal, State};
use workflow::code::NONE;
use workflow::layout::NUMBERS;
use workflow::refusal::Refusal;

// A signal that is taken and the entry that follows, told as one move, and how many microsteps these were.
#[derive(Clone, Copy)]
struct Round {
    made: Move,
    microsteps: u32,
}

// The operations of the mapping answers that were read.
fn operations_of(mappings: Mappings, read: u32) -> u64
    ensures value { result ≡ operations_of (take read mappings.answers) }
    ensures upper_bound { result ≤ 8589934592 }
{
    mappings
        .answers
        .iter()
        .take(read as usize)
        .map(|answer| u64::from(answer.operations))
        .sum()
}

// A signal that ended was taken.
fn takes(ending: Option<Ending>) -> u32
    ensures { result ≡ takes ending }
{
    u32::from(ending.is_some())
}

// An entry, where a node is next.
fn entries(next: Next) -> u32
    ensures { result ≡ entries next }
{
    u32::from(matches!(next, Next::Enter { .. }))
}

// A signal is taken where one is to be, and the node that is then to be entered is.
fn take_and_enter(
    w: &[u32; NUMBERS],
    state: State,
    next: Next,
    arrived: BufferedSignal,
    mappings: Mappings,
) -> Round
    ensures { result ≡ round_of (workflow w.now) state next arrived mappings }
{
    let taken = state.take(w, next, arrived);
    let entered = taken.state.enter(w, taken.next, mappings);
    Round {
        made: Move {
            note: taken.note,
            ending: taken.ending,
            ..entered
        },
        microsteps: takes(taken.ending) + entries(taken.next),
    }
}

// No move follows: nothing comes next, or the store is to be consumed and is empty.
fn is_over(next: Next, stored: u32) -> bool
    ensures { result ≡ is_over next stored }
{
    matches!(next, Next::Rest | Next::Wants { .. } | Next::Refuse(_))
        || (next == Next::Consume && stored == 0)
}

fn order_count(order: Option<Order>) -> u32
    ensures { result ≡ orders order }
{
    u32::from(order.is_some())
}

// At rest: 29 orders over the command limit, then 30 operations over theirs.
// Kept: NONE, here and below: document 01 gives 255 as the item of a refusal that has none (a).
fn rest_answer(order: Option<Order>, limits: Limits, microsteps: u32, operations: u64) -> Answer
    ensures { result ≡ rest_answer order limits microsteps operations }
{
    if limits.commands < order_count(order) {
        return Answer::Refused {
            refusal: Refusal::CommandsExceeded,
            item: NONE,
        };
    }
    if u64::from(limits.operations) < operations {
        return Answer::Refused {
            refusal: Refusal::OperationsExceeded,
            item: NONE,
        };
    }
    Answer::Next { order, microsteps }
}

// The answer where no move follows.
fn answer_of(
    next: Next,
    order: Option<Order>,
    limits: Limits,
    microsteps: u32,
    operations: u64,
) -> Answer
    ensures { result ≡ answer_of next order limits microsteps operations }
{
    match next {
        Next::Rest => rest_answer(order, limits, microsteps, operations),
        Next::Consume => rest_answer(None, limits, microsteps, operations),
        Next::Wants { node, field, from } => Answer::Wants { node, field, from },
        Next::Refuse(refusal) => Answer::Refused {
            refusal,
            item: NONE,
        },
        _ => Answer::Refused {
            refusal: Refusal::Invariant,
            item: NONE,
        },
    }
}

// An answer without notes and endings.
fn bare(answer: Answer, state: State) -> Decision
    ensures { result ≡ decision [] [] answer state }
{
    Decision {
        notes: Listed::none(),
        endings: Listed::none(),
        answer,
        state,
    }
}

// A refusal has its number and item, and nothing more.
pub fn refusal(refusal: Refusal, item: u32) -> Decision
    ensures { result ≡ decision_of (refused refusal item) }
{
    bare(Answer::Refused { refusal, item }, State::fresh(0))
}

// The close: what is still stored is left over, behind the other endings, and the store is empty.
// Kept: the store's bound in three functions, this, decide and drive: a call takes a record with any count, and refuses it with 25, so State can't hold it (a).
fn close(
    notes: Listed<Note>,
    mut endings: Listed<Ending>,
    order: Option<Order>,
    microsteps: u32,
    state: State,
) -> Decision
    requires signal_count_bound { endings.count + state.signal_count ≤ 65 }
    requires signal_count_bound_2 { state.signal_count ≤ 64 }
    ensures { (ns : List Note) → (es : List Ending) → notes ≡ listed ns → endings ≡ listed es → result ≡ closing ns es state order microsteps }
{
    let left = state.left_over();
    endings.append(&left[..state.signal_count as usize]);
    Decision {
        notes,
        endings,
        answer: Answer::Next { order, microsteps },
        state: state.emptied(),
    }
}

// What an answer hands back: a want has no notes and no endings, a refusal no record besides; an accepted one is closed where signals are left over.
fn decide(notes: Listed<Note>, endings: Listed<Ending>, answer: Answer, state: State) -> Decision
    requires signal_count_bound { endings.count + state.signal_count ≤ 65 }
    requires signal_count_bound_2 { state.signal_count ≤ 64 }
    ensures { (ns : List Note) → (es : List Ending) → notes ≡ listed ns → endings ≡ listed es → result ≡ decide ns es state answer }
{
    match answer {
        Answer::Next { order, microsteps } => {
            if leaves_over(state.status, state.signal_count) {
                return close(notes, endings, order, microsteps, state);
            }
            Decision {
                notes,
                endings,
                answer,
                state,
            }
        }
        Answer::Wants { .. } => bare(answer, state),
        Answer::Refused { refusal: why, item } => refusal(why, item),
    }
}

// What a round says is listed, and the next is made, until none follows. Its microsteps are counted against the limit first.
fn run(
    w: &[u32; NUMBERS],
    mut v: Round,
    limits: Limits,
    event: Event,
    mappings: Mappings,
) -> Decision
    requires { Begins (workflow w.now) limits event mappings v }
    ensures { result ≡ decision_of (finish limits (at_end (workflow w.now) limits event mappings v)) }
{
    let mut notes = Listed::none();
    let mut endings = Listed::none();
    let mut operations: u64 = 0;
    let mut microsteps: u32 = 0;
    // Kept: the rounds are no range and no list, for each follows from the one before (d).
    loop {
        microsteps += v.microsteps;
        if limits.microsteps < microsteps {
            return refusal(Refusal::MicrostepsExceeded, NONE);
        }
        notes.add(v.made.note);
        endings.add(v.made.ending);
        operations += operations_of(mappings, v.made.read);
        if is_over(v.made.next, v.made.state.signal_count) {
            let answer = answer_of(v.made.next, v.made.order, limits, microsteps, operations);
            return decide(notes, endings, answer, v.made.state);
        }
        v = take_and_enter(w, v.made.state, v.made.next, arrival(event), mappings);
    }
}

// The event is applied, and what follows is done.
pub fn drive(
    w: &[u32; NUMBERS],
    s: State,
    limits: Limits,
    event: Event,
    mappings: Mappings,
) -> Decision
    requires { s.signal_count ≤ 64 }
    ensures { result ≡ decision_of (finish limits (driven (workflow w.now) limits.microsteps event mappings s)) }
{
    let applied = machine::apply(w, s, event);
    let first = Round {
        made: applied,
        microsteps: 0,
    };
    run(w, first, limits, event, mappings)
}
