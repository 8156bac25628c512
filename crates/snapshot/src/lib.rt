// The run check (`consistent` and `owned_by` of snapshot.rs, and what document 01 adds) and the event check.
// Kept: & of tests without effects is as plain as &&, and leaves no branch (d).
#![tactic(auto)]

ghost use Rattle.std.specs.Prelude.{◌≡◌, ◌<◌};
ghost use Rattle.workflow.specs.Layout.{node_room};
ghost use Rattle.workflow.specs.View.{workflow};
ghost use Rattle.snapshot.specs.Check.{result_fits, streak_fits, slot_fits, slots_fit, counters_fit, result_of_status, terminal_fits, owned_by, phase_fits, live_fits, stands, consistent};
ghost use Rattle.snapshot.specs.EventCheck.{in_range, event_fits};
ghost use Rattle.snapshot.specs.CheckLaws.{error_fits, invocation_fits, answers_fit};

use model::event::{Event, Mappings};
use model::store::leaves_over;
use model::{
    ErrorInfo, InvocationState, NodeResult, Output, Position, State, Streak, Visits, code,
};
use workflow::layout::{NODE_COUNT, NODES, NUMBERS};
use workflow::{Node, code as sheet};

// A run: its record, beside the sheet that it is a run of.
#[derive(Clone, Copy)]
struct Run<'a> {
    sheet: &'a [u32; NUMBERS],
    state: &'a State,
}

// A used result has an output; an unused one is all zero.
fn result_fits(x: NodeResult) -> bool
    ensures { result ≡ result_fits x }
{
    (x.output != Output::Nothing) | (x == NodeResult::none())
}

// A terminal state carries the result of its status.
// Kept: each case of an output in a line, and nothing is the result of none (d).
fn result_of_status(status: u32, x: Output) -> bool
    ensures { result ≡ result_of_status status x }
{
    match x {
        Output::Nothing => false,
        Output::Handle(_) => status == code::RUN_COMPLETED,
        Output::Error(_) => status == code::RUN_FAILED,
    }
}

// Exactly a stuck invocation keeps an error.
fn error_fits(phase: u32, error: Option<ErrorInfo>) -> bool
    ensures { result ≡ error_fits phase error }
{
    error.is_some() == (phase == code::STUCK)
}

// The invocation belongs to the activation where the run stands.
fn owned_by(x: InvocationState, position: Position, action: u32) -> bool
    ensures { result ≡ owned_by x position action }
{
    (x.node == position.node)
        & (x.visit == position.visit)
        & (x.action == action)
        & (0 < x.attempt)
        & error_fits(x.phase, x.error)
}

impl<'a> Run<'a> {
    // The slots of a node.

    // A streak's outcome has a limit, and its count is from 1 to the limit.
    fn streak_fits(&self, node: u32, x: Streak) -> bool
        ensures { result ≡ streak_fits (workflow self.now.sheet.now) node x }
    {
        if x.count == 0 {
            return x.outcome == 0;
        }
        workflow::find_limit(self.sheet, node, x.outcome).is_some_and(|limit| x.count <= limit)
    }

    // All of them; all zero where the sheet lacks it.
    fn slot_fits(&self, node: usize) -> bool
        requires { node < node_room }
        ensures { result ≡ slot_fits (workflow self.now.sheet.now) self.now.state.now node }
    {
        let res = self.state.results[node];
        let streak = self.state.streaks[node];
        if node < self.sheet[NODE_COUNT] as usize {
            // Kept: no From goes from usize to u32 (d).
            return result_fits(res) & self.streak_fits(node as u32, streak);
        }
        (self.state.visits[node] == Visits::none())
            & (res == NodeResult::none())
            & (streak == Streak::none())
    }

    // The slots of every node.
    fn slots_fit(&self) -> bool
        ensures { result ≡ slots_fit (workflow self.now.sheet.now) self.now.state.now }
    {
        (0..NODES).all(|node| self.slot_fits(node))
    }

    // Where the run stands.

    fn terminal_fits(&self) -> bool
        ensures { result ≡ terminal_fits self.now.state.now }
    {
        (self.state.position == Position::none())
            & (self.state.invocation == InvocationState::none())
            & result_of_status(self.state.status, self.state.result.output)
    }

    // A running state has a scheduled invocation, one that needs intervention an unknown or, in format 2, a stuck one.
    fn phase_fits(&self) -> bool
        ensures { result ≡ phase_fits (workflow self.now.sheet.now) self.now.state.now.status self.now.state.now.invocation.phase }
    {
        let status = self.state.status;
        let phase = self.state.invocation.phase;
        (status == code::RUNNING) & (phase == code::SCHEDULED)
            | (status == code::NEEDS_INTERVENTION)
                & ((phase == code::UNKNOWN) | (phase == code::STUCK) & workflow::is_0_2(self.sheet))
    }

    // The node waits without an invocation, or works on its own.
    fn invocation_fits(&self, node: Node) -> bool
        ensures { result ≡ invocation_fits (workflow self.now.sheet.now) node self.now.state.now }
    {
        if self.state.status == code::WAITING {
            return (node.kind == sheet::AWAIT_SIGNAL)
                & (self.state.invocation == InvocationState::none());
        }
        (node.kind == sheet::ACTIVITY)
            & self.phase_fits()
            & owned_by(self.state.invocation, self.state.position, node.action)
    }

    // A run that hasn't ended stands at a node of the sheet, on its last visit.
    fn live_fits(&self) -> bool
        ensures { result ≡ live_fits (workflow self.now.sheet.now) self.now.state.now }
    {
        let position = self.state.position;
        (self.state.result.output == Output::Nothing)
            & (position.node < self.sheet[NODE_COUNT])
            & (0 < position.visit)
            & (self.state.visits_of(position.node).count == position.visit)
            & self.invocation_fits(workflow::node_of(self.sheet, position.node))
    }

    fn stands(&self) -> bool
        ensures { result ≡ stands (workflow self.now.sheet.now) self.now.state.now }
    {
        if model::is_terminal(self.state.status) {
            return self.terminal_fits();
        }
        self.live_fits()
    }

    fn counters_fit(&self) -> bool
        ensures { result ≡ counters_fit self.now.state.now }
    {
        (self.state.last_sequence <= code::LARGEST) & (self.state.last_accepted_at <= code::LARGEST)
    }
}

// The run check: counters, store, slots, where the run stands, and that no signal is left over.
pub fn consistent(w: &[u32; NUMBERS], s: &State) -> bool
    ensures { result ≡ consistent (workflow w.now) s.now }
{
    let run = Run { sheet: w, state: s };
    run.counters_fit()
        & s.store_fits()
        & run.slots_fit()
        & run.stands()
        & !leaves_over(s.status, s.signal_count)
}

// The event.

fn in_range(first: u32, last: u32, x: u32) -> bool
    ensures { result ≡ in_range first last x }
{
    (first..=last).contains(&x)
}

// The kind of each mapping answer before the count is known.
fn answers_fit(m: Mappings) -> bool
    ensures { result ≡ answers_fit m }
{
    let rows = workflow::capped(m.count, 2);
    m.answers[..rows].iter().all(|x| in_range(1, 3, x.kind))
}

// Sequence and time are in bounds, there are at most 2 answers, and every kind, status and resolution is known.
pub fn event_fits(e: Event, m: Mappings) -> bool
    ensures { result ≡ event_fits e m }
{
    (e.sequence <= code::LARGEST)
        & (e.accepted_at <= code::LARGEST)
        & (m.count <= 2)
        & in_range(code::RUN_STARTED, code::NOTED, e.kind)
        & ((e.kind != code::ACTIVITY_RESULT) | in_range(1, 4, e.status))
        & ((e.kind != code::INVOCATION_RESOLVED) | in_range(1, 3, e.resolution))
        & answers_fit(m)
}
