// The types of document 01 in the names of model.rs: the run record (`State`) with its accessors, events and answers.
#![tactic(auto)]

pub mod answer;
pub mod code;
pub mod enter;
pub mod event;
pub mod moves;
pub mod retry;
pub mod route;
pub mod store;
mod time;

ghost use Rattle.std.specs.Prelude.{◌≡◌, get_or};
ghost use Rattle.model.specs.Record.{no_position, no_invocation, no_signal, no_visits, no_streak, no_node_result, visits_of, streak_of, fresh, finished, is_terminal};
ghost use Rattle.model.specs.Code.{error_code};
ghost use Rattle.model.specs.Answers.{output_numbers, kept_numbers};
ghost use Rattle.model.specs.Store.{signal_zero};
ghost use Rattle.model.specs.Step.{position};

use workflow::code as sheet;
use workflow::layout::NODES;

// The kernel's own error codes; sheets, results and mappings bring others.
#[derive(Clone, Copy, Debug, PartialEq, Eq)]
pub enum ErrorCode {
    VisitsExceeded = 1,
    ActivationsExceeded = 2,
    UndeclaredOutcome = 3,
    AttemptsExhausted = 4,
    ActivityFailed = 5,
}

#[derive(Clone, Copy, Debug, PartialEq, Eq)]
pub struct ErrorInfo {
    pub code: u32,
    pub node: u32,
    pub detail: u32,
}

// What a node or a run yielded: a handle or an error, or nothing so far.
// Kept: document 01 has these three cases; an `Option<Result<..>>` says the same in more words, and makes each of the 64 results larger (d).
#[derive(Clone, Copy, Debug, PartialEq, Eq)]
pub enum Output {
    Nothing,
    Handle(u32),
    Error(ErrorInfo),
}

#[derive(Clone, Copy, Debug, PartialEq, Eq)]
pub struct RunResult {
    pub output: Output,
}

#[derive(Clone, Copy, Debug, Default, PartialEq, Eq)]
pub struct BufferedSignal {
    pub sequence: u64,
    pub event_id: u32,
    pub signal: u32,
    pub outcome: u32,
    pub data: u32,
}

// How often a node was entered.
#[derive(Clone, Copy, Debug, Default, PartialEq, Eq)]
pub struct Visits {
    pub count: u32,
}

// How often in a row a node routed a limited outcome; count 0 for none.
#[derive(Clone, Copy, Debug, Default, PartialEq, Eq)]
pub struct Streak {
    pub outcome: u32,
    pub count: u32,
}

// A node's latest result; its output is `Nothing` where it has none.
#[derive(Clone, Copy, Debug, PartialEq, Eq)]
pub struct NodeResult {
    pub visit: u32,
    pub outcome: u32,
    pub output: Output,
}

// The node where the run stands; 255 and 0 for none.
#[derive(Clone, Copy, Debug, PartialEq, Eq)]
pub struct Position {
    pub node: u32,
    pub visit: u32,
}

// The outstanding invocation; phase 0, node 255 and zeros for none.
// Kept: phase is a number, since a call takes a record with any number and refuses it with 25 (a).
#[derive(Clone, Copy, Debug, PartialEq, Eq)]
pub struct InvocationState {
    pub phase: u32,
    pub node: u32,
    pub visit: u32,
    pub action: u32,
    pub attempt: u32,
    // the input's handle, which is its digest
    pub input: u32,
    // the error that a stuck invocation keeps
    pub error: Option<ErrorInfo>,
}

// The run record. Signals are stored oldest first; visits, streaks and results are by node.
// Kept: arrays beside their count, status a number, and none said by 255, 0 or zeros, in the structs above too: document 01's record in fixed memory, which a call takes with any numbers and refuses with 25 (a).
#[derive(Clone, Copy, Debug, PartialEq, Eq)]
pub struct State {
    pub signals: [BufferedSignal; code::STORE],
    pub visits: [Visits; NODES],
    pub streaks: [Streak; NODES],
    pub results: [NodeResult; NODES],
    pub last_sequence: u64,
    pub last_accepted_at: u64,
    pub signal_count: u32,
    pub status: u32,
    pub input: u32,
    pub activations: u32,
    pub position: Position,
    pub invocation: InvocationState,
    pub result: RunResult,
}

impl ErrorCode {
    // Kept: a derive has no number, and an `impl From` would have this cast and a law about it (d).
    pub fn number(self) -> u32
        ensures { result ≡ error_code self }
    {
        self as u32
    }
}

impl Output {
    pub fn numbers(self) -> [u64; 4]
        ensures { result ≡ output_numbers self }
    {
        match self {
            Output::Nothing => [0; 4],
            Output::Handle(x) => [1, u64::from(x), 0, 0],
            Output::Error(e) => [2, u64::from(e.code), u64::from(e.node), u64::from(e.detail)],
        }
    }
}

// The numbers of the error that an invocation keeps, if it keeps one.
pub fn kept_numbers(error: Option<ErrorInfo>) -> [u64; 4]
    ensures { result ≡ kept_numbers error }
{
    match error {
        None => [0; 4],
        Some(e) => [1, u64::from(e.code), u64::from(e.node), u64::from(e.detail)],
    }
}

impl Position {
    // A position: the one place where one is made.
    pub fn at(node: u32, visit: u32) -> Position
        ensures { result ≡ position node visit }
    {
        Position { node, visit }
    }

    pub fn none() -> Position
        ensures { result ≡ no_position }
    {
        Position {
            node: sheet::NONE,
            visit: 0,
        }
    }
}

impl InvocationState {
    pub fn none() -> InvocationState
        ensures { result ≡ no_invocation }
    {
        InvocationState {
            phase: 0,
            node: sheet::NONE,
            visit: 0,
            action: 0,
            attempt: 0,
            input: 0,
            error: None,
        }
    }
}

impl Visits {
    pub fn none() -> Visits
        ensures { result ≡ no_visits }
    {
        Visits::default()
    }
}

impl NodeResult {
    pub fn none() -> NodeResult
        ensures { result ≡ no_node_result }
    {
        NodeResult {
            visit: 0,
            outcome: 0,
            output: Output::Nothing,
        }
    }
}

impl Streak {
    pub fn none() -> Streak
        ensures { result ≡ no_streak }
    {
        Streak::default()
    }
}

impl BufferedSignal {
    // An unused slot of the store is all zero.
    pub(crate) fn is_none(&self) -> bool
        ensures { result ≡ signal_zero self.now }
    {
        *self == BufferedSignal::none()
    }

    pub fn none() -> BufferedSignal
        ensures { result ≡ no_signal }
    {
        BufferedSignal::default()
    }
}

impl State {
    // How many signals are stored at most.
    // Kept: no From goes from usize to u32 (d).
    pub const STORE: u32 = code::STORE as u32;

    // The record that a start makes, before its start node is entered.
    pub fn fresh(input: u32) -> State
        ensures { result ≡ fresh input }
    {
        State {
            signals: [BufferedSignal::none(); code::STORE],
            visits: [Visits::none(); NODES],
            streaks: [Streak::none(); NODES],
            results: [NodeResult::none(); NODES],
            last_sequence: 0,
            last_accepted_at: 0,
            signal_count: 0,
            status: code::RUNNING,
            input,
            activations: 0,
            position: Position::none(),
            invocation: InvocationState::none(),
            result: RunResult {
                output: Output::Nothing,
            },
        }
    }

    // The visits of a node: none where it has no slot.
    // Kept: this and `streak_of` are the two slots that moves read, a line each over `slot_of` (d).
    pub fn visits_of(&self, node: u32) -> Visits
        ensures { result ≡ visits_of self.now node }
    {
        slot_of(&self.visits, node, Visits::none())
    }

    // The streak of a node: none where it has no slot.
    pub fn streak_of(&self, node: u32) -> Streak
        ensures { result ≡ streak_of self.now node }
    {
        slot_of(&self.streaks, node, Streak::none())
    }

    // The run ends.
    pub(crate) fn finish(&mut self, status: u32, res: RunResult)
        ensures { self.new ≡ finished self.old status res }
    {
        self.status = status;
        self.position = Position::none();
        self.invocation = InvocationState::none();
        self.result = res;
    }

    pub fn finished(mut self, status: u32, res: RunResult) -> State
        ensures { result ≡ finished self status res }
    {
        self.finish(status, res);
        self
    }
}

// A node's slot: an empty one where it has none.
fn slot_of<T: Copy>(slots: &[T], node: u32, none: T) -> T
    ensures { result ≡ get_or slots.now node none }
{
    slots.get(node as usize).copied().unwrap_or(none)
}

// A run has ended when it is completed or failed.
pub fn is_terminal(status: u32) -> bool
    ensures { result ≡ is_terminal status }
{
    status == code::RUN_COMPLETED || status == code::RUN_FAILED
}
