// The moves that enter a node and order an activity's first attempt.
#![tactic(auto, using(laws::specs::Bool::deciding), unfolding(crate::specs::Step::answer, crate::specs::Step::terminate, crate::specs::Step::without_value, crate::specs::Step::evaluate, crate::specs::Step::schedule, crate::specs::Step::enter_activity, crate::specs::Step::enter_await, crate::specs::Step::enter_complete, crate::specs::Step::arrive, crate::specs::Step::enter, crate::specs::EnterLaws::entering))]

ghost use Rattle.std.specs.Prelude.{◌≡◌, ℕ, ◌+◌, ◌<◌};
ghost use Rattle.workflow.specs.View.{workflow};
ghost use Rattle.model.specs.Record.{visits_of};
ghost use Rattle.model.specs.Step.{reading, answer, terminate, evaluate, schedule, enter_activity, enter_await, enter_complete, arrive, enter};
ghost use Rattle.model.specs.declared.moves.Move.{Move};
ghost use Rattle.model.specs.EnterLaws.{staying, finishing, failing, settled, made, goes_on, Enters, entering};

use crate::answer::{Field, Order, ScheduleActivity};
use crate::event::{Mappings, NoValue};
use crate::moves::{Move, Next, still};
use crate::time::planned;
use crate::{ErrorCode, ErrorInfo, InvocationState, Output, Position, RunResult, State, code};
use workflow::code as sheet;
use workflow::layout::{MAX_ACTIVATIONS, MAX_VISITS_PER_NODE, NODE_COUNT, NODES, NUMBERS};
use workflow::refusal::Refusal;

impl Mappings {
    // The i-th mapping answer of a call: its value, or why there is none.
    pub fn answer(&self, i: u32) -> Result<u32, NoValue>
        ensures { result ≡ answer self.now i }
    {
        if self.count <= i {
            return Err(NoValue::Lacking);
        }
        let Some(x) = self.answers.get(i as usize) else {
            return Err(NoValue::Unencodable);
        };
        match x.kind {
            code::VALUE => Ok(x.value),
            code::FAULT => Err(NoValue::Fault {
                code: x.code,
                detail: x.detail,
            }),
            _ => Err(NoValue::Unencodable),
        }
    }
}

// Where an entry leaves the run.
#[derive(Clone, Copy)]
enum Standing {
    // where it was
    Unmoved,
    // at the node that was entered
    Placed {
        status: u32,
        position: Position,
        invocation: InvocationState,
    },
    // at its end
    Finished {
        status: u32,
        output: Output,
    },
}

// What entering a node makes of a run: where it leaves it, and what the move says.
#[derive(Clone, Copy)]
struct Entry {
    standing: Standing,
    next: Next,
    order: Option<Order>,
    read: u32,
}

impl Entry {
    // The run stays where it stands.
    fn staying(next: Next) -> Entry
        ensures { result ≡ staying next }
    {
        Entry {
            standing: Standing::Unmoved,
            next,
            order: None,
            read: 0,
        }
    }

    // The run ends.
    fn finishing(status: u32, output: Output, read: u32) -> Entry
        ensures { result ≡ finishing status output read }
    {
        Entry {
            standing: Standing::Finished { status, output },
            next: Next::Rest,
            order: None,
            read,
        }
    }

    // The run fails.
    fn failing(code: u32, node: u32, detail: u32, read: u32) -> Entry
        ensures { result ≡ failing code node detail read }
    {
        let error = ErrorInfo { code, node, detail };
        Entry::finishing(code::RUN_FAILED, Output::Error(error), read)
    }
}

// A node that has been entered: the record has counted its visit.
#[derive(Clone, Copy)]
struct Entering<'a> {
    sheet: &'a [u32; NUMBERS],
    state: &'a State,
    node: u32,
    from: u32,
    mappings: &'a Mappings,
}

impl<'a> Entering<'a> {
    // The visit that it was entered for.
    fn visit(&self) -> u32
        ensures { result ≡ (visits_of self.now.state.now self.now.node).count }
    {
        self.state.visits_of(self.node).count
    }

    // The i-th mapping's value. Without one, a fault fails the run at that node, else the call goes no further.
    fn evaluate(&self, i: u32, field: Field) -> Result<u32, Entry>
        requires { i < 2 }
        ensures { (go_on : ℕ → Move) → goes_on self.now.state.now result go_on ≡ evaluate (workflow self.now.sheet.now) (answer self.now.mappings.now i) self.now.state.now self.now.node field self.now.from (i + 1) go_on }
    {
        match self.mappings.answer(i) {
            Ok(handle) => Ok(handle),
            Err(NoValue::Fault { code, detail }) => {
                Err(Entry::failing(code, self.node, detail, i + 1))
            }
            Err(NoValue::Unencodable) => Err(Entry::staying(Next::Refuse(Refusal::Unencodable))),
            Err(NoValue::Lacking) => Err(Entry::staying(Next::Wants {
                node: self.node,
                field,
                from: self.from,
            })),
        }
    }

    // The first attempt of an activity is ordered.
    fn scheduling(&self, input: u32, params: Option<u32>, read: u32) -> Entry
        ensures { made self.now.state.now result ≡ reading read (schedule (workflow self.now.sheet.now) self.now.state.now self.now.node input params) }
    {
        let node = self.node;
        let visit = self.visit();
        let action = workflow::node_of(self.sheet, node).action;
        Entry {
            standing: Standing::Placed {
                status: code::RUNNING,
                position: Position::at(node, visit),
                invocation: InvocationState {
                    phase: code::SCHEDULED,
                    node,
                    visit,
                    action,
                    attempt: 1,
                    input,
                    error: None,
                },
            },
            next: Next::Rest,
            order: Some(Order::Schedule(ScheduleActivity {
                not_before: planned(self.sheet, self.state.last_accepted_at, 0),
                node,
                visit,
                action,
                attempt: 1,
                input,
                params,
            })),
            read,
        }
    }

    // An activity needs its input, then its params if any.
    fn activity(&self) -> Entry
        ensures { Enters self.now result enter_activity }
    {
        // Kept: with `?` here and below the function's type would be Result<Entry, Entry> (d).
        let input = match self.evaluate(0, Field::Input) {
            Ok(handle) => handle,
            Err(entry) => return entry,
        };
        let row = workflow::node_of(self.sheet, self.node);
        if row.has_params != 1 {
            return self.scheduling(input, None, 1);
        }
        let params = match self.evaluate(1, Field::Params) {
            Ok(handle) => handle,
            Err(entry) => return entry,
        };
        self.scheduling(input, Some(params), 2)
    }

    // A complete node needs its output.
    fn completing(&self) -> Entry
        ensures { Enters self.now result enter_complete }
    {
        match self.evaluate(0, Field::Output) {
            Ok(handle) => Entry::finishing(code::RUN_COMPLETED, Output::Handle(handle), 1),
            Err(entry) => entry,
        }
    }

    // An await-signal node waits there, and looks at the store.
    fn awaiting(&self) -> Entry
        ensures { made self.now.state.now result ≡ enter_await (workflow self.now.sheet.now) self.now.state.now self.now.node }
    {
        Entry {
            standing: Standing::Placed {
                status: code::WAITING,
                position: Position::at(self.node, self.visit()),
                invocation: InvocationState::none(),
            },
            next: Next::Consume,
            order: None,
            read: 0,
        }
    }

    // The node that was entered, by its kind.
    fn arriving(&self) -> Entry
        ensures { Enters self.now result arrive }
    {
        let row = workflow::node_of(self.sheet, self.node);
        match row.kind {
            sheet::ACTIVITY => self.activity(),
            sheet::AWAIT_SIGNAL => self.awaiting(),
            sheet::COMPLETE => self.completing(),
            _ => Entry::failing(row.code, self.node, row.detail, 0),
        }
    }
}

impl State {
    // Entering tests visits, then activations, then adds one to both; the rest is by the node's kind.
    fn entry(&mut self, w: &[u32; NUMBERS], node: u32, from: u32, mappings: &Mappings) -> Entry
        ensures { made self.new result ≡ enter (workflow w.now) self.old node from mappings.now }
    {
        let n = node as usize;
        if workflow::capped(w[NODE_COUNT], NODES) <= n {
            return Entry::staying(Next::Refuse(Refusal::Invariant));
        }
        if w[MAX_VISITS_PER_NODE] <= self.visits[n].count {
            return Entry::failing(ErrorCode::VisitsExceeded.number(), node, 0, 0);
        }
        if w[MAX_ACTIVATIONS] <= self.activations {
            return Entry::failing(ErrorCode::ActivationsExceeded.number(), node, 0, 0);
        }
        self.visits[n].count += 1;
        self.activations += 1;
        let entering = Entering {
            sheet: w,
            state: self,
            node,
            from,
            mappings,
        };
        entering.arriving()
    }

    // The run stands where an entry leaves it.
    fn settle(&mut self, standing: Standing)
        ensures { self.new ≡ settled self.old standing }
    {
        match standing {
            Standing::Unmoved => {}
            Standing::Placed {
                status,
                position,
                invocation,
            } => {
                self.status = status;
                self.position = position;
                self.invocation = invocation;
            }
            Standing::Finished { status, output } => self.finish(status, RunResult { output }),
        }
    }

    // The run fails.
    pub fn terminate(mut self, w: &[u32; NUMBERS], error: ErrorInfo) -> Move
        ensures { result ≡ terminate (workflow w.now) self error }
    {
        let result = RunResult {
            output: Output::Error(error),
        };
        self.finish(code::RUN_FAILED, result);
        still(self, Next::Rest)
    }

    // A node that comes next is entered; else the record is handed back as it is.
    pub fn enter(mut self, w: &[u32; NUMBERS], next: Next, mappings: Mappings) -> Move
        ensures { result ≡ entering (workflow w.now) self next mappings }
    {
        let entry = match next {
            Next::Enter { node, from } => self.entry(w, node, from, &mappings),
            _ => Entry::staying(next),
        };
        self.settle(entry.standing);
        Move {
            state: self,
            next: entry.next,
            note: None,
            ending: None,
            order: entry.order,
            read: entry.read,
        }
    }
}
