// The events: what each makes of a run.
#![tactic(auto, using(crate::specs::ReactionLaws::choosing), unfolding(crate::specs::ReactionLaws::performed, crate::specs::Events::not_applicable, crate::specs::Events::on_ended, crate::specs::Events::on_signal, crate::specs::Events::on_success, crate::specs::Events::on_failure, crate::specs::Events::on_unknown, crate::specs::Events::on_result, crate::specs::Events::resolve_as_complete, crate::specs::Events::resolve_as_fail, crate::specs::Events::on_resolved, crate::specs::Events::react))]

ghost use Rattle.std.specs.Prelude.{◌≡◌, not, eqb};
ghost use Rattle.workflow.specs.View.{Workflow, workflow};
ghost use Rattle.laws.specs.Bool.{◌and◌};
ghost use Rattle.workflow.specs.Lookup.{node_of, policy_of};
ghost use Rattle.workflow.specs.Code.{repeatable};
ghost use Rattle.model.specs.Code.{waiting};
ghost use Rattle.model.specs.Step.{arrival};
ghost use Rattle.machine.specs.Events.{success_outcome, action_at, may_retry, delay_of, not_applicable, on_ended, on_signal, on_success, on_failure, on_unknown, on_result, resolve_as_complete, resolve_as_fail, on_resolved, react};
ghost use Rattle.machine.specs.ReactionLaws.{performed, At, Stands, Waits, Reacts};

use crate::reaction::Reaction;
use model::answer::{Ended, Noted, Reason};
use model::event::Event;
use model::moves::Next;
use model::{BufferedSignal, ErrorCode, Output, State, code};
use workflow::code as sheet;
use workflow::layout::{NUMBERS, START};

// A run of a sheet that hears an event, once the record has taken note of its sequence and time.
#[derive(Clone, Copy)]
pub struct Machine<'a> {
    pub sheet: &'a [u32; NUMBERS],
    pub state: &'a State,
    pub event: &'a Event,
}

// A success without an outcome means ok.
// Kept: this and model's `signal_outcome` differ in the constant; of both it would be a parameter (d).
fn success_outcome(outcome: u32) -> u32
    ensures { result ≡ success_outcome outcome }
{
    if outcome == sheet::NONE {
        sheet::OK
    } else {
        outcome
    }
}

// The signal that arrived.
pub fn arrival(event: Event) -> BufferedSignal
    ensures { result ≡ arrival event }
{
    BufferedSignal {
        sequence: event.sequence,
        event_id: event.event_id,
        signal: event.signal,
        outcome: event.outcome,
        data: event.data,
    }
}

impl<'a> Machine<'a> {
    // The action of the activity where the run stands.
    // Kept: this and `is_routed` ask the sheet of the run's node different things, and only look alike (d).
    fn action(&self) -> u32
        ensures { result ≡ action_at (workflow self.now.sheet.now) self.now.state.now }
    {
        workflow::node_of(self.sheet, self.state.position.node).action
    }

    // Retry needs attempt < maxAttempts.
    fn may_retry(&self) -> bool
        ensures { result ≡ may_retry (workflow self.now.sheet.now) self.now.state.now self.now.event.now }
    {
        let policy = workflow::policy_of(self.sheet, self.action());
        self.event.attempt < policy.max_attempts
    }

    // The delay of the retry that a result of an action asks for.
    fn delay_of(&self, action: u32) -> u64
        ensures { result ≡ delay_of (workflow self.now.sheet.now) action self.now.event.now }
    {
        self.event.delay
    }

    // What an effect other than 0 did can't be told without a person.
    fn needs_person(&self) -> bool
        ensures { result ≡ not (eqb (policy_of (workflow self.now.sheet.now) (action_at (workflow self.now.sheet.now) self.now.state.now)).effect repeatable) }
    {
        let policy = workflow::policy_of(self.sheet, self.action());
        policy.effect != sheet::REPEATABLE
    }

    // After a failure a retry also needs retryable.
    fn may_retry_failure(&self) -> bool
        ensures { result ≡ (self.now.event.now.retryable and may_retry (workflow self.now.sheet.now) self.now.state.now self.now.event.now) }
    {
        self.event.retryable && self.may_retry()
    }

    // The run waits for the signal that arrived.
    fn is_awaited(&self) -> bool
        ensures { result ≡ (eqb self.now.state.now.status waiting and eqb (node_of (workflow self.now.sheet.now) self.now.state.now.position.node).signal self.now.event.now.signal) }
    {
        let row = workflow::node_of(self.sheet, self.state.position.node);
        self.state.status == code::WAITING && row.signal == self.event.signal
    }

    // An arrival that the run waits for is taken ahead of the store. Otherwise it is stored last; one too many is dropped.
    pub fn on_signal(&self) -> Reaction
        ensures { Reacts (workflow self.now.sheet.now) self.now.event.now result (Waits self.now.state.now) on_signal }
    {
        if self.is_awaited() {
            return Reaction::Pass(Next::Take);
        }
        if State::STORE <= self.state.signal_count {
            let noted = Noted::Overflow {
                event_id: self.event.event_id,
            };
            return Reaction::ended(self.event.sequence, Ended::Overflow, noted);
        }
        Reaction::Store
    }

    // An outcome that the action doesn't declare is a failure.
    fn on_success(&self) -> Reaction
        ensures { Reacts (workflow self.now.sheet.now) self.now.event.now result (At self.now.state.now) on_success }
    {
        let outcome = success_outcome(self.event.outcome);
        let output = Output::Handle(self.event.output);
        if workflow::declares(self.sheet, self.action(), outcome) {
            return Reaction::Route { outcome, output };
        }
        self.fail_invocation(ErrorCode::UndeclaredOutcome.number(), outcome, true)
    }

    // A failure is retried, or fails the invocation with its error if it has one.
    fn on_failure(&self) -> Reaction
        ensures { Reacts (workflow self.now.sheet.now) self.now.event.now result (At self.now.state.now) on_failure }
    {
        if self.may_retry_failure() {
            return Reaction::Retry(self.delay_of(self.action()));
        }
        if self.event.has_error {
            return self.fail_invocation(self.event.code, self.event.detail, true);
        }
        self.fail_invocation(ErrorCode::ActivityFailed.number(), 0, true)
    }

    // Unknown or expired on effect 1 parks the run.
    fn on_unknown(&self) -> Reaction
        ensures { Reacts (workflow self.now.sheet.now) self.now.event.now result (At self.now.state.now) on_unknown }
    {
        if self.needs_person() {
            let noted = Noted::Unknown {
                visit: self.state.invocation.visit,
                attempt: self.state.invocation.attempt,
                status: self.event.status,
            };
            return Reaction::parked(self.state.position.node, code::UNKNOWN, None, noted);
        }
        if self.may_retry() {
            return Reaction::Retry(self.delay_of(self.action()));
        }
        self.fail_invocation(
            ErrorCode::AttemptsExhausted.number(),
            self.event.status,
            true,
        )
    }

    // A result that doesn't apply is stale.
    pub fn on_result(&self) -> Reaction
        ensures { Reacts (workflow self.now.sheet.now) self.now.event.now result (At self.now.state.now) on_result }
    {
        if !self.applies() {
            let noted = Noted::Stale {
                node: self.event.node,
                visit: self.event.visit,
                attempt: self.event.attempt,
            };
            return Reaction::noted(self.named_node(), noted);
        }
        match self.event.status {
            code::SUCCESS => self.on_success(),
            code::FAILURE => self.on_failure(),
            _ => self.on_unknown(),
        }
    }

    // The resolution is noted with the reason why it doesn't apply.
    fn not_applicable(&self, reason: Reason) -> Reaction
        ensures { (sheet : Workflow) → Reacts sheet self.now.event.now result (At self.now.state.now) (λ _ s e. not_applicable s e reason) }
    {
        let noted = Noted::NotApplicable {
            node: self.event.node,
            visit: self.event.visit,
            reason,
        };
        Reaction::noted(self.named_node(), noted)
    }

    // The outcome must be one that the action declares.
    fn resolve_as_complete(&self) -> Reaction
        ensures { Reacts (workflow self.now.sheet.now) self.now.event.now result (At self.now.state.now) resolve_as_complete }
    {
        let outcome = self.event.outcome;
        if workflow::declares(self.sheet, self.action(), outcome) {
            return Reaction::Route {
                outcome,
                output: Output::Handle(self.event.output),
            };
        }
        self.not_applicable(Reason::Undeclared)
    }

    // A stuck run ends as failed with the kept error, even where failed is routed.
    fn resolve_as_fail(&self) -> Reaction
        ensures { Reacts (workflow self.now.sheet.now) self.now.event.now result (At self.now.state.now) (λ f s. resolve_as_fail f self.now.state.now.invocation.error s) }
    {
        match self.state.invocation.error {
            Some(error) => Reaction::Fail(error),
            None => self.fail_invocation(self.event.code, self.event.detail, false),
        }
    }

    // A resolution applies only to the current visit. An operator's retry is held to no number of attempts, and has delay 0.
    pub fn on_resolved(&self) -> Reaction
        ensures { Reacts (workflow self.now.sheet.now) self.now.event.now result (At self.now.state.now) on_resolved }
    {
        if !self.named() {
            return self.not_applicable(Reason::Mismatch);
        }
        if self.state.invocation.phase == code::SCHEDULED {
            return self.not_applicable(Reason::NotUnknown);
        }
        match self.event.resolution {
            code::RESOLVE_COMPLETE => self.resolve_as_complete(),
            code::RESOLVE_RETRY => Reaction::Retry(0),
            _ => self.resolve_as_fail(),
        }
    }

    // An ended run only notes the event.
    pub fn on_ended(&self) -> Reaction
        ensures { (sheet : Workflow) (state : State) → performed sheet state self.now.event.now result ≡ on_ended state self.now.event.now }
    {
        let noted = Noted::Ignored {
            kind: self.event.kind,
        };
        if self.event.kind == code::SIGNAL_RECEIVED {
            return Reaction::ended(self.event.sequence, Ended::Ignored, noted);
        }
        Reaction::noted(sheet::NONE, noted)
    }

    // What the event makes of the run.
    pub fn react(&self) -> Reaction
        ensures { Reacts (workflow self.now.sheet.now) self.now.event.now result (Stands self.now.state.now) react }
    {
        if model::is_terminal(self.state.status) {
            return self.on_ended();
        }
        match self.event.kind {
            code::RUN_STARTED => Reaction::Pass(Next::Enter {
                node: self.sheet[START],
                from: sheet::NONE,
            }),
            code::SIGNAL_RECEIVED => self.on_signal(),
            code::ACTIVITY_RESULT => self.on_result(),
            code::INVOCATION_RESOLVED => self.on_resolved(),
            _ => Reaction::Pass(Next::Rest),
        }
    }
}
