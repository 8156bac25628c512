// The move that orders the next attempt of an invocation.
#![tactic(auto, using(laws::specs::Bool::deciding), unfolding(crate::specs::Step::retry))]

ghost use Rattle.std.specs.Prelude.{◌≡◌, ltb};
ghost use Rattle.workflow.specs.View.{workflow};
ghost use Rattle.model.specs.Code.{largest};
ghost use Rattle.model.specs.Step.{planned, retry};
ghost use Rattle.model.specs.RouteLaws.{tried};

use crate::answer::{Note, Noted, Order, RetryActivity};
use crate::moves::{Move, Next, still};
use crate::time::planned;
use crate::{InvocationState, State, code};
use workflow::layout::NUMBERS;
use workflow::refusal::Refusal;

// What the next attempt makes of a run.
#[derive(Clone, Copy)]
struct Attempt {
    invocation: InvocationState,
    note: Note,
    order: Order,
}

impl State {
    // The planned time is above the largest.
    fn is_late(&self, w: &[u32; NUMBERS], delay: u64) -> bool
        ensures { result ≡ ltb largest (planned (workflow w.now) self.now.last_accepted_at delay) }
    {
        code::LARGEST < self.last_accepted_at.saturating_add(delay)
    }

    // The next attempt of the invocation, if one can be ordered.
    fn attempt_after(&self, w: &[u32; NUMBERS], delay: u64) -> Option<Attempt>
        ensures { tried self.now result ≡ retry (workflow w.now) self.now delay }
    {
        if self.is_late(w, delay) {
            return None;
        }
        let old = self.invocation;
        let attempt = old.attempt.checked_add(1)?;
        Some(Attempt {
            invocation: InvocationState {
                phase: code::SCHEDULED,
                attempt,
                error: None,
                ..old
            },
            note: Note {
                node: self.position.node,
                noted: Noted::Retry { attempt },
            },
            order: Order::Retry(RetryActivity {
                not_before: planned(w, self.last_accepted_at, delay),
                node: old.node,
                visit: old.visit,
                attempt,
            }),
        })
    }

    // The next attempt of the invocation is ordered.
    pub fn retry(mut self, w: &[u32; NUMBERS], delay: u64) -> Move
        ensures { result ≡ retry (workflow w.now) self delay }
    {
        let Some(next) = self.attempt_after(w, delay) else {
            return still(self, Next::Refuse(Refusal::NoRetry));
        };
        self.status = code::RUNNING;
        self.invocation = next.invocation;
        Move {
            state: self,
            next: Next::Rest,
            note: Some(next.note),
            ending: None,
            order: Some(next.order),
            read: 0,
        }
    }
}
