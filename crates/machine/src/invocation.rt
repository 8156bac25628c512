// An invocation: which events name it, and what its failure comes to.
#![tactic(auto, using(crate::specs::ReactionLaws::choosing), unfolding(crate::specs::ReactionLaws::performed, crate::specs::Events::named, crate::specs::Events::named_node, crate::specs::Events::applies, crate::specs::Events::stick, crate::specs::Events::fail_invocation))]

ghost use Rattle.std.specs.Prelude.{◌≡◌};
ghost use Rattle.workflow.specs.View.{workflow};
ghost use Rattle.model.specs.declared.event.Event.{Event};
ghost use Rattle.laws.specs.Bool.{◌and◌};
ghost use Rattle.workflow.specs.Lookup.{is_0_2, routed};
ghost use Rattle.machine.specs.Events.{named, named_node, applies, fail_invocation};
ghost use Rattle.machine.specs.ReactionLaws.{At, Reacts};

use crate::events::Machine;
use crate::reaction::Reaction;
use model::answer::Noted;
use model::{ErrorInfo, Output, code};
use workflow::code as sheet;

impl<'a> Machine<'a> {
    // There is an invocation, and its node and visit are those named.
    pub fn named(&self) -> bool
        ensures { result ≡ named self.now.state.now.invocation self.now.event.now }
    {
        let invocation = self.state.invocation;
        invocation.phase != 0
            && invocation.node == self.event.node
            && invocation.visit == self.event.visit
    }

    // The current node, if it is the one named.
    // Kept: a number, since document 01 says none by 255 (a).
    pub fn named_node(&self) -> u32
        ensures { result ≡ named_node self.now.state.now.invocation self.now.event.now }
    {
        if self.named() {
            self.state.invocation.node
        } else {
            sheet::NONE
        }
    }

    // A result applies only to the current visit and attempt in phase scheduled.
    pub fn applies(&self) -> bool
        ensures { result ≡ applies self.now.state.now.invocation self.now.event.now }
    {
        let invocation = self.state.invocation;
        self.named()
            && invocation.attempt == self.event.attempt
            && invocation.phase == code::SCHEDULED
    }

    fn is_routed(&self, outcome: u32) -> bool
        ensures { result ≡ routed (workflow self.now.sheet.now) self.now.state.now.position.node outcome }
    {
        workflow::find_route(self.sheet, self.state.position.node, outcome).is_some()
    }

    // Format 2 parks a failure that may park.
    // Kept: may_park, here and below, since the public `fail_invocation` takes it (a).
    fn parks(&self, may_park: bool) -> bool
        ensures { result ≡ (may_park and is_0_2 (workflow self.now.sheet.now)) }
    {
        may_park && workflow::is_0_2(self.sheet)
    }

    // A failure follows route failed; without one, format 2 parks a result's failure as stuck, with its error kept, else the run fails.
    pub fn fail_invocation(&self, code: u32, detail: u32, may_park: bool) -> Reaction
        ensures { (event : Event) → Reacts (workflow self.now.sheet.now) event result (At self.now.state.now) (λ f s _. fail_invocation f s code detail may_park) }
    {
        let node = self.state.position.node;
        let error = ErrorInfo { code, node, detail };
        if self.is_routed(sheet::FAILED) {
            return Reaction::Route {
                outcome: sheet::FAILED,
                output: Output::Error(error),
            };
        }
        if self.parks(may_park) {
            let noted = Noted::Stuck {
                visit: self.state.invocation.visit,
                attempt: self.state.invocation.attempt,
                code,
            };
            return Reaction::parked(node, code::STUCK, Some(error), noted);
        }
        Reaction::Fail(error)
    }
}
