// What an event does to a run: the rest of the moves of machine.rs, over those that the run record has itself (enter, route, take, retry).
#![tactic(auto)]

pub mod events;
pub mod invocation;
pub mod reaction;

ghost use Rattle.std.specs.Prelude.{◌≡◌};
ghost use Rattle.workflow.specs.View.{workflow};
ghost use Rattle.machine.specs.Events.{apply};

use crate::events::{Machine, arrival};
use crate::reaction::Reaction;
use model::event::Event;
use model::moves::{Move, Next, still};
use model::{InvocationState, State, code};
use workflow::layout::NUMBERS;

#[tactic(auto, unfolding(crate::specs::ReactionLaws::performed, crate::specs::Events::complete_invocation))]
// Sequence is set, accepted time becomes the larger of old and new; then what the event makes of the run is done.
pub fn apply(w: &[u32; NUMBERS], mut s: State, event: Event) -> Move
    ensures { result ≡ apply (workflow w.now) s event }
{
    s.last_sequence = event.sequence;
    s.last_accepted_at = s.last_accepted_at.max(event.accepted_at);
    let machine = Machine {
        sheet: w,
        state: &s,
        event: &event,
    };
    match machine.react() {
        Reaction::Pass(next) => still(s, next),
        Reaction::Store => still(s.append_signal(arrival(event)), Next::Rest),
        Reaction::Say { note, ending } => Move {
            note: Some(note),
            ending,
            ..still(s, Next::Rest)
        },
        Reaction::Route { outcome, output } => {
            s.invocation = InvocationState::none();
            s.route(w, outcome, output)
        }
        Reaction::Retry(delay) => s.retry(w, delay),
        Reaction::Park { phase, error, note } => {
            s.status = code::NEEDS_INTERVENTION;
            s.invocation = InvocationState {
                phase,
                error,
                ..s.invocation
            };
            Move {
                note: Some(note),
                ..still(s, Next::Rest)
            }
        }
        Reaction::Fail(error) => s.terminate(w, error),
    }
}
