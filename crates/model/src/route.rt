// The moves that route a node's outcome and take a signal.
#![tactic(auto, using(laws::specs::Bool::deciding, crate::specs::RouteLaws::route_along), unfolding(crate::specs::RouteLaws::routing_of, crate::specs::RouteLaws::next_of, crate::specs::Step::route, crate::specs::Step::take_by, crate::specs::RouteLaws::taking, crate::specs::RouteLaws::consumed, crate::specs::StoreLaws::found_at, crate::specs::StoreLaws::left_at))]

ghost use Rattle.std.specs.Prelude.{◌≡◌, eqb};
ghost use Rattle.laws.specs.Bool.{◌and◌};
ghost use Rattle.workflow.specs.View.{workflow};
ghost use Rattle.workflow.specs.Code.{exhausted};
ghost use Rattle.workflow.specs.Lookup.{is_0_2};
ghost use Rattle.model.specs.Step.{streak_count, signal_outcome, signal_route, route, take};
ghost use Rattle.model.specs.RouteLaws.{routing_of, next_of, unstored, HasSlot, stored_by, said, made, taking};

use crate::answer::{Ended, Ending, Note, Noted};
use crate::moves::{Move, Next};
use crate::{BufferedSignal, NodeResult, Output, State, Streak};
use workflow::code as sheet;
use workflow::layout::{NODES, NUMBERS};
use workflow::refusal::Refusal;

// Which outcome a node follows, with its next streak and the note that goes with it.
#[derive(Clone, Copy)]
struct Routing {
    streak: Streak,
    outcome: u32,
    note: Option<Note>,
}

// How often in a row the outcome was routed: a streak of another outcome counts 0.
fn streak_count(streak: Streak, outcome: u32) -> u32
    ensures { result ≡ streak_count streak outcome }
{
    if streak.outcome == outcome {
        return streak.count;
    }
    0
}

// With a limit on the outcome, and a streak at it: the streak goes and exhausted is followed. Without a limit the streak goes.
fn routing_of(limit: Option<u32>, streak: Streak, node: u32, outcome: u32) -> Routing
    ensures { result ≡ routing_of limit streak node outcome }
{
    let Some(most) = limit else {
        return Routing {
            streak: Streak::none(),
            outcome,
            note: None,
        };
    };
    let count = streak_count(streak, outcome);
    if most <= count {
        return Routing {
            streak: Streak::none(),
            outcome: sheet::EXHAUSTED,
            note: Some(Note {
                node,
                noted: Noted::Exhausted {
                    outcome,
                    limit: most,
                },
            }),
        };
    }
    Routing {
        streak: Streak {
            outcome,
            count: count + 1,
        },
        outcome,
        note: None,
    }
}

// Where a route leads; an accepted sheet routes what comes here.
fn next_of(target: Option<u32>, node: u32) -> Next
    ensures { result ≡ next_of target node }
{
    match target {
        Some(t) => Next::Enter {
            node: t,
            from: node,
        },
        None => Next::Refuse(Refusal::Invariant),
    }
}

// A signal's absent outcome means received.
fn signal_outcome(outcome: u32) -> u32
    ensures { result ≡ signal_outcome outcome }
{
    if outcome == sheet::NONE {
        return sheet::RECEIVED;
    }
    outcome
}

// The outcome is exhausted, which format 2 reserves.
fn is_reserved(w: &[u32; NUMBERS], outcome: u32) -> bool
    ensures { result ≡ (is_0_2 (workflow w.now) and eqb outcome exhausted) }
{
    workflow::is_0_2(w) && outcome == sheet::EXHAUSTED
}

// The route of a signal's outcome: none for exhausted in format 2.
fn signal_route(w: &[u32; NUMBERS], node: u32, outcome: u32) -> Option<u32>
    ensures { result ≡ signal_route (workflow w.now) node outcome }
{
    if is_reserved(w, outcome) {
        return None;
    }
    workflow::find_route(w, node, outcome)
}

// What is stored at the node that routes.
#[derive(Clone, Copy)]
struct Stored {
    result: NodeResult,
    streak: Streak,
}

// What routing makes of a run: what is stored, if something is, and what is said.
#[derive(Clone, Copy)]
struct Routed {
    stored: Option<Stored>,
    next: Next,
    note: Option<Note>,
    ending: Option<Ending>,
}

// Nothing is stored.
fn unstored(next: Next, note: Option<Note>, ending: Option<Ending>) -> Routed
    ensures { result ≡ unstored next note ending }
{
    Routed {
        stored: None,
        next,
        note,
        ending,
    }
}

// What routing says, with the record in which `store` has stored it. One method that takes the record and does both copied it once more for each signal.
fn said(state: State, routed: Routed) -> Move
    ensures { result ≡ said state routed }
{
    Move {
        state,
        next: routed.next,
        note: routed.note,
        ending: routed.ending,
        order: None,
        read: 0,
    }
}

impl State {
    // The node where the run stands routes: the result goes with the reported outcome.
    fn routed_from(&self, w: &[u32; NUMBERS], outcome: u32, output: Output) -> Routed
        ensures slot { HasSlot self.now result.stored }
        ensures move_is { made self.now result ≡ route (workflow w.now) self.now outcome output }
    {
        let node = self.position.node;
        let n = node as usize;
        if workflow::capped(w[workflow::layout::NODE_COUNT], NODES) <= n {
            return unstored(Next::Refuse(Refusal::Invariant), None, None);
        }
        let limit = workflow::find_limit(w, node, outcome);
        let routing = routing_of(limit, self.streak_of(node), node, outcome);
        Routed {
            stored: Some(Stored {
                result: NodeResult {
                    visit: self.position.visit,
                    outcome,
                    output,
                },
                streak: routing.streak,
            }),
            next: next_of(workflow::find_route(w, node, routing.outcome), node),
            note: routing.note,
            ending: None,
        }
    }

    // A signal is taken where the run waits: it routes and ends there. Without a routed outcome it ends there too, and the run goes on waiting.
    // Inlined at both of its calls: else the record behind the reference is copied once more for each signal, and 130 microsteps take 1.28 times as long.
    #[inline(always)]
    fn taken(&self, w: &[u32; NUMBERS], signal: BufferedSignal, missed: Next) -> Routed
        ensures slot { HasSlot self.now result.stored }
        ensures move_is { made self.now result ≡ take (workflow w.now) self.now signal missed }
    {
        let node = self.position.node;
        let outcome = signal_outcome(signal.outcome);
        let Some(_) = signal_route(w, node, outcome) else {
            let note = Note {
                node,
                noted: Noted::Unrouted {
                    event_id: signal.event_id,
                    outcome,
                },
            };
            let ending = Ending {
                sequence: signal.sequence,
                ending: Ended::Unrouted,
            };
            return unstored(missed, Some(note), Some(ending));
        };
        let ending = Ending {
            sequence: signal.sequence,
            ending: Ended::Routed,
        };
        Routed {
            ending: Some(ending),
            ..self.routed_from(w, outcome, Output::Handle(signal.data))
        }
    }

    // What routing stores at the node where the run stands, if something.
    fn store(&mut self, stored: Option<Stored>)
        requires { HasSlot self.old stored }
        ensures { self.new ≡ stored_by self.old self.old.position.node stored }
    {
        if let Some(kept) = stored {
            let n = self.position.node as usize;
            self.results[n] = kept.result;
            self.streaks[n] = kept.streak;
        }
    }

    // Routing stores the result with the reported outcome, then the streak, and follows the route.
    pub fn route(mut self, w: &[u32; NUMBERS], outcome: u32, output: Output) -> Move
        ensures { result ≡ route (workflow w.now) self outcome output }
    {
        let routed = self.routed_from(w, outcome, output);
        self.store(routed.stored);
        said(self, routed)
    }

    // A signal is taken where one is to be: the one that arrived, or the oldest stored one of the name that the node waits for. Else nothing is.
    pub fn take(mut self, w: &[u32; NUMBERS], next: Next, arrived: BufferedSignal) -> Move
        ensures { result ≡ taking (workflow w.now) self next arrived }
    {
        let routed = match next {
            Next::Take => self.taken(w, arrived, Next::Rest),
            Next::Consume => {
                let name = workflow::node_of(w, self.position.node).signal;
                match self.remove_first(name) {
                    Some(signal) => self.taken(w, signal, Next::Consume),
                    None => unstored(Next::Rest, None, None),
                }
            }
            _ => unstored(next, None, None),
        };
        self.store(routed.stored);
        said(self, routed)
    }
}
