// What one move of a call hands back.
ghost use Rattle.std.specs.Prelude.{◌≡◌};
ghost use Rattle.model.specs.Step.{still};

use crate::State;
use crate::answer::{Ending, Field, Note, Order};
use workflow::refusal::Refusal;

// What comes after a move.
// Kept: the node come from is a number, since document 01 says none by 255 (a).
#[derive(Clone, Copy, Debug, PartialEq, Eq)]
pub enum Next {
    // nothing: the moves of this call are over
    Rest,
    // a node is entered, from the node come from
    Enter { node: u32, from: u32 },
    // the signal that arrived is taken
    Take,
    // the await-signal node that was entered consumes the store
    Consume,
    // a mapping value is lacking
    Wants { node: u32, field: Field, from: u32 },
    // the call is refused
    Refuse(Refusal),
}

// The next record and what comes after, with at most one note, one ending and one order, and how many mapping answers were read.
#[derive(Clone, Copy, Debug, PartialEq, Eq)]
pub struct Move {
    pub state: State,
    pub next: Next,
    pub note: Option<Note>,
    pub ending: Option<Ending>,
    pub order: Option<Order>,
    pub read: u32,
}

// Nothing but the record and what comes next.
pub fn still(state: State, next: Next) -> Move
    ensures { result ≡ still state next }
{
    Move {
        state,
        next,
        note: None,
        ending: None,
        order: None,
        read: 0,
    }
}
