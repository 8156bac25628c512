// What an event makes of a run, as a value: only `apply` takes the run record and does it.
ghost use Rattle.std.specs.Prelude.{◌≡◌, Some, None};
ghost use Rattle.workflow.specs.Code.{none};
ghost use Rattle.machine.specs.declared.reaction.Reaction.TheVariants.{Say, Park};

use model::answer::{Ended, Ending, Note, Noted};
use model::moves::Next;
use model::{ErrorInfo, Output};
use workflow::code as sheet;

// Kept: no Option or Result, since its cases hold what each of them needs (d).
#[derive(Clone, Copy, Debug, PartialEq, Eq)]
pub enum Reaction {
    // nothing changes, and this comes next
    Pass(Next),
    // the arrival is stored
    Store,
    // only a note, and an ending where a signal ends
    Say {
        note: Note,
        ending: Option<Ending>,
    },
    // the invocation is over, and its node routes
    Route {
        outcome: u32,
        output: Output,
    },
    // the next attempt is ordered, after a delay
    Retry(u64),
    // the run waits for a person, its invocation in that phase with the error that it keeps
    Park {
        phase: u32,
        error: Option<ErrorInfo>,
        note: Note,
    },
    // the run fails
    Fail(ErrorInfo),
}

impl Reaction {
    // Only a note.
    pub fn noted(node: u32, noted: Noted) -> Reaction
        ensures { result ≡ Say (record { node = node; noted = noted }) None }
    {
        Reaction::Say {
            note: Note { node, noted },
            ending: None,
        }
    }

    // A signal ends, with a note that is of no node.
    pub fn ended(sequence: u64, ending: Ended, noted: Noted) -> Reaction
        ensures { result ≡ Say (record { node = none; noted = noted }) (Some (record { sequence = sequence; ending = ending })) }
    {
        Reaction::Say {
            note: Note {
                node: sheet::NONE,
                noted,
            },
            ending: Some(Ending { sequence, ending }),
        }
    }

    // The run waits for a person, with a note.
    pub fn parked(node: u32, phase: u32, error: Option<ErrorInfo>, noted: Noted) -> Reaction
        ensures { result ≡ Park phase error (record { node = node; noted = noted }) }
    {
        Reaction::Park {
            phase,
            error,
            note: Note { node, noted },
        }
    }
}
