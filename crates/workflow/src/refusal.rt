// The refusals of document 01, each with its number.
ghost use Rattle.std.specs.Prelude.{◌≡◌};

#[derive(Clone, Copy, Debug, PartialEq, Eq)]
pub enum Refusal {
    // The original's kernel.invariant, which no call is answered with.
    Invariant = 0,
    // The sheet's rules: its format, and params in format 1; how many nodes; the start; the limits; what an action declares; the routes of an activity and of an
    // await-signal node; loop limits; nodes that the start does not reach, and that reach no end; a reconcilable action.
    Format = 1,
    Nodes = 3,
    Start = 5,
    Limits = 6,
    ActionPolicy = 7,
    Activity = 8,
    AwaitSignal = 9,
    LoopLimits = 12,
    Unreached = 14,
    Unending = 15,
    Reconcilable = 16,
    // The sheet's form.
    Form = 20,
    // The event.
    EventUnfit = 21,
    // The record: not the next sequence number; none where one is needed; one where none may be; the run check.
    OutOfSequence = 22,
    NotStarted = 23,
    StartedBefore = 24,
    Inconsistent = 25,
    // The step: a microstep over its limit; no time or number for a retry; a mapping value that can't be encoded.
    MicrostepsExceeded = 26,
    NoRetry = 27,
    Unencodable = 28,
    // The finish: orders over the command limit; operations over theirs.
    CommandsExceeded = 29,
    OperationsExceeded = 30,
    // Bytes: what is read; the room for what is written.
    BadBytes = 31,
    ShortBuffer = 32,
}

impl Refusal {
    ghost use Rattle.workflow.specs.Refusal.{number};

    pub fn number(self) -> u32
        ensures { result ≡ number self }
    {
        // Kept: a derive has no number, and an `impl From` would have this cast and a law about it (d).
        self as u32
    }
}
