// What a call hands back.
ghost use Rattle.std.specs.Prelude.{◌≡◌};
ghost use Rattle.model.specs.Answers.{params_numbers, order_numbers, reason_number, note_numbers, ended_number, ending_numbers, field_number, answer_numbers};

use workflow::refusal::Refusal;

#[derive(Clone, Copy, Debug, PartialEq, Eq)]
pub struct ScheduleActivity {
    pub not_before: u64,
    pub node: u32,
    pub visit: u32,
    pub action: u32,
    pub attempt: u32,
    pub input: u32,
    // the params' handle, if the node has params
    pub params: Option<u32>,
}

#[derive(Clone, Copy, Debug, PartialEq, Eq)]
pub struct RetryActivity {
    pub not_before: u64,
    pub node: u32,
    pub visit: u32,
    pub attempt: u32,
}

// The command of a call.
#[derive(Clone, Copy, Debug, PartialEq, Eq)]
pub enum Order {
    Schedule(ScheduleActivity),
    Retry(RetryActivity),
}

// Why a resolution doesn't apply.
#[derive(Clone, Copy, Debug, PartialEq, Eq)]
pub enum Reason {
    Mismatch = 1,
    NotUnknown = 2,
    Undeclared = 3,
}

// What is noted, with its values.
#[derive(Clone, Copy, Debug, PartialEq, Eq)]
pub enum Noted {
    // 1: an event of that kind, since the run has ended
    Ignored {
        kind: u32,
    },
    // 2: a result that names that node, visit and attempt
    Stale {
        node: u32,
        visit: u32,
        attempt: u32,
    },
    // 3: a resolution that names that node and visit
    NotApplicable {
        node: u32,
        visit: u32,
        reason: Reason,
    },
    // 4: one signal too many
    Overflow {
        event_id: u32,
    },
    // 5: a signal whose outcome isn't routed
    Unrouted {
        event_id: u32,
        outcome: u32,
    },
    // 6: an invocation that a result with that status parks
    Unknown {
        visit: u32,
        attempt: u32,
        status: u32,
    },
    // 7: an invocation that failed with that error
    Stuck {
        visit: u32,
        attempt: u32,
        code: u32,
    },
    // 8: the next attempt
    Retry {
        attempt: u32,
    },
    // 9: a loop at its limit
    Exhausted {
        outcome: u32,
        limit: u32,
    },
}

// A note, at a node or at none.
// Kept: the node is a number, since document 01 says none by 255 (a).
#[derive(Clone, Copy, Debug, PartialEq, Eq)]
pub struct Note {
    pub node: u32,
    pub noted: Noted,
}

// How a signal ended.
#[derive(Clone, Copy, Debug, PartialEq, Eq)]
pub enum Ended {
    Routed = 1,
    Unrouted = 2,
    Overflow = 3,
    Ignored = 4,
    LeftOver = 5,
}

// The ending of a signal, which its sequence number says.
#[derive(Clone, Copy, Debug, PartialEq, Eq)]
pub struct Ending {
    pub sequence: u64,
    pub ending: Ended,
}

// The mapping that a want is of.
#[derive(Clone, Copy, Debug, PartialEq, Eq)]
pub enum Field {
    Input = 0,
    Params = 1,
    Output = 2,
}

// One of three: a next record with its order and microsteps; a want of one mapping value; a refusal.
#[derive(Clone, Copy, Debug, PartialEq, Eq)]
pub enum Answer {
    Next {
        order: Option<Order>,
        microsteps: u32,
    },
    Wants {
        node: u32,
        field: Field,
        from: u32,
    },
    Refused {
        refusal: Refusal,
        item: u32,
    },
}

// The numbers of an order's params.
pub fn params_numbers(params: Option<u32>) -> [u64; 2]
    ensures { result ≡ params_numbers params }
{
    match params {
        None => [0, 0],
        Some(handle) => [1, u64::from(handle)],
    }
}

impl Order {
    pub fn numbers(self) -> [u64; 9]
        ensures { result ≡ order_numbers (Some self) }
    {
        match self {
            Order::Schedule(x) => {
                let params = params_numbers(x.params);
                [
                    1,
                    u64::from(x.node),
                    u64::from(x.visit),
                    u64::from(x.action),
                    u64::from(x.attempt),
                    x.not_before,
                    u64::from(x.input),
                    params[0],
                    params[1],
                ]
            }
            Order::Retry(x) => [
                2,
                u64::from(x.node),
                u64::from(x.visit),
                0,
                u64::from(x.attempt),
                x.not_before,
                0,
                0,
                0,
            ],
        }
    }
}

// The numbers of a call's order, if there is one.
pub fn order_numbers(order: Option<Order>) -> [u64; 9]
    ensures { result ≡ order_numbers order }
{
    match order {
        None => [0; 9],
        Some(x) => x.numbers(),
    }
}

impl Reason {
    // Kept: a derive has no number, here and below, and an `impl From` would have this cast and a law about it (d).
    pub fn number(self) -> u32
        ensures { result ≡ reason_number self }
    {
        self as u32
    }
}

impl Ended {
    pub fn number(self) -> u32
        ensures { result ≡ ended_number self }
    {
        self as u32
    }
}

impl Field {
    pub fn number(self) -> u32
        ensures { result ≡ field_number self }
    {
        self as u32
    }
}

impl Note {
    pub fn numbers(self) -> [u64; 5]
        ensures { result ≡ note_numbers self }
    {
        let at = u64::from(self.node);
        match self.noted {
            Noted::Ignored { kind } => [1, at, u64::from(kind), 0, 0],
            Noted::Stale {
                node,
                visit,
                attempt,
            } => [2, at, u64::from(node), u64::from(visit), u64::from(attempt)],
            Noted::NotApplicable {
                node,
                visit,
                reason,
            } => [
                3,
                at,
                u64::from(node),
                u64::from(visit),
                u64::from(reason.number()),
            ],
            Noted::Overflow { event_id } => [4, at, u64::from(event_id), 0, 0],
            Noted::Unrouted { event_id, outcome } => {
                [5, at, u64::from(event_id), u64::from(outcome), 0]
            }
            Noted::Unknown {
                visit,
                attempt,
                status,
            } => [
                6,
                at,
                u64::from(visit),
                u64::from(attempt),
                u64::from(status),
            ],
            Noted::Stuck {
                visit,
                attempt,
                code,
            } => [7, at, u64::from(visit), u64::from(attempt), u64::from(code)],
            Noted::Retry { attempt } => [8, at, u64::from(attempt), 0, 0],
            Noted::Exhausted { outcome, limit } => {
                [9, at, u64::from(outcome), u64::from(limit), 0]
            }
        }
    }
}

impl Ending {
    pub fn numbers(self) -> [u64; 2]
        ensures { result ≡ ending_numbers self }
    {
        [self.sequence, u64::from(self.ending.number())]
    }
}

impl Answer {
    pub fn numbers(self) -> [u64; 11]
        ensures { result ≡ answer_numbers self }
    {
        match self {
            Answer::Next { order, microsteps } => {
                let o = order_numbers(order);
                [
                    1,
                    u64::from(microsteps),
                    o[0],
                    o[1],
                    o[2],
                    o[3],
                    o[4],
                    o[5],
                    o[6],
                    o[7],
                    o[8],
                ]
            }
            Answer::Wants { node, field, from } => [
                2,
                u64::from(node),
                u64::from(field.number()),
                u64::from(from),
                0,
                0,
                0,
                0,
                0,
                0,
                0,
            ],
            Answer::Refused { refusal, item } => [
                3,
                u64::from(refusal.number()),
                u64::from(item),
                0,
                0,
                0,
                0,
                0,
                0,
                0,
                0,
            ],
        }
    }
}
