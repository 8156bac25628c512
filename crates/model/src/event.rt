// What a call carries beside the sheet and the record.

// One event. Fields that its kind doesn't read are ignored.
// Kept: kind, status and resolution are numbers, since a call takes any and refuses what it doesn't know with 21; an error's mark stands beside its numbers, and 255 for an absent outcome, as a host lends them (a).
#[derive(Clone, Copy, Debug, PartialEq, Eq)]
pub struct Event {
    pub sequence: u64,
    pub accepted_at: u64,
    pub delay: u64,
    pub event_id: u32,
    // 1 start, 2 signal, 3 result, 4 resolved, 5 noted
    pub kind: u32,
    pub input: u32,
    pub signal: u32,
    pub outcome: u32,
    pub data: u32,
    pub node: u32,
    pub visit: u32,
    pub attempt: u32,
    // 1 success, 2 failure, 3 unknown, 4 expired
    pub status: u32,
    pub output: u32,
    pub code: u32,
    pub detail: u32,
    // 1 complete, 2 retry, 3 fail
    pub resolution: u32,
    pub has_error: bool,
    pub retryable: bool,
}

// One mapping answer: 1 a value, 2 a fault, 3 unencodable.
// Kept: kind is a number, since a call takes any and refuses what it doesn't know with 21 (a).
#[derive(Clone, Copy, Debug, PartialEq, Eq)]
pub struct Mapping {
    pub kind: u32,
    pub value: u32,
    pub code: u32,
    pub detail: u32,
    pub operations: u32,
}

// The mapping answers of a call; those at or past the count are ignored.
// Kept: an array with its count, in fixed memory (a).
#[derive(Clone, Copy, Debug, PartialEq, Eq)]
pub struct Mappings {
    pub answers: [Mapping; 2],
    pub count: u32,
}

// Why a mapping has no value.
#[derive(Clone, Copy, Debug, PartialEq, Eq)]
pub enum NoValue {
    Fault { code: u32, detail: u32 },
    Unencodable,
    Lacking,
}
