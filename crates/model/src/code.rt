// The numbers of a run record and an event in document 01.
// Kept: a call takes any number in their places, and answers those that it doesn't know with 21 or 25 (a).

// The largest counter or time.
pub const LARGEST: u64 = 9223372036854775807;

// How many signals are stored at most.
pub const STORE: usize = 64;

// A run's status.
pub const RUNNING: u32 = 1;

pub const WAITING: u32 = 2;

pub const NEEDS_INTERVENTION: u32 = 3;

pub const RUN_COMPLETED: u32 = 4;

pub const RUN_FAILED: u32 = 5;

// An invocation's phase; 0 where there is none.
pub const SCHEDULED: u32 = 1;

pub const UNKNOWN: u32 = 2;

pub const STUCK: u32 = 3;

// Kinds of event.
pub const RUN_STARTED: u32 = 1;

pub const SIGNAL_RECEIVED: u32 = 2;

pub const ACTIVITY_RESULT: u32 = 3;

pub const INVOCATION_RESOLVED: u32 = 4;

pub const NOTED: u32 = 5;

// The status of a result.
pub const SUCCESS: u32 = 1;

pub const FAILURE: u32 = 2;

// The resolution of an operator.
pub const RESOLVE_COMPLETE: u32 = 1;

pub const RESOLVE_RETRY: u32 = 2;

// Kinds of mapping answer.
pub const VALUE: u32 = 1;

pub const FAULT: u32 = 2;
