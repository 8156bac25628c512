// The numbers of a sheet in document 01.
// Kept: numbers, since sheets are lent as numbers, and every number there has an answer: an enum would take fewer (a).

// No node; an absent outcome; the item of a refusal that has none.
// Kept: a number, in what is handed out too: document 01 gives 255 for none there (a).
pub const NONE: u32 = 255;

// Formats of a sheet: 2 is the 0.2 document.
pub const FORMAT_0_1: u32 = 1;

pub const FORMAT_0_2: u32 = 2;

// Outcomes that have a meaning of their own.
pub const OK: u32 = 0;

pub const RECEIVED: u32 = 1;

pub const FAILED: u32 = 2;

pub const EXHAUSTED: u32 = 3;

// Kinds of node.
pub const ACTIVITY: u32 = 1;

pub const AWAIT_SIGNAL: u32 = 2;

pub const COMPLETE: u32 = 3;

pub const FAIL: u32 = 4;

// Effects of an action; 1 is neither.
pub const REPEATABLE: u32 = 0;

pub const RECONCILABLE: u32 = 2;
