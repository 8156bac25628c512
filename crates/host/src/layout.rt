// Where each number of a run record, a call and an answer stands (docs/NUMBERS.md). The header's numbers are made from this file. Kept: numbers for that (a).

// The layout's version: one more with every change of what stands below or of the sheet's layout.
pub const LAYOUT_VERSION: u32 = 1;

// What a function returns: what it answers is written; or the buffer for it is too short, the call or the record has a
// number that its field can't hold, or an array has not the length that the layout says. Then nothing is written.
pub const WRITTEN: u32 = 0;

pub const SHORT_BUFFER: u32 = 1;

pub const BAD_CALL: u32 = 2;

pub const BAD_RECORD: u32 = 3;

pub const BAD_SHEET_LENGTH: u32 = 4;

pub const BAD_CALL_LENGTH: u32 = 5;

pub const BAD_RECORD_LENGTH: u32 = 6;

// Capacities.
pub const STORE: usize = 64;

pub const NODES: usize = 64;

pub const MAPPINGS: usize = 2;

pub const NOTES: usize = 65;

pub const ENDINGS: usize = 65;

// How many numbers a row has.
pub const ERROR_WIDTH: usize = 4;

pub const OUTPUT_WIDTH: usize = 4;

pub const SIGNAL_WIDTH: usize = 5;

pub const STREAK_WIDTH: usize = 2;

pub const RESULT_WIDTH: usize = 2 + OUTPUT_WIDTH;

pub const MAPPING_WIDTH: usize = 5;

pub const NOTE_WIDTH: usize = 5;

pub const ENDING_WIDTH: usize = 2;

// Run record.
pub const RECORD_STATUS: usize = 0;

pub const RECORD_INPUT: usize = 1;

pub const RECORD_ACTIVATIONS: usize = 2;

pub const RECORD_LAST_SEQUENCE: usize = 3;

pub const RECORD_LAST_ACCEPTED_AT: usize = 4;

pub const RECORD_POSITION_NODE: usize = 5;

pub const RECORD_POSITION_VISIT: usize = 6;

pub const RECORD_PHASE: usize = 7;

pub const RECORD_INVOCATION_NODE: usize = 8;

pub const RECORD_INVOCATION_VISIT: usize = 9;

pub const RECORD_INVOCATION_ACTION: usize = 10;

pub const RECORD_INVOCATION_ATTEMPT: usize = 11;

pub const RECORD_INVOCATION_INPUT: usize = 12;

// The kept error: its mark, code, node, detail.
pub const RECORD_ERROR: usize = 13;

pub const RECORD_RESULT: usize = RECORD_ERROR + ERROR_WIDTH;

pub const RECORD_STORED: usize = RECORD_RESULT + OUTPUT_WIDTH;

pub const RECORD_SIGNALS: usize = RECORD_STORED + 1;

pub const RECORD_VISITS: usize = RECORD_SIGNALS + SIGNAL_WIDTH * STORE;

pub const RECORD_STREAKS: usize = RECORD_VISITS + NODES;

pub const RECORD_RESULTS: usize = RECORD_STREAKS + STREAK_WIDTH * NODES;

pub const RECORD: usize = RECORD_RESULTS + RESULT_WIDTH * NODES;

// Call.
pub const CALL_CEILING_NODES: usize = 0;

pub const CALL_CEILING_VISITS: usize = 1;

pub const CALL_CEILING_ACTIVATIONS: usize = 2;

pub const CALL_CEILING_ATTEMPTS: usize = 3;

pub const CALL_LIMIT_MICROSTEPS: usize = 4;

pub const CALL_LIMIT_COMMANDS: usize = 5;

pub const CALL_LIMIT_OPERATIONS: usize = 6;

pub const CALL_HAS_RECORD: usize = 7;

pub const CALL_SEQUENCE: usize = 8;

pub const CALL_ACCEPTED_AT: usize = 9;

pub const CALL_EVENT_ID: usize = 10;

pub const CALL_KIND: usize = 11;

pub const CALL_INPUT: usize = 12;

pub const CALL_SIGNAL: usize = 13;

pub const CALL_OUTCOME: usize = 14;

pub const CALL_DATA: usize = 15;

pub const CALL_NODE: usize = 16;

pub const CALL_VISIT: usize = 17;

pub const CALL_ATTEMPT: usize = 18;

pub const CALL_STATUS: usize = 19;

pub const CALL_OUTPUT: usize = 20;

pub const CALL_HAS_ERROR: usize = 21;

pub const CALL_ERROR_CODE: usize = 22;

pub const CALL_ERROR_DETAIL: usize = 23;

pub const CALL_RETRYABLE: usize = 24;

pub const CALL_DELAY: usize = 25;

pub const CALL_RESOLUTION: usize = 26;

pub const CALL_ANSWERED: usize = 27;

// How many numbers an event has: those of a call from its sequence on.
pub const EVENT: usize = 19;

pub const CALL_MAPPINGS: usize = 28;

pub const CALL: usize = CALL_MAPPINGS + MAPPING_WIDTH * MAPPINGS;

// Answer: what it says, its notes and endings, and the record.
pub const ANSWER_KIND: usize = 0;

pub const ANSWER_MICROSTEPS: usize = 1;

pub const ANSWER_ORDER: usize = 2;

pub const ANSWER_ORDER_NODE: usize = 3;

pub const ANSWER_ORDER_VISIT: usize = 4;

pub const ANSWER_ORDER_ACTION: usize = 5;

pub const ANSWER_ORDER_ATTEMPT: usize = 6;

pub const ANSWER_ORDER_NOT_BEFORE: usize = 7;

pub const ANSWER_ORDER_INPUT: usize = 8;

pub const ANSWER_ORDER_HAS_PARAMS: usize = 9;

pub const ANSWER_ORDER_PARAMS: usize = 10;

pub const ANSWER_NOTED: usize = 11;

pub const ANSWER_ENDED: usize = 12;

pub const ANSWER_NOTES: usize = 13;

pub const ANSWER_ENDINGS: usize = ANSWER_NOTES + NOTE_WIDTH * NOTES;

pub const ANSWER_RECORD: usize = ANSWER_ENDINGS + ENDING_WIDTH * ENDINGS;

pub const ANSWER: usize = ANSWER_RECORD + RECORD;

// A want.
pub const ANSWER_WANT_NODE: usize = 1;

pub const ANSWER_WANT_FIELD: usize = 2;

pub const ANSWER_WANT_FROM: usize = 3;

pub const WANT_WIDTH: usize = 4;

// A refusal.
pub const ANSWER_REFUSAL_NUMBER: usize = 1;

pub const ANSWER_REFUSAL_ITEM: usize = 2;

// Verdict: the refusal's number and its item; 0 and 0 for a sheet that is accepted.
pub const VERDICT_NUMBER: usize = 0;

pub const VERDICT_ITEM: usize = 1;

pub const VERDICT: usize = 2;
