// A run record and a call from their numbers (docs/NUMBERS.md). A number that its field can't hold is read modulo 2^32.
#![tactic(auto, using(laws::specs::Bool::deciding, crate::specs::Tests::fits_each), unfolding(crate::specs::Read::narrow, crate::specs::Read::error_of, crate::specs::Read::output_of, crate::specs::Read::kept_of, crate::specs::Read::position_of, crate::specs::Read::invocation_of, crate::specs::Read::run_result_of, crate::specs::Read::event_of, crate::specs::Read::mapping_of, crate::specs::Read::ceilings_of, crate::specs::Read::limits_of, crate::specs::Read::call_of, crate::specs::Read::output_fits, crate::specs::Read::kept_fits, crate::specs::Read::head_fits, crate::specs::Read::signal_fits, crate::specs::Read::node_fits, crate::specs::Read::call_fits))]

ghost use Rattle.std.specs.Prelude.{◌≡◌, ◌≤◌, ◌<◌, length, take, drop};
ghost use Rattle.host.specs.Layout.{store, nodes, mappings, call_sequence, event_length};
ghost use Rattle.host.specs.Read.{at, narrow, error_of, output_of, kept_of, position_of, invocation_of, run_result_of, event_of, mapping_of, ceilings_of, limits_of, call_of, all_fit, limit_fields, mapping_fields, head_fields, error_fits, output_fits, kept_fits, head_fits, signal_fits, node_fits, record_fits, call_fits, event_fits};
ghost use Rattle.host.specs.ByCount.{blank, SignalsPast, NodesPast, Past, UsedRows, record_rows};

use crate::layout;
use crate::rows::read_rows;
use graph::Ceilings;
use kernel::{Call, Limits};
use model::event::{Event, Mapping, Mappings};
use model::{
    BufferedSignal, ErrorInfo, InvocationState, NodeResult, Output, Position, RunResult, State,
    Streak, Visits,
};

// What a field's number must be below: any number; the name of a node, an action, a signal or an outcome; the code of an
// error; a mark.
// Kept: bounds of fields, and no kinds of anything (d).
const NUMBER: u64 = 0x1_0000_0000;

const NAME: u64 = 256;

const CODE: u64 = 65536;

const MARK: u64 = 2;

// Kept: what `as` takes must fit, so the lowest 32 bits are a remainder (d).
fn narrow(x: u64) -> u32
    ensures { result ≡ narrow x }
{
    (x % NUMBER) as u32
}

// The number at a place.
// Kept: a slice and a place, as in `xs[place]`: one number of a layout is no part of it (d).
pub(crate) fn number_at(xs: &[u64], place: usize) -> u32
    requires { place < length xs.now }
    ensures { result ≡ narrow (at xs.now place) }
{
    narrow(xs[place])
}

fn error(code: u64, node: u64, detail: u64) -> ErrorInfo
    ensures { result ≡ error_of code node detail }
{
    ErrorInfo {
        code: narrow(code),
        node: narrow(node),
        detail: narrow(detail),
    }
}

// Kept: four numbers by name, here and below: an array of them would be put together at each call only to be taken apart at once (d).
pub(crate) fn output(tag: u64, a: u64, b: u64, c: u64) -> Output
    ensures { result ≡ output_of tag a b c }
{
    if tag == 0 {
        return Output::Nothing;
    }
    if tag == 1 {
        return Output::Handle(narrow(a));
    }
    Output::Error(error(a, b, c))
}

fn kept(tag: u64, a: u64, b: u64, c: u64) -> Option<ErrorInfo>
    ensures { result ≡ kept_of tag a b c }
{
    if tag == 0 {
        return None;
    }
    Some(error(a, b, c))
}

// How many rows are read.
// Kept: beside the record in four functions: what is known of both (`Past`, `UsedRows`) hangs on whether the record counts, so that a struct of both couldn't say it of itself (d).

#[derive(Clone, Copy)]
pub struct Used {
    pub signals: usize,
    pub nodes: usize,
}

// All numbers are zero. One pass without a test, so that the compiler makes it a vector loop.
fn blank(xs: &[u64]) -> bool
    ensures { result ≡ blank xs.now }
{
    xs.iter().fold(0, |digits, x| digits | *x) == 0
}

// By the record's count, where all that follows is zero; else all.
// Kept: casts, since there is no `From` between u64 and usize (d).
fn signal_rows(xs: &[u64; layout::RECORD]) -> usize
    ensures { SignalsPast xs.now result }
{
    let rows = xs[layout::RECORD_STORED].min(layout::STORE as u64) as usize;
    if blank(&xs[layout::RECORD_SIGNALS + layout::SIGNAL_WIDTH * rows..layout::RECORD_VISITS]) {
        return rows;
    }
    layout::STORE
}

// By the sheet's count.
// Kept: the count is of the sheet's nodes and no part of the record; its bound is a clause, here, in `used_rows` and twice in write.rt, since it is made once (`capped` in lib.rt) and a type of its own would hold nothing else (d).
fn node_rows(xs: &[u64; layout::RECORD], rows: usize) -> usize
    requires { rows ≤ nodes }
    ensures { NodesPast xs.now result }
{
    if blank(&xs[layout::RECORD_VISITS + rows..layout::RECORD_STREAKS])
        & blank(&xs[layout::RECORD_STREAKS + layout::STREAK_WIDTH * rows..layout::RECORD_RESULTS])
        & blank(&xs[layout::RECORD_RESULTS + layout::RESULT_WIDTH * rows..])
    {
        return rows;
    }
    layout::NODES
}

// None of a record that goes with no call.
// Kept: a mark, since a record is lent with every call; and the sheet's count, as above (a).
pub fn used_rows(xs: &[u64; layout::RECORD], has_record: bool, rows: usize) -> Used
    requires { rows ≤ nodes }
    ensures { UsedRows has_record xs.now result }
{
    if has_record {
        return Used {
            signals: signal_rows(xs),
            nodes: node_rows(xs, rows),
        };
    }
    Used {
        signals: 0,
        nodes: 0,
    }
}

// The run record.

fn position(xs: &[u64; layout::RECORD]) -> Position
    ensures { result ≡ position_of xs.now }
{
    Position {
        node: number_at(xs, layout::RECORD_POSITION_NODE),
        visit: number_at(xs, layout::RECORD_POSITION_VISIT),
    }
}

fn invocation(xs: &[u64; layout::RECORD]) -> InvocationState
    ensures { result ≡ invocation_of xs.now }
{
    let error = kept(
        xs[layout::RECORD_ERROR],
        xs[layout::RECORD_ERROR + 1],
        xs[layout::RECORD_ERROR + 2],
        xs[layout::RECORD_ERROR + 3],
    );
    InvocationState {
        phase: number_at(xs, layout::RECORD_PHASE),
        node: number_at(xs, layout::RECORD_INVOCATION_NODE),
        visit: number_at(xs, layout::RECORD_INVOCATION_VISIT),
        action: number_at(xs, layout::RECORD_INVOCATION_ACTION),
        attempt: number_at(xs, layout::RECORD_INVOCATION_ATTEMPT),
        input: number_at(xs, layout::RECORD_INVOCATION_INPUT),
        error,
    }
}

fn run_result(xs: &[u64; layout::RECORD]) -> RunResult
    ensures { result ≡ run_result_of xs.now }
{
    let output = output(
        xs[layout::RECORD_RESULT],
        xs[layout::RECORD_RESULT + 1],
        xs[layout::RECORD_RESULT + 2],
        xs[layout::RECORD_RESULT + 3],
    );
    RunResult { output }
}

pub fn read_record(xs: &[u64; layout::RECORD], used: Used) -> State
    requires { (used.signals ≤ store) × (used.nodes ≤ nodes) }
    ensures { result ≡ record_rows used.signals used.nodes xs.now }
{
    let mut signals = [BufferedSignal::none(); layout::STORE];
    let mut visits = [Visits::none(); layout::NODES];
    let mut streaks = [Streak::none(); layout::NODES];
    let mut results = [NodeResult::none(); layout::NODES];
    read_rows(&mut signals[..used.signals], xs);
    read_rows(&mut visits[..used.nodes], xs);
    read_rows(&mut streaks[..used.nodes], xs);
    read_rows(&mut results[..used.nodes], xs);
    State {
        signals,
        visits,
        streaks,
        results,
        last_sequence: xs[layout::RECORD_LAST_SEQUENCE],
        last_accepted_at: xs[layout::RECORD_LAST_ACCEPTED_AT],
        signal_count: number_at(xs, layout::RECORD_STORED),
        status: number_at(xs, layout::RECORD_STATUS),
        input: number_at(xs, layout::RECORD_INPUT),
        activations: number_at(xs, layout::RECORD_ACTIVATIONS),
        position: position(xs),
        invocation: invocation(xs),
        result: run_result(xs),
    }
}

// The call.

fn event(c: &[u64; layout::CALL]) -> Event
    ensures { result ≡ event_of c.now }
{
    Event {
        sequence: c[layout::CALL_SEQUENCE],
        accepted_at: c[layout::CALL_ACCEPTED_AT],
        delay: c[layout::CALL_DELAY],
        event_id: number_at(c, layout::CALL_EVENT_ID),
        kind: number_at(c, layout::CALL_KIND),
        input: number_at(c, layout::CALL_INPUT),
        signal: number_at(c, layout::CALL_SIGNAL),
        outcome: number_at(c, layout::CALL_OUTCOME),
        data: number_at(c, layout::CALL_DATA),
        node: number_at(c, layout::CALL_NODE),
        visit: number_at(c, layout::CALL_VISIT),
        attempt: number_at(c, layout::CALL_ATTEMPT),
        status: number_at(c, layout::CALL_STATUS),
        output: number_at(c, layout::CALL_OUTPUT),
        code: number_at(c, layout::CALL_ERROR_CODE),
        detail: number_at(c, layout::CALL_ERROR_DETAIL),
        resolution: number_at(c, layout::CALL_RESOLUTION),
        has_error: c[layout::CALL_HAS_ERROR] == 1,
        retryable: c[layout::CALL_RETRYABLE] == 1,
    }
}

// Kept: it reads as rows of a record do (rows.rt), into fields with other names (d).
fn mapping(c: &[u64; layout::CALL], i: usize) -> Mapping
    requires { i < mappings }
    ensures { result ≡ mapping_of c.now i }
{
    let k = layout::CALL_MAPPINGS + layout::MAPPING_WIDTH * i;
    Mapping {
        kind: number_at(c, k),
        value: number_at(c, k + 1),
        code: number_at(c, k + 2),
        detail: number_at(c, k + 3),
        operations: number_at(c, k + 4),
    }
}

fn ceilings(c: &[u64; layout::CALL]) -> Ceilings
    ensures { result ≡ ceilings_of c.now }
{
    Ceilings {
        nodes: number_at(c, layout::CALL_CEILING_NODES),
        visits: number_at(c, layout::CALL_CEILING_VISITS),
        activations: number_at(c, layout::CALL_CEILING_ACTIVATIONS),
        attempts: number_at(c, layout::CALL_CEILING_ATTEMPTS),
    }
}

fn limits(c: &[u64; layout::CALL]) -> Limits
    ensures { result ≡ limits_of c.now }
{
    Limits {
        microsteps: number_at(c, layout::CALL_LIMIT_MICROSTEPS),
        commands: number_at(c, layout::CALL_LIMIT_COMMANDS),
        operations: number_at(c, layout::CALL_LIMIT_OPERATIONS),
    }
}

pub fn read_call(c: &[u64; layout::CALL]) -> Call
    ensures { result ≡ call_of c.now }
{
    Call {
        ceilings: ceilings(c),
        limits: limits(c),
        event: event(c),
        mappings: Mappings {
            answers: [mapping(c, 0), mapping(c, 1)],
            count: number_at(c, layout::CALL_ANSWERED),
        },
    }
}

// What fields can hold. Only a tag makes a branch: most outputs of a record are nothing.

fn error_fits(code: u64, node: u64, detail: u64) -> bool
    ensures { result ≡ error_fits code node detail }
{
    (code < CODE) & (node < NAME) & (detail < NUMBER)
}

fn output_fits(tag: u64, a: u64, b: u64, c: u64) -> bool
    ensures { result ≡ output_fits tag a b c }
{
    if tag == 0 {
        return (a == 0) & (b == 0) & (c == 0);
    }
    if tag == 1 {
        return (a < NUMBER) & (b == 0) & (c == 0);
    }
    (tag == 2) & error_fits(a, b, c)
}

fn kept_fits(tag: u64, a: u64, b: u64, c: u64) -> bool
    ensures { result ≡ kept_fits tag a b c }
{
    if tag == 0 {
        return (a == 0) & (b == 0) & (c == 0);
    }
    (tag == 1) & error_fits(a, b, c)
}

// The single numbers of a record.
fn scalars_fit(xs: &[u64; layout::RECORD]) -> bool
    ensures { result ≡ all_fit xs.now head_fields }
{
    (xs[layout::RECORD_STATUS] < NUMBER)
        & (xs[layout::RECORD_INPUT] < NUMBER)
        & (xs[layout::RECORD_ACTIVATIONS] < NUMBER)
        & (xs[layout::RECORD_POSITION_NODE] < NAME)
        & (xs[layout::RECORD_POSITION_VISIT] < NUMBER)
        & (xs[layout::RECORD_PHASE] < NUMBER)
        & (xs[layout::RECORD_INVOCATION_NODE] < NAME)
        & (xs[layout::RECORD_INVOCATION_VISIT] < NUMBER)
        & (xs[layout::RECORD_INVOCATION_ACTION] < NAME)
        & (xs[layout::RECORD_INVOCATION_ATTEMPT] < NUMBER)
        & (xs[layout::RECORD_INVOCATION_INPUT] < NUMBER)
        & (xs[layout::RECORD_STORED] < NUMBER)
}

// A record up to its rows.
fn head_fits(xs: &[u64; layout::RECORD]) -> bool
    ensures { result ≡ head_fits xs.now }
{
    scalars_fit(xs)
        & kept_fits(
            xs[layout::RECORD_ERROR],
            xs[layout::RECORD_ERROR + 1],
            xs[layout::RECORD_ERROR + 2],
            xs[layout::RECORD_ERROR + 3],
        )
        & output_fits(
            xs[layout::RECORD_RESULT],
            xs[layout::RECORD_RESULT + 1],
            xs[layout::RECORD_RESULT + 2],
            xs[layout::RECORD_RESULT + 3],
        )
}

// Kept: `signal_fits` and `mapping_fits` test other fields of other rows (d).
fn signal_fits(xs: &[u64; layout::RECORD], i: usize) -> bool
    requires { i < store }
    ensures { result ≡ signal_fits xs.now i }
{
    let k = layout::RECORD_SIGNALS + layout::SIGNAL_WIDTH * i;
    (xs[k + 1] < NUMBER) & (xs[k + 2] < NAME) & (xs[k + 3] < NAME) & (xs[k + 4] < NUMBER)
}

// The numbers of one node: its visits, its streak and its result.
fn node_fits(xs: &[u64; layout::RECORD], n: usize) -> bool
    requires { n < nodes }
    ensures { result ≡ node_fits xs.now n }
{
    let v = layout::RECORD_VISITS + n;
    let s = layout::RECORD_STREAKS + layout::STREAK_WIDTH * n;
    let k = layout::RECORD_RESULTS + layout::RESULT_WIDTH * n;
    let plain = (xs[v] < NUMBER)
        & (xs[s] < NAME)
        & (xs[s + 1] < NUMBER)
        & (xs[k] < NUMBER)
        & (xs[k + 1] < NAME);
    plain & output_fits(xs[k + 2], xs[k + 3], xs[k + 4], xs[k + 5])
}

// Every number of a record is one that its field can hold.
pub fn record_fits(xs: &[u64; layout::RECORD], used: Used) -> bool
    requires { Past xs.now used }
    ensures { result ≡ record_fits xs.now }
{
    head_fits(xs)
        & (0..used.signals).all(|i| signal_fits(xs, i))
        & (0..used.nodes).all(|n| node_fits(xs, n))
}

// A record by itself.
pub fn run_fits(xs: &[u64; layout::RECORD]) -> bool
    ensures { result ≡ record_fits xs.now }
{
    let used = used_rows(xs, true, layout::NODES);
    record_fits(xs, used)
}

fn limits_fit(c: &[u64; layout::CALL]) -> bool
    ensures { result ≡ all_fit c.now limit_fields }
{
    (c[layout::CALL_CEILING_NODES] < NUMBER)
        & (c[layout::CALL_CEILING_VISITS] < NUMBER)
        & (c[layout::CALL_CEILING_ACTIVATIONS] < NUMBER)
        & (c[layout::CALL_CEILING_ATTEMPTS] < NUMBER)
        & (c[layout::CALL_LIMIT_MICROSTEPS] < NUMBER)
        & (c[layout::CALL_LIMIT_COMMANDS] < NUMBER)
        & (c[layout::CALL_LIMIT_OPERATIONS] < NUMBER)
        & (c[layout::CALL_HAS_RECORD] < MARK)
}

// Where an event's numbers begin in a call.
const FIRST: usize = layout::CALL_SEQUENCE;

// Every number of an event is one that its field can hold.
pub fn event_fits(e: &[u64; layout::EVENT]) -> bool
    ensures { result ≡ event_fits e.now }
{
    (e[layout::CALL_EVENT_ID - FIRST] < NUMBER)
        & (e[layout::CALL_KIND - FIRST] < NUMBER)
        & (e[layout::CALL_INPUT - FIRST] < NUMBER)
        & (e[layout::CALL_SIGNAL - FIRST] < NAME)
        & (e[layout::CALL_OUTCOME - FIRST] < NAME)
        & (e[layout::CALL_DATA - FIRST] < NUMBER)
        & (e[layout::CALL_NODE - FIRST] < NAME)
        & (e[layout::CALL_VISIT - FIRST] < NUMBER)
        & (e[layout::CALL_ATTEMPT - FIRST] < NUMBER)
        & (e[layout::CALL_STATUS - FIRST] < NUMBER)
        & (e[layout::CALL_OUTPUT - FIRST] < NUMBER)
        & (e[layout::CALL_HAS_ERROR - FIRST] < MARK)
        & (e[layout::CALL_ERROR_CODE - FIRST] < CODE)
        & (e[layout::CALL_ERROR_DETAIL - FIRST] < NUMBER)
        & (e[layout::CALL_RETRYABLE - FIRST] < MARK)
        & (e[layout::CALL_RESOLUTION - FIRST] < NUMBER)
}

// The event of a call.
fn event_of_call(c: &[u64; layout::CALL]) -> &[u64; layout::EVENT]
    ensures { result.now ≡ take event_length (drop call_sequence c.now) }
{
    <&[u64; layout::EVENT]>::try_from(&c[FIRST..layout::CALL_ANSWERED]).unwrap()
}

fn mapping_fits(c: &[u64; layout::CALL], i: usize) -> bool
    requires { i < mappings }
    ensures { result ≡ all_fit c.now (mapping_fields i) }
{
    let k = layout::CALL_MAPPINGS + layout::MAPPING_WIDTH * i;
    (c[k] < NUMBER)
        & (c[k + 1] < NUMBER)
        & (c[k + 2] < CODE)
        & (c[k + 3] < NUMBER)
        & (c[k + 4] < NUMBER)
}

// Every number of a call is one that its field can hold.
pub fn call_fits(c: &[u64; layout::CALL]) -> bool
    ensures { result ≡ call_fits c.now }
{
    limits_fit(c)
        & event_fits(event_of_call(c))
        & (c[layout::CALL_ANSWERED] < NUMBER)
        & mapping_fits(c, 0)
        & mapping_fits(c, 1)
}
