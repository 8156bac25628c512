// The form of a sheet (refusal 20): counts within their room, rows that fit and stand in order, unused slots zero.
ghost use Rattle.std.specs.Prelude.{◌≡◌, ◌+◌, ◌≤◌, ◌<◌, leb};
ghost use Rattle.std.specs.List.{All};
ghost use Rattle.workflow.specs.Layout.{numbers};
ghost use Rattle.workflow.specs.declared.refusal.Refusal.{Refusal};
ghost use Rattle.workflow.specs.View.{workflow, column_blank, table_blank, blank};
ghost use Rattle.graph.specs.Form.{counts_fit, formed_node, routes_at, formed_route, formed_limit, formed_declared, ascends, form};
ghost use Rattle.graph.specs.Verdict.{rule};
ghost use Rattle.graph.specs.FormLaws.{nodes_formed, actions_formed, routes_formed, limits_formed, declared_formed, rows_ascend, rows_rise};

use crate::{Broken, rule};
use workflow::layout::NUMBERS;
use workflow::refusal::Refusal;
use workflow::{
    Declared, Limit, Node, Route, action_at, capped, code, declared_at, layout, limit_at, node_at,
    node_of, route_at,
};

// The counts.

fn has_room(count: u32, room: usize) -> bool
    ensures { result ≡ leb count room }
{
    count as usize <= room
}

fn counts_fit(w: &[u32; NUMBERS]) -> bool
    ensures { result ≡ counts_fit (workflow w.now) }
{
    has_room(w[layout::NODE_COUNT], layout::NODES)
        && has_room(w[layout::ROUTE_COUNT], layout::ROUTES)
        && has_room(w[layout::LIMIT_COUNT], layout::LIMITS)
        && has_room(w[layout::ACTION_COUNT], layout::ACTIONS)
        && has_room(w[layout::DECLARED_COUNT], layout::DECLARED)
}

// Rows.
// Kept: & of tests without effects is as plain as && and leaves no branch in the loops over rows (d).

fn formed_node(x: Node) -> bool
    ensures { result ≡ formed_node x }
{
    match x.kind {
        code::ACTIVITY => {
            (x.has_params < 2)
                & (x.signal == 0)
                & (x.code == 0)
                & (x.detail == 0)
                & (x.has_limits < 2)
        }
        code::AWAIT_SIGNAL => {
            (x.action == 0)
                & (x.has_params == 0)
                & (x.signal < 256)
                & (x.code == 0)
                & (x.detail == 0)
                & (x.has_limits < 2)
        }
        code::COMPLETE => {
            (x.action == 0)
                & (x.has_params == 0)
                & (x.signal == 0)
                & (x.code == 0)
                & (x.detail == 0)
                & (x.has_limits == 0)
        }
        code::FAIL => {
            (x.action == 0)
                & (x.has_params == 0)
                & (x.signal == 0)
                & (x.code < 65536)
                & (x.has_limits == 0)
        }
        // Kept: a row for each kind, and false for a number that is none (d).
        _ => false,
    }
}

fn routes_at(w: &[u32; NUMBERS], node: u32) -> bool
    ensures { result ≡ routes_at (workflow w.now) node }
{
    let x = node_of(w, node);
    (node < w[layout::NODE_COUNT]) & ((x.kind == code::ACTIVITY) | (x.kind == code::AWAIT_SIGNAL))
}

fn formed_route(w: &[u32; NUMBERS], x: Route) -> bool
    ensures { result ≡ formed_route (workflow w.now) x }
{
    routes_at(w, x.node) & (x.outcome < code::NONE)
}

fn formed_limit(w: &[u32; NUMBERS], x: Limit) -> bool
    ensures { result ≡ formed_limit (workflow w.now) x }
{
    routes_at(w, x.node) & (node_of(w, x.node).has_limits == 1) & (x.outcome < code::NONE)
}

fn formed_declared(w: &[u32; NUMBERS], x: Declared) -> bool
    ensures { result ≡ formed_declared (workflow w.now) x }
{
    (x.action < w[layout::ACTION_COUNT]) & (x.outcome < code::NONE)
}

// A row of x and y may follow one of a and b.
fn ascends(a: u32, b: u32, x: u32, y: u32) -> bool
    ensures { result ≡ ascends a b x y }
{
    (a, b) < (x, y)
}

// Kept: columns by their places and a count, here and below, since the sheet is lent as one array of numbers (a).
// The order of the first `count` rows: strictly ascending by two columns, or grouped by a rising one.

fn rows_ascend(w: &[u32; NUMBERS], major: usize, minor: usize, count: usize) -> bool
    requires { (major + count ≤ numbers) × (minor + count ≤ numbers) }
    ensures { result ≡ rows_ascend w.now major minor count }
{
    (1..count).all(|i| {
        let j = i - 1;
        ascends(w[major + j], w[minor + j], w[major + i], w[minor + i])
    })
}

fn rows_rise(w: &[u32; NUMBERS], key: usize, count: usize) -> bool
    requires { key + count ≤ numbers }
    ensures { result ≡ rows_rise w.now key count }
{
    w[key..key + count].is_sorted()
}

// All rows of a sort, in their order.
// Kept: five functions. One would take the place of a count, its room, the order (none, ascending by two columns, or rising by one) and the row's
// test, and each of its five calls would name all four, as these bodies do (d).

fn nodes_formed(w: &[u32; NUMBERS]) -> bool
    ensures { result ≡ nodes_formed (workflow w.now) }
{
    let count = capped(w[layout::NODE_COUNT], layout::NODES);
    (0..count).all(|i| formed_node(node_at(w, i)))
}

fn actions_formed(w: &[u32; NUMBERS]) -> bool
    ensures { result ≡ actions_formed (workflow w.now) }
{
    let count = capped(w[layout::ACTION_COUNT], layout::ACTIONS);
    (0..count).all(|i| action_at(w, i).effect <= code::RECONCILABLE)
}

fn routes_formed(w: &[u32; NUMBERS]) -> bool
    ensures { result ≡ routes_formed (workflow w.now) }
{
    let count = capped(w[layout::ROUTE_COUNT], layout::ROUTES);
    rows_ascend(w, layout::ROUTE_NODE, layout::ROUTE_OUTCOME, count)
        && (0..count).all(|i| formed_route(w, route_at(w, i)))
}

fn limits_formed(w: &[u32; NUMBERS]) -> bool
    ensures { result ≡ limits_formed (workflow w.now) }
{
    let count = capped(w[layout::LIMIT_COUNT], layout::LIMITS);
    rows_ascend(w, layout::LIMIT_NODE, layout::LIMIT_OUTCOME, count)
        && (0..count).all(|i| formed_limit(w, limit_at(w, i)))
}

fn declared_formed(w: &[u32; NUMBERS]) -> bool
    ensures { result ≡ declared_formed (workflow w.now) }
{
    let count = capped(w[layout::DECLARED_COUNT], layout::DECLARED);
    rows_rise(w, layout::DECLARED_ACTION, count)
        && (0..count).all(|i| formed_declared(w, declared_at(w, i)))
}

// Unused slots.

// One pass without a test, so that the compiler makes it a vector loop.
fn column_blank(w: &[u32; NUMBERS], column: usize, room: usize, count: u32) -> bool
    requires { column + room ≤ numbers }
    ensures { result ≡ column_blank w.now column room count }
{
    let unused = &w[column + capped(count, room)..column + room];
    unused.iter().fold(0, |dirt, number| dirt | *number) == 0
}

// A table by its columns, the room in each, and the place of its count.
fn table_blank(w: &[u32; NUMBERS], columns: &[usize], room: usize, count: usize) -> bool
    requires { All (λ column. column + room ≤ numbers) columns.now × (count < numbers) }
    ensures { result ≡ table_blank w.now (record { columns = columns.now; room = room; count = count }) }
{
    columns
        .iter()
        .all(|column| column_blank(w, *column, room, w[count]))
}

fn is_blank(w: &[u32; NUMBERS]) -> bool
    ensures { result ≡ blank w.now }
{
    let nodes = [
        layout::NODE_KIND,
        layout::NODE_ACTION,
        layout::NODE_HAS_PARAMS,
        layout::NODE_SIGNAL,
        layout::NODE_CODE,
        layout::NODE_DETAIL,
        layout::NODE_HAS_LIMITS,
    ];
    let routes = [
        layout::ROUTE_NODE,
        layout::ROUTE_OUTCOME,
        layout::ROUTE_TARGET,
    ];
    let limits = [
        layout::LIMIT_NODE,
        layout::LIMIT_OUTCOME,
        layout::LIMIT_LIMIT,
    ];
    let actions = [layout::ACTION_EFFECT, layout::ACTION_MAX_ATTEMPTS];
    let declared = [layout::DECLARED_ACTION, layout::DECLARED_OUTCOME];
    table_blank(w, &nodes, layout::NODES, layout::NODE_COUNT)
        && table_blank(w, &routes, layout::ROUTES, layout::ROUTE_COUNT)
        && table_blank(w, &limits, layout::LIMITS, layout::LIMIT_COUNT)
        && table_blank(w, &actions, layout::ACTIONS, layout::ACTION_COUNT)
        && table_blank(w, &declared, layout::DECLARED, layout::DECLARED_COUNT)
}

// The whole form, up to the first thing that is wrong.
fn is_formed(w: &[u32; NUMBERS]) -> bool
    ensures { result ≡ form (workflow w.now) }
{
    counts_fit(w)
        && nodes_formed(w)
        && actions_formed(w)
        && routes_formed(w)
        && limits_formed(w)
        && declared_formed(w)
        && is_blank(w)
}

#[inline(never)]
pub fn rule_20(w: &[u32; NUMBERS]) -> Result<(), Broken>
    ensures { result ≡ rule Refusal.Form (form (workflow w.now)) }
{
    rule(Refusal::Form, is_formed(w))
}
