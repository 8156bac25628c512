// The sheet (`Workflow`), lent as one array of numbers with a column for each field of its rows, and the lookups in it.
#![tactic(auto)]

pub mod code;
pub mod layout;
pub mod refusal;

ghost use Rattle.std.specs.Prelude.{◌≡◌, min, ◌<◌};
ghost use Rattle.workflow.specs.Layout.{route_room, limit_room};
ghost use Rattle.workflow.specs.View.{workflow, no_node, node_at, route_at, limit_at, action_at, declared_at};
ghost use Rattle.workflow.specs.Lookup.{is_0_2, node_of, policy_of, are, route_of, limit_of, declares};
ghost use Rattle.workflow.specs.RowLaws.{Columns, find_row};

use crate::layout::NUMBERS;

#[derive(Clone, Copy, Debug, Default, PartialEq, Eq)]
pub struct Node {
    pub kind: u32,
    pub action: u32,
    pub has_params: u32,
    pub signal: u32,
    pub code: u32,
    pub detail: u32,
    pub has_limits: u32,
}

#[derive(Clone, Copy, Debug, Default, PartialEq, Eq)]
pub struct Route {
    pub node: u32,
    pub outcome: u32,
    pub target: u32,
}

#[derive(Clone, Copy, Debug, Default, PartialEq, Eq)]
pub struct Limit {
    pub node: u32,
    pub outcome: u32,
    pub limit: u32,
}

#[derive(Clone, Copy, Debug, Default, PartialEq, Eq)]
pub struct Action {
    pub effect: u32,
    pub max_attempts: u32,
}

#[derive(Clone, Copy, Debug, Default, PartialEq, Eq)]
pub struct Declared {
    pub action: u32,
    pub outcome: u32,
}

// A count, held to the room there is.
pub fn capped(count: u32, room: usize) -> usize
    ensures { result ≡ min room count }
{
    room.min(count as usize)
}

// The rows as they stand, counted or not.
// Kept: five functions, since each fills other fields from other columns; one over a trait would have five impls that do the same (d).

pub fn node_at(w: &[u32; NUMBERS], i: usize) -> Node
    ensures { result ≡ node_at w.now i }
{
    if i < layout::NODES {
        Node {
            kind: w[layout::NODE_KIND + i],
            action: w[layout::NODE_ACTION + i],
            has_params: w[layout::NODE_HAS_PARAMS + i],
            signal: w[layout::NODE_SIGNAL + i],
            code: w[layout::NODE_CODE + i],
            detail: w[layout::NODE_DETAIL + i],
            has_limits: w[layout::NODE_HAS_LIMITS + i],
        }
    } else {
        no_node()
    }
}

// Routes and limits are read in loops over all of them, so a row that there is no room for isn't tested here.

pub fn route_at(w: &[u32; NUMBERS], i: usize) -> Route
    requires { i < route_room }
    ensures { result ≡ route_at w.now i }
{
    Route {
        node: w[layout::ROUTE_NODE + i],
        outcome: w[layout::ROUTE_OUTCOME + i],
        target: w[layout::ROUTE_TARGET + i],
    }
}

pub fn limit_at(w: &[u32; NUMBERS], i: usize) -> Limit
    requires { i < limit_room }
    ensures { result ≡ limit_at w.now i }
{
    Limit {
        node: w[layout::LIMIT_NODE + i],
        outcome: w[layout::LIMIT_OUTCOME + i],
        limit: w[layout::LIMIT_LIMIT + i],
    }
}

pub fn action_at(w: &[u32; NUMBERS], i: usize) -> Action
    ensures { result ≡ action_at w.now i }
{
    if i < layout::ACTIONS {
        Action {
            effect: w[layout::ACTION_EFFECT + i],
            max_attempts: w[layout::ACTION_MAX_ATTEMPTS + i],
        }
    } else {
        Action::default()
    }
}

pub fn declared_at(w: &[u32; NUMBERS], i: usize) -> Declared
    ensures { result ≡ declared_at w.now i }
{
    if i < layout::DECLARED {
        Declared {
            action: w[layout::DECLARED_ACTION + i],
            outcome: w[layout::DECLARED_OUTCOME + i],
        }
    } else {
        Declared::default()
    }
}

pub fn no_node() -> Node
    ensures { result ≡ no_node }
{
    Node::default()
}

// The lookups, over the rows that are counted.
// Kept: node_of and policy_of name their count, its room, their row and what they answer without one; find_route, find_limit and declares their
// count, its room and columns, and what they share is `find_row`. One function for two of them would take just these as parameters (d).

pub fn node_of(w: &[u32; NUMBERS], id: u32) -> Node
    ensures { result ≡ node_of (workflow w.now) id }
{
    let n = id as usize;
    if n < capped(w[layout::NODE_COUNT], layout::NODES) {
        node_at(w, n)
    } else {
        no_node()
    }
}

pub fn policy_of(w: &[u32; NUMBERS], action: u32) -> Action
    ensures { result ≡ policy_of (workflow w.now) action }
{
    let n = action as usize;
    if n < capped(w[layout::ACTION_COUNT], layout::ACTIONS) {
        action_at(w, n)
    } else {
        Action::default()
    }
}

// Format 2, the 0.2 document.
pub fn is_0_2(w: &[u32; NUMBERS]) -> bool
    ensures { result ≡ is_0_2 (workflow w.now) }
{
    w[layout::FORMAT] == code::FORMAT_0_2
}

fn are(a: u32, b: u32, x: u32, y: u32) -> bool
    ensures { result ≡ are a b x y }
{
    a == x && b == y
}

// The value in the first row, of the first `count`, whose two keys are x and y.
// Kept: columns by their places, since the sheet is lent as one array of numbers (a).
fn find_row(
    w: &[u32; NUMBERS],
    major: usize,
    minor: usize,
    value: usize,
    count: usize,
    x: u32,
    y: u32,
) -> Option<u32>
    requires { Columns major minor value count }
    ensures { result ≡ find_row w.now major minor value count x y }
{
    (0..count)
        .find(|i| are(w[major + *i], w[minor + *i], x, y))
        .map(|i| w[value + i])
}

pub fn find_route(w: &[u32; NUMBERS], node: u32, outcome: u32) -> Option<u32>
    ensures { result ≡ route_of (workflow w.now) node outcome }
{
    let count = capped(w[layout::ROUTE_COUNT], layout::ROUTES);
    find_row(
        w,
        layout::ROUTE_NODE,
        layout::ROUTE_OUTCOME,
        layout::ROUTE_TARGET,
        count,
        node,
        outcome,
    )
}

pub fn find_limit(w: &[u32; NUMBERS], node: u32, outcome: u32) -> Option<u32>
    ensures { result ≡ limit_of (workflow w.now) node outcome }
{
    let count = capped(w[layout::LIMIT_COUNT], layout::LIMITS);
    find_row(
        w,
        layout::LIMIT_NODE,
        layout::LIMIT_OUTCOME,
        layout::LIMIT_LIMIT,
        count,
        node,
        outcome,
    )
}

pub fn declares(w: &[u32; NUMBERS], action: u32, outcome: u32) -> bool
    ensures { result ≡ declares (workflow w.now) action outcome }
{
    let count = capped(w[layout::DECLARED_COUNT], layout::DECLARED);
    let row = find_row(
        w,
        layout::DECLARED_ACTION,
        layout::DECLARED_OUTCOME,
        layout::DECLARED_OUTCOME,
        count,
        action,
        outcome,
    );
    row.is_some()
}
