// Where each number of a lent sheet stands (docs/NUMBERS.md). The header's numbers of a sheet are made from this file.

// How many rows of each sort there is room for.
pub const NODES: usize = 64;

pub const ROUTES: usize = 512;

pub const LIMITS: usize = 512;

pub const ACTIONS: usize = 64;

pub const DECLARED: usize = 256;

// Single numbers.
pub const FORMAT: usize = 0;

pub const START: usize = 1;

pub const MAX_VISITS_PER_NODE: usize = 2;

pub const MAX_ACTIVATIONS: usize = 3;

pub const NODE_COUNT: usize = 4;

pub const ROUTE_COUNT: usize = 5;

pub const LIMIT_COUNT: usize = 6;

pub const ACTION_COUNT: usize = 7;

pub const DECLARED_COUNT: usize = 8;

// A column for each field of a row.
pub const NODE_KIND: usize = 9;

pub const NODE_ACTION: usize = NODE_KIND + NODES;

pub const NODE_HAS_PARAMS: usize = NODE_ACTION + NODES;

pub const NODE_SIGNAL: usize = NODE_HAS_PARAMS + NODES;

pub const NODE_CODE: usize = NODE_SIGNAL + NODES;

pub const NODE_DETAIL: usize = NODE_CODE + NODES;

pub const NODE_HAS_LIMITS: usize = NODE_DETAIL + NODES;

pub const ROUTE_NODE: usize = NODE_HAS_LIMITS + NODES;

pub const ROUTE_OUTCOME: usize = ROUTE_NODE + ROUTES;

pub const ROUTE_TARGET: usize = ROUTE_OUTCOME + ROUTES;

pub const LIMIT_NODE: usize = ROUTE_TARGET + ROUTES;

pub const LIMIT_OUTCOME: usize = LIMIT_NODE + LIMITS;

pub const LIMIT_LIMIT: usize = LIMIT_OUTCOME + LIMITS;

pub const ACTION_EFFECT: usize = LIMIT_LIMIT + LIMITS;

pub const ACTION_MAX_ATTEMPTS: usize = ACTION_EFFECT + ACTIONS;

pub const DECLARED_ACTION: usize = ACTION_MAX_ATTEMPTS + ACTIONS;

pub const DECLARED_OUTCOME: usize = DECLARED_ACTION + DECLARED;

// All numbers of a sheet.
pub const NUMBERS: usize = DECLARED_OUTCOME + DECLARED;
