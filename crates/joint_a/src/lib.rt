// The sheet of Joint A (document 01) as numbers.
#![tactic(auto)]

ghost use Rattle.std.specs.Prelude.{◌≡◌};
ghost use Rattle.joint_a.specs.Sheet.{numbers};

use workflow::{code, layout};

// Format 2, visits 3, activations 10. Node 0: activity, action 0, ok to 1. Node 1: await signal 5, received to 2,
// outcome 4 to 0, exhausted to 3, a limit on 4. Node 2 complete, 3 fail. Action 0: effect 1, ok, 2 attempts.
pub fn sheet(limit: u32) -> [u32; layout::NUMBERS]
    ensures { result ≡ numbers limit }
{
    let mut w = [0u32; layout::NUMBERS];
    w[layout::FORMAT] = code::FORMAT_0_2;
    w[layout::MAX_VISITS_PER_NODE] = 3;
    w[layout::MAX_ACTIVATIONS] = 10;
    w[layout::NODE_COUNT] = 4;
    w[layout::ROUTE_COUNT] = 4;
    w[layout::LIMIT_COUNT] = 1;
    w[layout::ACTION_COUNT] = 1;
    w[layout::DECLARED_COUNT] = 1;
    w[layout::NODE_KIND] = code::ACTIVITY;
    w[layout::NODE_KIND + 1] = code::AWAIT_SIGNAL;
    w[layout::NODE_KIND + 2] = code::COMPLETE;
    w[layout::NODE_KIND + 3] = code::FAIL;
    w[layout::NODE_SIGNAL + 1] = 5;
    w[layout::NODE_CODE + 3] = 77;
    w[layout::NODE_HAS_LIMITS + 1] = 1;
    w[layout::ROUTE_NODE + 1] = 1;
    w[layout::ROUTE_NODE + 2] = 1;
    w[layout::ROUTE_NODE + 3] = 1;
    w[layout::ROUTE_OUTCOME + 1] = code::RECEIVED;
    w[layout::ROUTE_OUTCOME + 2] = code::EXHAUSTED;
    w[layout::ROUTE_OUTCOME + 3] = 4;
    w[layout::ROUTE_TARGET] = 1;
    w[layout::ROUTE_TARGET + 1] = 2;
    w[layout::ROUTE_TARGET + 2] = 3;
    w[layout::LIMIT_NODE] = 1;
    w[layout::LIMIT_OUTCOME] = 4;
    w[layout::LIMIT_LIMIT] = limit;
    w[layout::ACTION_EFFECT] = 1;
    w[layout::ACTION_MAX_ATTEMPTS] = 2;
    w
}
