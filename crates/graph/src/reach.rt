// Rules 14 and 15: nodes that start does not reach, and nodes that reach no end. Sets of nodes are 64-bit sets.
ghost use Rattle.std.specs.Prelude.{◌≡◌, ◌^◌, ◌<◌, ◌≤◌};
ghost use Rattle.workflow.specs.declared.refusal.Refusal.{Refusal};
ghost use Rattle.workflow.specs.View.{workflow};
ghost use Rattle.graph.specs.Lowest.{lowest};
ghost use Rattle.graph.specs.Verdict.{rule_at};
ghost use Rattle.graph.specs.Accepted.{Rules};
ghost use Rattle.graph.specs.Sets.{turned, closed, breaks_14, breaks_15};
ghost use Rattle.graph.specs.ReachLaws.{missing, unreached, ends, masks};

use crate::{Broken, rule_at};
use workflow::layout::NUMBERS;
use workflow::refusal::Refusal;
use workflow::{Route, capped, code, is_0_2, layout, node_of, route_at};

fn bit(n: u32) -> u64
    requires { n < 64 }
    ensures { result ≡ 2 ^ n }
{
    1u64 << n
}

// A route, from its target to its node where back is true.
// Kept: back is a bool here and below, as in the definition: it is tested in this function alone (d).
fn turned(back: bool, x: Route) -> Route
    ensures { result ≡ turned back x }
{
    if back {
        Route {
            node: x.target,
            target: x.node,
            ..x
        }
    } else {
        x
    }
}

// The lowest node that a set lacks: the lowest zero.
fn missing(set: u64, count: u32) -> Option<u32>
    requires { count ≤ 64 }
    ensures { result ≡ missing count set }
{
    let n = u64::trailing_zeros(!set);
    (n < count).then_some(n)
}

// A sheet that rules 20, 5, 8, 9 and 12 hold of.
#[derive(Clone, Copy)]
pub struct Ruled<'a> {
    pub sheet: &'a [u32; NUMBERS],
    ghost ruled: { Rules (workflow sheet.now) },
}

impl<'a> Ruled<'a> {
    // For each node, the nodes that a route leads to.
    fn masks(&self, back: bool) -> [u64; layout::NODES]
        ensures { result ≡ masks (workflow self.now.sheet.now) back }
    {
        let k = capped(self.sheet[layout::ROUTE_COUNT], layout::ROUTES);
        let mut masks = [0u64; layout::NODES];
        for i in 0..k {
            let x = turned(back, route_at(self.sheet, i));
            masks[x.node as usize] |= bit(x.target);
        }
        masks
    }

    // What is reached from a set: the mask of each node of it is added once.
    fn closed(&self, back: bool, start: u64) -> u64
        requires { start < 2 ^ (workflow self.now.sheet.now).node_count }
        ensures { result ≡ closed (workflow self.now.sheet.now) back start }
    {
        let masks = self.masks(back);
        let mut set = start;
        let mut done: u64 = 0;
        let mut frontier = start;
        // Kept: the set itself says how often the loop runs, so there is no range to go over (d).
        while frontier != 0 {
            let n = u64::trailing_zeros(frontier);
            done |= bit(n);
            set |= masks[n as usize];
            frontier = set & !done;
        }
        set
    }

    // The nodes that end a run.
    fn ends(&self) -> u64
        ensures { result ≡ ends (workflow self.now.sheet.now) }
    {
        let mut set = 0;
        for node in 0..self.sheet[layout::NODE_COUNT] {
            if code::COMPLETE <= node_of(self.sheet, node).kind {
                set |= bit(node);
            }
        }
        set
    }

    // In format 2: the lowest node that is not reached from a set along the routes.
    fn lowest_unreached(&self, back: bool, start: u64) -> Option<u32>
        requires { start < 2 ^ (workflow self.now.sheet.now).node_count }
        ensures { result ≡ lowest (workflow self.now.sheet.now).node_count (unreached (workflow self.now.sheet.now) back start) }
    {
        if is_0_2(self.sheet) {
            missing(self.closed(back, start), self.sheet[layout::NODE_COUNT])
        } else {
            None
        }
    }

    pub fn rule_14(&self) -> Result<(), Broken>
        ensures { result ≡ rule_at Refusal.Unreached (lowest (workflow self.now.sheet.now).node_count (breaks_14 (workflow self.now.sheet.now))) }
    {
        let start = bit(self.sheet[layout::START]);
        rule_at(Refusal::Unreached, self.lowest_unreached(false, start))
    }

    pub fn rule_15(&self) -> Result<(), Broken>
        ensures { result ≡ rule_at Refusal.Unending (lowest (workflow self.now.sheet.now).node_count (breaks_15 (workflow self.now.sheet.now))) }
    {
        rule_at(Refusal::Unending, self.lowest_unreached(true, self.ends()))
    }
}
