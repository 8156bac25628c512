// Rules 1, 3, 5 to 9, 12 and 16 of a sheet whose form holds.
ghost use Rattle.std.specs.Prelude.{◌≡◌, Bool, true, ℕ, eqb, ltb};
ghost use Rattle.std.specs.Borrow.{Bor};
ghost use Rattle.std.specs.List.{zip};
ghost use Rattle.laws.specs.Bool.{◌and◌, ◌or◌};
ghost use Rattle.laws.specs.First.{some};
ghost use Rattle.laws.specs.Rows.{span};
ghost use Rattle.workflow.specs.Code.{format_0_1};
ghost use Rattle.workflow.specs.declared.refusal.Refusal.{Refusal};
ghost use Rattle.workflow.specs.Layout as layout;
ghost use Rattle.workflow.specs.View.{workflow, cell};
ghost use Rattle.workflow.specs.Lookup.{is_0_2, node_of};
ghost use Rattle.graph.specs.Lowest.{lowest};
ghost use Rattle.graph.specs.Form.{form};
ghost use Rattle.graph.specs.Rules.{within, leads_nowhere, may_route_exhausted, breaks_1, breaks_7, breaks_8, breaks_9, breaks_12};
ghost use Rattle.graph.specs.Verdict.{rule, rule_at, action_verdict, actions_verdict};
ghost use Rattle.graph.specs.RulesLaws.{AreOutcomes, marked, unmarked, again, reserved_marks, known, out_of_range, bad_row, RoutesOf, LimitsOf, DeclaredOf, misroutes, routes_exhausted, misses};

use crate::search::Rows;
use crate::{Broken, Ceilings, rule, rule_at};
use workflow::layout::NUMBERS;
use workflow::refusal::Refusal;
use workflow::{Node, capped, code, is_0_2, layout, node_of, policy_of};

// Outcomes are below 255.
const OUTCOMES: usize = 256;

const OUTCOME_FAILED: usize = code::FAILED as usize;

const OUTCOME_EXHAUSTED: usize = code::EXHAUSTED as usize;

// Outcomes, of some rows.
#[derive(Clone, Copy)]
struct Outcomes<'a> {
    numbers: &'a [u32],
    ghost small: { AreOutcomes numbers.now },
}

impl<'a> Outcomes<'a> {
    // The outcomes as marks.
    fn marks(&self) -> [bool; OUTCOMES]
        ensures { result ≡ marked self.now.numbers.now }
    {
        let mut m = [false; OUTCOMES];
        for outcome in self.numbers {
            m[*outcome as usize] = true;
        }
        m
    }

    // Some outcome is not marked.
    fn has_unmarked(&self, m: &[bool; OUTCOMES]) -> bool
        ensures { result ≡ some (unmarked m.now) self.now.numbers.now }
    {
        self.numbers.iter().any(|outcome| !m[*outcome as usize])
    }

    // An outcome is reserved, or stands there twice.
    // Kept: `two` says what is marked at first; and a loop, since each outcome is marked when it has been looked at (d).
    fn is_declared_again(&self, two: bool) -> bool
        ensures { result ≡ again (reserved_marks two) self.now.numbers.now }
    {
        let mut m = [false; OUTCOMES];
        m[OUTCOME_FAILED] = true;
        m[OUTCOME_EXHAUSTED] = two;
        for outcome in self.numbers {
            let o = *outcome as usize;
            if m[o] {
                return true;
            }
            m[o] = true;
        }
        false
    }

    // Some outcome is none of those that an activity may route: those its action declares, failed, and exhausted where it may.
    // Kept: `exhausted` is one of the marks, and these aren't handed back, since they were then copied for each activity (d).
    fn has_unknown(&self, declared: &Outcomes, exhausted: bool) -> bool
        ensures { result ≡ some (unmarked (known (marked declared.now.numbers.now) exhausted)) self.now.numbers.now }
    {
        let mut known = declared.marks();
        known[OUTCOME_FAILED] = true;
        known[OUTCOME_EXHAUSTED] |= exhausted;
        self.has_unmarked(&known)
    }

    // A limit is out of range, or its outcome is not marked.
    fn has_bad_limit(&self, limits: &[u32], m: &[bool; OUTCOMES], most: u32) -> bool
        ensures { result ≡ some (bad_row m.now most) (zip self.now.numbers.now limits.now) }
    {
        self.numbers.iter().zip(limits).any(|(outcome, limit)| !m[*outcome as usize]
            | is_out_of_range(most, *limit))
    }
}

// A sheet whose form holds.
#[derive(Clone, Copy)]
pub struct Formed<'a> {
    pub sheet: &'a [u32; NUMBERS],
    ghost formed: { form (workflow sheet.now) ≡ true },
}

// Rules 1, 3, 5 and 6.

// In 1 to the most.
fn is_within(most: u32, x: u32) -> bool
    ensures { result ≡ within most x }
{
    (1..=most).contains(&x)
}

impl<'a> Formed<'a> {
    // 1: a known format.
    pub fn rule_1(&self) -> Result<(), Broken>
        ensures { result ≡ rule Refusal.Format (eqb (workflow self.now.sheet.now).format format_0_1 or is_0_2 (workflow self.now.sheet.now)) }
    {
        let holds = self.sheet[layout::FORMAT] == code::FORMAT_0_1 || is_0_2(self.sheet);
        rule(Refusal::Format, holds)
    }

    // 1: no params in format 1.
    fn lowest_with_params(&self) -> Option<u32>
        ensures { result ≡ lowest (workflow self.now.sheet.now).node_count (breaks_1 (workflow self.now.sheet.now)) }
    {
        let w = self.sheet;
        if is_0_2(w) {
            return None;
        }
        (0..w[layout::NODE_COUNT]).find(|node| w[layout::NODE_HAS_PARAMS + *node as usize] == 1)
    }

    pub fn rule_1_params(&self) -> Result<(), Broken>
        ensures { result ≡ rule_at Refusal.Format (lowest (workflow self.now.sheet.now).node_count (breaks_1 (workflow self.now.sheet.now))) }
    {
        rule_at(Refusal::Format, self.lowest_with_params())
    }

    // 3: there are nodes, and no more than there may be.
    pub fn rule_3(&self, c: Ceilings) -> Result<(), Broken>
        ensures { result ≡ rule Refusal.Nodes (within c.nodes (workflow self.now.sheet.now).node_count) }
    {
        rule(
            Refusal::Nodes,
            is_within(c.nodes, self.sheet[layout::NODE_COUNT]),
        )
    }

    // 5: the start is there.
    pub fn rule_5(&self) -> Result<(), Broken>
        ensures { result ≡ rule Refusal.Start (ltb (workflow self.now.sheet.now).start (workflow self.now.sheet.now).node_count) }
    {
        rule(
            Refusal::Start,
            self.sheet[layout::START] < self.sheet[layout::NODE_COUNT],
        )
    }

    // 6: the limits are in range.
    pub fn rule_6(&self, c: Ceilings) -> Result<(), Broken>
        ensures { result ≡ rule Refusal.Limits (within c.visits (workflow self.now.sheet.now).max_visits_per_node and within c.activations (workflow self.now.sheet.now).max_activations) }
    {
        let holds = is_within(c.visits, self.sheet[layout::MAX_VISITS_PER_NODE])
            && is_within(c.activations, self.sheet[layout::MAX_ACTIVATIONS]);
        rule(Refusal::Limits, holds)
    }
}

// Rules 16 and 7, action by action.

fn breaks_7(w: &[u32; NUMBERS], most: u32, action: u32, rows: Rows) -> bool
    requires { DeclaredOf w.now action rows }
    ensures { result ≡ breaks_7 (workflow w.now) most action }
{
    let x = policy_of(w, action);
    let declared = Outcomes {
        numbers: rows.numbers(w, layout::DECLARED_OUTCOME),
    };
    rows.is_empty() || declared.is_declared_again(is_0_2(w)) || !is_within(most, x.max_attempts)
}

fn action_verdict(w: &[u32; NUMBERS], c: Ceilings, action: u32, rows: Rows) -> Result<(), Broken>
    requires { DeclaredOf w.now action rows }
    ensures { result ≡ action_verdict (workflow w.now) c action }
{
    let x = policy_of(w, action);
    if x.effect == code::RECONCILABLE {
        return Err(Broken {
            refusal: Refusal::Reconcilable,
            item: action,
        });
    }
    if breaks_7(w, c.attempts, action, rows) {
        return Err(Broken {
            refusal: Refusal::ActionPolicy,
            item: action,
        });
    }
    Ok(())
}

impl<'a> Formed<'a> {
    // Kept: a walk beside that of lowest_breaking, since an action breaks one of two rules, and a node the rule that is asked (d).
    pub fn actions_verdict(&self, c: Ceilings) -> Result<(), Broken>
        ensures { result ≡ actions_verdict (workflow self.now.sheet.now) c }
    {
        let w = self.sheet;
        let k = capped(w[layout::DECLARED_COUNT], layout::DECLARED);
        let mut from = 0;
        for action in 0..w[layout::ACTION_COUNT] {
            let rows = Rows::starting_at(w, layout::DECLARED_ACTION, from, k, action);
            action_verdict(w, c, action, rows)?;
            from = rows.to;
        }
        Ok(())
    }
}

// Rules 8, 9 and 12, node by node.

// A strict test here and in `has_bad_limit`: with a lazy one a verdict on a full sheet took 1.15 times as long.
// A limit that is 0 or not below the most visits: one more than it stays at the largest number.
fn is_out_of_range(most: u32, limit: u32) -> bool
    ensures { result ≡ out_of_range most limit }
{
    (limit == 0) | (most < limit.saturating_add(1))
}

// A node of a formed sheet, with its routes.
#[derive(Clone, Copy)]
struct At<'a> {
    sheet: &'a [u32; NUMBERS],
    node: u32,
    routes: Rows,
    ghost of_node: { RoutesOf sheet.now node routes },
}

impl<'a> At<'a> {
    fn row(&self) -> Node
        ensures { result ≡ node_of (workflow self.now.sheet.now) self.now.node }
    {
        node_of(self.sheet, self.node)
    }

    // The outcomes that are routed.
    fn outcomes(&self) -> Outcomes<'a>
        ensures { result.numbers.now ≡ span (cell self.now.sheet.now layout.route_outcome) self.now.routes.from self.now.routes.to }
    {
        Outcomes {
            numbers: self.routes.numbers(self.sheet, layout::ROUTE_OUTCOME),
        }
    }

    // A target is no node.
    fn leads_nowhere(&self) -> bool
        ensures { result ≡ some (leads_nowhere (workflow self.now.sheet.now) self.now.node) (workflow self.now.sheet.now).routes }
    {
        let nodes = self.sheet[layout::NODE_COUNT];
        let targets = self.routes.numbers(self.sheet, layout::ROUTE_TARGET);
        targets.iter().any(|target| nodes <= *target)
    }

    // In format 2 a node routes exhausted only when it has loop limits.
    fn may_route_exhausted(&self) -> bool
        ensures { result ≡ may_route_exhausted (workflow self.now.sheet.now) self.now.node }
    {
        is_0_2(self.sheet) && self.row().has_limits == 1
    }

    // The outcomes of an activity are not those of its action, or lead to no node.
    fn misroutes(&self, action: u32) -> bool
        ensures { result ≡ misroutes (workflow self.now.sheet.now) self.now.node action }
    {
        let k = capped(self.sheet[layout::DECLARED_COUNT], layout::DECLARED);
        let rows = Rows::of(self.sheet, layout::DECLARED_ACTION, k, action);
        let declared = Outcomes {
            numbers: rows.numbers(self.sheet, layout::DECLARED_OUTCOME),
        };
        let routed = self.outcomes();
        declared.has_unmarked(&routed.marks())
            || routed.has_unknown(&declared, self.may_route_exhausted())
            || self.leads_nowhere()
    }

    fn breaks_8(&self) -> bool
        ensures { result ≡ breaks_8 (workflow self.now.sheet.now) self.now.node }
    {
        let x = self.row();
        x.kind == code::ACTIVITY
            && (self.sheet[layout::ACTION_COUNT] <= x.action || self.misroutes(x.action))
    }

    // In format 2, exhausted is routed without loop limits.
    fn routes_exhausted(&self) -> bool
        ensures { result ≡ routes_exhausted (workflow self.now.sheet.now) self.now.node }
    {
        let routed = self.outcomes().numbers;
        is_0_2(self.sheet) && routed.contains(&code::EXHAUSTED) && !self.may_route_exhausted()
    }

    fn breaks_9(&self) -> bool
        ensures { result ≡ breaks_9 (workflow self.now.sheet.now) self.now.node }
    {
        let x = self.row();
        x.kind == code::AWAIT_SIGNAL
            && (self.routes.is_empty() || self.routes_exhausted() || self.leads_nowhere())
    }

    // A loop limit is bad, or on exhausted, or exhausted is not routed.
    fn misses(&self, limits: Rows) -> bool
        requires { LimitsOf self.now.sheet.now self.now.node limits }
        ensures { result ≡ misses (workflow self.now.sheet.now) self.now.node }
    {
        let mut routed = self.outcomes().marks();
        // Kept: an early answer, since the marks change behind it (d).
        if !routed[OUTCOME_EXHAUSTED] {
            return true;
        }
        routed[OUTCOME_EXHAUSTED] = false;
        let limited = Outcomes {
            numbers: limits.numbers(self.sheet, layout::LIMIT_OUTCOME),
        };
        limited.has_bad_limit(
            limits.numbers(self.sheet, layout::LIMIT_LIMIT),
            &routed,
            self.sheet[layout::MAX_VISITS_PER_NODE],
        )
    }

    fn breaks_12(&self) -> bool
        ensures { result ≡ breaks_12 (workflow self.now.sheet.now) self.now.node }
    {
        // Kept: early answers, since the limits are looked for only behind them (d).
        if self.row().has_limits != 1 {
            return false;
        }
        if !is_0_2(self.sheet) {
            return true;
        }
        let k = capped(self.sheet[layout::LIMIT_COUNT], layout::LIMITS);
        let limits = Rows::of(self.sheet, layout::LIMIT_NODE, k, self.node);
        limits.is_empty() || self.misses(limits)
    }
}

impl<'a> Formed<'a> {
    // The lowest node that breaks a rule.
    fn lowest_breaking<F: Fn(&At<'a>) -> bool>(&self, breaks: F) -> Option<u32>
        requires { F.IsAlwaysCallable breaks }
        ensures { (p : ℕ → Bool) → ((at : Bor At) (b : Bool) → at.now.sheet.now ≡ self.now.sheet.now → F.post breaks at b → b ≡ p at.now.node) → result ≡ lowest (workflow self.now.sheet.now).node_count p }
    {
        let w = self.sheet;
        let k = capped(w[layout::ROUTE_COUNT], layout::ROUTES);
        let mut from = 0;
        for node in 0..w[layout::NODE_COUNT] {
            let routes = Rows::starting_at(w, layout::ROUTE_NODE, from, k, node);
            if breaks(&At {
                sheet: w,
                node,
                routes,
            }) {
                return Some(node);
            }
            from = routes.to;
        }
        None
    }

    // Kept: a line each, for the rule's refusal and its method (d).

    pub fn rule_8(&self) -> Result<(), Broken>
        ensures { result ≡ rule_at Refusal.Activity (lowest (workflow self.now.sheet.now).node_count (breaks_8 (workflow self.now.sheet.now))) }
    {
        rule_at(Refusal::Activity, self.lowest_breaking(|at| at.breaks_8()))
    }

    pub fn rule_9(&self) -> Result<(), Broken>
        ensures { result ≡ rule_at Refusal.AwaitSignal (lowest (workflow self.now.sheet.now).node_count (breaks_9 (workflow self.now.sheet.now))) }
    {
        rule_at(
            Refusal::AwaitSignal,
            self.lowest_breaking(|at| at.breaks_9()),
        )
    }

    pub fn rule_12(&self) -> Result<(), Broken>
        ensures { result ≡ rule_at Refusal.LoopLimits (lowest (workflow self.now.sheet.now).node_count (breaks_12 (workflow self.now.sheet.now))) }
    {
        rule_at(
            Refusal::LoopLimits,
            self.lowest_breaking(|at| at.breaks_12()),
        )
    }
}
