// The verdict on a sheet: the first broken rule with its item.
#![tactic(auto)]

mod form;
mod reach;
mod rules;
mod search;

ghost use Rattle.std.specs.Prelude.{◌≡◌, true, ltb};
ghost use Rattle.workflow.specs.View.{workflow};
ghost use Rattle.graph.specs.Verdict.{rule, rule_at, first_broken, reach_stages, graph_stages, formed_stages, verdict};

use crate::reach::Ruled;
use crate::rules::Formed;
use workflow::code;
use workflow::layout::NUMBERS;
use workflow::refusal::Refusal;

// The largest numbers that a sheet may ask for.
#[derive(Clone, Copy, Debug, PartialEq, Eq)]
pub struct Ceilings {
    pub nodes: u32,
    pub visits: u32,
    pub activations: u32,
    pub attempts: u32,
}

// What a sheet or a call is refused with: a rule, as the refusal or as any other that a caller names it by, and its item.
#[derive(Clone, Copy, Debug, PartialEq, Eq)]
pub struct Broken<R = Refusal> {
    pub refusal: R,
    // Kept: a number, 255 for none: document 01 gives 255 as the item of a refusal that has none (a).
    pub item: u32,
}

// A rule of the whole sheet, or of the call.
// Kept: holds is the answer of a test, and no mark of another value (d).
pub fn rule<R: Copy>(refusal: R, holds: bool) -> Result<(), Broken<R>>
    ensures { result ≡ rule refusal holds }
{
    if holds {
        return Ok(());
    }
    Err(Broken {
        refusal,
        item: code::NONE,
    })
}

// A rule whose item is the lowest node that breaks it.
fn rule_at(refusal: Refusal, found: Option<u32>) -> Result<(), Broken>
    ensures { result ≡ rule_at refusal found }
{
    match found {
        Some(item) => Err(Broken { refusal, item }),
        None => Ok(()),
    }
}

// The stages, in the order of the definition.

fn reach_verdict(w: &Ruled) -> Result<(), Broken>
    ensures { result ≡ first_broken (reach_stages (workflow w.now.sheet.now)) }
{
    w.rule_14()?;
    w.rule_15()
}

fn graph_verdict(w: &Formed) -> Result<(), Broken>
    requires { ltb (workflow w.now.sheet.now).start (workflow w.now.sheet.now).node_count ≡ true }
    ensures { result ≡ first_broken (graph_stages (workflow w.now.sheet.now)) }
{
    w.rule_8()?;
    w.rule_9()?;
    w.rule_12()?;
    reach_verdict(&Ruled { sheet: w.sheet })
}

// Never inlined, nor is rule 20: in one function the compiled loops of both take a tenth longer.
#[inline(never)]
fn formed_verdict(w: &Formed, c: Ceilings) -> Result<(), Broken>
    ensures { result ≡ first_broken (formed_stages (workflow w.now.sheet.now) c) }
{
    w.rule_1()?;
    w.rule_1_params()?;
    w.rule_3(c)?;
    w.rule_5()?;
    w.rule_6(c)?;
    w.actions_verdict(c)?;
    graph_verdict(w)
}

// The verdict on a sheet: every array of numbers has one.
pub fn validate(w: &[u32; NUMBERS], c: Ceilings) -> Result<(), Broken>
    ensures { result ≡ verdict (workflow w.now) c }
{
    form::rule_20(w)?;
    formed_verdict(&Formed { sheet: w }, c)
}
