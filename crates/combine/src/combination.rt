// Two sheets, and what is to be made of them.
ghost use Rattle.std.proofs.Props.{props};
ghost use Rattle.combine.specs.Rules.{Safe-prop};
ghost use Rattle.combine.specs.Sheets.{Pair};

use super::Plan;
use sheet::Sheet;

// Two sheets, and a plan whose rules make marks of its offices of theirs.
#[derive(Clone, Copy)]
pub struct Combination<'a> {
    pub first: &'a Sheet<'a>,
    pub second: &'a Sheet<'a>,
    pub plan: Plan,
    pub ghost sound: { Pair plan.nodes plan.edges plan.offices first.now.words.now first.now.header second.now.words.now second.now.header } by { Prim.hlevel (props, Safe-prop) },
}
