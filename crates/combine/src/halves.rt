// One half of two sheets.
ghost use Rattle.std.proofs.Props.{props};
ghost use Rattle.combine.specs.Rules.{Safe-prop};
ghost use Rattle.combine.specs.Halves.{Inputs};

use super::Rule;
use sheet::{Half, Sheet};

// The rows of one half of two sheets, and the rule for the marks that both have at one key.
#[derive(Clone, Copy)]
pub struct Halves<'a> {
    pub first: &'a Sheet<'a>,
    pub second: &'a Sheet<'a>,
    pub half: Half,
    pub rule: Rule,
    pub ghost inputs: { Inputs first.now.words.now first.now.header second.now.words.now second.now.header rule } by { Prim.hlevel (props, Safe-prop) },
}
