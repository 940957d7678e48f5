// Where a row stands in a sheet, or would stand: node rows and edge rows alike.
#![tactic(auto)]

ghost use Rattle.std.specs.Prelude.{[], ◌∷◌};
ghost use Rattle.tables.specs.Key.{identity};
ghost use Rattle.sheet.specs.Rows.{row_key};
ghost use Rattle.sheet.specs.declared.Half.TheVariants.{Nodes, Edges};
ghost use Rattle.question.specs.Telling.{answer_of};
ghost use Rattle.find.specs.Promises.{TellsPlace};

use question::{Answer, Told};
use sheet::{Cells, Half, Refusal};

// Whether a row stands in a half of a sheet, 1 yes and 0 no in `value`, and its row or the row that it would be in `count`.
fn find_in(half: Half, words: &[u32], wanted: Cells) -> Result<Told, Refusal>
    ensures { TellsPlace half words.now (row_key wanted) (answer_of result) }
{
    let sheet = verdict::accept(1, words)?;
    let (value, row) = match sheet.find(half, wanted) {
        Ok(row) => (1, row),
        Err(row) => (0, row),
    };
    Ok(Told {
        value,
        count: row as u32,
    })
}

// Where a node stands or would stand. Any words may be asked for.
pub fn find_node(sheet: &[u32], class: u32, number: u32, variant: u32) -> Answer
    ensures { TellsPlace Nodes sheet.now (identity class number variant) result }
{
    let wanted = sheet::named(class, number, variant);
    find_in(Half::Nodes, sheet, wanted).into()
}

// Where an edge stands or would stand, its ends by rows of the sheet. Any words may be asked for.
pub fn find_edge(sheet: &[u32], kind: u32, from: u32, to: u32) -> Answer
    ensures { TellsPlace Edges sheet.now (kind ∷ from ∷ to ∷ []) result }
{
    let wanted = sheet::named(kind, from, to);
    find_in(Half::Edges, sheet, wanted).into()
}
