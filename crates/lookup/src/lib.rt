// Looking an identity up in two sheets at once: its row as it stands in the first that has it, and why there is none.
#![tactic(auto)]

ghost use Rattle.std.specs.Prelude.{◌≡◌, ◌+◌, ◌≤◌, length};
ghost use Rattle.tables.specs.Key.{identity};
ghost use Rattle.sheet.specs.Limits.{max_nodes, node_words, edges_from};
ghost use Rattle.sheet.specs.Parts.{lent};
ghost use Rattle.sheet.specs.Rows.{row_key};
ghost use Rattle.question.specs.Replies.{tells};
ghost use Rattle.lookup.specs.Looked.{look_fault, row_part, LooksUp, PlacesIdentity};
ghost use Rattle.lookup.specs.Standing.{StandsAt, FindsRow};

mod standing;

use question::{Answer, Told};
use sheet::{Cells, Fault, HEADER_WORDS, Half, NODE_WORDS, Refusal, Sheet};
use standing::Standing;

// Where an identity's row stands: in the first of two sheets that has it.
fn stand(one: &Sheet<'_>, other: &Sheet<'_>, wanted: Cells) -> Option<Standing>
    ensures { StandsAt one.now.words.now other.now.words.now (row_key wanted) result }
{
    if let Ok(row) = one.find(Half::Nodes, wanted) {
        return Some(Standing::First(row));
    }
    match other.find(Half::Nodes, wanted) {
        Ok(row) => Some(Standing::Second(row)),
        Err(_) => None,
    }
}

// Where an identity's row stands in two sheets, or what refuses the lookup.
fn standing_of(first: &[u32], second: &[u32], wanted: Cells) -> Result<Standing, Refusal>
    ensures { FindsRow first.now second.now (row_key wanted) result }
{
    let one = verdict::accept(1, first)?;
    let other = verdict::accept(2, second)?;
    match stand(&one, &other, wanted) {
        Some(standing) => Ok(standing),
        None => Err(Fault::NoIdentity.into()),
    }
}

// The four words of a node row, where they stand.
fn row_part<'a>(words: &'a [u32], row: usize) -> &'a [u32]
    requires { edges_from row + node_words ≤ length words.now }
    ensures { lent result ≡ row_part (lent words.entry) row }
{
    let from = HEADER_WORDS + NODE_WORDS * row;
    &words[from..from + NODE_WORDS]
}

// The row of an identity as it stands in the first of two sheets that has it; the empty part where that is refused.
pub fn look_up<'a>(
    first: &'a [u32],
    second: &'a [u32],
    class: u32,
    number: u32,
    variant: u32,
) -> &'a [u32]
    ensures { LooksUp (lent first.entry) (lent second.entry) (identity class number variant) (lent result) }
{
    match standing_of(first, second, sheet::named(class, number, variant)) {
        Ok(Standing::First(row)) => row_part(first, row),
        Ok(Standing::Second(row)) => row_part(second, row),
        Err(_) => &first[..0],
    }
}

// A node row of the first sheet or the second, as an answer.
fn told_in(sheet: u32, row: usize) -> Answer
    requires { row ≤ max_nodes }
    ensures { result ≡ tells sheet row }
{
    Answer::from(Told {
        value: sheet,
        count: row as u32,
    })
}

// Where the row stands that a lookup gives: the sheet, 1 or 2, in `value`, and its node row in `count`.
pub fn look_up_place(first: &[u32], second: &[u32], class: u32, number: u32, variant: u32) -> Answer
    ensures { PlacesIdentity first.now second.now (identity class number variant) result }
{
    match standing_of(first, second, sheet::named(class, number, variant)) {
        Ok(Standing::First(row)) => told_in(1, row),
        Ok(Standing::Second(row)) => told_in(2, row),
        Err(refusal) => refusal.into(),
    }
}

// The number and place of what a lookup with the same arguments is refused by; 0 throughout where the identity is found.
pub fn look_up_refusal(
    first: &[u32],
    second: &[u32],
    class: u32,
    number: u32,
    variant: u32,
) -> Refusal
    ensures { result ≡ look_fault first.now second.now (identity class number variant) }
{
    match standing_of(first, second, sheet::named(class, number, variant)) {
        Ok(_) => Refusal::default(),
        Err(refusal) => refusal,
    }
}
