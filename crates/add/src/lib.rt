// Adding a row to a sheet: the sheet with one row more, at the place that a search tells, edge ends renumbered.
#![tactic(auto)]

ghost use Rattle.std.specs.Prelude.{◌≡◌, ◌<◌, IfErr, IfOk};
ghost use Rattle.sheet.specs.FaultNumbers.{fault_number};
ghost use Rattle.sheet.specs.Found.{PlaceIs};
ghost use Rattle.sheet.specs.Rows.{count_in, row_key, row_key_at};
ghost use Rattle.question.specs.Telling.{answer_of};
ghost use Rattle.add.specs.Adding.{already_there, most_in, add_fault, AddsRow, AddsNode, AddsEdge, PutsRow};
ghost use Rattle.add.specs.Lone.{lone_node, lone_edge, lone_with_ends, IsLone};

use combine::{Combination, Plan, Rule};
use question::{Answer, Told};
use sheet::{Cells, Edge, Fault, Half, Node, Refusal, Sheet};

// The words of a node row alone, and of an edge row with its two ends.
const LONE_NODE: usize = sheet::HEADER_WORDS + sheet::NODE_WORDS;

const LONE_EDGE: usize = sheet::HEADER_WORDS + 2 * sheet::NODE_WORDS + sheet::EDGE_WORDS;

// A node row as a sheet of its own.
// Stays: an array by value, here and below, since there is no heap, and a lent buffer would need its length beside it.
fn lone_node(sheet: &Sheet<'_>, c: Cells) -> [u32; LONE_NODE]
    ensures { result ≡ lone_node sheet.now.header c }
{
    let h = sheet.header;
    let marks = c.offices;
    [
        h.form, h.offices, 1, 0, 6, 10, c.first, c.second, c.third, marks,
    ]
}

// An edge row as a sheet of its own with the nodes at its ends, the lower first, all under its marks.
fn lone_edge(sheet: &Sheet<'_>, low: u32, high: u32, c: Cells) -> [u32; LONE_EDGE]
    requires { (low < sheet.now.header.nodes) × (high < sheet.now.header.nodes) }
    ensures { result ≡ lone_edge sheet.now.words.now sheet.now.header low high c }
{
    let h = sheet.header;
    let a = sheet.node(low as usize);
    let b = sheet.node(high as usize);
    [
        h.form, h.offices, 2, 1, 6, 14, a.class, a.number, a.variant, c.offices, b.class, b.number,
        b.variant, c.offices, c.first, c.second, c.third, c.offices,
    ]
}

// An edge row whose ends are rows of the sheet, as a sheet of its own.
fn lone_with_ends(sheet: &Sheet<'_>, c: Cells) -> [u32; LONE_EDGE]
    requires { (c.second < sheet.now.header.nodes) × (c.third < sheet.now.header.nodes) }
    ensures { result ≡ lone_with_ends sheet.now.words.now sheet.now.header c }
{
    let (from, to) = (c.second, c.third);
    if from < to {
        let e = Cells {
            second: 0,
            third: 1,
            ..c
        };
        return lone_edge(sheet, from, to, e);
    }
    let e = Cells {
        second: 1,
        third: 0,
        ..c
    };
    lone_edge(sheet, to, from, e)
}

// What a row is refused by that is already there.
fn already_there(half: Half) -> Fault
    ensures { fault_number result ≡ already_there half }
{
    match half {
        Half::Nodes => Fault::NodeRepeated,
        Half::Edges => Fault::EdgeRepeated,
    }
}

// The most rows of a half.
fn most_in(half: Half, sheet: &Sheet<'_>) -> u32
    ensures { result ≡ most_in half sheet.now.header }
{
    match half {
        Half::Nodes => sheet::MAX_NODES,
        Half::Edges => sheet::max_edges(sheet.header.form),
    }
}

// Where a row would stand, or what it is refused by.
fn place_for(half: Half, sheet: &Sheet<'_>, c: Cells) -> Result<usize, Fault>
    ensures ok { IfOk result (λ row. (add_fault half sheet.now.words.now c ≡ 0) × PlaceIs (row_key_at half sheet.now.words.now) (count_in half sheet.now.header) (row_key c) row) }
    ensures err { IfErr result (λ f. fault_number f ≡ add_fault half sheet.now.words.now c) }
{
    verdict::check_row(sheet, half, c)?;
    match sheet.find(half, c) {
        Ok(_) => Err(already_there(half)),
        Err(_) if (most_in(half, sheet) as usize) <= sheet.count(half) => Err(Fault::RowCount),
        Err(row) => Ok(row),
    }
}

// Adds a row that is a sheet of its own: how many words the sheet then has, or 25 where the output is shorter.
fn put_lone(
    half: Half,
    sheet: &Sheet<'_>,
    c: Cells,
    lone: &[u32],
    out: &mut [u32],
) -> Result<u32, Fault>
    requires { IsLone half sheet.now.words.now c lone.now × (add_fault half sheet.now.words.now c ≡ 0) }
    ensures { PutsRow half sheet.now.words.now c out.old result out.new }
{
    let header = sheet::header_of(lone);
    let one = Sheet {
        words: lone,
        edges: sheet::edge_table(lone, header),
        header,
    };
    let pair = Combination {
        first: sheet,
        second: &one,
        plan: Plan {
            nodes: Rule::Either,
            edges: Rule::Either,
            offices: sheet.header.offices,
        },
    };
    pair.put(out)
}

// Adds a row that nothing is refused of.
fn put_row(half: Half, sheet: &Sheet<'_>, c: Cells, out: &mut [u32]) -> Result<u32, Fault>
    requires { add_fault half sheet.now.words.now c ≡ 0 }
    ensures { PutsRow half sheet.now.words.now c out.old result out.new }
{
    match half {
        Half::Nodes => put_lone(half, sheet, c, &lone_node(sheet, c), out),
        Half::Edges => put_lone(half, sheet, c, &lone_with_ends(sheet, c), out),
    }
}

// Adds a row to any words: its place and how many words the sheet then has, or what refuses it.
fn try_add(half: Half, words: &[u32], c: Cells, out: &mut [u32]) -> Result<Told, Refusal>
    ensures { AddsRow half words.now c out.old (answer_of result) out.new }
{
    let sheet = verdict::accept(1, words)?;
    let row = place_for(half, &sheet, c)?;
    let count = put_row(half, &sheet, c, out)?;
    Ok(Told {
        value: row as u32,
        count,
    })
}

// Adds a node row to a sheet; edge ends are renumbered.
pub fn add_node(sheet: &[u32], row: Node, out: &mut [u32]) -> Answer
    ensures { AddsNode sheet.now row out.old result out.new }
{
    Answer::from(try_add(Half::Nodes, sheet, row.into(), out))
}

// Adds an edge row to a sheet; it names its ends by rows of that sheet.
pub fn add_edge(sheet: &[u32], row: Edge, out: &mut [u32]) -> Answer
    ensures { AddsEdge sheet.now row out.old result out.new }
{
    Answer::from(try_add(Half::Edges, sheet, row.into(), out))
}
