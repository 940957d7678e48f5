// What is asked of a question that nothing refuses.
ghost use Rattle.std.specs.Prelude.{◌≡◌, ℕ, ◌*◌, ◌<◌, ◌≤◌, length, get_or, drop, ◌++◌};
ghost use Rattle.sheet.specs.Limits.{max_nodes};
ghost use Rattle.sheet.specs.Refusals.{none};
ghost use Rattle.paths.specs.Reached.{Layers};
ghost use Rattle.walk.specs.Arcs.{walk_of};
ghost use Rattle.walk.specs.Outset.{Target};
ghost use Rattle.walk.specs.WalkSteps.{steps_back};
ghost use Rattle.meaning.specs.Paths.{right_kind, HasPath};
ghost use Rattle.meaning.specs.Answers.{Says, AnswerIs};
ghost use Rattle.meaning.specs.Questions.{WitnessIs};
ghost use Rattle.question.specs.Asked.{side_of};
ghost use Rattle.question.specs.Sides.{side};
ghost use Rattle.question.specs.Replies.{Shows};
ghost use Rattle.question.specs.Checked.{seen_at_seat};
ghost use Rattle.question.specs.Telling.{answer_of};
ghost use Rattle.ask.specs.Placed.{Placed};
ghost use Rattle.ask.specs.JointRules.{answer_number};
ghost use Rattle.ask.specs.PathRows.{spelled_rows, RowsIn, WalkedBack, PathRows};

use super::joint::OfficeAnswer;
use question::{Asks, OfficeSheet, Question, Told};
use sheet::{Fault, Refusal, Sheet};
use walk::Walker;

// One number for each node row.
const ROWS: usize = sheet::MAX_NODES as usize;

// Where a question's person and folio stand among the node rows.
#[derive(Clone, Copy)]
pub struct PlacedRows {
    pub person: u32,
    pub folio: u32,
}

// A question at an office that knows its person, deed and folio.
#[derive(Clone, Copy)]
pub struct Stand<'a> {
    pub at: OfficeSheet<'a>,
    pub question: Question,
    pub places: PlacedRows,
    pub ghost placed: { Placed at.sheet.words.now question places.person places.folio },
}

// Writes the two words of each row that is named, number and variant.
fn write_nodes(sheet: &Sheet<'_>, rows: &[u32], out: &mut [u32])
    requires { RowsIn sheet.now.header.nodes rows.now (length rows.now) × (2 * length rows.now ≤ length out.old) }
    ensures { out.new ≡ spelled_rows sheet.now.words.now rows.now ++ drop (2 * length rows.now) out.old }
{
    for (i, row) in rows.iter().enumerate() {
        let r = sheet.node(*row as usize);
        out[2 * i] = r.number;
        out[2 * i + 1] = r.variant;
    }
}

// How many steps lead from each node row to a row, and one; 0 where none do. The numbers are lent: those of a result of its own would
// be on the stack twice.
fn measure(walker: &Walker<'_>, to: u32, d: &mut [u32])
    requires { Target to d.old }
    ensures { (length d.new ≡ max_nodes) × Layers (steps_back walker.now) (λ x. x ≡ to) d.new }
{
    let back = Walker {
        sheet: walker.sheet,
        walk: walk::reversed(walker.walk),
    };
    back.layers(d);
}

impl Stand<'_> {
    // The walk of a side's paths.
    fn walker(&self, asks: Asks) -> Walker<'_>
        ensures { (result.sheet ≡ self.now.at.sheet) × (result.walk ≡ walk_of self.now.at.seat (right_kind (side asks)) self.now.question.deed) }
    {
        Walker {
            sheet: self.at.sheet,
            walk: walk::walk_of(self.at.seat, asks.edge_kind(), self.question.deed),
        }
    }

    // Whether a grant or a ban path is seen.
    fn has_path(&self, asks: Asks) -> bool
        ensures { Says result (HasPath (seen_at_seat self.now.at) (side asks) self.now.question.person self.now.question.deed self.now.question.folio) }
    {
        let to = self.places.folio;
        let mut d = walk::target(to);
        measure(&self.walker(asks), to, &mut d);
        d[self.places.person as usize] != 0
    }

    // The answer of the office.
    pub(crate) fn answer(&self) -> OfficeAnswer
        ensures { AnswerIs (seen_at_seat self.now.at) self.now.question.person self.now.question.deed self.now.question.folio (answer_number result) }
    {
        let grants = self.has_path(Asks::Grants);
        let bans = self.has_path(Asks::Bans);
        OfficeAnswer::of(grants, bans)
    }

    // The rows of the best path from the person's row on, in front of lent words.
    fn path_rows(&self, d: &[u32], rows: &mut [u32])
        requires { WalkedBack self.now.at.sheet.words.now self.now.at.sheet.edges.now self.now.at.sheet.header self.now.at.seat self.now.question self.now.places.folio d.now × (0 < get_or d.now self.now.places.person 0) × (length rows.old ≡ max_nodes) }
        ensures { PathRows self.now.at.sheet.words.now self.now.at.sheet.header.nodes self.now.at.seat self.now.question (get_or d.now self.now.places.person 0) rows.new }
    {
        let walker = self.walker(Asks::from(self.question.kind));
        walker.write_path(d, self.places.person, rows);
    }

    // Question 3 where the question stands: 26 where there is no path, 25 where it is longer than the output.
    pub(crate) fn show_witness(&self, out: &mut [u32]) -> Result<Told, Refusal>
        ensures { Shows none (WitnessIs (seen_at_seat self.now.at) (side_of self.now.question.kind) self.now.question.person self.now.question.deed self.now.question.folio) out.old (answer_of result) out.new }
    {
        let to = self.places.folio;
        let mut d = walk::target(to);
        measure(&self.walker(Asks::from(self.question.kind)), to, &mut d);
        let n = d[self.places.person as usize];
        if n == 0 {
            return Err(Fault::NothingFound.into());
        }
        let mut rows = [0u32; ROWS];
        self.path_rows(&d, &mut rows);
        let m = n as usize;
        if out.len() < 2 * m {
            return Err(Fault::OutputShort.into());
        }
        write_nodes(&self.at.sheet, &rows[..m], out);
        Ok(Told {
            value: 0,
            count: 2 * n,
        })
    }
}
