// Two sheets combined row by row: at each identity and relation the marks that a rule makes of both sheets', and no row where it makes none.
#![tactic(auto)]

ghost use Rattle.std.specs.Prelude.{◌≡◌, ◌+◌, ◌-◌, ◌<◌, ◌≤◌, length};
ghost use Rattle.std.specs.Iterator.{at_most};
ghost use Rattle.tables.specs.Key.{below_key};
ghost use Rattle.sheet.specs.Limits.{max_nodes, max_edges, sheet_words};
ghost use Rattle.sheet.specs.Rows.{count_in, row_place};
ghost use Rattle.sheet.specs.Named.{row_at};
ghost use Rattle.sheet.specs.declared.Half.TheVariants.{Nodes, Edges};
ghost use Rattle.combine.specs.Rules.{makes, Safe};
ghost use Rattle.combine.specs.Halves.{through, spelled};
ghost use Rattle.combine.specs.Meets.{first_count, second_count, AreRows, StepFrom, Comes, marks_made, row_made, place_noted, rows_kept_in, SurveyedIn, WrittenIn};
ghost use Rattle.combine.specs.Made.{IsHalf, MeasuredAs, LaidAs, kept_of, PutsAs};

mod combination;
mod halves;
mod meeting;
mod merge;

pub use combination::Combination;
use halves::Halves;
use meeting::Meeting;
use merge::Merge;
use sheet::{Cells, Fault, Half, Sheet};

// What is made of the marks of two sheets at one key: the second's behind the first's offices, which the shift counts; those of a
// run of the first's offices, from the mark `low` on, as many as the span counts; or the marks of either.
#[derive(Clone, Copy)]
pub enum Rule {
    Beside(u32),
    Run(u32, u32),
    Either,
}

// What is made of two sheets: a rule for their nodes, one for their edges, and how many offices the marks are of that they make.
#[derive(Clone, Copy)]
pub struct Plan {
    pub nodes: Rule,
    pub edges: Rule,
    pub offices: u32,
}

// How many rows the combination of two sheets has.
#[derive(Clone, Copy)]
pub struct Measure {
    pub nodes: usize,
    pub edges: usize,
}

// One number for each node row that a sheet may have.
pub const ROWS: usize = sheet::MAX_NODES as usize;

// The places of both sheets' node rows in the combination.
#[derive(Drop)]
pub struct Places {
    pub first: [u32; ROWS],
    pub second: [u32; ROWS],
}

impl Rule {
    // The marks that the rule makes.
    fn made(self, x: u32, y: u32) -> u32
        requires { Safe self x y }
        ensures { result ≡ makes self x y }
    {
        match self {
            Rule::Beside(shift) => x + shift * y,
            Rule::Run(low, span) => x / low % span,
            Rule::Either => x | y,
        }
    }
}

// Whether a row of a half is lower than one of another sheet.
fn is_below(half: Half, first: &Sheet<'_>, i: usize, second: &Sheet<'_>, j: usize) -> bool
    requires { (i < count_in half first.now.header) × (j < count_in half second.now.header) }
    ensures { result ≡ below_key (row_at half first.now.words.now i).key (row_at half second.now.words.now j).key }
{
    match half {
        Half::Nodes => first.cells(Half::Nodes, i).key() < second.cells(Half::Nodes, j).key(),
        Half::Edges => first.is_below(i, second, j),
    }
}

// Notes a row's place, where there is a row and the map has it.
// Stays: an index behind a test, since the library's get_mut promises nothing of the element that is written.
fn note(spots: &mut [u32], row: Option<usize>, place: u32)
    ensures { spots.new ≡ place_noted spots.old row place }
{
    if let Some(i) = row
        && i < spots.len()
    {
        spots[i] = place;
    }
}

// A number's entry in a map, or the number itself where the map has none.
fn entry_of(spots: &[u32], x: u32) -> u32
    ensures { result ≡ through spots.now x }
{
    match spots.get(x as usize) {
        Some(place) => *place,
        None => x,
    }
}

// A row under other marks, its second and third word by a map.
fn under(spots: &[u32], c: Cells, marks: u32) -> Cells
    ensures { result ≡ spelled spots.now c marks }
{
    Cells {
        second: entry_of(spots, c.second),
        third: entry_of(spots, c.third),
        offices: marks,
        ..c
    }
}

impl<'a> Halves<'a> {
    // The next key after i rows of the first sheet and j of the second: the lower of the two next rows, or both where they are the same.
    fn step(&self, i: usize, j: usize) -> Option<Meeting>
        requires { (i ≤ first_count self.now) × (j ≤ second_count self.now) }
        ensures { StepFrom self.now i j result }
    {
        if self.first.count(self.half) <= i {
            if self.second.count(self.half) <= j {
                return None;
            }
            return Some(Meeting::Second(j));
        }
        if self.second.count(self.half) <= j {
            return Some(Meeting::First(i));
        }
        if is_below(self.half, self.first, i, self.second, j) {
            return Some(Meeting::First(i));
        }
        if is_below(self.half, self.second, j, self.first, i) {
            return Some(Meeting::Second(j));
        }
        Some(Meeting::Both(i, j))
    }

    // The keys of both sheets, lowest first.
    fn merge(&self) -> Merge<'_>
        ensures { (result.halves.now ≡ self.now) × (result.i ≡ 0) × (result.j ≡ 0) }
    {
        Merge {
            halves: self,
            i: 0,
            j: 0,
        }
    }

    // The marks that the rule makes at a step's key.
    fn marks(&self, step: Meeting) -> u32
        requires { AreRows self.now step }
        ensures { result ≡ marks_made self.now step }
    {
        let half = self.half;
        match step {
            Meeting::First(i) => self.rule.made(self.first.cells(half, i).offices, 0),
            Meeting::Second(j) => self.rule.made(0, self.second.cells(half, j).offices),
            Meeting::Both(i, j) => self.rule.made(
                self.first.cells(half, i).offices,
                self.second.cells(half, j).offices,
            ),
        }
    }

    // The row of the combination at a step's key: by the first sheet's words where that has one, and under the marks that the rule makes.
    fn row(&self, step: Meeting, firstplaces: &[u32], secondplaces: &[u32]) -> Cells
        requires { AreRows self.now step }
        ensures { result ≡ row_made self.now firstplaces.now secondplaces.now step }
    {
        let marks = self.marks(step);
        match step {
            Meeting::First(i) | Meeting::Both(i, _) => {
                under(firstplaces, self.first.cells(self.half, i), marks)
            }
            Meeting::Second(j) => under(secondplaces, self.second.cells(self.half, j), marks),
        }
    }

    // How many rows the combination of a half has, and the places of both sheets' rows in it, as far as the maps go.
    fn survey(&self, firstplaces: &mut [u32], secondplaces: &mut [u32]) -> usize
        ensures { SurveyedIn self.now firstplaces.new secondplaces.new result }
    {
        let mut kept: usize = 0;
        for step in self.merge() {
            note(firstplaces, step.first(), kept as u32);
            note(secondplaces, step.second(), kept as u32);
            kept += usize::from(0 < self.marks(step));
        }
        kept
    }

    // Writes the combination of a half to the front of a lent output, which has room for it; ends by the maps.
    fn write(&self, firstplaces: &[u32], secondplaces: &[u32], out: &mut [u32])
        requires { row_place self.now.half self.now.first.now.header.form (rows_kept_in self.now) ≤ length out.old }
        ensures { WrittenIn self.now firstplaces.now secondplaces.now out.old out.new }
    {
        let mut k: usize = 0;
        for step in self.merge() {
            let row = self.row(step, firstplaces, secondplaces);
            if 0 < row.offices {
                sheet::put_cells(self.half, out, self.first.header.form, k, row);
                k += 1;
            }
        }
    }
}

impl Iterator for Merge<'_> {
    type Item = Meeting;

    ghost next_gives = { λ s step t. (t.halves ≡ s.halves) × StepFrom s.halves.now s.i s.j step × Comes s.i s.j step t.i t.j };

    ghost remaining = { λ s. at_most (first_count s.halves.now + second_count s.halves.now - (s.i + s.j)) };

    fn next(&mut self) -> Option<Meeting> {
        let step = self.halves.step(self.i, self.j)?;
        match step {
            Meeting::First(i) => self.i = i + 1,
            Meeting::Second(j) => self.j = j + 1,
            Meeting::Both(i, j) => {
                self.i = i + 1;
                self.j = j + 1;
            }
        }
        Some(step)
    }
}

impl<'a> Combination<'a> {
    // One half of it.
    fn half(&self, half: Half) -> Halves<'a>
        ensures { IsHalf self.now half result }
    {
        Halves {
            first: self.first,
            second: self.second,
            half,
            rule: match half {
                Half::Nodes => self.plan.nodes,
                Half::Edges => self.plan.edges,
            },
        }
    }

    // How many rows the combination has, and in lent words the places of both sheets' node rows in it, as a search finds them.
    // Nothing is written yet, so that what is too much is known before.
    pub fn measure(&self, firstplaces: &mut [u32], secondplaces: &mut [u32]) -> Measure
        requires { (length firstplaces.old ≡ max_nodes) × (length secondplaces.old ≡ max_nodes) }
        ensures { MeasuredAs self.now firstplaces.new secondplaces.new result }
    {
        let nodes = self.half(Half::Nodes).survey(firstplaces, secondplaces);
        // nobody asks where an edge row stands
        let edges = self.half(Half::Edges).survey(&mut [], &mut []);
        Measure { nodes, edges }
    }

    // Writes the combination to the front of a lent output, which has room for it: the header, then the node rows; the output from
    // its edge offset onward is lent to the writer of the edge rows.
    pub fn lay(&self, firstplaces: &[u32], secondplaces: &[u32], m: Measure, out: &mut [u32])
        requires { MeasuredAs self.now firstplaces.now secondplaces.now m × (m.nodes ≤ max_nodes) × (m.edges ≤ max_edges self.now.first.now.header.form) × (sheet_words self.now.first.now.header.form m.nodes m.edges ≤ length out.old) }
        ensures { LaidAs self.now m out.old out.new }
    {
        let form = self.first.header.form;
        sheet::put_header(out, form, self.plan.offices, m.nodes as u32, m.edges as u32);
        self.half(Half::Nodes)
            .write(&[], &[], &mut out[sheet::HEADER_WORDS..]);
        let from = sheet::HEADER_WORDS + sheet::NODE_WORDS * m.nodes;
        self.half(Half::Edges)
            .write(firstplaces, secondplaces, &mut out[from..]);
    }

    // Puts the combination, whose rows are within a sheet's limits, to the front of a lent output: how many words it has.
    pub fn put(&self, out: &mut [u32]) -> Result<u32, Fault>
        requires { (kept_of self.now Nodes ≤ max_nodes) × (kept_of self.now Edges ≤ max_edges self.now.first.now.header.form) }
        ensures { PutsAs self.now out.old result out.new }
    {
        let mut places = Places {
            first: [0; ROWS],
            second: [0; ROWS],
        };
        let m = self.measure(&mut places.first, &mut places.second);
        let words = sheet::sheet_words(self.first.header.form, m.nodes, m.edges);
        if out.len() < words {
            return Err(Fault::OutputShort);
        }
        self.lay(&places.first, &places.second, m, out);
        Ok(words as u32)
    }
}
