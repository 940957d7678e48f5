// The check: refusals 1 to 17 of any words, with their place.
#![tactic(auto)]

ghost use Rattle.std.specs.Prelude.{◌≡◌, ◌&&◌, ◌<◌, ◌≤◌, length, OnOk, IfOk, IfErr};
ghost use Rattle.tables.specs.Marks.{marks_fit, within};
ghost use Rattle.sheet.specs.FaultNumbers.{fault_number, number_in};
ghost use Rattle.sheet.specs.Limits.{max_offices};
ghost use Rattle.sheet.specs.Refusals.{first_row, none, refusal_told};
ghost use Rattle.sheet.specs.Rows.{header_of, node_at, edge_at, edge_table, ends_fit, count_in, row_key};
ghost use Rattle.sheet.specs.Verdict.{header_fault, sheet_fault, node_fault, row_order, node_fault_at, edge_shape, edge_fit, edge_fault_at, edge_fault, row_fault, verdict};
ghost use Rattle.verdict.specs.Each.{fault_at};
ghost use Rattle.sheet.specs.Accepted.{HeaderFits, EdgeRoom};

mod draft;

use draft::Draft;
use sheet::{
    APPLIES, BAN, CATEGORY, CONTAINED, Cells, DEED, Edge, FOLIO, Fault, GRANT, HEADER_WORDS, Half,
    Header, MAX_NODES, MAX_OFFICES, MEMBER, NODE_WORDS, Node, PERSON, Refusal, Sheet,
};
use std::cmp::Ordering;

// Whether marks are a sum of marks of offices within the count, not 0.
fn marks_fit(offices: u32, marks: u32) -> bool
    requires { offices ≤ max_offices }
    ensures { result ≡ marks_fit offices marks }
{
    0 < marks && marks < 1 << offices
}

// Whether each mark of the first sum is in the second.
fn marks_within(marks: u32, others: u32) -> bool
    ensures { result ≡ within marks others }
{
    marks & others == marks
}

// Whether the types of an edge's ends fit its kind.
fn ends_fit(kind: u32, from: u32, to: u32) -> bool
    ensures { result ≡ ends_fit kind from to }
{
    matches!(
        (kind, from, to),
        (MEMBER, PERSON, CATEGORY)
            | (CONTAINED, CATEGORY, CATEGORY)
            | (GRANT | BAN, CATEGORY, DEED)
            | (APPLIES, DEED, FOLIO)
    )
}

// 2 to 5, of the header of a sheet of `words` words.
fn check_header(h: Header, words: usize) -> Result<(), Fault>
    ensures { number_in result ≡ header_fault h words }
{
    if h.form != 1 {
        return Err(Fault::Form);
    }
    if !(1..=MAX_OFFICES).contains(&h.offices) {
        return Err(Fault::OfficeCount);
    }
    let most = sheet::max_edges(h.form);
    if MAX_NODES < h.nodes || most < h.edges {
        return Err(Fault::RowCount);
    }
    let nodes = h.nodes as usize;
    let edges_from = HEADER_WORDS + NODE_WORDS * nodes;
    let size = sheet::sheet_words(h.form, nodes, h.edges as usize);
    if h.nodeoffset as usize != HEADER_WORDS
        || h.edgeoffset as usize != edges_from
        || words != size
    {
        return Err(Fault::Layout);
    }
    Ok(())
}

// Row i beside the row before it: one fault where both are the same but for their offices, another where this one is lower.
fn check_order(i: usize, before: Cells, row: Cells, equal: Fault, lower: Fault) -> Result<(), Fault>
    ensures { number_in result ≡ row_order (fault_number equal) (fault_number lower) i (row_key before) (row_key row) }
{
    if i == 0 {
        return Ok(());
    }
    match row.key().cmp(&before.key()) {
        Ordering::Equal => Err(equal),
        Ordering::Less => Err(lower),
        Ordering::Greater => Ok(()),
    }
}

impl<'a> Draft<'a> {
    // 1 to 5, or the words as a draft.
    fn of(words: &'a [u32]) -> Result<Draft<'a>, Fault>
        ensures told { number_in result ≡ sheet_fault words.now }
        ensures ok { IfOk result (λ d. (d.words ≡ words.entry) × (d.edges.now ≡ edge_table words.now) × (d.header ≡ header_of words.now)) }
    {
        if words.len() < HEADER_WORDS {
            return Err(Fault::TooFewWords);
        }
        let header = sheet::header_of(words);
        check_header(header, words.len())?;
        Ok(Draft {
            words,
            edges: sheet::edge_table(words, header),
            header,
        })
    }

    // Node row i.
    fn read_node(&self, i: usize) -> Node
        requires { i < self.now.header.nodes }
        ensures { result ≡ node_at self.now.words.now i }
    {
        sheet::node_at(self.words, i)
    }

    // Edge row j.
    fn read_edge(&self, j: usize) -> Edge
        requires { j < self.now.header.edges }
        ensures { result ≡ edge_at self.now.header self.now.edges.now j }
    {
        sheet::edge_at(self.edges, self.header, j)
    }

    // 6 to 8, of a node row by itself.
    fn check_lone_node(&self, r: Node) -> Result<(), Fault>
        ensures { number_in result ≡ node_fault self.now.header r }
    {
        if !(PERSON..=FOLIO).contains(&r.class) {
            return Err(Fault::NodeType);
        }
        if r.number == 0 || r.class != DEED && r.variant != 0 {
            return Err(Fault::NodeNumber);
        }
        if !marks_fit(self.header.offices, r.offices) {
            return Err(Fault::NodeOffices);
        }
        Ok(())
    }

    // 11 and 12, of an edge row by itself.
    fn check_shape(&self, e: Edge) -> Result<(), Fault>
        ensures { number_in result ≡ edge_shape self.now.header e }
    {
        if !(MEMBER..=APPLIES).contains(&e.kind) {
            return Err(Fault::EdgeKind);
        }
        if self.header.nodes <= e.from || self.header.nodes <= e.to {
            return Err(Fault::EdgeEnd);
        }
        Ok(())
    }

    // Whether an edge's offices are offices of the sheet, and both its ends have them too.
    fn offices_fit(&self, e: Edge, from: Node, to: Node) -> bool
        ensures { result ≡ (marks_fit self.now.header.offices e.offices && (within e.offices from.offices && within e.offices to.offices)) }
    {
        marks_fit(self.header.offices, e.offices)
            && marks_within(e.offices, from.offices)
            && marks_within(e.offices, to.offices)
    }

    // 13 to 15, of an edge row with the nodes at its ends.
    fn check_ends(&self, e: Edge, from: Node, to: Node) -> Result<(), Fault>
        ensures { number_in result ≡ edge_fit self.now.header e from to }
    {
        if !ends_fit(e.kind, from.class, to.class) {
            return Err(Fault::EndTypes);
        }
        if e.kind == CONTAINED && e.from == e.to {
            return Err(Fault::WithinItself);
        }
        if !self.offices_fit(e, from, to) {
            return Err(Fault::EdgeOffices);
        }
        Ok(())
    }

    // 11 to 15, of an edge row by itself; its ends are named by rows of the draft.
    fn check_lone_edge(&self, e: Edge) -> Result<(), Fault>
        ensures { number_in result ≡ edge_fault self.now.words.now self.now.header e }
    {
        self.check_shape(e)?;
        let from = self.read_node(e.from as usize);
        let to = self.read_node(e.to as usize);
        self.check_ends(e, from, to)
    }

    // 6 to 10, of node row i.
    fn check_node(&self, i: usize) -> Result<(), Fault>
        requires { i < self.now.header.nodes }
        ensures { number_in result ≡ node_fault_at self.now.words.now self.now.header i }
    {
        let r = self.read_node(i);
        self.check_lone_node(r)?;
        let before = self.read_node(i.saturating_sub(1));
        check_order(
            i,
            before.into(),
            r.into(),
            Fault::NodeRepeated,
            Fault::NodeOrder,
        )
    }

    // 11 to 17, of edge row j.
    fn check_edge(&self, j: usize) -> Result<(), Fault>
        requires { j < self.now.header.edges }
        ensures { number_in result ≡ edge_fault_at self.now.words.now self.now.edges.now self.now.header j }
    {
        let e = self.read_edge(j);
        self.check_lone_edge(e)?;
        let before = self.read_edge(j.saturating_sub(1));
        check_order(
            j,
            before.into(),
            e.into(),
            Fault::EdgeRepeated,
            Fault::EdgeOrder,
        )
    }

    // What is wrong with a row by itself that is no row of the draft yet: 6 to 8 of a node row, 11 to 15 of an edge row.
    fn check_lone(&self, half: Half, c: Cells) -> Result<(), Fault>
        ensures { number_in result ≡ row_fault half self.now.words.now self.now.header c }
    {
        match half {
            Half::Nodes => self.check_lone_node(c.into()),
            Half::Edges => self.check_lone_edge(c.into()),
        }
    }

    // 6 to 10 of a node row, 11 to 17 of an edge row.
    #[tactic(auto, unfolding(crate::specs::Each::fault_at))]
    fn check_row(&self, half: Half, i: usize) -> Result<(), Fault>
        requires { i < count_in half self.now.header }
        ensures { number_in result ≡ fault_at self.now.words.now self.now.edges.now self.now.header half i }
    {
        match half {
            Half::Nodes => self.check_node(i),
            Half::Edges => self.check_edge(i),
        }
    }

    // The first row of a half that has a fault, of the sheet that the caller counts as `place`. Inlined, so that the check takes the stack
    // that it took as one function.
    #[inline(always)]
    fn check_half(&self, place: u32, half: Half) -> Result<(), Refusal>
        ensures told { refusal_told result ≡ first_row place (fault_at self.now.words.now self.now.edges.now self.now.header half) 0 (count_in half self.now.header) }
        ensures err { IfErr result (λ r. r.number ≡ 0 → ⊥) }
    {
        for i in 0..sheet::count_in(half, self.header) {
            if let Err(fault) = self.check_row(half, i) {
                return Err(fault.at(place, i as u32));
            }
        }
        Ok(())
    }
}

// The sheet that words are, or what refuses them as the sheet that the caller counts as `place`: the first number of 1 to 17 that applies.
pub fn accept<'a>(place: u32, words: &'a [u32]) -> Result<Sheet<'a>, Refusal>
    ensures ok { OnOk result (verdict place words.now ≡ none) }
    ensures words { IfOk result (λ s. s.words ≡ words.entry) }
    ensures err { IfErr result (λ r. (r ≡ verdict place words.now) × (r.number ≡ 0 → ⊥)) }
{
    let draft = match Draft::of(words) {
        Ok(draft) => draft,
        Err(fault) => return Err(fault.at(place, 0)),
    };
    draft.check_half(place, Half::Nodes)?;
    draft.check_half(place, Half::Edges)?;
    Ok(Sheet {
        words,
        edges: draft.edges,
        header: draft.header,
    })
}

// The verdict on any words, as the sheet that the caller counts as `place`: the first number of 1 to 17 that applies, or none.
pub fn check_as(place: u32, sheet: &[u32]) -> Refusal
    ensures { result ≡ verdict place sheet.now }
{
    match accept(place, sheet) {
        Ok(_) => Refusal::default(),
        Err(refusal) => refusal,
    }
}

// The verdict on any words where there is one sheet.
pub fn check(sheet: &[u32]) -> Refusal
    ensures { result ≡ verdict 1 sheet.now }
{
    check_as(1, sheet)
}

// What is wrong with a row by itself that is no row of the sheet yet: 6 to 8 of a node row, 11 to 15 of an edge row.
// Stays: words and header apart, since it promises its result where no more than the header fits.
pub fn row_fault(half: Half, sheet: &[u32], h: Header, c: Cells) -> Result<(), Fault>
    requires { HeaderFits h (length sheet.now) }
    ensures { number_in result ≡ row_fault half sheet.now h c }
{
    let from = h.edgeoffset as usize;
    let draft = Draft {
        words: sheet,
        edges: &sheet[from..],
        header: h,
    };
    draft.check_lone(half, c)
}

// The same of a sheet that passed the check.
pub fn check_row(sheet: &Sheet<'_>, half: Half, c: Cells) -> Result<(), Fault>
    ensures { number_in result ≡ row_fault half sheet.now.words.now sheet.now.header c }
{
    row_fault(half, sheet.words, sheet.header, c)
}
