// A listing: the rows of a one-office sheet as lines that people can type. Reading a text, and writing a sheet.
#![tactic(auto)]

mod ordered;
mod table;
mod writing;

ghost use Rattle.std.specs.Prelude.{◌≡◌, ◌+◌, ◌-◌, ◌*◌, ◌<◌, ◌≤◌, ◌==◌, length, drop, position, IfOk};
ghost use Rattle.std.proofs.lemmas.List.Edits.{sets};
ghost use Rattle.sheet.specs.FaultNumbers.{fault_number};
ghost use Rattle.sheet.specs.Found.{FirstAt};
ghost use Rattle.sheet.specs.Limits.{max_nodes, max_edges, sheet_words};
ghost use Rattle.sheet.specs.Rows.{row_place};
ghost use Rattle.lines.specs.Naming.{line_key, same_line};
ghost use Rattle.lines.specs.LineTold.{line_told};
ghost use Rattle.sorting.specs.Sorted.{most_sorted, four_of};
ghost use Rattle.listing.specs.Cut.{lines_said, line_at};
ghost use Rattle.listing.specs.Faults.{says_this};
ghost use Rattle.listing.specs.LineByLine.{TakesLine, fault_told, own_fault, LooksThrough, InTable, lacks_end};
ghost use Rattle.listing.specs.Laying.{first_edge, line_in, PlaceOfLine, CellsFor, RowsLaid, SheetLaid, ReadsGood};
ghost use Rattle.listing.specs.ListingTold.{listing_of, listing_told};
ghost use Rattle.listing.specs.Promises.{ReadsListing};

use lines::Line;
use ordered::Ordered;
use sheet::{Cells, Fault, Half, Refusal};
use sorting::Four;
use table::LineTable;
pub use writing::write_listing;

// Four words for each line that is sorted.
const TABLE: usize = 4 * sorting::MOST;

// A refusal's number and place, or number 0 with how many words or bytes were written. A line's number has the width of the text's
// length, as a text may have any.
// Stays: a number that is 0 for none, since C takes this struct.
#[repr(C)]
#[derive(Clone, Copy)]
pub struct Listing {
    pub number: u32,
    pub sheet: u32,
    pub row: usize,
    pub count: usize,
}

// What refuses a text, and which line; 0 where it is none of them.
#[derive(Clone, Copy)]
struct TextRefusal {
    fault: Fault,
    line: usize,
}

// A line of a text or its fault, and where the next one starts.
#[derive(Clone, Copy)]
struct Taken {
    line: Result<Line, Fault>,
    next: usize,
}

// How many lines have no fault of their own, and the fault of the line behind them, where there is one.
#[derive(Clone, Copy)]
struct FirstFault {
    count: usize,
    fault: Option<Fault>,
}

impl From<Fault> for TextRefusal {
    ghost from_gives = { λ f r. r ≡ record { fault = f; line = 0 } };

    fn from(fault: Fault) -> TextRefusal {
        TextRefusal { fault, line: 0 }
    }
}

// C takes one struct for what was written and what refuses it.
impl From<Result<usize, TextRefusal>> for Listing {
    ghost from_gives = { λ r a. a ≡ listing_told r };

    fn from(read: Result<usize, TextRefusal>) -> Listing {
        match read {
            Ok(count) => rows_counted(count),
            Err(refused) => refused_at(refused.fault.number(), 0, refused.line),
        }
    }
}

impl From<Result<usize, Refusal>> for Listing {
    ghost from_gives = { λ r a. a ≡ listing_of r };

    fn from(written: Result<usize, Refusal>) -> Listing {
        match written {
            Ok(count) => rows_counted(count),
            Err(r) => refused_at(r.number, r.sheet, r.row as usize),
        }
    }
}

// So many words or bytes were written.
fn rows_counted(count: usize) -> Listing
    ensures { result ≡ record { number = 0; sheet = 0; row = 0; count = count } }
{
    Listing {
        number: 0,
        sheet: 0,
        row: 0,
        count,
    }
}

// Nothing was written, for this.
fn refused_at(number: u32, sheet: u32, row: usize) -> Listing
    ensures { result ≡ record { number = number; sheet = sheet; row = row; count = 0 } }
{
    Listing {
        number,
        sheet,
        row,
        count: 0,
    }
}

// How long the first line of a text is, if a line feed ends it.
fn line_length(text: &[u8]) -> Option<usize>
    ensures { result ≡ position (λ b. b == 10) text.now }
{
    text.iter().position(|b| *b == b'\n')
}

// The line that starts at `at`.
fn take_line(text: &[u8], at: usize) -> Taken
    requires { at < length text.now }
    ensures { TakesLine text.now at result }
{
    match line_length(&text[at..]) {
        Some(length) => Taken {
            line: lines::try_read(&text[at..at + length]),
            next: at + length + 1,
        },
        None => Taken {
            line: Err(Fault::UnlikeLine),
            next: text.len(),
        },
    }
}

// A line's fault by itself.
fn own_fault(line: Result<Line, Fault>) -> Option<Fault>
    requires { IfOk line (λ l. l.fault ≡ 0) }
    ensures { fault_told result ≡ own_fault (line_told line) }
{
    match line {
        Err(fault) => Some(fault),
        Ok(l) => {
            if lines::is_within_itself(l) {
                Some(Fault::WithinItself)
            } else {
                None
            }
        }
    }
}

// The lines up to the first that has a fault of its own.
fn look_through(text: &[u8]) -> FirstFault
    ensures { LooksThrough (lines_said text.now) result }
{
    // Stays: no range or iterator of the library goes over lines, and a line tells where the next one starts.
    let mut count = 0;
    let mut at = 0;
    while at < text.len() {
        let taken = take_line(text, at);
        let fault = own_fault(taken.line);
        if fault.is_some() {
            return FirstFault { count, fault };
        }
        at = taken.next;
        count += 1;
    }
    FirstFault { count, fault: None }
}

// The words by which lines are sorted.
fn four_of(l: Line) -> Four
    ensures { four_of result ≡ line_key l }
{
    Four {
        first: l.form,
        second: l.first,
        third: l.second,
        fourth: l.third,
    }
}

// Stores a line's words as row i of a table.
fn put_four(rows: &mut [u32], i: usize, l: Line)
    requires { 4 * i + 4 ≤ length rows.old }
    ensures { rows.new ≡ sets rows.old (4 * i) (line_key l) }
{
    let at = 4 * i;
    rows[at] = l.form;
    rows[at + 1] = l.first;
    rows[at + 2] = l.second;
    rows[at + 3] = l.third;
}

// Stores the first lines in a table.
fn fill_table(text: &[u8], count: usize, rows: &mut [u32])
    requires { (count ≤ length (lines_said text.now)) × (4 * count ≤ length rows.old) }
    ensures { InTable (lines_said text.now) count rows.new }
{
    let mut at = 0;
    for i in 0..count {
        let taken = take_line(text, at);
        put_four(rows, i, Line::from(taken.line));
        at = taken.next;
    }
}

// The first of the first lines that says this. This looks at every line, for a text of too many.
fn seek_line(text: &[u8], count: usize, l: Line) -> Option<usize>
    requires { count ≤ length (lines_said text.now) }
    ensures { FirstAt (λ j. same_line (line_at (lines_said text.now) j) l) count result }
{
    let mut at = 0;
    for i in 0..count {
        let taken = take_line(text, at);
        if lines::same_line(Line::from(taken.line), l) {
            return Some(i);
        }
        at = taken.next;
    }
    None
}

impl LineTable<'_, '_> {
    // The first line that says this: by the order, where the lines are few enough to be sorted.
    fn line_with(&self, l: Line) -> Option<usize>
        ensures { FirstAt (λ j. same_line (line_at (lines_said self.now.text.now) j) l) self.now.count result }
    {
        if sorting::MOST < self.count {
            return seek_line(self.text, self.count, l);
        }
        sorting::first_of(self.lines.rows, self.lines.order, four_of(l))
    }

    // The first line that repeats an earlier one.
    fn first_repeated(&self) -> Option<usize>
        ensures { FirstAt (λ i. says_this (lines_said self.now.text.now) i (line_at (lines_said self.now.text.now) i)) self.now.count result }
    {
        let mut at = 0;
        for i in 0..self.count {
            let taken = take_line(self.text, at);
            let first = self.line_with(Line::from(taken.line)).unwrap_or(i);
            if first < i {
                return Some(i);
            }
            at = taken.next;
        }
        None
    }

    // Whether an end of a line has no node line.
    fn lacks_end(&self, l: Line) -> bool
        ensures { result ≡ lacks_end (lines_said self.now.text.now) self.now.count l }
    {
        if lines::is_node_line(l) {
            return false;
        }
        if self.line_with(lines::from_line(l)).is_none() {
            return true;
        }
        self.line_with(lines::to_line(l)).is_none()
    }

    // The first line an end of which has no node line.
    fn first_lacking(&self) -> Option<usize>
        ensures { FirstAt (λ i. lacks_end (lines_said self.now.text.now) self.now.count (line_at (lines_said self.now.text.now) i)) self.now.count result }
    {
        let mut at = 0;
        for i in 0..self.count {
            let taken = take_line(self.text, at);
            if self.lacks_end(Line::from(taken.line)) {
                return Some(i);
            }
            at = taken.next;
        }
        None
    }
}

impl Ordered<'_> {
    // The line at a place in the order.
    fn line_in(&self, p: usize) -> Line
        requires { p < length self.now.order.now }
        ensures { result ≡ line_in self.now.rows.now self.now.order.now p }
    {
        let w = sorting::four_in(self.rows, self.order, p);
        Line {
            fault: 0,
            form: w.first,
            first: w.second,
            second: w.third,
            third: w.fourth,
        }
    }

    // The place of a line in the order: its row's number.
    fn row_of(&self, l: Line) -> u32
        ensures { PlaceOfLine self.now.rows.now self.now.order.now l result }
    {
        sorting::place_in_order(self.rows, self.order, four_of(l)) as u32
    }

    // The words of the row that the line at a place makes.
    fn cells_of(&self, half: Half, p: usize) -> Cells
        requires { p < length self.now.order.now }
        ensures { CellsFor half self.now.rows.now self.now.order.now (line_in self.now.rows.now self.now.order.now p) result }
    {
        let l = self.line_in(p);
        match half {
            Half::Nodes => Cells {
                first: l.form,
                second: l.first,
                third: l.second,
                offices: 1,
            },
            Half::Edges => {
                let kind = lines::kind_named(l);
                let from = self.row_of(lines::from_line(l));
                let to = self.row_of(lines::to_line(l));
                Cells {
                    first: kind,
                    second: from,
                    third: to,
                    offices: 1,
                }
            }
        }
    }

    // Lays the rows of so many lines from a place on to the front of a table, which has room for them.
    fn lay_rows(&self, half: Half, from: usize, count: usize, table: &mut [u32])
        requires { (from + count ≤ length self.now.order.now) × (row_place half 1 count ≤ length table.old) }
        ensures { RowsLaid half self.now.rows.now self.now.order.now from count table.old table.new }
    {
        for k in 0..count {
            let c = self.cells_of(half, from + k);
            sheet::put_cells(half, table, 1, k, c);
        }
    }

    // Lays the sheet of n node lines and the edge lines behind them to the front of an output, which has room for it.
    fn lay_sheet(&self, n: usize, out: &mut [u32])
        requires { (n ≤ max_nodes) × (n ≤ length self.now.order.now) × (length self.now.order.now ≤ n + max_edges 1) × (sheet_words 1 n (length self.now.order.now - n) ≤ length out.old) }
        ensures { SheetLaid self.now.rows.now self.now.order.now n (length self.now.order.now - n) out.old out.new }
    {
        let e = self.order.len() - n;
        sheet::put_header(out, 1, 1, n as u32, e as u32);
        self.lay_rows(Half::Nodes, 0, n, &mut out[sheet::HEADER_WORDS..]);
        let from = sheet::HEADER_WORDS + sheet::NODE_WORDS * n;
        self.lay_rows(Half::Edges, n, e, &mut out[from..]);
    }

    // Lays the sheet of `count` lines that have no fault: 4 where they are too many, 25 where the output is shorter. The result is how
    // many words it has.
    fn read_good(&self, count: usize, out: &mut [u32]) -> Result<usize, Fault>
        requires { count ≤ most_sorted → length self.now.order.now ≡ count }
        ensures { ReadsGood count self.now.rows.now self.now.order.now out.old result out.new }
    {
        if sorting::MOST < count {
            return Err(Fault::RowCount);
        }
        let n = sorting::place_in_order(self.rows, self.order, first_edge());
        let e = count - n;
        if (sheet::MAX_NODES as usize) < n {
            return Err(Fault::RowCount);
        }
        if (sheet::max_edges(1) as usize) < e {
            return Err(Fault::RowCount);
        }
        let size = sheet::sheet_words(1, n, e);
        if out.len() < size {
            return Err(Fault::OutputShort);
        }
        self.lay_sheet(n, out);
        Ok(size)
    }
}

// No edge line has lower words, and every node line has.
fn first_edge() -> Four
    ensures { four_of result ≡ first_edge }
{
    Four {
        first: 5,
        second: 0,
        third: 0,
        fourth: 0,
    }
}

// The sheet of a text whose lines have no fault of their own, but for the line behind them: 42, then that line's, then 43.
fn read_sorted(
    table: &LineTable<'_, '_>,
    fault: Option<Fault>,
    out: &mut [u32],
) -> Result<usize, TextRefusal>
    requires { LooksThrough (lines_said table.now.text.now) (record { count = table.now.count; fault = fault }) }
    ensures { ReadsListing table.now.text.now out.old (listing_told result) out.new }
{
    if let Some(line) = table.first_repeated() {
        return Err(TextRefusal {
            fault: Fault::LineRepeated,
            line,
        });
    }
    if let Some(fault) = fault {
        return Err(TextRefusal {
            fault,
            line: table.count,
        });
    }
    if let Some(line) = table.first_lacking() {
        return Err(TextRefusal {
            fault: Fault::EndMissing,
            line,
        });
    }
    Ok(table.lines.read_good(table.count, out)?)
}

// How many lines are sorted: all, or none where they are too many.
fn sorted_count(count: usize) -> usize
    ensures { (result ≤ most_sorted) × (result ≤ count) × (count ≤ most_sorted → result ≡ count) }
{
    if sorting::MOST < count { 0 } else { count }
}

// The same with lent memory: the first lines are put into a table and sorted.
fn read_through(
    text: &[u8],
    first: FirstFault,
    rows: &mut [u32],
    order: &mut [u32],
    out: &mut [u32],
) -> Result<usize, TextRefusal>
    requires { LooksThrough (lines_said text.now) first × (4 * most_sorted ≤ length rows.old) × (most_sorted ≤ length order.old) }
    ensures { ReadsListing text.now out.old (listing_told result) out.new }
{
    let m = sorted_count(first.count);
    fill_table(text, m, rows);
    sorting::sort(rows, &mut order[..m]);
    let rows: &[u32] = rows;
    let order = &order[..m];
    let lines = Ordered { rows, order };
    let table = LineTable {
        text,
        count: first.count,
        lines,
    };
    read_sorted(&table, first.fault, out)
}

// Reads any text as a listing: how many words the sheet has in `count`.
pub fn read_listing(text: &[u8], out: &mut [u32]) -> Listing
    ensures { ReadsListing text.now out.old result out.new }
{
    let first = look_through(text);
    let mut rows = [0u32; TABLE];
    let mut order = [0u32; sorting::MOST];
    Listing::from(read_through(text, first, &mut rows, &mut order, out))
}
