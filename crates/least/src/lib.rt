// Questions 8 and 9 at an office: the least triple that is Both, and the least person and folio with two deeds.
#![tactic(auto)]

ghost use Rattle.std.specs.Prelude.{◌≡◌, true, false, ◌&&◌, not, ◌<◌, ◌≤◌, length, take};
ghost use Rattle.sheet.specs.Limits.{max_nodes, most_edges};
ghost use Rattle.sheet.specs.Found.{FirstAt};
ghost use Rattle.meaning.specs.Questions.{LeastTripleIs, LeastHolderIs};
ghost use Rattle.question.specs.Checked.{seen_at_seat};
ghost use Rattle.reach.specs.Finds.{Finds};
ghost use Rattle.reach.specs.Toured.{Prepared};
ghost use Rattle.least.specs.Least.{starting, DeedStarts, RowsBy, common, deed_in, repeated, FirstRow, PairRows, Hits};

use question::{OfficeSheet, Question};
use reach::Rights;
use sheet::{BAN, DEED, FOLIO, GRANT, Node, PERSON, Sheet};
use walk::Tour;

// One number for each node row.
const ROWS: usize = sheet::MAX_NODES as usize;

// Whether a deed row of the number is marked by v.
#[tactic(auto, unfolding(crate::specs::Least::starting))]
fn is_start(r: Node, v: u32, number: u32) -> bool
    ensures { result ≡ starting r v number }
{
    (r.class == DEED) & ((r.number == number) & (v != 0))
}

// 1 at the deed rows of a number that are marked in d, 0 at every other row. Not inlined: its array would be on the stack beside the walk's.
#[inline(never)]
fn deed_starts(sheet: &Sheet<'_>, d: &[u32], number: u32) -> [u32; ROWS]
    requires { length d.now ≡ max_nodes }
    ensures { DeedStarts sheet.now.words.now sheet.now.header.nodes d.now number result }
{
    let mut starts = [0u32; ROWS];
    for i in 0..sheet.header.nodes {
        let at = i as usize;
        starts[at] = u32::from(is_start(sheet.node(at), d[at], number));
    }
    starts
}

// For each row, whether a deed row of the number that is marked in d leads to it: 0 no, any other yes.
fn rows_by_deed(tour: &Tour<'_>, d: &[u32], number: u32) -> [u32; ROWS]
    requires { length d.now ≡ max_nodes }
    ensures { RowsBy tour.now.walker d.now number result }
{
    let mut rows = deed_starts(&tour.walker.sheet, d, number);
    tour.run(&mut rows);
    rows
}

// Whether a row is a deed's and has a number in d.
#[tactic(auto, unfolding(crate::specs::Least::deed_in))]
fn is_deed_in(sheet: &Sheet<'_>, d: &[u32], x: u32) -> bool
    requires { (length d.now ≡ max_nodes) × (x < sheet.now.header.nodes) }
    ensures { result ≡ deed_in sheet.now.words.now d.now x }
{
    let at = x as usize;
    (sheet.node(at).class == DEED) & (d[at] != 0)
}

// Whether the row before is a deed's of the same number that has a number in d.
#[tactic(auto, unfolding(crate::specs::Least::repeated))]
fn is_repeated(sheet: &Sheet<'_>, d: &[u32], x: u32) -> bool
    requires { (length d.now ≡ max_nodes) × (x < sheet.now.header.nodes) }
    ensures { result ≡ repeated sheet.now.words.now d.now x }
{
    if x == 0 {
        return false;
    }
    let y = x - 1;
    if !is_deed_in(sheet, d, y) {
        return false;
    }
    sheet.node(y as usize).number == sheet.node(x as usize).number
}

// Whether a row is a deed's that has a number in d, and does not repeat the row before: the deed's number decides, so that a sheet of many variants costs no more turns.
fn is_new_deed(sheet: &Sheet<'_>, d: &[u32], x: u32) -> bool
    requires { (length d.now ≡ max_nodes) × (x < sheet.now.header.nodes) }
    ensures { result ≡ (deed_in sheet.now.words.now d.now x && not (repeated sheet.now.words.now d.now x)) }
{
    is_deed_in(sheet, d, x) && !is_repeated(sheet, d, x)
}

// Whether a row is a folio's and has a number in both.
#[tactic(auto, unfolding(crate::specs::Least::common))]
fn is_common(sheet: &Sheet<'_>, one: &[u32], two: &[u32], f: usize) -> bool
    requires { (length one.now ≡ max_nodes) × (length two.now ≡ max_nodes) × (f < sheet.now.header.nodes) }
    ensures { result ≡ common sheet.now.words.now one.now two.now f }
{
    one[f] != 0 && (two[f] != 0) & (sheet.node(f).class == FOLIO)
}

// The first folio row that has a number in both.
fn first_common(sheet: &Sheet<'_>, one: &[u32], two: &[u32]) -> Option<usize>
    requires { (length one.now ≡ max_nodes) × (length two.now ≡ max_nodes) }
    ensures { FirstAt (common sheet.now.words.now one.now two.now) sheet.now.header.nodes result }
{
    for f in 0..sheet.header.nodes as usize {
        if is_common(sheet, one, two, f) {
            return Some(f);
        }
    }
    None
}

// The first folio row that the person of a row has by both deeds; a row that is no person's has none.
fn pair_folio(at: &OfficeSheet<'_>, grants: &Tour<'_>, q: Question, i: u32) -> Option<usize>
    requires { Prepared at.now 3 grants.now × (i < at.now.sheet.header.nodes) }
    ensures { FirstRow (PairRows at.now.sheet.words.now at.now.seat q.deed q.other i) at.now.sheet.header.nodes result }
{
    if at.sheet.node(i as usize).class != PERSON {
        return None;
    }
    let d = reach::person_reach(grants, i);
    let one = rows_by_deed(grants, &d, q.deed);
    let two = rows_by_deed(grants, &d, q.other);
    first_common(&at.sheet, &one, &two)
}

// The least pair in row order, which is that of the numbers.
fn first_pair(at: &OfficeSheet<'_>, grants: &Tour<'_>, q: Question) -> Option<[u32; 2]>
    requires { Prepared at.now 3 grants.now }
    ensures { Hits (LeastHolderIs (seen_at_seat at.now) q.deed q.other) result }
{
    for i in 0..at.sheet.header.nodes {
        if let Some(f) = pair_folio(at, grants, q, i) {
            let person = at.sheet.node(i as usize).number;
            return Some([person, at.sheet.node(f).number]);
        }
    }
    None
}

// Puts words in front of a list. How many they are.
fn put_words(words: &[u32], list: &mut [u32]) -> u32
    requires { (length words.now ≤ length list.old) × (length list.old ≡ most_edges) }
    ensures { (length list.new ≡ most_edges) × (result ≡ length words.now) × (take result list.new ≡ words.now) }
{
    list[..words.len()].copy_from_slice(words);
    words.len() as u32
}

// Question 9 from the seat: the least (person, folio) with a grant path for each of two deeds, as two words.
pub fn least_holder_at(at: &OfficeSheet<'_>, q: Question, list: &mut [u32]) -> Option<u32>
    requires { length list.old ≡ most_edges }
    ensures { Finds (LeastHolderIs (seen_at_seat at.now) q.deed q.other) list.new result }
{
    let mut index = walk::blank_index();
    let grants = reach::tour_of(*at, GRANT, &mut index);
    let words = first_pair(at, &grants, q)?;
    Some(put_words(&words, list))
}

// The least triple in row order, which is that of the numbers: a later row of a deed's number has no more than its first.
// Stays: two loops over the persons, here and in `first_pair`; one that takes what is tried as a closure would be no plainer, as its
// contract would say again what `pair_folio` says.
fn first_both(rights: &Rights<'_, '_, '_>) -> Option<[u32; 3]>
    ensures { Hits (LeastTripleIs (seen_at_seat rights.now.at)) result }
{
    let sheet = &rights.at.sheet;
    let n = sheet.header.nodes;
    for i in 0..n {
        let person = sheet.node(i as usize);
        if person.class != PERSON {
            continue;
        }
        let d = reach::person_reach(&rights.grants, i);
        let e = reach::person_reach(&rights.bans, i);
        for x in 0..n {
            if !is_new_deed(sheet, &d, x) {
                continue;
            }
            let deed = sheet.node(x as usize).number;
            let one = rows_by_deed(&rights.grants, &d, deed);
            let two = rows_by_deed(&rights.bans, &e, deed);
            if let Some(f) = first_common(sheet, &one, &two) {
                return Some([person.number, deed, sheet.node(f).number]);
            }
        }
    }
    None
}

// Question 8 from the seat: the least (person, deed, folio) that is Both, as three words.
pub fn least_triple_at(at: &OfficeSheet<'_>, list: &mut [u32]) -> Option<u32>
    requires { length list.old ≡ most_edges }
    ensures { Finds (LeastTripleIs (seen_at_seat at.now)) list.new result }
{
    let mut grantindex = walk::blank_index();
    let mut banindex = walk::blank_index();
    let rights = Rights {
        at: *at,
        grants: reach::tour_of(*at, GRANT, &mut grantindex),
        bans: reach::tour_of(*at, BAN, &mut banindex),
    };
    let words = first_both(&rights)?;
    Some(put_words(&words, list))
}
