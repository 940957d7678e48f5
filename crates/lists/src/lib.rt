// Questions 5 to 10: the persons in a category, the holders of a right, the folios out of reach, the least triple that is Both, the least pair, and the redundant rows.
#![tactic(auto)]

ghost use Rattle.std.specs.Prelude.{◌≡◌, true, false, ◌&&◌, ◌<◌, ◌≤◌, length, take, Some};
ghost use Rattle.tables.specs.Marks.{marked};
ghost use Rattle.sheet.specs.Kinds.{person_type, deed_type};
ghost use Rattle.sheet.specs.Limits.{max_nodes, most_edges};
ghost use Rattle.sheet.specs.Refusals.{◌is◌, ◌when◌otherwise◌};
ghost use Rattle.sheet.specs.Rows.{node_at};
ghost use Rattle.walk.specs.Arcs.{walk_of};
ghost use Rattle.meaning.specs.Forms.{Rising};
ghost use Rattle.meaning.specs.Questions.{PersonsInCategoryAre, PersonsWithGrantAre, FoliosOutOfReachAre};
ghost use Rattle.question.specs.Asked.{after_sheet};
ghost use Rattle.question.specs.Checked.{seen_at_seat};
ghost use Rattle.question.specs.Replies.{Shows};
ghost use Rattle.question.specs.Telling.{answer_of};
ghost use Rattle.reach.specs.Finds.{Finds};
ghost use Rattle.reach.specs.Reaching.{Tells, Started};
ghost use Rattle.lists.specs.Handed.{Handed};
ghost use Rattle.lists.specs.Sought.{unknown_category, unknown_right, bad_pair, asked_fault, sought_fault, sought_is, fault_in, StandsOr, FindsOr};
ghost use Rattle.lists.specs.Promises.{ListsPersonsInCategory, ListsPersonsWithGrant, ListsFoliosOutOfReach, ShowsLeastTriple, ShowsLeastHolder, ListsRedundantEdges};
ghost use Rattle.lists.specs.Picked.{wanted, PickedNumber};
ghost use Rattle.lists.specs.ListWalks.{LeadsBy, PersonsReachBy, PersonLeadsBy, PersonsLeadBy};

mod asked;

use asked::AskedAt;
use question::{Answer, OfficeSheet, Question, Told};
use sheet::{CATEGORY, DEED, FOLIO, Fault, GRANT, Half, Node, PERSON, Refusal, Sheet};
use walk::{Tour, Walker};

// Which of the six questions is asked.
#[derive(Clone, Copy)]
enum Search {
    PersonsInCategory,
    PersonsWithGrant,
    FoliosOutOfReach,
    LeastTriple,
    LeastHolder,
    RedundantEdges,
}

// One number for each node row.
const ROWS: usize = sheet::MAX_NODES as usize;

// The longest list, one word for each edge row.
const LIST: usize = sheet::MAX_EDGES as usize;

// Whether a node row has the type and the office's mark, and its number v is some, or none, as `reached` asks for.
fn is_picked(at: &OfficeSheet<'_>, row: Node, class: u32, reached: bool, v: u32) -> bool
    ensures { result ≡ ((row.class is class) && (marked row.offices at.now.seat.office && wanted reached v)) }
{
    let good = (v != 0) == reached;
    let marked = sheet::bears(at.seat, row.offices);
    (row.class == class) & (marked & good)
}

// The numbers of the rows of a type that the office has and whose number in d is some, or none, rising; how many they are.
fn numbers_of(at: &OfficeSheet<'_>, class: u32, reached: bool, d: &[u32], list: &mut [u32]) -> u32
    requires { (class ≡ deed_type → ⊥) × (length d.now ≡ max_nodes) × (length list.old ≡ most_edges) }
    ensures { Finds (Rising (PickedNumber at.now.sheet.words.now at.now.sheet.header.nodes at.now.seat.office class reached d.now)) list.new (Some result) }
{
    let mut n = 0;
    for i in 0..at.sheet.count(Half::Nodes) {
        let row = at.sheet.node(i);
        let good = is_picked(at, row, class, reached, d[i]);
        n = reach::put(list, n, good, row.number);
    }
    n
}

// Whether the walk leads from a person's row to a row: 0 no, any other yes.
// Stays: 0 or a number, as a walk numbers rows, since `numbers_of` reads a walk's own numbers too.
fn person_reaches(tour: &Tour<'_>, from: u32, to: usize) -> u32
    requires { (from < tour.now.walker.sheet.header.nodes) × (to < tour.now.walker.sheet.header.nodes) }
    ensures { (node_at tour.now.walker.sheet.words.now from).class ≡ person_type → Tells result (LeadsBy tour.now.walker from to) }
{
    if tour.walker.sheet.node(from as usize).class != PERSON {
        return 0;
    }
    reach::person_reach(tour, from)[to]
}

// For each person's row, whether the walk leads from it to a row: 0 no, any other yes. The numbers are lent: those of a result of its
// own would be on the stack twice.
fn note_reaching(tour: &Tour<'_>, to: usize, reaching: &mut [u32])
    requires { (to < tour.now.walker.sheet.header.nodes) × (length reaching.old ≡ max_nodes) }
    ensures { PersonsReachBy tour.now.walker to reaching.new }
{
    for from in 0..tour.walker.sheet.header.nodes {
        reaching[from as usize] = person_reaches(tour, from, to);
    }
}

// The numbers of the office's persons from whose rows the grants' walk for a deed leads to a row, rising; how many they are. Inlined: its arrays then share their places on the stack.
#[inline(always)]
fn persons_to(at: &OfficeSheet<'_>, deed: u32, to: usize, list: &mut [u32]) -> u32
    requires { (to < at.now.sheet.header.nodes) × (length list.old ≡ most_edges) }
    ensures { Finds (Rising (PersonLeadsBy at.now (walk_of at.now.seat 3 deed) to)) list.new (Some result) }
{
    let walker = Walker {
        sheet: at.sheet,
        walk: walk::walk_of(at.seat, GRANT, deed),
    };
    let mut index = walk::blank_index();
    walker.arrange(&mut index);
    let tour = Tour {
        walker,
        index: &index,
    };
    let mut reaching = [0; ROWS];
    note_reaching(&tour, to, &mut reaching);
    numbers_of(at, PERSON, true, &reaching, list)
}

// Where a type and number that the office knows stands, or the fault that it does not know them.
fn row_of(at: &OfficeSheet<'_>, class: u32, number: u32, fault: Fault) -> Result<usize, Fault>
    ensures { StandsOr at.now class number fault result }
{
    match question::search(at, false, class, number) {
        Ok(row) => Ok(row),
        Err(_) => Err(fault),
    }
}

// Question 5: the persons in a category, or 24 where the office does not know it. Not inlined, nor the next: their arrays would be on the stack at once.
#[inline(never)]
fn persons_in_category_at(asked: &AskedAt<'_>, list: &mut [u32]) -> Result<Option<u32>, Fault>
    requires { length list.old ≡ most_edges }
    ensures { FindsOr (unknown_category asked.now.at.sheet.words.now asked.now.question) (PersonsInCategoryAre (seen_at_seat asked.now.at) asked.now.question.category) list.new result }
{
    let (at, q) = (&asked.at, asked.question);
    let to = row_of(at, CATEGORY, q.category, Fault::UnknownCategory)?;
    Ok(Some(persons_to(at, 0, to, list)))
}

// Question 6: the persons with a grant path for a deed and a folio, or 22, 23 where the office does not know the deed or the folio.
#[inline(never)]
fn persons_with_grant_at(asked: &AskedAt<'_>, list: &mut [u32]) -> Result<Option<u32>, Fault>
    requires { length list.old ≡ most_edges }
    ensures { FindsOr (unknown_right asked.now.at.sheet.words.now asked.now.question) (PersonsWithGrantAre (seen_at_seat asked.now.at) asked.now.question.deed asked.now.question.folio) list.new result }
{
    let (at, q) = (&asked.at, asked.question);
    row_of(at, DEED, q.deed, Fault::UnknownDeed)?;
    let to = row_of(at, FOLIO, q.folio, Fault::UnknownFolio)?;
    Ok(Some(persons_to(at, q.deed, to, list)))
}

// 1 at the persons' rows, 0 at every other row.
fn person_starts(sheet: &Sheet<'_>) -> [u32; ROWS]
    ensures { Started (λ i. (node_at sheet.now.words.now i).class is person_type) sheet.now.header.nodes result }
{
    let mut starts = [0; ROWS];
    for i in 0..sheet.count(Half::Nodes) {
        starts[i] = u32::from(sheet.node(i).class == PERSON);
    }
    starts
}

// For each row, whether the walk leads to it from some person's: 0 no, any other yes.
fn persons_lead(walker: &Walker<'_>) -> [u32; ROWS]
    ensures { PersonsLeadBy walker.now result }
{
    let mut rows = person_starts(&walker.sheet);
    walker.layers(&mut rows);
    rows
}

// Question 7: the folios to which no person has a grant path by any deed, rising; how many they are.
fn folios_out_of_reach_at(at: &OfficeSheet<'_>, list: &mut [u32]) -> u32
    requires { length list.old ≡ most_edges }
    ensures { Finds (FoliosOutOfReachAre (seen_at_seat at.now)) list.new (Some result) }
{
    let walker = Walker {
        sheet: at.sheet,
        walk: walk::walk_of(at.seat, GRANT, 0),
    };
    let led = persons_lead(&walker);
    numbers_of(at, FOLIO, false, &led, list)
}

// 31 where the two deeds are one.
fn same_deed(q: Question) -> Result<(), Fault>
    ensures { fault_in result ≡ (31 when q.deed is q.other otherwise 0) }
{
    if q.deed == q.other {
        return Err(Fault::EqualDeeds);
    }
    Ok(())
}

// What question 9 refuses: 22 where the office does not know one of the deeds, 31 where they are one.
fn deed_pair(asked: &AskedAt<'_>) -> Result<(), Fault>
    ensures { fault_in result ≡ bad_pair asked.now.at.sheet.words.now asked.now.question }
{
    let (at, q) = (&asked.at, asked.question);
    row_of(at, DEED, q.deed, Fault::UnknownDeed)?;
    row_of(at, DEED, q.other, Fault::UnknownDeed)?;
    same_deed(q)
}

// What a question finds at its office, as how many words in front of the list; none where there is nothing; or what refuses it.
// Stays: the list is lent and its count told, as `reach::put` says; there is no heap for a list of its own.
fn found(search: Search, asked: &AskedAt<'_>, list: &mut [u32]) -> Result<Option<u32>, Fault>
    requires { length list.old ≡ most_edges }
    ensures { FindsOr (asked_fault search asked.now.at.sheet.words.now asked.now.question) (sought_is search asked.now.at.sheet.words.now asked.now.question) list.new result }
{
    let at = &asked.at;
    match search {
        Search::PersonsInCategory => persons_in_category_at(asked, list),
        Search::PersonsWithGrant => persons_with_grant_at(asked, list),
        Search::FoliosOutOfReach => Ok(Some(folios_out_of_reach_at(at, list))),
        Search::LeastTriple => Ok(least::least_triple_at(at, list)),
        Search::LeastHolder => {
            deed_pair(asked)?;
            Ok(least::least_holder_at(at, asked.question, list))
        }
        Search::RedundantEdges => Ok(redundant::redundant_edges_at(at, list)),
    }
}

// Hands over the words that were found: 25 where the output is shorter.
fn hand_over(found: &[u32], out: &mut [u32]) -> Result<Told, Fault>
    requires { length found.now ≤ most_edges }
    ensures { Handed found.now out.old result out.new }
{
    let size = found.len();
    if out.len() < size {
        return Err(Fault::OutputShort);
    }
    out[..size].copy_from_slice(found);
    Ok(Told {
        value: 0,
        count: size as u32,
    })
}

// What a question tells of any words, or what refuses it: 26 where nothing is found.
fn try_sought(search: Search, words: &[u32], q: Question, out: &mut [u32]) -> Result<Told, Refusal>
    ensures { Shows (after_sheet words.now (sought_fault search words.now q)) (sought_is search words.now q) out.old (answer_of result) out.new }
{
    let sheet = verdict::accept(1, words)?;
    let at = question::take_seat(&sheet, q.office)?;
    let asked = AskedAt { at, question: q };
    let mut list = [0; LIST];
    let Some(count) = found(search, &asked, &mut list)? else {
        return Err(Fault::NothingFound.into());
    };
    Ok(hand_over(&list[..count as usize], out)?)
}

// Questions 5 to 10: each entry below is one.
fn sought(search: Search, sheet: &[u32], q: Question, out: &mut [u32]) -> Answer
    ensures { Shows (after_sheet sheet.now (sought_fault search sheet.now q)) (sought_is search sheet.now q) out.old result out.new }
{
    Answer::from(try_sought(search, sheet, q, out))
}

// Question 5, the numbers of the persons in a category, directly or through containment, rising; how many in `count`.
pub fn persons_in_category(sheet: &[u32], q: Question, out: &mut [u32]) -> Answer
    ensures { ListsPersonsInCategory sheet.now q out.old result out.new }
{
    sought(Search::PersonsInCategory, sheet, q, out)
}

// Question 6, the numbers of the persons who have a grant path for a deed and a folio, rising; how many in `count`.
pub fn persons_with_grant(sheet: &[u32], q: Question, out: &mut [u32]) -> Answer
    ensures { ListsPersonsWithGrant sheet.now q out.old result out.new }
{
    sought(Search::PersonsWithGrant, sheet, q, out)
}

// Question 7, the numbers of the folios to which no person has a grant path by any deed, rising; how many in `count`.
pub fn folios_out_of_reach(sheet: &[u32], q: Question, out: &mut [u32]) -> Answer
    ensures { ListsFoliosOutOfReach sheet.now q out.old result out.new }
{
    sought(Search::FoliosOutOfReach, sheet, q, out)
}

// Question 8, the least triple that is Both: person, deed and folio; 3 in `count`, 26 where there is none.
pub fn least_triple(sheet: &[u32], q: Question, out: &mut [u32]) -> Answer
    ensures { ShowsLeastTriple sheet.now q out.old result out.new }
{
    sought(Search::LeastTriple, sheet, q, out)
}

// Question 9, the least person and folio with a grant path for each of two deeds; 2 in `count`, 26 where there is none.
pub fn least_holder(sheet: &[u32], q: Question, out: &mut [u32]) -> Answer
    ensures { ShowsLeastHolder sheet.now q out.old result out.new }
{
    sought(Search::LeastHolder, sheet, q, out)
}

// Question 10, the rows of the edge table that are redundant at an office, by index from 0, rising; how many in `count`.
pub fn redundant_edges(sheet: &[u32], q: Question, out: &mut [u32]) -> Answer
    ensures { ListsRedundantEdges sheet.now q out.old result out.new }
{
    sought(Search::RedundantEdges, sheet, q, out)
}
