// The counter: what a program in C or Rust calls. Questions 1 to 3 and the check are asked of a file's bytes, and every other function of a sheet's words.
#![tactic(auto)]

ghost use Rattle.std.specs.Prelude.{◌≡◌, [], ◌∷◌, length, IfOk, IfErr};
ghost use Rattle.tables.specs.Key.{identity};
ghost use Rattle.sheet.specs.Refusals.{none, refuse, Writes};
ghost use Rattle.sheet.specs.Verdict.{verdict};
ghost use Rattle.files.specs.Bytes.{words_of, bytes_of, bytes_fault, bytes_verdict};
ghost use Rattle.question.specs.Asked.{ask_fault, after_sheet};
ghost use Rattle.question.specs.Replies.{Shows};
ghost use Rattle.lookup.specs.Looked.{look_fault, PlacesIdentity};
ghost use Rattle.join.specs.Joins.{Joining};
ghost use Rattle.takeout.specs.Promises.{TakesOut};
ghost use Rattle.join_files.specs.JoinedFiles.{JoinsFiles};
ghost use Rattle.ask.specs.Promises.{AnswersAtOffice, AnswersJointly, WitnessOf, Witnesses};
ghost use Rattle.claim.specs.Promises.{TellsPath};
ghost use Rattle.lists.specs.Promises.{ListsPersonsInCategory, ListsPersonsWithGrant, ListsFoliosOutOfReach, ShowsLeastTriple, ShowsLeastHolder, ListsRedundantEdges};
ghost use Rattle.sheet.specs.declared.Half.TheVariants.{Nodes, Edges};
ghost use Rattle.find.specs.Promises.{TellsPlace};
ghost use Rattle.add.specs.Adding.{AddsNode, AddsEdge};
ghost use Rattle.duty.specs.Promises.{DeskSteps, Traces};
ghost use Rattle.lines.specs.Nine.{said};
ghost use Rattle.listing.specs.Promises.{ReadsListing, WritesListing};
ghost use Rattle.counter.specs.Filed.{asking, seeking, after_file, InBytes};

use duty::TraceReply;
use join::Joined;
use lines::Line;
use listing::Listing;
use question::{Answer, Question, Told};
use sheet::{Edge, MAX_WORDS, Node, Refusal};
use watch::Watch;

// No witness is longer: a person, a deed and a folio, and categories, each with a row of its own.
const PATH_WORDS: usize = 2 * (sheet::MAX_NODES as usize + 3);

// The words of a file's bytes, at the front of the words lent: 33 where it is no sheet's file, 25 where they don't fit.
pub fn tormukai_words_of_file(file: &[u8], out: &mut [u32]) -> Refusal
    ensures { Writes (refuse (bytes_fault (length file.now)) 1 0 none) (words_of file.now) out.old result out.new }
{
    match files::bytes_fault(file.len()) {
        Ok(()) => files::decode(file, out),
        Err(fault) => fault.at(1, 0),
    }
}

// The words of a file's bytes, in lent words that have room for any sheet: refused by 33 alone.
fn read<'a>(file: &[u8], words: &'a mut [u32; MAX_WORDS]) -> Result<&'a [u32], Refusal>
    ensures ok { IfOk result (λ s. (s.now ≡ words_of file.now) × (bytes_fault (length file.now) ≡ 0)) }
    ensures err { IfErr result (λ r. (r ≡ refuse (bytes_fault (length file.now)) 1 0 none) × (r.number ≡ 0 → ⊥)) }
{
    let refusal = tormukai_words_of_file(file, words);
    if refusal.number != 0 {
        return Err(refusal);
    }
    Ok(&words[..file.len() / 4])
}

// Question 1 of a file's bytes, the answer at an office: 0 Undetermined, 1 Granted, 2 Banned, 3 Both, in `value`.
pub fn tormukai_answer(file: &[u8], office: u32, person: u32, deed: u32, folio: u32) -> Answer
    ensures { AnswersAtOffice (after_file file.now) (words_of file.now) (asking office 0 0 person deed folio) result }
{
    let mut words = [0u32; MAX_WORDS];
    match read(file, &mut words) {
        Ok(sheet) => tormukai_sheet_answer(sheet, office, person, deed, folio),
        Err(refusal) => Answer::from(refusal),
    }
}

// Question 2 of a file's bytes, the joint answer under rule 1, 2 or 3: the answer in `value`, the deciding office in `count`.
pub fn tormukai_joint_answer(file: &[u8], rule: u32, person: u32, deed: u32, folio: u32) -> Answer
    ensures { AnswersJointly (after_file file.now) (words_of file.now) (asking 0 rule 0 person deed folio) result }
{
    let mut words = [0u32; MAX_WORDS];
    match read(file, &mut words) {
        Ok(sheet) => tormukai_sheet_joint_answer(sheet, rule, person, deed, folio),
        Err(refusal) => Answer::from(refusal),
    }
}

// What questions 3 and 4 ask: for a grant or a ban of a person's deed on a folio, at an office.
fn office_question(office: u32, kind: u32, person: u32, deed: u32, folio: u32) -> Question
    ensures { result ≡ asking office 0 kind person deed folio }
{
    Question {
        office,
        kind,
        person,
        deed,
        folio,
        ..Question::default()
    }
}

// Question 3 of words, with the path in bytes.
// Stays: the C interface, by which the question and the writer of bytes tell a refusal by its number in C's structs.
fn witness_bytes(sheet: &[u32], q: Question, out: &mut [u8]) -> Answer
    ensures { Shows (after_sheet sheet.now (ask_fault sheet.now q)) (InBytes (WitnessOf sheet.now q)) out.old result out.new }
{
    let mut path = [0u32; PATH_WORDS];
    let a = ask::witness(sheet, q, &mut path);
    if a.number != 0 {
        return a;
    }
    let n = a.count as usize;
    let r = files::encode(&path[..n], out);
    if r.number != 0 {
        return Answer::from(r);
    }
    Answer::from(Told {
        value: 0,
        count: 4 * a.count,
    })
}

// Question 3 of a file's bytes, the witness of a grant (kind 0) or a ban (any other), in bytes, low byte first; how many in `count`.
pub fn tormukai_witness(
    file: &[u8],
    office: u32,
    kind: u32,
    person: u32,
    deed: u32,
    folio: u32,
    out: &mut [u8],
) -> Answer
    ensures { Shows (after_file file.now (ask_fault (words_of file.now) (asking office 0 kind person deed folio))) (InBytes (WitnessOf (words_of file.now) (asking office 0 kind person deed folio))) out.old result out.new }
{
    let mut words = [0u32; MAX_WORDS];
    match read(file, &mut words) {
        Ok(sheet) => witness_bytes(
            sheet,
            office_question(office, kind, person, deed, folio),
            out,
        ),
        Err(refusal) => Answer::from(refusal),
    }
}

// The bytes of words, as they stand in a file, at the front of the bytes lent: 25 where they don't fit.
pub fn tormukai_file_of_words(sheet: &[u32], out: &mut [u8]) -> Refusal
    ensures { Writes none (bytes_of sheet.now) out.old result out.new }
{
    files::encode(sheet, out)
}

// The verdict on a file's bytes: 33, then 1 to 17 of its words, or none.
pub fn tormukai_check_file(file: &[u8]) -> Refusal
    ensures { result ≡ bytes_verdict 1 file.now }
{
    files::check_bytes(file)
}

// The verdict on a sheet's words: 1 to 17, or none.
pub fn tormukai_check(sheet: &[u32]) -> Refusal
    ensures { result ≡ verdict 1 sheet.now }
{
    verdict::check(sheet)
}

// Question 1 of words, the answer at an office, in `value`.
pub fn tormukai_sheet_answer(
    sheet: &[u32],
    office: u32,
    person: u32,
    deed: u32,
    folio: u32,
) -> Answer
    ensures { AnswersAtOffice (after_sheet sheet.now) sheet.now (asking office 0 0 person deed folio) result }
{
    let q = Question {
        office,
        person,
        deed,
        folio,
        ..Question::default()
    };
    ask::answer_at_office(sheet, q)
}

// Question 2 of words, the joint answer under a rule: the answer in `value`, the deciding office in `count`.
pub fn tormukai_sheet_joint_answer(
    sheet: &[u32],
    rule: u32,
    person: u32,
    deed: u32,
    folio: u32,
) -> Answer
    ensures { AnswersJointly (after_sheet sheet.now) sheet.now (asking 0 rule 0 person deed folio) result }
{
    let q = Question {
        rule,
        person,
        deed,
        folio,
        ..Question::default()
    };
    ask::joint_answer(sheet, q)
}

// Question 3 of words, the witness of a grant (kind 0) or a ban (any other), two words a node; how many words in `count`.
pub fn tormukai_sheet_witness(
    sheet: &[u32],
    office: u32,
    kind: u32,
    person: u32,
    deed: u32,
    folio: u32,
    out: &mut [u32],
) -> Answer
    ensures { Witnesses sheet.now (asking office 0 kind person deed folio) out.old result out.new }
{
    let q = office_question(office, kind, person, deed, folio);
    ask::witness(sheet, q, out)
}

// Question 4, whether a list of words is some grant (kind 0) or ban path: 1 yes, 0 no, in `value`.
pub fn tormukai_is_path(
    sheet: &[u32],
    office: u32,
    kind: u32,
    person: u32,
    deed: u32,
    folio: u32,
    list: &[u32],
) -> Answer
    ensures { TellsPath sheet.now (asking office 0 kind person deed folio) list.now result }
{
    let q = office_question(office, kind, person, deed, folio);
    claim::is_path(sheet, q, list)
}

// Question 5, the numbers of the persons in a category, rising; how many in `count`.
pub fn tormukai_persons_in_category(
    sheet: &[u32],
    office: u32,
    category: u32,
    out: &mut [u32],
) -> Answer
    ensures { ListsPersonsInCategory sheet.now (seeking office category 0 0 0) out.old result out.new }
{
    let q = Question {
        office,
        category,
        ..Question::default()
    };
    lists::persons_in_category(sheet, q, out)
}

// Question 6, the numbers of the persons with a grant path for a deed and folio, rising; how many in `count`.
pub fn tormukai_persons_with_grant(
    sheet: &[u32],
    office: u32,
    deed: u32,
    folio: u32,
    out: &mut [u32],
) -> Answer
    ensures { ListsPersonsWithGrant sheet.now (seeking office 0 deed 0 folio) out.old result out.new }
{
    let q = Question {
        office,
        deed,
        folio,
        ..Question::default()
    };
    lists::persons_with_grant(sheet, q, out)
}

// Question 7, the numbers of the folios to which no person has a grant path, rising; how many in `count`.
pub fn tormukai_folios_out_of_reach(sheet: &[u32], office: u32, out: &mut [u32]) -> Answer
    ensures { ListsFoliosOutOfReach sheet.now (seeking office 0 0 0 0) out.old result out.new }
{
    let q = Question {
        office,
        ..Question::default()
    };
    lists::folios_out_of_reach(sheet, q, out)
}

// Question 8, the least person, deed and folio that are Both: three words.
pub fn tormukai_least_triple(sheet: &[u32], office: u32, out: &mut [u32]) -> Answer
    ensures { ShowsLeastTriple sheet.now (seeking office 0 0 0 0) out.old result out.new }
{
    let q = Question {
        office,
        ..Question::default()
    };
    lists::least_triple(sheet, q, out)
}

// Question 9, the least person and folio with a grant path for each of two deeds: two words.
pub fn tormukai_least_holder(
    sheet: &[u32],
    office: u32,
    deed: u32,
    other: u32,
    out: &mut [u32],
) -> Answer
    ensures { ShowsLeastHolder sheet.now (seeking office 0 deed other 0) out.old result out.new }
{
    let q = Question {
        office,
        deed,
        other,
        ..Question::default()
    };
    lists::least_holder(sheet, q, out)
}

// Question 10, the redundant edge rows, rising; how many in `count`.
pub fn tormukai_redundant_edges(sheet: &[u32], office: u32, out: &mut [u32]) -> Answer
    ensures { ListsRedundantEdges sheet.now (seeking office 0 0 0 0) out.old result out.new }
{
    let q = Question {
        office,
        ..Question::default()
    };
    lists::redundant_edges(sheet, q, out)
}

// Joins two one-office sheets into one of two offices.
pub fn tormukai_join(first: &[u32], second: &[u32], out: &mut [u32]) -> Joined
    ensures { Joining first.now second.now out.old result out.new }
{
    join::join(first, second, out)
}

// Joins the files of two one-office sheets into the file of their two-office sheet.
pub fn tormukai_join_files(first: &[u8], second: &[u8], out: &mut [u8]) -> Joined
    ensures { JoinsFiles first.now second.now out.old result out.new }
{
    join_files::join_files(first, second, out)
}

// Takes one office's sheet out of a sheet; how many words in `count`.
pub fn tormukai_take_out(sheet: &[u32], office: u32, out: &mut [u32]) -> Answer
    ensures { TakesOut sheet.now office out.old result out.new }
{
    takeout::take_out(sheet, office, out)
}

// Which of two sheets has an identity, first before second, in `value`, and at which node row in `count`.
pub fn tormukai_look_up(
    first: &[u32],
    second: &[u32],
    class: u32,
    number: u32,
    variant: u32,
) -> Answer
    ensures { PlacesIdentity first.now second.now (identity class number variant) result }
{
    lookup::look_up_place(first, second, class, number, variant)
}

// The number and place by which looking an identity up in two sheets is refused; 0 throughout where it is found.
pub fn tormukai_look_up_refusal(
    first: &[u32],
    second: &[u32],
    class: u32,
    number: u32,
    variant: u32,
) -> Refusal
    ensures { result ≡ look_fault first.now second.now (identity class number variant) }
{
    lookup::look_up_refusal(first, second, class, number, variant)
}

// Whether a node stands in a sheet, 1 yes and 0 no in `value`, and the row at which it stands or would stand in `count`.
pub fn tormukai_find_node(sheet: &[u32], class: u32, number: u32, variant: u32) -> Answer
    ensures { TellsPlace Nodes sheet.now (identity class number variant) result }
{
    find::find_node(sheet, class, number, variant)
}

// Whether an edge stands in a sheet, its ends by node rows, and the row at which it stands or would stand.
pub fn tormukai_find_edge(sheet: &[u32], kind: u32, from: u32, to: u32) -> Answer
    ensures { TellsPlace Edges sheet.now (kind ∷ from ∷ to ∷ []) result }
{
    find::find_edge(sheet, kind, from, to)
}

// Adds a node row to a sheet: the row at which it stands in `value`, how many words in `count`.
pub fn tormukai_add_node(
    sheet: &[u32],
    class: u32,
    number: u32,
    variant: u32,
    offices: u32,
    out: &mut [u32],
) -> Answer
    ensures { AddsNode sheet.now (record { class = class; number = number; variant = variant; offices = offices }) out.old result out.new }
{
    let row = Node {
        class,
        number,
        variant,
        offices,
    };
    add::add_node(sheet, row, out)
}

// Adds an edge row to a sheet, its ends by node rows of that sheet.
pub fn tormukai_add_edge(
    sheet: &[u32],
    kind: u32,
    from: u32,
    to: u32,
    offices: u32,
    out: &mut [u32],
) -> Answer
    ensures { AddsEdge sheet.now (record { kind = kind; from = from; to = to; offices = offices }) out.old result out.new }
{
    let row = Edge {
        kind,
        from,
        to,
        offices,
    };
    add::add_edge(sheet, row, out)
}

// What one line of a listing says, without its line feed.
pub fn tormukai_read_line(line: &[u8]) -> Line
    ensures { result ≡ said line.now }
{
    lines::read_line(line)
}

// Reads a text as a listing into a one-office sheet: how many words in `count`. A line is told by its number, from 0, in `row`.
pub fn tormukai_read_listing(text: &[u8], out: &mut [u32]) -> Listing
    ensures { ReadsListing text.now out.old result out.new }
{
    listing::read_listing(text, out)
}

// Writes a one-office sheet as a listing: how many bytes in `count`.
pub fn tormukai_write_listing(sheet: &[u32], out: &mut [u8]) -> Listing
    ensures { WritesListing sheet.now out.old result out.new }
{
    listing::write_listing(sheet, out)
}

// Puts a row of a trace to the duty desk's table: the answer in `value`, and in `count` how many offices its question went to. A refused row leaves the table as it was.
pub fn tormukai_step(watch: &mut Watch, sheet: &[u32], timeout: u32, row: &[u32]) -> Answer
    ensures { DeskSteps sheet.now timeout row.now watch.old result watch.new }
{
    duty::step(watch, sheet, timeout, row)
}

// A whole trace of the duty desk, with its own empty table: one answer for each question; how many in `count`.
pub fn tormukai_trace(sheet: &[u32], timeout: u32, rows: &[u32], out: &mut [u32]) -> TraceReply
    ensures { Traces sheet.now timeout rows.now out.old result out.new }
{
    duty::trace(sheet, timeout, rows, out)
}
