// Questions 1 to 3: the answer at an office, the joint answer, and the witness.
#![tactic(auto)]

ghost use Rattle.std.specs.Prelude.{◌≡◌, false, ℕ, suc, ◌<◌, IfOk, IfErr, length, get_or};
ghost use Rattle.sheet.specs.Limits.{max_offices};
ghost use Rattle.sheet.specs.FaultNumbers.{fault_number};
ghost use Rattle.sheet.specs.Named.{seen_at};
ghost use Rattle.meaning.specs.Answers.{AnswerIs};
ghost use Rattle.question.specs.Asked.{known, unknown, ask_fault, after_sheet, seat_for};
ghost use Rattle.question.specs.Checked.{seen_at_seat};
ghost use Rattle.question.specs.Telling.{answer_of};
ghost use Rattle.ask.specs.Placed.{KnownRow, Placed};
ghost use Rattle.ask.specs.JointRules.{answer_number};
ghost use Rattle.ask.specs.Promises.{AnswersAtOffice, AnswersJointly, Witnesses};

mod joint;
mod stand;

use joint::JointRule;
pub use joint::OfficeAnswer;
use question::{Answer, OfficeSheet, Question, Told};
use sheet::{DEED, FOLIO, Fault, PERSON, Refusal, Sheet};
use stand::{PlacedRows, Stand};

// One answer for each office.
const OFFICES: usize = sheet::MAX_OFFICES as usize;

// The first row of a type and number that the office has, or any office where `any` says so; else the fault that it is missing.
fn known_row(
    at: &OfficeSheet<'_>,
    any: bool,
    class: u32,
    number: u32,
    missing: Fault,
) -> Result<u32, Fault>
    ensures ok { IfOk result (λ i. KnownRow at.now.sheet.words.now any at.now.seat.office class number i) }
    ensures err { IfErr result (λ f. (f ≡ missing) × (known at.now.sheet.words.now any at.now.seat.office class number ≡ false)) }
{
    match question::search(at, any, class, number) {
        Ok(row) => Ok(row as u32),
        Err(_) => Err(missing),
    }
}

// Where the question's person and folio stand, or whom the office, or each office where `any` says so, does not know: 21, 22, 23.
fn places_of(at: &OfficeSheet<'_>, any: bool, q: Question) -> Result<PlacedRows, Fault>
    ensures ok { IfOk result (λ p. (unknown at.now.sheet.words.now any at.now.seat.office q ≡ 0) × Placed at.now.sheet.words.now q p.person p.folio) }
    ensures err { IfErr result (λ f. fault_number f ≡ unknown at.now.sheet.words.now any at.now.seat.office q) }
{
    let person = known_row(at, any, PERSON, q.person, Fault::UnknownPerson)?;
    known_row(at, any, DEED, q.deed, Fault::UnknownDeed)?;
    let folio = known_row(at, any, FOLIO, q.folio, Fault::UnknownFolio)?;
    Ok(PlacedRows { person, folio })
}

// The question at its office, or what refuses it there: 20, then whom the office does not know.
fn stand_of<'a>(sheet: &Sheet<'a>, question: Question) -> Result<Stand<'a>, Fault>
    ensures ok { IfOk result (λ o. (o.at.sheet ≡ sheet.now) × (o.at.seat ≡ seat_for question) × (o.question ≡ question) × (ask_fault sheet.now.words.now question ≡ 0)) }
    ensures err { IfErr result (λ f. fault_number f ≡ ask_fault sheet.now.words.now question) }
{
    let at = question::take_seat(sheet, question.office)?;
    let places = places_of(&at, false, question)?;
    Ok(Stand {
        at,
        question,
        places,
    })
}

// The answer of the seat's office. An office that does not know the person, the deed or the folio is undetermined.
pub fn office_answer(at: &OfficeSheet<'_>, question: Question) -> OfficeAnswer
    ensures { AnswerIs (seen_at_seat at.now) question.person question.deed question.folio (answer_number result) }
{
    match places_of(at, false, question) {
        Ok(places) => {
            let stand = Stand {
                at: *at,
                question,
                places,
            };
            stand.answer()
        }
        Err(_) => OfficeAnswer::Undetermined,
    }
}

// The answers of the offices, in order.
fn answers_of(sheet: &Sheet<'_>, q: Question) -> [OfficeAnswer; OFFICES]
    ensures { (length result ≡ max_offices) × ((i : ℕ) → i < sheet.now.header.offices → AnswerIs (seen_at sheet.now.words.now (suc i)) q.person q.deed q.folio (answer_number (get_or result i OfficeAnswer.Undetermined))) }
{
    let mut answers = [OfficeAnswer::Undetermined; OFFICES];
    for k in 0..sheet.header.offices {
        let at = OfficeSheet {
            sheet: *sheet,
            seat: question::seat_at(k + 1),
        };
        answers[k as usize] = office_answer(&at, q);
    }
    answers
}

// Question 1, or what refuses it.
fn try_answer(words: &[u32], q: Question) -> Result<Told, Refusal>
    ensures { AnswersAtOffice (after_sheet words.now) words.now q (answer_of result) }
{
    let sheet = verdict::accept(1, words)?;
    let stand = stand_of(&sheet, q)?;
    Ok(Told {
        value: stand.answer().into(),
        count: 0,
    })
}

// Question 2, or what refuses it: its rule, or whom no office knows.
fn try_joint(words: &[u32], q: Question) -> Result<Told, Refusal>
    ensures { AnswersJointly (after_sheet words.now) words.now q (answer_of result) }
{
    let sheet = verdict::accept(1, words)?;
    let rule = JointRule::try_from(q.rule)?;
    let at = OfficeSheet {
        sheet,
        seat: question::seat_at(1),
    };
    places_of(&at, true, q)?;
    let answers = answers_of(&sheet, q);
    let n = sheet.header.offices as usize;
    Ok(joint::joint_of(&answers[..n], rule))
}

// Question 3, or what refuses it.
fn try_witness(words: &[u32], q: Question, out: &mut [u32]) -> Result<Told, Refusal>
    ensures { Witnesses words.now q out.old (answer_of result) out.new }
{
    let sheet = verdict::accept(1, words)?;
    let stand = stand_of(&sheet, q)?;
    stand.show_witness(out)
}

// Question 1, the answer at an office: 0 Undetermined, 1 Granted, 2 Banned, 3 Both, in `value`.
pub fn answer_at_office(sheet: &[u32], q: Question) -> Answer
    ensures { AnswersAtOffice (after_sheet sheet.now) sheet.now q result }
{
    Answer::from(try_answer(sheet, q))
}

// Question 2, the joint answer under rule 1, 2 or 3: the answer in `value`, the deciding office in `count`.
pub fn joint_answer(sheet: &[u32], q: Question) -> Answer
    ensures { AnswersJointly (after_sheet sheet.now) sheet.now q result }
{
    Answer::from(try_joint(sheet, q))
}

// Question 3, the witness of a grant or a ban: the path with fewest nodes, first in dictionary order, two words a node; how many words in `count`.
pub fn witness(sheet: &[u32], q: Question, out: &mut [u32]) -> Answer
    ensures { Witnesses sheet.now q out.old result out.new }
{
    Answer::from(try_witness(sheet, q, out))
}
