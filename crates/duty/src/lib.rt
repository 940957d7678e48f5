// The duty desk: a row put to a lent table of emergencies, and a whole trace, over a sheet that has an office 2.
#![tactic(auto)]

ghost use Rattle.std.specs.Prelude.{◌≡◌, ◌+◌, ◌≤◌, [], length, OnOk, IfOk, IfErr, Ok, Err};
ghost use Rattle.sheet.specs.Refusals.{none};
ghost use Rattle.sheet.specs.Named.{seen_at};
ghost use Rattle.question.specs.Telling.{answer_of};
ghost use Rattle.watch.specs.WatchTable.{told_row};
ghost use Rattle.watch.specs.Trace.{asks, question_in, run_from};
ghost use Rattle.duty.specs.Desk.{RowAnswer, desk_fault};
ghost use Rattle.duty.specs.Promises.{DeskSteps, Traces};
ghost use Rattle.duty.specs.Answering.{PutsAnswers, reply_of};

use ask::OfficeAnswer;
use question::{Answer, OfficeSheet, Question, Told};
use sheet::{Fault, Refusal, Sheet};
use watch::{TraceRow, Watch};

// What a step returns, and the table after it.
#[derive(Clone, Copy)]
pub struct SteppedTable {
    pub watch: Watch,
    pub answer: Answer,
}

// A refusal's number and place, or number 0 with how many answers were written. A trace may have any length, and so its count.
// Stays: a number that is 0 for none, since C takes this struct.
#[repr(C)]
#[derive(Clone, Copy, Default)]
pub struct TraceReply {
    pub number: u32,
    pub sheet: u32,
    pub row: u32,
    pub count: usize,
}

// A refusal as what a trace returns.
fn refused_trace(r: Refusal) -> TraceReply
    ensures { result ≡ reply_of (Err r) }
{
    TraceReply {
        number: r.number,
        sheet: r.sheet,
        row: r.row,
        ..TraceReply::default()
    }
}

// How many answers were written, or what refuses the trace. C takes one struct for both.
impl From<Result<usize, Refusal>> for TraceReply {
    ghost from_gives = { λ r a. a ≡ reply_of r };

    fn from(written: Result<usize, Refusal>) -> TraceReply {
        match written {
            Ok(count) => TraceReply {
                count,
                ..TraceReply::default()
            },
            Err(r) => refused_trace(r),
        }
    }
}

// The sheet of a duty desk: its own refusal, then 3 where there is no office 2.
fn desk_sheet<'a>(words: &'a [u32]) -> Result<Sheet<'a>, Refusal>
    ensures ok { OnOk result (desk_fault words.now ≡ none) }
    ensures words { IfOk result (λ s. s.words ≡ words.entry) }
    ensures err { IfErr result (λ r. (r ≡ desk_fault words.now) × (r.number ≡ 0 → ⊥)) }
{
    let sheet = verdict::accept(1, words)?;
    if sheet.header.offices < 2 {
        return Err(Fault::OfficeCount.at(1, 0));
    }
    Ok(sheet)
}

// The answer to a row's question that goes to so many offices: office 2, then office 1, or office 1 alone. No office is asked whose answer
// is not needed.
fn row_answer(sheet: &Sheet<'_>, row: TraceRow, offices: u32) -> u32
    requires { offices ≤ 2 }
    ensures { RowAnswer (seen_at sheet.now.words.now) row offices result }
{
    let q = Question {
        person: row.person,
        deed: row.deed,
        folio: row.folio,
        ..Question::default()
    };
    for office in (1..=offices).rev() {
        let at = OfficeSheet {
            sheet: *sheet,
            seat: question::seat_at(office),
        };
        let answer = ask::office_answer(&at, q);
        if answer != OfficeAnswer::Undetermined {
            return answer.into();
        }
    }
    OfficeAnswer::Undetermined.into()
}

// A row's words put to a table, which a refusal leaves as it was: the answer, and how many offices the question went to.
fn try_step(watch: &mut Watch, words: &[u32], timeout: u32, row: &[u32]) -> Result<Told, Refusal>
    ensures { DeskSteps words.now timeout row.now watch.old (answer_of result) watch.new }
{
    let sheet = desk_sheet(words)?;
    let count = watch::step_on(watch, timeout, row)?;
    let value = row_answer(&sheet, watch::read_row(row, 0), count);
    Ok(Told { value, count })
}

// A row's words put to any lent table, which a refused row leaves as it was: the answer in `value`, and in `count` how many offices the
// question went to.
pub fn step(watch: &mut Watch, sheet: &[u32], timeout: u32, row: &[u32]) -> Answer
    ensures { DeskSteps sheet.now timeout row.now watch.old result watch.new }
{
    Answer::from(try_step(watch, sheet, timeout, row))
}

// The same on a table that is given, and given back.
pub fn step_by_value(w: Watch, sheet: &[u32], timeout: u32, words: &[u32]) -> SteppedTable
    ensures { DeskSteps sheet.now timeout words.now w result.answer result.watch }
{
    let mut watch = w;
    let answer = step(&mut watch, sheet, timeout, words);
    SteppedTable { watch, answer }
}

// The same, by its other name.
// Stays: what may not change holds it, a public entry that docs/STATEMENTS.md names, beside `step_by_value`.
pub fn lend_and_step(w: Watch, sheet: &[u32], timeout: u32, row: &[u32]) -> SteppedTable
    ensures { DeskSteps sheet.now timeout row.now w result.answer result.watch }
{
    step_by_value(w, sheet, timeout, row)
}

// The answer to a row's question, where it goes to an office, written at a place of the output; the place after it.
// Stays: the place is handed on, since an iterator over the output's places would be no plainer: each row would have to ask whether one is left.
fn put_answer(sheet: &Sheet<'_>, row: TraceRow, offices: u32, at: usize, out: &mut [u32]) -> usize
    requires { (offices ≤ 2) × (at + asks (told_row (Ok offices)) ≤ length out.old) }
    ensures { (result ≡ at + asks (told_row (Ok offices))) × PutsAnswers (seen_at sheet.now.words.now) (question_in row (told_row (Ok offices))) out.old at out.new }
{
    if offices == 0 {
        return at;
    }
    out[at] = row_answer(sheet, row, offices);
    at + 1
}

// The answers of a trace that is not refused, where they fit.
fn put_answers(sheet: &Sheet<'_>, timeout: u32, rows: &[u32], out: &mut [u32])
    requires { ((run_from timeout [] rows.now).number ≡ 0) × (length (run_from timeout [] rows.now).questions ≤ length out.old) }
    ensures { PutsAnswers (seen_at sheet.now.words.now) (run_from timeout [] rows.now).questions out.old 0 out.new }
{
    let mut watch = watch::empty_watch();
    let mut count = 0;
    for words in rows.chunks_exact(5) {
        let row = watch::read_row(words, 0);
        // A refused row would ask nobody; here there is none.
        let offices = watch::advance(&mut watch, timeout, row).unwrap_or(0);
        count = put_answer(sheet, row, offices, count, out);
    }
}

// A whole trace: how many answers are written. Its rows are judged before any office is asked, since a refused trace writes nothing.
fn try_trace(words: &[u32], timeout: u32, rows: &[u32], out: &mut [u32]) -> Result<usize, Refusal>
    ensures { Traces words.now timeout rows.now out.old (reply_of result) out.new }
{
    let sheet = desk_sheet(words)?;
    let count = watch::count_questions(timeout, rows)?;
    if out.len() < count {
        return Err(Fault::OutputShort.into());
    }
    put_answers(&sheet, timeout, rows, out);
    Ok(count)
}

// A whole trace, with its own empty table: one word for each question row, at the front of the output.
pub fn trace(sheet: &[u32], timeout: u32, rows: &[u32], out: &mut [u32]) -> TraceReply
    ensures { Traces sheet.now timeout rows.now out.old result out.new }
{
    TraceReply::from(try_trace(sheet, timeout, rows, out))
}
