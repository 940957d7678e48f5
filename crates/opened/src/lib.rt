// The opened sheet: the caller's words held in a struct, and asked many questions. Each question checks the words again.
#![tactic(auto)]

ghost use Rattle.std.specs.Prelude.{◌≡◌};
ghost use Rattle.sheet.specs.Rows.{word, header_of};
ghost use Rattle.claim.specs.Promises.{TellsPath};
ghost use Rattle.opened.specs.Asking.{question_of, Promised};

use question::{Answer, Question};
use sheet::Header;

// A sheet that was opened: the caller's words, and the counts that its header names. No question looks at the counts.
#[derive(Clone, Copy)]
pub struct Opened<'a> {
    pub words: &'a [u32],
    pub nodes: u32,
    pub edges: u32,
}

// Which question is asked: all but question 4, which is asked of a list.
#[derive(Clone, Copy)]
pub enum Which {
    AnswerAtOffice,
    JointAnswer,
    Witness,
    PersonsInCategory,
    PersonsWithGrant,
    FoliosOutOfReach,
    LeastTriple,
    LeastHolder,
    RedundantEdges,
}

// The word at a place; 0 where there are too few words.
fn word_or_zero(words: &[u32], i: usize) -> u32
    ensures { result ≡ word words.now i }
{
    words.get(i).copied().unwrap_or(0)
}

// The header that the words begin with; 0 for each word that is not there.
#[tactic(auto, unfolding(sheet::specs::Rows::header_of))]
fn header_named(words: &[u32]) -> Header
    ensures { result ≡ header_of words.now }
{
    Header {
        form: word_or_zero(words, 0),
        offices: word_or_zero(words, 1),
        nodes: word_or_zero(words, 2),
        edges: word_or_zero(words, 3),
        nodeoffset: word_or_zero(words, 4),
        edgeoffset: word_or_zero(words, 5),
    }
}

// A question of bare words. Questions 1 and 2 leave the output as it was.
#[tactic(auto, unfolding(crate::specs::Asking::question_of, crate::specs::Asking::Promised))]
fn ask_words(sheet: &[u32], which: Which, q: Question, out: &mut [u32]) -> Answer
    ensures { Promised (question_of which) sheet.now q out.old result out.new }
{
    match which {
        Which::AnswerAtOffice => ask::answer_at_office(sheet, q),
        Which::JointAnswer => ask::joint_answer(sheet, q),
        Which::Witness => ask::witness(sheet, q, out),
        Which::PersonsInCategory => lists::persons_in_category(sheet, q, out),
        Which::PersonsWithGrant => lists::persons_with_grant(sheet, q, out),
        Which::FoliosOutOfReach => lists::folios_out_of_reach(sheet, q, out),
        Which::LeastTriple => lists::least_triple(sheet, q, out),
        Which::LeastHolder => lists::least_holder(sheet, q, out),
        Which::RedundantEdges => lists::redundant_edges(sheet, q, out),
    }
}

// Opens a sheet. Nothing is refused, and nothing is checked: each question does that.
pub fn open(words: &[u32]) -> Opened<'_>
    ensures { (result.words ≡ words.entry) × (result.nodes ≡ (header_of words.now).nodes) × (result.edges ≡ (header_of words.now).edges) }
{
    let h = header_named(words);
    Opened {
        words,
        nodes: h.nodes,
        edges: h.edges,
    }
}

impl Opened<'_> {
    // Any question but question 4: what the bare words answer, whatever the counts say.
    pub fn ask(self, which: Which, q: Question, out: &mut [u32]) -> Answer
        ensures { Promised (question_of which) self.entry.words.now q out.old result out.new }
    {
        ask_words(self.words, which, q, out)
    }

    // Question 4: what the bare words answer, whatever the counts say.
    pub fn is_path(self, q: Question, list: &[u32]) -> Answer
        ensures { TellsPath self.entry.words.now q list.now result }
    {
        claim::is_path(self.words, q, list)
    }
}

// Opens a sheet and asks it one question, for callers that hold no opened sheet.
pub fn open_and_ask(sheet: &[u32], which: Which, q: Question, out: &mut [u32]) -> Answer
    ensures { Promised (question_of which) sheet.now q out.old result out.new }
{
    open(sheet).ask(which, q, out)
}
