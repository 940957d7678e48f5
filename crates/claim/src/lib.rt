// Question 4: whether a list of words, claimed to be a grant or ban path, is one.
#![tactic(auto)]

ghost use Rattle.std.specs.Prelude.{◌≡◌, ◌+◌, ◌*◌, ◌<◌, ◌≤◌, length, get_or};
ghost use Rattle.tables.specs.Key.{relation};
ghost use Rattle.sheet.specs.Rows.{row_key};
ghost use Rattle.meaning.specs.Paths.{member, step, carries, is_path};
ghost use Rattle.question.specs.Sides.{side};
ghost use Rattle.question.specs.Asked.{side_of};
ghost use Rattle.question.specs.Checked.{seen_at_seat};
ghost use Rattle.question.specs.Telling.{answer_of};
ghost use Rattle.claim.specs.Listed.{has_second, framed, way_from, goes_on};
ghost use Rattle.claim.specs.Promises.{TellsPath};

use question::{Answer, Asks, OfficeSheet, Question, Told};
use sheet::{APPLIES, CATEGORY, CONTAINED, Cells, DEED, FOLIO, Half, MEMBER, PERSON, Refusal};

// Whether a relation of a kind between two identities is seen from the seat: both are looked for, then the edge row between their rows.
fn is_related(at: &OfficeSheet<'_>, kind: u32, a: Cells, b: Cells) -> bool
    ensures { result ≡ (seen_at_seat at.now).edge (relation kind (row_key a) (row_key b)) }
{
    let Ok(from) = at.sheet.find(Half::Nodes, a) else {
        return false;
    };
    let Ok(to) = at.sheet.find(Half::Nodes, b) else {
        return false;
    };
    let wanted = sheet::named(kind, from as u32, to as u32);
    let Ok(row) = at.sheet.find(Half::Edges, wanted) else {
        return false;
    };
    sheet::counts(at.seat, at.sheet.edge(row))
}

// Whether the person is a member of the category.
fn is_member(at: &OfficeSheet<'_>, p: u32, c: u32) -> bool
    ensures { result ≡ member (seen_at_seat at.now) p c }
{
    let a = sheet::named(PERSON, p, 0);
    let b = sheet::named(CATEGORY, c, 0);
    is_related(at, MEMBER, a, b)
}

// Whether a side's paths lead from the one category to the other.
fn is_step(at: &OfficeSheet<'_>, asks: Asks, c: u32, d: u32) -> bool
    ensures { result ≡ step (seen_at_seat at.now) (side asks) c d }
{
    let a = sheet::named(CATEGORY, c, 0);
    let b = sheet::named(CATEGORY, d, 0);
    match asks {
        Asks::Grants => is_related(at, CONTAINED, a, b),
        Asks::Bans => is_related(at, CONTAINED, b, a),
    }
}

// Whether one of every second word, m of them from a place on, is c, or is not c where `same` is false.
// Stays: `same` is a flag, as it is in the definition that states this; a closure would be called with one of two tests alone.
fn has_second(list: &[u32], from: usize, m: usize, c: u32, same: bool) -> bool
    requires { from + 2 * m ≤ length list.now }
    ensures { result ≡ has_second list.now c same from m }
{
    for k in 0..m {
        if (c == list[from + 2 * k]) == same {
            return true;
        }
    }
    false
}

// A list of words that is claimed to be a path of a question's, at an office.
#[derive(Clone, Copy)]
struct Claim<'a> {
    at: OfficeSheet<'a>,
    question: Question,
    asks: Asks,
    list: &'a [u32],
}

impl Claim<'_> {
    // Whether a category has the side's right on the question's deed in the variant, which applies to the folio.
    fn is_carried(&self, v: u32, c: u32) -> bool
        ensures { result ≡ carries (seen_at_seat self.now.at) (side self.now.asks) self.now.question.deed v self.now.question.folio c }
    {
        let right = self.asks.edge_kind();
        let a = sheet::named(CATEGORY, c, 0);
        let b = sheet::named(DEED, self.question.deed, v);
        let t = sheet::named(FOLIO, self.question.folio, 0);
        is_related(&self.at, right, a, b) & is_related(&self.at, APPLIES, b, t)
    }

    // Whether the words before and behind the categories, m of them after the first, are the question's person, deed and folio.
    fn is_framed(&self, m: usize) -> bool
        requires { length self.now.list.now ≡ 8 + 2 * m }
        ensures { result ≡ framed self.now.list.now m self.now.question.person self.now.question.deed self.now.question.folio }
    {
        let list = self.list;
        let q = self.question;
        (list[0] == q.person)
            & ((list[1] == 0)
                & ((list[4 + 2 * m] == q.deed)
                    & ((list[6 + 2 * m] == q.folio) & (list[7 + 2 * m] == 0))))
    }

    // Whether the category at a place leads to the next and is none of the m after it.
    fn is_onward(&self, place: usize, m: usize) -> bool
        requires { (0 < m) × (place + 2 + 2 * m ≤ length self.now.list.now) }
        ensures { result ≡ goes_on (seen_at_seat self.now.at) (side self.now.asks) self.now.list.now place m }
    {
        let c = self.list[place];
        let d = self.list[place + 2];
        !has_second(self.list, place + 2, m, c, true) && is_step(&self.at, self.asks, c, d)
    }

    // Whether the first category leads by the m after it, all distinct, to one with the right. The way is tried from its end, so that a list of any length costs no more turns than there are categories.
    fn is_way(&self, m: usize) -> bool
        requires { length self.now.list.now ≡ 8 + 2 * m }
        ensures { result ≡ way_from (seen_at_seat self.now.at) (side self.now.asks) self.now.question.deed (get_or self.now.list.now (5 + 2 * m) 0) self.now.question.folio self.now.list.now 2 m }
    {
        let v = self.list[5 + 2 * m];
        let c = self.list[2 + 2 * m];
        if !self.is_carried(v, c) {
            return false;
        }
        for n in 0..m {
            if !self.is_onward(2 * (m - n), n + 1) {
                return false;
            }
        }
        true
    }

    // Whether the words are some path that is seen from the seat.
    fn is_path_at(&self) -> bool
        ensures { result ≡ is_path (seen_at_seat self.now.at) (side self.now.asks) self.now.question.person self.now.question.deed self.now.question.folio self.now.list.now }
    {
        let list = self.list;
        let n = list.len();
        if (n < 8) | (n % 2 == 1) {
            return false;
        }
        let m = (n - 8) / 2;
        if !self.is_framed(m) {
            return false;
        }
        if has_second(list, 3, m + 1, 0, false) {
            return false;
        }
        if !is_member(&self.at, self.question.person, list[2]) {
            return false;
        }
        self.is_way(m)
    }
}

// Question 4, or what refuses it: the sheet's own refusal, or 20.
fn try_is_path(words: &[u32], question: Question, list: &[u32]) -> Result<Told, Refusal>
    ensures { TellsPath words.now question list.now (answer_of result) }
{
    let sheet = verdict::accept(1, words)?;
    let at = question::take_seat(&sheet, question.office)?;
    let claim = Claim {
        at,
        question,
        asks: Asks::from(question.kind),
        list,
    };
    let value = claim.is_path_at().into();
    Ok(Told { value, count: 0 })
}

// Question 4, whether a list of words is some grant or ban path: 1 yes, 0 no, in `value`.
pub fn is_path(sheet: &[u32], q: Question, list: &[u32]) -> Answer
    ensures { TellsPath sheet.now q list.now result }
{
    Answer::from(try_is_path(sheet, q, list))
}
