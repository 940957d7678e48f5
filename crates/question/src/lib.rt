// What a question is, what it is refused by for its office and identities, and what every reply is made of.
#![tactic(auto)]

ghost use Rattle.std.specs.Prelude.{◌≡◌, IfOk, IfErr, ◌&&◌, ◌||◌, ◌^◌, ◌<◌, ◌≤◌};
ghost use Rattle.sheet.specs.Limits.{max_offices};
ghost use Rattle.sheet.specs.Refusals.{◌is◌};
ghost use Rattle.tables.specs.Marks.{marked};
ghost use Rattle.sheet.specs.Accepted.{NodesFormed};
ghost use Rattle.sheet.specs.Seats.{seat_at, Seated};
ghost use Rattle.sheet.specs.FaultNumbers.{fault_number, number_in};
ghost use Rattle.question.specs.Asked.{SoughtIn, bad_office};
ghost use Rattle.question.specs.Replies.{refused_by, tells};

mod asks;
mod office;
mod reply;

pub use asks::{Asks, OF_BANS, OF_GRANTS};
pub use office::OfficeSheet;
pub use reply::Told;
use sheet::{Fault, Half, Header, Node, Refusal, Seat, Sheet};

// What is asked. Each question looks at the numbers that it names: office or rule, kind, and `other` where it names two deeds.
#[derive(Clone, Copy, Default)]
pub struct Question {
    pub office: u32,
    pub rule: u32,
    pub kind: u32,
    pub person: u32,
    pub category: u32,
    pub deed: u32,
    pub other: u32,
    pub folio: u32,
}

// A refusal's number and place, or number 0 with what the question tells.
// Stays: a number that is 0 for none, since C takes this struct. Inside, it is a `Result<Told, Refusal>`.
#[repr(C)]
#[derive(Clone, Copy, Default)]
pub struct Answer {
    pub number: u32,
    pub sheet: u32,
    pub row: u32,
    pub value: u32,
    pub count: u32,
}

// The mark of office k + 1.
fn mark_of(k: u32) -> u32
    requires { k < max_offices }
    ensures { (result ≡ 2 ^ k) × (0 < result) }
{
    1u32 << k
}

// The seat of an office.
pub fn seat_at(office: u32) -> Seat
    requires { (0 < office) × (office ≤ max_offices) }
    ensures { (result ≡ seat_at office) × Seated result }
{
    let mark = mark_of(office - 1);
    Seat { office, mark }
}

// 20 where there is no such office under a header.
pub fn bad_office(h: Header, office: u32) -> Result<(), Fault>
    ensures { number_in result ≡ bad_office h office }
{
    if (office < 1) | (h.offices < office) {
        return Err(Fault::NoOffice);
    }
    Ok(())
}

// What every question of an office begins with: the sheet at the office's seat, or 20 where there is no such office.
pub fn take_seat<'a>(sheet: &Sheet<'a>, office: u32) -> Result<OfficeSheet<'a>, Fault>
    ensures ok { IfOk result (λ o. (o.sheet ≡ sheet.now) × (o.seat ≡ seat_at office) × (bad_office sheet.now.header office ≡ 0)) }
    ensures err { IfErr result (λ f. fault_number f ≡ bad_office sheet.now.header office) }
{
    bad_office(sheet.header, office)?;
    Ok(OfficeSheet {
        sheet: *sheet,
        seat: seat_at(office),
    })
}

// Whether a node row has the type and the number, and the mark of the seat's office, or any where `any` says so.
fn is_standing(node: Node, any: bool, seat: Seat, class: u32, number: u32) -> bool
    requires { Seated seat }
    ensures { result ≡ ((node.class is class) && ((node.number is number) && (any || marked node.offices seat.office))) }
{
    (node.class == class) & ((node.number == number) & (any | sheet::bears(seat, node.offices)))
}

// Where the first node row of a type and number stands that the seat's office has, or any office where `any` says so; else where variant 0 would
// stand.
// Stays: words, header and seat apart, since it promises its result where no more than the node rows are formed; and `any` is a word, as it
// is in `known`, by which this is stated: with a function for each there would be twins.
pub fn seek(
    sheet: &[u32],
    h: Header,
    any: bool,
    seat: Seat,
    class: u32,
    number: u32,
) -> Result<usize, usize>
    requires { NodesFormed sheet.now h × Seated seat }
    ensures { SoughtIn sheet.now any seat.office class number h.nodes result }
{
    let wanted = sheet::named(class, number, 0);
    let place = sheet::place_of(Half::Nodes, sheet, h, wanted);
    for i in place..h.nodes as usize {
        let node = sheet::node_at(sheet, i);
        if is_standing(node, any, seat, class, number) {
            return Ok(i);
        }
        if (node.class != class) | (node.number != number) {
            return Err(place);
        }
    }
    Err(place)
}

// The same of an office's sheet.
pub fn search(at: &OfficeSheet<'_>, any: bool, class: u32, number: u32) -> Result<usize, usize>
    ensures { SoughtIn at.now.sheet.words.now any at.now.seat.office class number at.now.sheet.header.nodes result }
{
    seek(at.sheet.words, at.sheet.header, any, at.seat, class, number)
}
