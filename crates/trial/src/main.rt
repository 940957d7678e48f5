// Puts any input to every public function, for a program outside: requests on standard input, a reply to each on standard output.
// The trial program's page in docs/TRIAL.md has the form of both.
#![tactic(auto)]

ghost use Rattle.std.specs.Prelude.{◌*◌, ◌≤◌, length};

use duty::TraceReply;
use join::Joined;
use listing::Listing;
use opened::Which;
use question::{Answer, Question};
use sheet::{Edge, Node, Refusal};
use std::io;
use std::io::{ErrorKind, Read, Write};

mod operation;

use operation::{FileQuestion, List, Operation, RowQuestion, Unknown, WordQuestion};

// The longest payload in bytes, and the longest output in words.
const MAX_PAYLOAD: usize = 160000;

const MAX_OUTPUT: usize = 40000;

// The words of a request that this program looks at: the operation, its numbers in order, and the lengths and the fill.
#[derive(Clone, Copy)]
struct Request {
    operation: u32,
    a1: u32,
    a2: u32,
    a3: u32,
    a4: u32,
    a5: u32,
    first: u32,
    second: u32,
    room: u32,
    fill: u32,
}

impl Request {
    // A request's head, twelve words.
    fn of_head(head: &[u8; 48]) -> Request {
        let mut words = [0u32; 12];
        files::decode(head, &mut words);
        Request {
            operation: words[0],
            a1: words[1],
            a2: words[2],
            a3: words[3],
            a4: words[4],
            a5: words[5],
            first: words[7],
            second: words[8],
            room: words[9],
            fill: words[10],
        }
    }

    // What questions 1 and 2 ask: their first number is an office or a rule.
    fn question(&self) -> Question {
        Question {
            office: self.a1,
            rule: self.a1,
            person: self.a2,
            deed: self.a3,
            folio: self.a4,
            ..Question::default()
        }
    }

    // What questions 3 and 4 ask: of a grant or a ban.
    fn question_of_kind(&self) -> Question {
        Question {
            office: self.a1,
            kind: self.a2,
            person: self.a3,
            deed: self.a4,
            folio: self.a5,
            ..Question::default()
        }
    }

    // What operations 5 to 10 ask: their second number is a category or a deed, and their third a folio or another deed.
    fn search(&self) -> Question {
        Question {
            office: self.a1,
            category: self.a2,
            deed: self.a2,
            other: self.a3,
            folio: self.a3,
            ..Question::default()
        }
    }

    fn node(&self) -> Node {
        Node {
            class: self.a1,
            number: self.a2,
            variant: self.a3,
            offices: self.a4,
        }
    }

    fn edge(&self) -> Edge {
        Edge {
            kind: self.a1,
            from: self.a2,
            to: self.a3,
            offices: self.a4,
        }
    }
}

// A reply's words, but for the last, which is the output's length. What an operation does not use is 0.
#[derive(Clone, Copy, Default)]
struct Reply {
    number: u32,
    sheet: u32,
    row: u32,
    value: u32,
    count: u32,
    extra: u32,
    further: u32,
}

// A count or a line's number, which fits a word where it is of a payload.
fn as_word(n: usize) -> u32 {
    (n % 4294967296) as u32
}

impl From<Refusal> for Reply {
    fn from(r: Refusal) -> Reply {
        Reply {
            number: r.number,
            sheet: r.sheet,
            row: r.row,
            ..Reply::default()
        }
    }
}

impl From<Answer> for Reply {
    fn from(a: Answer) -> Reply {
        Reply {
            number: a.number,
            sheet: a.sheet,
            row: a.row,
            value: a.value,
            count: a.count,
            ..Reply::default()
        }
    }
}

impl From<Joined> for Reply {
    fn from(j: Joined) -> Reply {
        Reply {
            number: j.number,
            sheet: j.sheet,
            row: j.row,
            value: j.nodes,
            count: j.words,
            extra: j.sharednodes,
            further: j.sharededges,
        }
    }
}

impl From<Listing> for Reply {
    fn from(a: Listing) -> Reply {
        Reply {
            number: a.number,
            sheet: a.sheet,
            row: as_word(a.row),
            count: as_word(a.count),
            ..Reply::default()
        }
    }
}

impl From<TraceReply> for Reply {
    fn from(a: TraceReply) -> Reply {
        Reply {
            number: a.number,
            sheet: a.sheet,
            row: a.row,
            count: as_word(a.count),
            ..Reply::default()
        }
    }
}

// An unknown operation has a number that no refusal has.
impl From<Unknown> for Reply {
    fn from(_unknown: Unknown) -> Reply {
        Reply {
            number: u32::MAX,
            ..Reply::default()
        }
    }
}

// Operations 1 to 4.
fn ask_payload(
    which: WordQuestion,
    q: &Request,
    sheet: &[u32],
    list: &[u32],
    out: &mut [u32],
) -> Answer {
    match which {
        WordQuestion::AnswerAtOffice => ask::answer_at_office(sheet, q.question()),
        WordQuestion::JointAnswer => ask::joint_answer(sheet, q.question()),
        WordQuestion::Witness => ask::witness(sheet, q.question_of_kind(), out),
        WordQuestion::IsPath => claim::is_path(sheet, q.question_of_kind(), list),
    }
}

// Operations 5 to 10.
fn list_words(list: List, q: &Request, sheet: &[u32], out: &mut [u32]) -> Answer {
    let search = q.search();
    match list {
        List::PersonsInCategory => lists::persons_in_category(sheet, search, out),
        List::PersonsWithGrant => lists::persons_with_grant(sheet, search, out),
        List::FoliosOutOfReach => lists::folios_out_of_reach(sheet, search, out),
        List::LeastTriple => lists::least_triple(sheet, search, out),
        List::LeastHolder => lists::least_holder(sheet, search, out),
        List::RedundantEdges => lists::redundant_edges(sheet, search, out),
    }
}

// Operation 11: as many words of the part as there is room for, and the number and place of the other entry.
fn look_words(q: &Request, first: &[u32], second: &[u32], out: &mut [u32]) -> Reply {
    let part = lookup::look_up(first, second, q.a1, q.a2, q.a3);
    let refusal = lookup::look_up_refusal(first, second, q.a1, q.a2, q.a3);
    let n = part.len().min(out.len());
    out[..n].copy_from_slice(&part[..n]);
    Reply {
        count: as_word(part.len()),
        ..Reply::from(refusal)
    }
}

// Operations 14 to 16: question 1, 2 or 3, asked of an opened sheet.
fn ask_opened(which: Which, q: &Request, sheet: &[u32], out: &mut [u32]) -> Answer {
    let question = match which {
        Which::Witness => q.question_of_kind(),
        _ => q.question(),
    };
    opened::open_and_ask(sheet, which, question, out)
}

// Lends the output as bytes, four to a word, and takes back what was written.
fn in_bytes<F: FnOnce(&mut [u8]) -> Reply>(out: &mut [u32], write: F) -> Reply
    requires room { length out.old ≤ 40000 }
    requires written { F.IsAlwaysCallable write }
{
    let mut bytes = [0u8; MAX_PAYLOAD];
    files::encode(out, &mut bytes);
    let room = &mut bytes[..4 * out.len()];
    let reply = write(room);
    files::decode(room, out);
    reply
}

// Operations 21 to 23, by the counter's entries on the payload's bytes.
fn ask_file(which: FileQuestion, q: &Request, file: &[u8], out: &mut [u32]) -> Reply
    requires { length out.old ≤ 40000 }
{
    match which {
        FileQuestion::Answer => counter::tormukai_answer(file, q.a1, q.a2, q.a3, q.a4).into(),
        FileQuestion::JointAnswer => {
            counter::tormukai_joint_answer(file, q.a1, q.a2, q.a3, q.a4).into()
        }
        FileQuestion::Witness => in_bytes(out, |room| {
            counter::tormukai_witness(file, q.a1, q.a2, q.a3, q.a4, q.a5, room).into()
        }),
    }
}

// Operations 32 and 33: where a row stands or would stand. 34 and 35: a row added.
fn ask_row(which: RowQuestion, q: &Request, sheet: &[u32], out: &mut [u32]) -> Answer {
    match which {
        RowQuestion::FindNode => find::find_node(sheet, q.a1, q.a2, q.a3),
        RowQuestion::FindEdge => find::find_edge(sheet, q.a1, q.a2, q.a3),
        RowQuestion::AddNode => add::add_node(sheet, q.node(), out),
        RowQuestion::AddEdge => add::add_edge(sheet, q.edge(), out),
    }
}

// The reply of steps: the last answer's refusal, how many rows were taken, and how many asked.
fn stepped(a: Answer, taken: usize, count: usize) -> Reply {
    Reply {
        number: a.number,
        sheet: a.sheet,
        row: a.row,
        value: as_word(taken),
        count: as_word(count),
        ..Reply::default()
    }
}

// Operation 37: rows put to one table, which was empty at first, until one is refused. A last row may be cut short.
fn step_words(timeout: u32, sheet: &[u32], rows: &[u32], out: &mut [u32]) -> Reply {
    let mut watch = watch::empty_watch();
    let mut taken: usize = 0;
    let mut count: usize = 0;
    for row in rows.chunks(5) {
        let moved = duty::lend_and_step(watch, sheet, timeout, row);
        let a = moved.answer;
        if a.number != 0 {
            return stepped(a, taken, count);
        }
        if a.count != 0 {
            if let Some(word) = out.get_mut(count) {
                *word = a.value;
            }
            count += 1;
        }
        watch = moved.watch;
        taken += 1;
    }
    stepped(Answer::default(), taken, count)
}

// The operation's function on its payloads, of bytes or of words, and its output.
fn answer(
    q: &Request,
    file: &[u8],
    first: &[u32],
    second: &[u32],
    out: &mut [u32],
) -> Result<Reply, Unknown>
    requires { length out.old ≤ 40000 }
{
    let reply = match Operation::try_from(q.operation)? {
        Operation::Check => verdict::check(first).into(),
        Operation::Ask(which) => ask_payload(which, q, first, second, out).into(),
        Operation::List(list) => list_words(list, q, first, out).into(),
        Operation::LookUp => look_words(q, first, second, out),
        Operation::Join => join::join(first, second, out).into(),
        Operation::TakeOut => takeout::take_out(first, q.a1, out).into(),
        Operation::AskOpened(which) => ask_opened(which, q, first, out).into(),
        Operation::CheckFile => files::check_bytes(file).into(),
        Operation::AskFile(which) => ask_file(which, q, file, out),
        Operation::ReadListing => listing::read_listing(file, out).into(),
        Operation::WriteListing => in_bytes(out, |room| listing::write_listing(first, room).into()),
        Operation::AskRow(which) => ask_row(which, q, first, out).into(),
        Operation::Trace => duty::trace(first, q.a1, second, out).into(),
        Operation::Step => step_words(q.a1, first, second, out),
    };
    Ok(reply)
}

// The buffers that a request is answered in, lent anew for each.
#[derive(Drop)]
struct Buffers<'a> {
    first: &'a mut [u8; MAX_PAYLOAD],
    second: &'a mut [u8; MAX_PAYLOAD],
    words: &'a mut [u32; MAX_OUTPUT],
    others: &'a mut [u32; MAX_OUTPUT],
    out: &'a mut [u32; MAX_OUTPUT],
    bytes: &'a mut [u8; MAX_PAYLOAD],
}

// Writes words to standard output, by way of lent bytes that have room for them. Where it can't be written, nobody reads it.
fn send(output: &mut impl Write, words: &[u32], bytes: &mut [u8])
    requires { 4 * length words.now ≤ length bytes.old }
{
    files::encode(words, bytes);
    let _ = output.write_all(&bytes[..4 * words.len()]);
}

// Answers a request on its payloads, and writes the reply with the whole output behind it.
fn respond(
    output: &mut impl Write,
    q: &Request,
    file: &[u8],
    first: &[u32],
    second: &[u32],
    out: &mut [u32],
    bytes: &mut [u8; MAX_PAYLOAD],
)
    requires { length out.old ≤ 40000 }
{
    out.fill(q.fill);
    let r = match answer(q, file, first, second, out) {
        Ok(reply) => reply,
        Err(unknown) => unknown.into(),
    };
    let head = [
        r.number, r.sheet, r.row, r.value, r.count, r.extra, r.further, q.room,
    ];
    send(output, &head, bytes);
    send(output, out, bytes);
}

// Reads one request and answers it. Fails where the input has no whole request, or its lengths are over the buffers'.
fn serve(input: &mut impl Read, output: &mut impl Write, buffers: Buffers<'_>) -> io::Result<()> {
    let mut head = [0u8; 48];
    input.read_exact(&mut head)?;
    let q = Request::of_head(&head);
    let a = q.first as usize;
    let b = q.second as usize;
    let room = q.room as usize;
    if MAX_PAYLOAD < a || MAX_PAYLOAD < b || MAX_OUTPUT < room {
        return Err(io::Error::from(ErrorKind::InvalidInput));
    }
    let Buffers {
        first,
        second,
        words,
        others,
        out,
        bytes,
    } = buffers;
    input.read_exact(&mut first[..a])?;
    input.read_exact(&mut second[..b])?;
    files::decode(&first[..a], words);
    files::decode(&second[..b], others);
    respond(
        output,
        &q,
        &first[..a],
        &words[..a / 4],
        &others[..b / 4],
        &mut out[..room],
        bytes,
    );
    Ok(())
}

// The buffers are made once: to clear them for each request would take most of its time.
// A proved loop has to end, and nothing says that the input does. So the loop counts its turns, up to a number that no run uses up.
fn main(rt: HostRuntime) {
    let mut first = [0u8; MAX_PAYLOAD];
    let mut second = [0u8; MAX_PAYLOAD];
    let mut words = [0u32; MAX_OUTPUT];
    let mut others = [0u32; MAX_OUTPUT];
    let mut out = [0u32; MAX_OUTPUT];
    let mut bytes = [0u8; MAX_PAYLOAD];
    let mut input = rt.reader();
    let mut output = io::writer(&rt);
    for _ in 0..u64::MAX {
        let buffers = Buffers {
            first: &mut first,
            second: &mut second,
            words: &mut words,
            others: &mut others,
            out: &mut out,
            bytes: &mut bytes,
        };
        if serve(&mut input, &mut output, buffers).is_err() {
            break;
        }
    }
}
