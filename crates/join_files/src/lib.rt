// Joining two files: the joint sheet's bytes, and the lines that say what was joined or refused. The joining program adds the files.
#![tactic(auto)]

ghost use Rattle.std.specs.Prelude.{◌≡◌, ◌/◌, ◌≤◌, length, take};
ghost use Rattle.sheet.specs.Limits.{max_bytes};
ghost use Rattle.files.specs.Bytes.{words_of};
ghost use Rattle.join.specs.Joins.{join_fault};
ghost use Rattle.join_files.specs.JoinedFiles.{JoinsBytes, JoinsFiles};
ghost use Rattle.join_files.specs.Lines.{two_lines, refusal_line, report_of, Reports};

use join::Joined;
use sheet::MAX_WORDS;

// The longest report: two lines, with four numbers of ten digits.
pub const LONGEST: usize = 70;

// Joins two sheets into lent bytes. The words that they are first joined into have room for any sheet, so 25 is the bytes' own.
// Stays: here and below a refusal is a number that is 0 for none, as `join` and `files` tell it in the structs that C takes.
fn join_words(first: &[u32], second: &[u32], out: &mut [u8]) -> Joined
    ensures { JoinsBytes (join_fault first.now second.now (length out.old / 4)) first.now second.now out.old result out.new }
{
    let mut words = [0u32; MAX_WORDS];
    let j = join::join(first, second, &mut words);
    if j.number != 0 {
        return j;
    }
    let r = files::encode(&words[..j.words as usize], out);
    if r.number != 0 {
        return join::refused_join(r);
    }
    j
}

// Joins the words of two files that are no longer than a sheet can be.
fn join_decoded(first: &[u8], second: &[u8], out: &mut [u8]) -> Joined
    requires { (length first.now ≤ max_bytes) × (length second.now ≤ max_bytes) }
    ensures { JoinsBytes (join_fault (words_of first.now) (words_of second.now) (length out.old / 4)) (words_of first.now) (words_of second.now) out.old result out.new }
{
    let mut a = [0u32; MAX_WORDS];
    files::decode(first, &mut a);
    let mut b = [0u32; MAX_WORDS];
    files::decode(second, &mut b);
    join_words(&a[..first.len() / 4], &b[..second.len() / 4], out)
}

// Joins the sheets in two files into lent bytes, which a refusal leaves as they are.
pub fn join_files(first: &[u8], second: &[u8], out: &mut [u8]) -> Joined
    ensures { JoinsFiles first.now second.now out.old result out.new }
{
    let r = files::check_bytes_as(1, first);
    if r.number != 0 {
        return join::refused_join(r);
    }
    let s = files::check_bytes_as(2, second);
    if s.number != 0 {
        return join::refused_join(s);
    }
    join_decoded(first, second, out)
}

// The two lines of a join, at the front of a text that has room for them; the result is how long they are.
// Stays: printed by `text` into lent bytes, here and below, since the theorems on a report speak of its very bytes.
fn put_lines(j: Joined, text: &mut [u8]) -> usize
    requires { 70 ≤ length text.old }
    ensures { (result ≤ 70) × (take result text.new ≡ two_lines j) }
{
    let a = text::put_two_numbers(text, 0, b"nodes ", j.nodes, b" shared ", j.sharednodes);
    let b = text::put_two_numbers(text, a, b"\nedges ", j.edges, b" shared ", j.sharededges);
    text::put_bytes(text, b, b"\n")
}

// The line of a refusal, likewise.
fn put_refusal(j: Joined, text: &mut [u8]) -> usize
    requires { 70 ≤ length text.old }
    ensures { (result ≤ 70) × (take result text.new ≡ refusal_line j) }
{
    let a = text::put_two_numbers(text, 0, b"refused ", j.number, b" sheet ", j.sheet);
    let b = text::put_number(text, a, b" row ", j.row);
    text::put_bytes(text, b, b"\n")
}

// What is said of a join or a refusal, likewise.
fn put_report(j: Joined, text: &mut [u8]) -> usize
    requires { 70 ≤ length text.old }
    ensures { (result ≤ 70) × (take result text.new ≡ report_of j) }
{
    if j.number == 0 {
        return put_lines(j, text);
    }
    put_refusal(j, text)
}

// What the joining program says, at the front of the text lent; the result is how many bytes that is. Where it does not fit, 0, and nothing is written.
pub fn report(j: Joined, text: &mut [u8]) -> usize
    ensures { Reports (report_of j) text.old result text.new }
{
    let mut line = [0u8; LONGEST];
    let n = put_report(j, &mut line);
    if text.len() < n {
        return 0;
    }
    text[..n].copy_from_slice(&line[..n]);
    n
}
