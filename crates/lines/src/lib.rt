// One line of a listing: what it says, and how it is written.
#![tactic(auto)]

ghost use Rattle.std.specs.Prelude.{◌≡◌, [], ◌∷◌, true, false, ◌&&◌, ◌||◌, not, ◌+◌, ◌-◌, ◌*◌, ◌%◌, ◌≤◌, ◌<◌, min, length, drop, get_or};
ghost use Rattle.text.specs.Growing.{Grows};
ghost use Rattle.sheet.specs.Refusals.{◌is◌, ◌below◌};
ghost use Rattle.lines.specs.Numerals.{is_digit};
ghost use Rattle.lines.specs.Nine.{of_variant, of_number, faulty, said, numbers_of, spelled_by, line_text, line_room};
ghost use Rattle.lines.specs.LineTold.{line_told, TellsLine};
ghost use Rattle.lines.specs.Naming.{is_node_line, kind_named, node_line, from_line, to_line, within_itself, same_line};
ghost use Rattle.lines.specs.Fitting.{DigitsAre, with_digit, good_number, and_number, with_numbers, numbers_in, Passes, by_pattern};

use sheet::Fault;

// What a line says: its form, 1 to 9 in the order of the nine lines, and its numbers in order; or its fault, 40 or 41.
// Stays: C has this struct, and the fault and the form are numbers in it. An enum of forms would be made of the number and turned back
// at each use, and the functions below are public and take any `Line`.
#[repr(C)]
#[derive(Clone, Copy)]
pub struct Line {
    pub fault: u32,
    pub form: u32,
    pub first: u32,
    pub second: u32,
    pub third: u32,
}

// Digits as they stand in a line: where they end, and the number that they write, if a word holds it.
#[derive(Clone, Copy)]
struct Digits {
    end: usize,
    number: Option<u32>,
}

// The numbers of a line, as far as it was read: how many, and their values where all are good.
#[derive(Clone, Copy)]
struct Numbers {
    count: usize,
    values: Option<[u32; 3]>,
}

// How far a line was read by a pattern, and its numbers so far.
#[derive(Clone, Copy)]
struct Passed {
    at: usize,
    so: Numbers,
}

fn is_digit(b: u8) -> bool
    ensures { result ≡ is_digit b }
{
    b.is_ascii_digit()
}

// A number with a digit more behind it. Once too high, it stays so.
fn with_digit(number: Option<u32>, b: u8) -> Option<u32>
    requires { is_digit b ≡ true }
    ensures { result ≡ with_digit number (b - 48) }
{
    number?.checked_mul(10)?.checked_add(u32::from(b - b'0'))
}

// The digits that stand from `at` on.
fn digits_at(line: &[u8], at: usize) -> Digits
    requires { at ≤ length line.now }
    ensures { DigitsAre line.now at result }
{
    let mut number = Some(0);
    for end in at..line.len() {
        let b = line[end];
        if !is_digit(b) {
            return Digits { end, number };
        }
        number = with_digit(number, b);
    }
    Digits {
        end: line.len(),
        number,
    }
}

// A number that `count` digits write, of which the first is b; none if it is bad. A variant may be 0.
fn good_number(b: u8, count: usize, number: Option<u32>, variant: bool) -> Option<u32>
    ensures { result ≡ good_number (not variant) (b is 48 && 1 below count) number }
{
    let leading_zero = b == b'0' && 1 < count;
    number.filter(|n| (variant || *n != 0) && !leading_zero)
}

impl Numbers {
    // One number more, which is none if it is bad.
    fn and_number(self, number: Option<u32>) -> Numbers
        requires { self.count < 3 }
        ensures { result ≡ and_number self number }
    {
        let values = match (self.values, number) {
            (Some(mut values), Some(number)) => {
                values[self.count] = number;
                Some(values)
            }
            _ => None,
        };
        Numbers {
            count: self.count + 1,
            values,
        }
    }
}

// Whether a pattern's character stands for a variant, and whether for any number.
fn of_variant(p: u8) -> bool
    ensures { result ≡ of_variant p }
{
    p == b'%'
}

fn of_number(p: u8) -> bool
    ensures { result ≡ of_number p }
{
    p == b'#' || of_variant(p)
}

// A refused line.
pub fn faulty_line(fault: u32) -> Line
    ensures { result ≡ faulty fault }
{
    Line {
        fault,
        form: 0,
        first: 0,
        second: 0,
        third: 0,
    }
}

// C takes one struct for both.
impl From<Result<Line, Fault>> for Line {
    ghost from_gives = { λ r l. l ≡ line_told r };

    fn from(read: Result<Line, Fault>) -> Line {
        match read {
            Ok(line) => line,
            Err(fault) => faulty_line(fault.number()),
        }
    }
}

// A line that fits the pattern of a form, with its numbers.
fn line_of(form: u32, so: Numbers) -> Result<Line, Fault>
    ensures { TellsLine (with_numbers form so) result }
{
    let [first, second, third] = so.values.ok_or(Fault::LineNumber)?;
    Ok(Line {
        fault: 0,
        form,
        first,
        second,
        third,
    })
}

// A number, where the pattern has one: what stands behind it, and the numbers with this one.
fn pass_number(mark: u8, line: &[u8], i: usize, so: Numbers) -> Result<Passed, Fault>
    requires { (i < length line.now) × (of_number mark ≡ true) × (so.count < 3) }
    ensures { Passes mark line.now i so result }
{
    let d = digits_at(line, i);
    if d.end == i {
        return Err(Fault::UnlikeLine);
    }
    let number = good_number(line[i], d.end - i, d.number, of_variant(mark));
    Ok(Passed {
        at: d.end,
        so: so.and_number(number),
    })
}

// A byte, where the pattern has one.
fn pass_byte(mark: u8, line: &[u8], i: usize, so: Numbers) -> Result<Passed, Fault>
    requires { (i < length line.now) × (of_number mark ≡ false) }
    ensures { Passes mark line.now i so result }
{
    if line[i] == mark {
        return Ok(Passed { at: i + 1, so });
    }
    Err(Fault::UnlikeLine)
}

// One character of a pattern.
fn pass_one(mark: u8, line: &[u8], i: usize, so: Numbers) -> Result<Passed, Fault>
    requires { (i ≤ length line.now) × (of_number mark ≡ true → so.count < 3) }
    ensures { Passes mark line.now i so result }
{
    if line.len() <= i {
        return Err(Fault::UnlikeLine);
    }
    if of_number(mark) {
        return pass_number(mark, line, i, so);
    }
    pass_byte(mark, line, i, so)
}

// A line by the pattern of a form.
fn by_pattern(pattern: &[u8], form: u32, line: &[u8]) -> Result<Line, Fault>
    requires { numbers_in pattern.now ≤ 3 }
    ensures { TellsLine (by_pattern form pattern.now line.now) result }
{
    let mut so = Numbers {
        count: 0,
        values: Some([0; 3]),
    };
    let mut i = 0;
    for mark in pattern {
        let passed = pass_one(*mark, line, i, so)?;
        so = passed.so;
        i = passed.at;
    }
    if i < line.len() {
        return Err(Fault::UnlikeLine);
    }
    line_of(form, so)
}

// What a line says, its line feed left off. The nine differ in their first letter. The hint keeps the stack of C's entry where it was.
#[tactic(auto, unfolding(crate::specs::Fitting::numbers_in))]
#[inline(always)]
pub fn try_read(line: &[u8]) -> Result<Line, Fault>
    ensures { TellsLine (said line.now) result }
{
    if line.is_empty() {
        return Err(Fault::UnlikeLine);
    }
    match line[0] {
        b'p' => by_pattern(b"person #", 1, line),
        b'c' => by_pattern(b"category #", 2, line),
        b'd' => by_pattern(b"deed #/%", 3, line),
        b'f' => by_pattern(b"folio #", 4, line),
        b'i' => by_pattern(b"in # #", 5, line),
        b'w' => by_pattern(b"within # #", 6, line),
        b'g' => by_pattern(b"grant # #/%", 7, line),
        b'b' => by_pattern(b"ban # #/%", 8, line),
        b'a' => by_pattern(b"applies #/% #", 9, line),
        _ => Err(Fault::UnlikeLine),
    }
}

// The same as C takes it.
pub fn read_line(line: &[u8]) -> Line
    ensures { result ≡ said line.now }
{
    Line::from(try_read(line))
}

// Whether a line names a node.
pub fn is_node_line(l: Line) -> bool
    ensures { result ≡ is_node_line l }
{
    l.form < 5
}

// The kind that an edge line names.
pub fn kind_named(l: Line) -> u32
    ensures { result ≡ kind_named l }
{
    l.form.saturating_sub(4)
}

// A node line.
fn node_line(class: u32, number: u32, variant: u32) -> Line
    ensures { result ≡ node_line class number variant }
{
    Line {
        fault: 0,
        form: class,
        first: number,
        second: variant,
        third: 0,
    }
}

// The node line of an edge line's from end.
#[tactic(auto, unfolding(crate::specs::Naming::from_line))]
pub fn from_line(l: Line) -> Line
    ensures { result ≡ from_line l }
{
    let kind = kind_named(l);
    match kind {
        sheet::MEMBER => node_line(sheet::PERSON, l.first, 0),
        sheet::APPLIES => node_line(sheet::DEED, l.first, l.second),
        _ => node_line(sheet::CATEGORY, l.first, 0),
    }
}

// The node line of its to end.
#[tactic(auto, unfolding(crate::specs::Naming::to_line))]
pub fn to_line(l: Line) -> Line
    ensures { result ≡ to_line l }
{
    let kind = kind_named(l);
    match kind {
        sheet::MEMBER | sheet::CONTAINED => node_line(sheet::CATEGORY, l.second, 0),
        sheet::APPLIES => node_line(sheet::FOLIO, l.third, 0),
        _ => node_line(sheet::DEED, l.second, l.third),
    }
}

// Whether a line says that a category is within itself.
pub fn is_within_itself(l: Line) -> bool
    ensures { result ≡ within_itself l }
{
    let kind = kind_named(l);
    kind == sheet::CONTAINED && l.first == l.second
}

// Whether two lines say the same.
pub fn same_line(a: Line, b: Line) -> bool
    ensures { result ≡ same_line a b }
{
    (a.form, a.first, a.second, a.third) == (b.form, b.first, b.second, b.third)
}

// ---- writing

// Room for any line, as `line_room` of specs/Nine.antt.
pub const LINE_ROOM: usize = 140;

// Number k of a line, counted from 0.
fn read_number(l: Line, k: usize) -> u32
    requires { k < 3 }
    ensures { result ≡ get_or (numbers_of l) k 0 }
{
    match k {
        0 => l.first,
        1 => l.second,
        _ => l.third,
    }
}

// What a character of a pattern makes, behind the first `at` bytes: number k of the line, or the character itself.
fn put_mark(p: u8, l: Line, k: usize, out: &mut [u8], at: usize) -> usize
    requires { at + 10 ≤ length out.old }
    ensures { (result ≤ at + 10) × Grows out.old at (spelled_by (p ∷ []) (drop k (numbers_of l))) result out.new }
{
    if !of_number(p) {
        out[at] = p;
        return at + 1;
    }
    if 2 < k {
        return at;
    }
    text::put_number(out, at, b"", read_number(l, k))
}

// A pattern with the line's numbers put in, at the front of `out`.
fn put_pattern(pattern: &[u8], l: Line, out: &mut [u8]) -> usize
    requires { 10 * length pattern.now ≤ length out.old }
    ensures { (result ≤ 10 * length pattern.now) × Grows out.old 0 (spelled_by pattern.now (numbers_of l)) result out.new }
{
    let mut at = 0;
    let mut k = 0;
    for p in pattern {
        at = put_mark(*p, l, k, out, at);
        if of_number(*p) {
            k += 1;
        }
    }
    at
}

// A line, its line feed with it, at the front of `out`; the result is how long it is.
pub fn put_line(l: Line, out: &mut [u8]) -> usize
    requires { (1 ≤ l.form) × (l.form ≤ 9) × (line_room ≤ length out.old) }
    ensures { (result ≤ line_room) × Grows out.old 0 (line_text l) result out.new }
{
    match l.form {
        1 => put_pattern(b"person #\n", l, out),
        2 => put_pattern(b"category #\n", l, out),
        3 => put_pattern(b"deed #/%\n", l, out),
        4 => put_pattern(b"folio #\n", l, out),
        5 => put_pattern(b"in # #\n", l, out),
        6 => put_pattern(b"within # #\n", l, out),
        7 => put_pattern(b"grant # #/%\n", l, out),
        8 => put_pattern(b"ban # #/%\n", l, out),
        _ => put_pattern(b"applies #/% #\n", l, out),
    }
}
