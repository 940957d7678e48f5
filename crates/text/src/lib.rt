// A text that grows: bytes, or a label and a number in decimal, behind what is there already.
// Stays: the text and the place in it are handed from call to call. A struct of both would be no plainer: it would hold a lent text to be
// written, which lives for one call, and what every caller promises is said of the text and the place (`Grows`).
#![tactic(auto)]

ghost use Rattle.std.specs.Prelude.{◌++◌, ◌+◌, ◌≤◌, length};
ghost use Rattle.text.specs.Growing.{decimal, labelled, Grows};

// Bytes behind the first `at` of the text; the result is where they end.
pub fn put_bytes(text: &mut [u8], at: usize, bytes: &[u8]) -> usize
    requires { at + length bytes.now ≤ length text.old }
    ensures { Grows text.old at bytes.now result text.new }
{
    let end = at + bytes.len();
    text[at..end].copy_from_slice(bytes);
    end
}

// A number in decimal, likewise: the digits in front of the two lowest, and then those two. With a call for each digit it would take
// more stack.
// Stays: `write!` and the kit's `itoa` print into a buffer of their own, from which the digits are copied, and the theorems on what is
// printed speak of our own `decimal`.
fn put_decimal(text: &mut [u8], at: usize, number: u32) -> usize
    requires { at + length (decimal number) ≤ length text.old }
    ensures { Grows text.old at (decimal number) result text.new }
{
    if number < 10 {
        text[at] = b'0' + number as u8;
        return at + 1;
    }
    if number < 100 {
        text[at] = b'0' + (number / 10) as u8;
        text[at + 1] = b'0' + (number % 10) as u8;
        return at + 2;
    }
    let from = put_decimal(text, at, number / 100);
    text[from] = b'0' + (number / 10 % 10) as u8;
    text[from + 1] = b'0' + (number % 10) as u8;
    from + 2
}

// A label and a number, likewise. A number has ten digits at most.
pub fn put_number(text: &mut [u8], at: usize, label: &[u8], number: u32) -> usize
    requires { at + length label.now + 10 ≤ length text.old }
    ensures { (result ≤ at + length label.now + 10) × Grows text.old at (labelled label.now number) result text.new }
{
    let from = put_bytes(text, at, label);
    put_decimal(text, from, number)
}

// Two labels, each with its number, likewise.
pub fn put_two_numbers(
    text: &mut [u8],
    at: usize,
    label: &[u8],
    number: u32,
    next: &[u8],
    more: u32,
) -> usize
    requires { at + length label.now + length next.now + 20 ≤ length text.old }
    ensures { (result ≤ at + length label.now + length next.now + 20) × Grows text.old at (labelled label.now number ++ labelled next.now more) result text.new }
{
    let from = put_number(text, at, label, number);
    put_number(text, from, next, more)
}
