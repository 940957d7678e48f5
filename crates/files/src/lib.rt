// A sheet's file: its bytes to words and back, and refusal 33.
#![tactic(auto)]

ghost use Rattle.std.specs.Prelude.{◌≡◌, ◌++◌, ◌*◌, ◌/◌, ◌≤◌, length, drop};
ghost use Rattle.sheet.specs.FaultNumbers.{number_in};
ghost use Rattle.sheet.specs.Limits.{max_bytes};
ghost use Rattle.sheet.specs.Refusals.{none, Writes};
ghost use Rattle.sheet.specs.Verdict.{verdict};
ghost use Rattle.files.specs.Bytes.{words_of, bytes_of, bytes_fault, bytes_verdict};

use sheet::{Fault, MAX_WORDS, Refusal};

// The longest file: four bytes a word.
pub const MAX_BYTES: usize = 4 * MAX_WORDS;

// The words of the bytes, into words that have room for them.
fn decode_all(bytes: &[u8], words: &mut [u32])
    requires { length bytes.now / 4 ≤ length words.old }
    ensures { words.new ≡ words_of bytes.now ++ drop (length (words_of bytes.now)) words.old }
{
    let (quads, _) = bytes.as_chunks::<4>();
    for (i, quad) in quads.iter().enumerate() {
        words[i] = u32::from_le_bytes(*quad);
    }
}

// The words of the bytes, low byte first, at the front of the words lent; one to three bytes left over are dropped. 25 where they don't fit.
pub fn decode(bytes: &[u8], words: &mut [u32]) -> Refusal
    ensures { Writes none (words_of bytes.now) words.old result words.new }
{
    if words.len() < bytes.len() / 4 {
        return Fault::OutputShort.into();
    }
    decode_all(bytes, words);
    Refusal::default()
}

// The bytes of the words, into bytes that have room for them.
fn encode_all(words: &[u32], bytes: &mut [u8])
    requires { 4 * length words.now ≤ length bytes.old }
    ensures { bytes.new ≡ bytes_of words.now ++ drop (length (bytes_of words.now)) bytes.old }
{
    for (i, word) in words.iter().enumerate() {
        bytes[4 * i..4 * i + 4].copy_from_slice(&word.to_le_bytes());
    }
}

// The bytes of the words, low byte first, at the front of the bytes lent. 25 where they don't fit.
pub fn encode(words: &[u32], bytes: &mut [u8]) -> Refusal
    ensures { Writes none (bytes_of words.now) bytes.old result bytes.new }
{
    if bytes.len() / 4 < words.len() {
        return Fault::OutputShort.into();
    }
    encode_all(words, bytes);
    Refusal::default()
}

// 33, of a file of so many bytes.
pub fn bytes_fault(n: usize) -> Result<(), Fault>
    ensures { number_in result ≡ bytes_fault n }
{
    if n % 4 != 0 || MAX_BYTES < n {
        return Err(Fault::FileLength);
    }
    Ok(())
}

// The verdict on a file that is whole words and no longer than a sheet can be.
fn check_words(place: u32, bytes: &[u8]) -> Refusal
    requires { length bytes.now ≤ max_bytes }
    ensures { result ≡ verdict place (words_of bytes.now) }
{
    let mut words = [0u32; MAX_WORDS];
    decode_all(bytes, &mut words);
    let n = bytes.len() / 4;
    verdict::check_as(place, &words[..n])
}

// The verdict on any bytes, as the file of the sheet that the caller counts as `place`: 33, then 1 to 17 of its words, or none.
pub fn check_bytes_as(place: u32, bytes: &[u8]) -> Refusal
    ensures { result ≡ bytes_verdict place bytes.now }
{
    match bytes_fault(bytes.len()) {
        Ok(()) => check_words(place, bytes),
        Err(fault) => fault.at(place, 0),
    }
}

// The verdict on any bytes where there is one file.
pub fn check_bytes(bytes: &[u8]) -> Refusal
    ensures { result ≡ bytes_verdict 1 bytes.now }
{
    check_bytes_as(1, bytes)
}
