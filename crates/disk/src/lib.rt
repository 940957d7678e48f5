// A file's bytes, for the programs. What a file system answers is beyond any statement: whoever is handed the bytes takes any.
#![tactic(auto)]

ghost use Rattle.io.specs.Counts.{IsPrefixLen};

use std::fs;
use std::io::Read;
use std::rt::Files;

// Reads until the buffer is full, the input ends or a read fails: how many bytes are now at its front.
fn read_full(file: &mut impl Read, buf: &mut [u8]) -> usize
    ensures { IsPrefixLen result buf.new }
{
    let mut done = 0;
    while done < buf.len() {
        match file.read(&mut buf[done..]) {
            Ok(0) => break,
            Ok(n) => done += n,
            Err(_) => break,
        }
    }
    done
}

// The bytes of a file at the front of the buffer, as many as it holds: none where the file can't be opened, or not read to its end. A path that is not UTF-8 can't be opened.
pub fn load(rt: &impl Files, path: &[u8], buf: &mut [u8]) -> usize
    ensures { IsPrefixLen result buf.new }
{
    let Ok(path) = str::from_utf8(path) else {
        return 0;
    };
    let Ok(mut file) = fs::open(rt, path) else {
        return 0;
    };
    let n = read_full(&mut file, buf);
    let mut more = [0u8; 1];
    match file.read(&mut more) {
        Ok(_) => n,
        Err(_) => 0,
    }
}
