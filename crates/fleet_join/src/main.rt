// The joining program: joins `first.sheet` and `second.sheet` of the working folder into `joint.sheet`, and says what was joined or refused.
#![tactic(auto)]

use files::MAX_BYTES;
use join::Joined;
use std::fs::{File, OpenFile};
use std::io::{ErrorKind, Write};
use std::random::RandomSource;
use std::rt::Files;
use std::{fs, io};

// How many names are tried for a new file, before there is said to be no free one.
const MOST_NAMES: u32 = 1000;

// A file's name as text. It is ASCII, and so it is text.
fn as_text(name: &[u8]) -> &str {
    str::from_utf8(name).unwrap_or("")
}

// Makes a file of a free name beside the joint sheet, with the rights of any new file. The name's last six letters are drawn.
fn make_beside<R: Files + RandomSource>(rt: &R, name: &mut [u8; 18]) -> io::Result<R::File> {
    for _ in 0..MOST_NAMES {
        let mut drawn = [0u8; 6];
        rt.fill_bytes(&mut drawn)?;
        for (letter, byte) in name[12..].iter_mut().zip(drawn) {
            *letter = b'a' + byte % 26;
        }
        match File::create_new(rt, as_text(name)) {
            Err(e) if e.kind() == ErrorKind::AlreadyExists => {}
            made => return made,
        }
    }
    Err(io::Error::from(ErrorKind::AlreadyExists))
}

// Puts the bytes into the file and on its device, and closes it.
fn fill<F: Write + OpenFile + Drop>(mut file: F, bytes: &[u8]) -> io::Result<()> {
    file.write_all(bytes)?;
    file.sync_all()
}

// Writes a line to standard error: what failed, a colon and why, without the number that stands behind the system's own words.
fn fail(rt: &impl Eprint, what: &str, error: &io::Error) {
    let mut text = [0u8; 320];
    let mut room = &mut text[..];
    let _ = write!(room, "{error}");
    let left = room.len();
    let n = 320usize.saturating_sub(left);
    let all = as_text(&text[..n]);
    let said = match all.split_once(" (os error ") {
        Some((said, _)) => said,
        None => all,
    };
    let _ = eprintln!(rt; "{what}: {said}");
}

// Whether the joint sheet now has the bytes. It gets them whole or not at all: where anything fails, what was there stays, nothing is left beside it, and standard error says why.
fn store_joint(rt: &(impl Files + RandomSource + Eprint), bytes: &[u8]) -> bool {
    let mut name = *b"joint.sheet.XXXXXX";
    let file = match make_beside(rt, &mut name) {
        Ok(file) => file,
        Err(e) => {
            fail(rt, "joint.sheet", &e);
            return false;
        }
    };
    let name = as_text(&name);
    let stored = match fill(file, bytes) {
        Ok(()) => fs::rename(rt, name, "joint.sheet"),
        Err(e) => Err(e),
    };
    match stored {
        Ok(()) => true,
        Err(e) => {
            fail(rt, "joint.sheet", &e);
            let _ = fs::remove_file(rt, name);
            false
        }
    }
}

fn tell(rt: &(impl Print + Eprint), j: Joined) {
    let mut text = [0u8; join_files::LONGEST];
    let n = join_files::report(j, &mut text);
    if let Err(e) = io::writer(rt).write_all(&text[0..n]) {
        fail(rt, "standard output", &e);
    }
}

// Nothing is said of a join before its file is there.
fn join_and_tell(rt: &(impl Files + RandomSource + Print + Eprint), first: &[u8], second: &[u8]) {
    let mut out = [0u8; MAX_BYTES];
    let j = join_files::join_files(first, second, &mut out);
    if j.number == 0 {
        let n = 4 * (j.words as usize);
        if !store_joint(rt, &out[0..n]) {
            return;
        }
    }
    tell(rt, j);
}

// The buffers are longer than any sheet's file, so a file that is cut short by one gets 33, as it would whole.
fn main(rt: HostRuntime) {
    let mut first = [0u8; 65536];
    let n = disk::load(&rt, b"first.sheet", &mut first);
    let mut second = [0u8; 65536];
    let m = disk::load(&rt, b"second.sheet", &mut second);
    join_and_tell(&rt, &first[..n], &second[..m]);
}
