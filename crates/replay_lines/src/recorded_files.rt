// A recorded list, replayed line by line: its lines as bytes, in a buffer, or as text, on the heap.
use crate::cases::{ByteCases, Cases, NotReplayed, Replayed, Unread};
use crate::lines::{first_line, next_line};
use files::file::{open_named, say_unread};
use std::alloc::AllocError;
use std::io;
use std::io::{BufRead, BufReader, Read};
use std::rt::Files;

// How many cases ran, how many of them differ, and how many lines are of no known form.
#[derive(Clone, Copy, Default)]
pub struct Tally {
    pub cases: u64,
    pub differ: u64,
    pub unread: u64,
}

impl Tally {
    // One case more, and so many that differ or are of no known form.
    fn add(&mut self, differ: u64, unread: u64) {
        self.cases = self.cases.wrapping_add(1);
        self.differ = self.differ.wrapping_add(differ);
        self.unread = self.unread.wrapping_add(unread);
    }
}

// Replays the list that the file holds. Where it cannot be opened, the reason is said on standard
// error.
pub fn replay_list<R: Files + Print + Eprint, C: ByteCases>(
    rt: &R,
    name: &[u8],
    cases: C,
) -> io::Result<Tally> {
    match open_named(rt, name) {
        Ok(mut file) => replay_open(rt, &mut file, cases),
        Err(error) => {
            say_unread(rt, name, error);
            Ok(Tally::default())
        }
    }
}

// Replays the list that the file holds, which is open, with room for its longest line. It is
// compiled by itself, so that the room is taken only while the list is replayed.
#[inline(never)]
fn replay_open<R: Print, F: Read, C: ByteCases>(
    rt: &R,
    file: &mut F,
    cases: C,
) -> io::Result<Tally> {
    let mut buffer = [0u8; 131072];
    replay_lines(rt, file, &mut buffer, cases)
}

// A proved loop has to end, and nothing says that a file does: it takes as many turns as no run
// uses up.
fn replay_lines<R: Print, F: Read, C: ByteCases>(
    rt: &R,
    file: &mut F,
    buffer: &mut [u8],
    mut cases: C,
) -> io::Result<Tally> {
    let mut tally = Tally::default();
    let mut line = first_line(file, buffer);
    for _ in 0..0xffff_ffffu64 {
        let Some(read) = line else {
            return Ok(tally);
        };
        replay_line(rt, &buffer[read.first..read.past], &mut cases, &mut tally)?;
        line = next_line(file, buffer, read);
    }
    Ok(tally)
}

// Replays the line, and prints it where it differs or is of no known form. One that is empty or
// begins with # is a comment.
fn replay_line<R: Print, C: ByteCases>(
    rt: &R,
    line: &[u8],
    cases: &mut C,
    tally: &mut Tally,
) -> io::Result<()> {
    if line.is_empty() || line.starts_with(b"#") {
        return Ok(());
    }
    match cases.replay(line) {
        Ok(None) => Ok(()),
        Ok(Some(Replayed::Same)) => {
            tally.add(0, 0);
            Ok(())
        }
        Ok(Some(Replayed::Differs)) => {
            tally.add(1, 0);
            print_line(rt, b"differs: ", line)
        }
        Err(Unread::NoForm) => {
            tally.add(0, 1);
            print_line(rt, b"of no known form: ", line)
        }
    }
}

fn print_line<R: Print>(rt: &R, what: &[u8], line: &[u8]) -> io::Result<()> {
    rt.write_all(what)?;
    rt.write_all(line)?;
    rt.write_all(b"\n")
}

// Replays the list that the file holds, each line as text. Where it cannot be opened, the reason is
// said on standard error. It ends with an error where a read fails, a line is no UTF-8 or there is no
// memory.
pub fn replay_file<R: Files + Print + Eprint + AllocGlobal, C: Cases>(
    rt: &R,
    name: &[u8],
    cases: C,
) -> io::Result<Tally> {
    match open_named(rt, name) {
        Ok(file) => replay_open_text(rt, file, cases),
        Err(error) => {
            say_unread(rt, name, error);
            Ok(Tally::default())
        }
    }
}

// Replays the list that the file holds, which is open.
fn replay_open_text<R: Print + AllocGlobal, F: Read + Drop, C: Cases>(
    rt: &R,
    file: F,
    mut cases: C,
) -> io::Result<Tally> {
    let mut tally = Tally::default();
    for line in BufReader::new(rt.alloc(), file)?.lines(rt.alloc()) {
        let line = line?;
        replay_text(rt, line.as_str(), &mut cases, &mut tally)?;
    }
    Ok(tally)
}

// The same as `replay_line`, of a line of text.
fn replay_text<R: Print, C: Cases>(
    rt: &R,
    line: &str,
    cases: &mut C,
    tally: &mut Tally,
) -> io::Result<()> {
    if line.is_empty() || line.starts_with('#') {
        return Ok(());
    }
    match cases.replay(line) {
        Ok(None) => Ok(()),
        Ok(Some(Replayed::Same)) => {
            tally.add(0, 0);
            Ok(())
        }
        Ok(Some(Replayed::Differs)) => {
            tally.add(1, 0);
            print_line(rt, b"differs: ", line.as_bytes())
        }
        Err(NotReplayed::NoForm) => {
            tally.add(0, 1);
            print_line(rt, b"of no known form: ", line.as_bytes())
        }
        Err(NotReplayed::OutOfMemory) => Err(io::Error::from(AllocError)),
    }
}
