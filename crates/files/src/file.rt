// Files, read whole into lent space.
ghost use Rattle.files.specs.Files.{Within};
ghost use Rattle.std.specs.Prelude.{◌≤◌, length, IfOk};

use std::io::Read;
use std::rt::Files;
use std::{fs, io};

// Reads the file's first bytes, as many as there is space for, and gives that part of the space: a
// file that fills it may be longer. None where it was not read: standard error says why.
pub fn read_file<'a, R: Files + Eprint>(
    rt: &R,
    name: &[u8],
    space: &'a mut [u8],
) -> Option<&'a [u8]>
    ensures { Within result (length space.old) }
{
    match read_named(rt, name, space) {
        Ok(size) => Some(&space[..size]),
        Err(error) => {
            say_unread(rt, name, error);
            None
        }
    }
}

// Opens the file for reading. No name but UTF-8 can be opened.
pub fn open_named<R: Files>(rt: &R, name: &[u8]) -> io::Result<R::File> {
    match str::from_utf8(name) {
        Ok(path) => fs::open(rt, path),
        Err(_) => Err(io::Error::from(io::ErrorKind::InvalidFilename)),
    }
}

// Says on standard error why the file was not read.
pub fn say_unread(rt: &impl Eprint, name: &[u8], error: io::Error) {
    let _ = eprintln!(rt; "{}: {error}", name.escape_ascii());
}

// Reads the file, and answers how many bytes it put at the start of the space. A read that fails
// looks to `read_full` like the file's end: one read more tells them apart, into a byte of its own, since
// there is no heap.
fn read_named<R: Files>(rt: &R, name: &[u8], space: &mut [u8]) -> io::Result<usize>
    ensures { IfOk result (λ size. size ≤ length space.new) }
{
    let mut file = open_named(rt, name)?;
    let size = read_full(&mut file, space);
    if size < space.len() {
        file.read(&mut [0u8; 1])?;
    }
    Ok(size)
}

// Reads until the space is full, the file ends or a read fails, and answers how many bytes it put
// at the start of the space. A read gives any number of bytes, so no iterator counts the turns.
pub fn read_full<F: Read>(file: &mut F, space: &mut [u8]) -> usize
    ensures { result ≤ length space.new }
{
    let mut done: usize = 0;
    while done < space.len() {
        match file.read(&mut space[done..]) {
            Ok(0) => return done,
            Ok(count) => done += count,
            Err(_) => return done,
        }
    }
    done
}
