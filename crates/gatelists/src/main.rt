// Prints the lists of the cases that cases.txt names: a dictionary file and a message file a line,
// with a space between them.
#![tactic(auto)]

use files::file::read_file;
use list_files::print::print_list;
use std::io;
use std::rt::Files;

fn main(rt: HostRuntime) -> io::Result<()> {
    // no heap: what stands in the file after so many bytes is not read
    let mut space = [0u8; 16384];
    match read_file(&rt, b"cases.txt", &mut space) {
        Some(cases) => print_cases(&rt, cases),
        None => Ok(()),
    }
}

// A line is its bytes, whatever they are: also those of a name that is not UTF-8.
fn print_cases<R: Files + Print + Eprint>(rt: &R, cases: &[u8]) -> io::Result<()> {
    for line in cases.split_inclusive(|byte| *byte == b'\n') {
        print_case(rt, line.strip_suffix(b"\n").unwrap_or(line))?;
    }
    Ok(())
}

// The case's line after `-- `, then its list.
fn print_case<R: Files + Print + Eprint>(rt: &R, line: &[u8]) -> io::Result<()> {
    rt.write_all(b"-- ")?;
    rt.write_all(line)?;
    rt.write_all(b"\n")?;
    match line.iter().position(|byte| *byte == b' ') {
        Some(space) => print_list(rt, &line[..space], &line[space + 1..]),
        None => Ok(()),
    }
}
