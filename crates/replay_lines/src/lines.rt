// The lines of a file, one after the other in a buffer that is filled anew where a line does
// not end in it.
ghost use Rattle.std.specs.Prelude.{ℕ, ◌≤◌, ◌<◌, length, IfSome};

use files::file::read_full;
use std::io::Read;

// Where a line stands in the buffer, without its line feed, and where the bytes that were read end.
#[derive(Clone, Copy)]
pub struct Line {
    pub first: usize,
    pub past: usize,
    pub filled: usize,
}

// The file's first line; None where no line feed stands in a buffer of its bytes.
pub fn first_line<F: Read>(file: &mut F, buffer: &mut [u8]) -> Option<Line>
    ensures { IfSome result (λ line. (line.first ≤ line.past) × (line.past < line.filled) × (line.filled ≤ length buffer.new)) }
{
    refill(file, buffer, 0, 0)
}

// The line after this one; None after the last line feed, and before a line that the buffer is too
// small for.
pub fn next_line<F: Read>(file: &mut F, buffer: &mut [u8], line: Line) -> Option<Line>
    requires { (line.first ≤ line.past) × (line.past ≤ line.filled) × (line.filled ≤ length buffer.old) }
    ensures { IfSome result (λ next. (next.first ≤ next.past) × (next.past < next.filled) × (next.filled ≤ length buffer.new)) }
{
    let filled = line.filled;
    if filled <= line.past {
        return refill(file, buffer, filled, filled);
    }
    let first = line.past + 1;
    match feed_in(&buffer[first..filled]) {
        Some(size) => Some(Line {
            first,
            past: first + size,
            filled,
        }),
        None => refill(file, buffer, first, filled),
    }
}

// Moves the bytes from `first` on to the front, reads more after them, and gives the line at the
// front.
fn refill<F: Read>(file: &mut F, buffer: &mut [u8], first: usize, filled: usize) -> Option<Line>
    requires { (first ≤ filled) × (filled ≤ length buffer.old) }
    ensures { IfSome result (λ line. (line.first ≤ line.past) × (line.past < line.filled) × (line.filled ≤ length buffer.new)) }
{
    buffer.copy_within(first..filled, 0);
    let kept = filled - first;
    let got = read_full(file, &mut buffer[kept..]);
    let filled = kept + got;
    let past = feed_in(&buffer[..filled])?;
    Some(Line {
        first: 0,
        past,
        filled,
    })
}

// Where the first line feed stands.
fn feed_in(bytes: &[u8]) -> Option<usize>
    ensures { IfSome result (λ place. place < length bytes.now) }
{
    bytes.iter().position(|byte| *byte == b'\n')
}
