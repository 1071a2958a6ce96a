// The list of two files, printed. The sizes of the spaces, and why none is too small, stand in
// docs/GATELIST.md.
use files::file::read_file;
use listing::list_text::Listed;
use message_list::list::list;
use std::io;
use std::rt::Files;

// Prints the lines of the list.
fn print_lines<R: Print>(rt: &R, listed: Listed<'_>) -> io::Result<()> {
    // no heap: room for the longest line
    let mut out = [0u8; 65570];
    for index in 0..listed.line_count() {
        let size = listed.list_line(index, &mut out);
        rt.write_all(&out[..size])?;
    }
    Ok(())
}

// Prints the list of two texts.
fn print_texts<R: Print>(rt: &R, dictionary_text: &[u8], message: &[u8]) -> io::Result<()> {
    // no heap: room for the largest of each (docs/GATELIST.md)
    let mut words = [0u32; 131068];
    let mut layout = [0u32; 59399];
    let mut fields = [0u32; 65536];
    let mut events = [0u64; 153600];
    let mut verdicts = [0u64; 4096];
    let shape = list(
        dictionary_text,
        message,
        &mut words,
        &mut layout,
        &mut fields,
        &mut events,
        &mut verdicts,
    );
    let listed = Listed {
        shape,
        message,
        events: &events,
        verdicts: &verdicts,
    };
    print_lines(rt, listed)
}

// Prints the list of two files. Where one of them cannot be read, nothing is printed but the
// reason, on standard error.
pub fn print_list<R: Files + Print + Eprint>(
    rt: &R,
    dictionary_name: &[u8],
    message_name: &[u8],
) -> io::Result<()> {
    // no heap: room for the longest text, 65,536 bytes, and one more, which a longer text fills
    let mut dictionary_space = [0u8; 65537];
    let Some(dictionary_text) = read_file(rt, dictionary_name, &mut dictionary_space) else {
        return Ok(());
    };
    let mut message_space = [0u8; 65537];
    let Some(message) = read_file(rt, message_name, &mut message_space) else {
        return Ok(());
    };
    print_texts(rt, dictionary_text, message)
}
