// The lines of the list, written as bytes into lent space, since the gate has no heap (document 01,
// 'One list in full').
ghost use Rattle.std.specs.Prelude.{◌+◌, ◌≤◌, length};
ghost use Rattle.list_lines.specs.ListLines.{numeral_of, labelled, type_line, kind_name, event_line, verdict_digits, verdict_line, refused_line};
ghost use Rattle.list_lines.specs.ListLinesLaws.{Put};

use itoa::Buffer;
use refusals::refusal::Refusal;

// Writes the bytes from `at` on, and gives the place after them. The gate has no heap, so a list is
// written into lent bytes, and no text is made of it first.
fn put_text(out: &mut [u8], at: usize, text: &[u8]) -> usize
    requires { at + length text.now ≤ length out.old }
    ensures { Put out.old out.new at result text.now }
{
    let past = at + text.len();
    out[at..past].copy_from_slice(text);
    past
}

// Writes the number in decimal.
fn put_number(out: &mut [u8], at: usize, number: u64) -> usize
    requires { at + 20 ≤ length out.old }
    ensures { Put out.old out.new at result (numeral_of number) }
{
    put_text(out, at, Buffer::new().format(number).as_bytes())
}

// Writes the label and the number.
fn put_labelled(out: &mut [u8], at: usize, label: &[u8], number: u64) -> usize
    requires { at + length label.now + 20 ≤ length out.old }
    ensures { Put out.old out.new at result (labelled label.now number) }
{
    let digits = put_text(out, at, label);
    put_number(out, digits, number)
}

// Writes the line with the message's type and its number of fields.
pub fn put_type_line(out: &mut [u8], at: usize, message_type: &[u8], fields: u64) -> usize
    requires { at + length message_type.now + 34 ≤ length out.old }
    ensures { Put out.old out.new at result (type_line message_type.now fields) }
{
    let value = put_text(out, at, b"type=");
    let label = put_text(out, value, message_type);
    let end = put_labelled(out, label, b" fields=", fields);
    put_text(out, end, b"\n")
}

// Writes the name of an event's kind. The kind is a number here since it is read from the words of
// an event, as C reads them.
fn put_kind(out: &mut [u8], at: usize, kind: u64) -> usize
    requires { at + 8 ≤ length out.old }
    ensures { Put out.old out.new at result (kind_name kind) }
{
    let name: &[u8] = match kind {
        1 => b"enter",
        2 => b"badcount",
        3 => b"delim",
        4 => b"repeat",
        5 => b"close",
        6 => b"miscount",
        7 => b"deep",
        8 => b"leave",
        9 => b"twice",
        10 => b"foreign",
        11 => b"missing",
        _ => b"",
    };
    put_text(out, at, name)
}

// Writes the line of an event: at most 115 bytes.
pub fn put_event_line(
    out: &mut [u8],
    at: usize,
    kind: u64,
    group: u64,
    depth: u64,
    a: u64,
    b: u64,
) -> usize
    requires { at + 115 ≤ length out.old }
    ensures { Put out.old out.new at result (event_line kind group depth a b) }
{
    let name = put_text(out, at, b"event=");
    let group_at = put_kind(out, name, kind);
    let depth_at = put_labelled(out, group_at, b" group=", group);
    let a_at = put_labelled(out, depth_at, b" depth=", depth);
    let b_at = put_labelled(out, a_at, b" a=", a);
    let end = put_labelled(out, b_at, b" b=", b);
    put_text(out, end, b"\n")
}

// Writes a digit for each verdict.
fn put_verdicts(out: &mut [u8], at: usize, verdicts: &[u64]) -> usize
    requires { at + length verdicts.now ≤ length out.old }
    ensures { Put out.old out.new at result (verdict_digits verdicts.now) }
{
    for (index, verdict) in verdicts.iter().enumerate() {
        out[at + index] = b'0' + (verdict % 10) as u8;
    }
    at + verdicts.len()
}

// Writes the line with one verdict digit a field.
pub fn put_verdict_line(out: &mut [u8], at: usize, verdicts: &[u64]) -> usize
    requires { at + length verdicts.now + 10 ≤ length out.old }
    ensures { Put out.old out.new at result (verdict_line verdicts.now) }
{
    let digits = put_text(out, at, b"verdicts=");
    let end = put_verdicts(out, digits, verdicts);
    put_text(out, end, b"\n")
}

// Writes the line of a refusal.
pub fn put_refused_line(out: &mut [u8], at: usize, refusal: Refusal) -> usize
    requires { at + 56 ≤ length out.old }
    ensures { Put out.old out.new at result (refused_line refusal) }
{
    let place = put_labelled(out, at, b"refused=", refusal.number());
    let end = put_labelled(out, place, b" place=", refusal.place());
    put_text(out, end, b"\n")
}
