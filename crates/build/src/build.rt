// The message level of an expansion: the Rust's `build` (scope.rs). Header and trailer, then the message's body, each added at the top with no component open.
ghost use Rattle.std.specs.Prelude.{◌≡◌, true, ◌||◌, [], ◌+◌};
ghost use Rattle.ascii.specs.Notation.{◌≡ᵇ◌};
ghost use Rattle.dictionary.specs.DictionaryWords.{place_of, word_lines};
ghost use Rattle.bodies.specs.DictionaryLookups.{Begins};
ghost use Rattle.expansion.specs.Trace.{Fits};
ghost use Rattle.bodies.specs.ExpansionPromises.{fill_at, Uses};
ghost use Rattle.build.specs.BuildPromises.{Built, Traced};

use bodies::add_body::add_body;
use definitions::definitions::message_of;
use dictionary::dictionary::Dictionary;
use expansion::builder::{Builder, Stop};
use records::record_kind::RecordKind;
use refusals::refusal::Refusal;

// Document 01: "top 0; over 32 refuses". So 33 depths are left at the top.
const DEPTHS: usize = 33;

// A record of this kind defines a tag or a value that it admits.
fn is_definition(kind: u32) -> bool
    ensures { result ≡ (kind ≡ᵇ 1 || kind ≡ᵇ 2) }
{
    kind == u32::from(RecordKind::Def) || kind == u32::from(RecordKind::Value)
}

// The place of the line that opens the header: the definitions stand before it, and none after it. So it is found by halving.
fn header_of(dictionary: Dictionary<'_>) -> usize
    ensures { result ≡ place_of 3 0 (word_lines dictionary.entry.words.now) }
{
    dictionary
        .records()
        .partition_point(|record| is_definition(record[0]))
}

// The place of the line that opens the trailer, which stands after the header's.
fn trailer_of(dictionary: Dictionary<'_>, header: usize) -> usize
    requires { header ≡ place_of 3 0 (word_lines dictionary.words.now) }
    ensures { result ≡ place_of 4 0 (word_lines dictionary.entry.words.now) }
{
    let behind = dictionary.records()[header..]
        .iter()
        .position(|record| record[0] == u32::from(RecordKind::BeginTrailer));
    header + behind.unwrap()
}

// Adds the body after a line to the message level.
fn add_top(
    dictionary: Dictionary<'_>,
    line: usize,
    trace: &mut [u64],
    builder: Builder,
) -> Result<Builder, Stop>
    requires { Begins dictionary.words.now line × Fits builder }
    ensures { Uses (fill_at dictionary.entry.words.now 33 [] true (line + 1)) builder trace.old result trace.new }
{
    let (_, filled) = add_body(dictionary, line + 1, DEPTHS, &[], true, trace, builder)?;
    Ok(filled)
}

// Builds the message level: header and trailer, then the fields, groups and uses of the message whose line is at this place.
pub fn build(dictionary: Dictionary<'_>, message: usize, trace: &mut [u64]) -> Result<Builder, Stop>
    requires { Begins dictionary.words.now message }
    ensures { Built dictionary.entry.words.now message result trace.new }
{
    let header = header_of(dictionary);
    let trailer = trailer_of(dictionary, header);
    let nothing = Builder {
        nodes: 0,
        members: 0,
        required: 0,
        len: 0,
    };
    let head = add_top(dictionary, header, trace, nothing)?;
    let envelope = add_top(dictionary, trailer, trace, head)?;
    add_top(dictionary, message, trace, envelope)
}

// Writes the trace of the expansion of the message type.
pub fn expand(dictionary: Dictionary<'_>, value: &[u8], trace: &mut [u64]) -> Result<Builder, Stop>
    ensures { Traced dictionary.entry.words.now value.now result trace.new }
{
    let Some(number) = message_of(dictionary, value) else {
        return Err(Stop::Error(Refusal::TypeNotDefined));
    };
    build(dictionary, number, trace)
}
