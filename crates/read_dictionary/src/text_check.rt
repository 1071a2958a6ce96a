// The check of a dictionary text, where no name is compared with all before it: the names are kept
// while the lines are read in order, and sorted. Only where one is defined again does texts search
// for the first such line. A line that defines a name has at least five bytes, its line feed with
// it.
ghost use Rattle.std.specs.Prelude.{◌≡◌, length};
ghost use Rattle.std.proofs.lemmas.List.Edits.{sets};
ghost use Rattle.ascending.specs.Search.{is_strictly_ascending};
ghost use Rattle.ascending.specs.Sort.{sorted};
ghost use Rattle.texts.specs.DictionaryText.{counts, counted, order_of, dictionary_text_of};
ghost use Rattle.definitions.specs.PassAccepted.{tag_in, component_in, message_in};
ghost use Rattle.read_dictionary.specs.TextCheck.{NamesRoom, NamesRead};

use ascending::search::is_strictly_ascending;
use dictionary_order::dictionary_order::{Part, Stage, State, take_line};
use line_forms::line::line_of;
use lines::text::Text;
use lines::text_lines::TextLines;
use refusals::refusal::Refusal;
use sorting::sort::sort_unstable;
use texts::dictionary_text::{Counts, Defined, at_end, check_dictionary_text, defined_by};

// Counts a line, and keeps the name that it defines after those of its kind. The names of each kind
// stand in a space of their own, since each is sorted by itself.
fn keep_name(
    counts: Counts,
    defined: Option<Defined>,
    tags: &mut [u32],
    components: &mut [u32],
    messages: &mut [u32],
) -> Counts
    requires { NamesRoom counts tags.old components.old messages.old }
    ensures counts { result ≡ counted counts defined }
    ensures tags { tags.new ≡ sets tags.old counts.tags (tag_in defined) }
    ensures components { components.new ≡ sets components.old counts.components (component_in defined) }
    ensures messages { messages.new ≡ sets messages.old counts.messages (message_in defined) }
{
    let counts = Counts {
        lines: counts.lines + 1,
        ..counts
    };
    match defined {
        Some(Defined::Tag(tag)) => {
            tags[counts.tags as usize] = tag;
            Counts {
                tags: counts.tags + 1,
                ..counts
            }
        }
        Some(Defined::ComponentName(name)) => {
            components[counts.components as usize] = name;
            Counts {
                components: counts.components + 1,
                ..counts
            }
        }
        Some(Defined::MessageName(letters)) => {
            messages[counts.messages as usize] = letters;
            Counts {
                messages: counts.messages + 1,
                ..counts
            }
        }
        None => counts,
    }
}

// Reads the text from the top, refusals 2 to 4, and keeps the names that its lines define. `read`
// is what was counted up to the end or to the line that is refused.
fn read_lines(
    text: Text<'_>,
    read: &mut Counts,
    tags: &mut [u32],
    components: &mut [u32],
    messages: &mut [u32],
) -> Result<Counts, Refusal>
    requires none_counted { read.old ≡ counts 0 0 0 0 }
    requires tags_len { (length tags.old ≡ 13108) × ((length components.old ≡ 13108) × (length messages.old ≡ 13108)) }
    ensures outcome { result ≡ order_of text.entry.bytes.now }
    ensures names { NamesRead text.entry.bytes.now read.new tags.new components.new messages.new }
{
    let mut state = State {
        stage: Stage::Beginning,
        part: Part::NoBody,
        name: 0,
        depth: 0,
        counts: [0; 40],
    };
    for line in TextLines::new(text.bytes) {
        let number = read.lines + 1;
        let line = line_of(line.ok_or(Refusal::UnknownForm(number))?);
        state = take_line(state, number, line)?;
        *read = keep_name(*read, defined_by(line), tags, components, messages);
    }
    at_end(state, *read)
}

// Sorts the names: whether no two are the same.
fn are_once_each(names: &mut [u32]) -> bool
    ensures outcome { result ≡ is_strictly_ascending (sorted names.old) }
{
    sort_unstable(names);
    is_strictly_ascending(names)
}

// The first line that defines a name again, or is faulty in another way. It is compiled by itself,
// so that a text in which all names differ does not take its memory.
#[inline(never)]
fn check_again(text: Text<'_>) -> Result<Counts, Refusal>
    ensures { result ≡ dictionary_text_of text.entry.bytes.now }
{
    check_dictionary_text(text.bytes)
}

// Reads a dictionary text: what it has, or its first faulty line. The call's own memory for the
// names takes 157,296 bytes.
pub fn check_text(text: &[u8]) -> Result<Counts, Refusal>
    ensures outcome { result ≡ dictionary_text_of text.now }
{
    let text = Text::new(text).ok_or(Refusal::TextTooLong)?;
    // no heap: a line that defines something has at least five bytes, its line feed with it
    let mut tags = [0u32; 13108];
    let mut components = [0u32; 13108];
    let mut messages = [0u32; 13108];
    let mut counts = Counts::default();
    let outcome = read_lines(text, &mut counts, &mut tags, &mut components, &mut messages);
    if !are_once_each(&mut tags[..counts.tags as usize])
        || !are_once_each(&mut components[..counts.components as usize])
        || !are_once_each(&mut messages[..counts.messages as usize])
    {
        return check_again(text);
    }
    outcome
}
