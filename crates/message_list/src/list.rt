// The list of one message: the calls of the gate, one after the other (document 01, 'One list in full').
ghost use Rattle.std.specs.Prelude.{◌≡◌, false, ◌≤◌, length, Ok};
ghost use Rattle.read_dictionary.specs.ReadDictionary.{read_in};
ghost use Rattle.validator.specs.MessageCall.{events_in};
ghost use Rattle.verdicts.specs.Verdicts.{judged_of, verdicts_in};
ghost use Rattle.expand.specs.ExpandCall.{expanded_in};
ghost use Rattle.message_text.specs.MessageText.{fields_in};
ghost use Rattle.message_text.specs.MessageType.{type_place_of};
ghost use Rattle.listing.specs.ListText.{Held};
ghost use Rattle.message_list.specs.ListCall.{shape_of, on_judged, list_of_layout, verdicts_of_layout, type_of_fields, list_of_fields, events_of_fields, verdicts_of_fields, list_of_message, layout_of_message, events_of_message, verdicts_of_message, list_of, layout_of, fields_of, events_of, verdicts_of};

use expand::expand_call::expand;
use listing::list_text::Shape;
use message_text::message_text::read_message;
use message_text::message_type::{Stretch, message_type};
use read_dictionary::read_dictionary::read_dictionary;
use refusals::refusal::Refusal;
use validator::message_call::walk_message;
use verdicts::verdicts_call::check_values;

// The verdicts, after a walk that wrote so many words of events.
fn list_verdicts(
    dictionary: &[u32],
    fields: &[u32],
    message: &[u8],
    message_type: Stretch,
    event_words: usize,
    verdicts: &mut [u64],
) -> Result<Shape, Refusal>
    ensures outcome { result ≡ on_judged (judged_of dictionary.now fields.now message.now verdicts.old) (λ count. Ok (shape_of message_type count event_words)) }
    ensures memory { verdicts.new ≡ verdicts_in dictionary.now fields.now message.now false verdicts.old }
{
    let words = check_values(dictionary, fields, message, false, verdicts)?;
    Ok(Shape {
        message_type,
        fields: words,
        events: event_words / 5,
    })
}

// The message walk, then the verdicts.
fn list_events(
    dictionary: &[u32],
    layout: &[u32],
    fields: &[u32],
    message: &[u8],
    message_type: Stretch,
    events: &mut [u64],
    verdicts: &mut [u64],
) -> Result<Shape, Refusal>
    ensures outcome { result ≡ list_of_layout dictionary.now layout.now fields.now message.now events.old verdicts.old message_type }
    ensures events { events.new ≡ events_in dictionary.now layout.now fields.now message.now events.old }
    ensures verdicts { verdicts.new ≡ verdicts_of_layout dictionary.now layout.now fields.now message.now events.old verdicts.old }
{
    let words = walk_message(dictionary, layout, fields, message, events)?;
    list_verdicts(dictionary, fields, message, message_type, words, verdicts)
}

// The expansion of the message's type, then the walk and the verdicts. The type stands inside the message.
fn list_fields(
    dictionary: &[u32],
    fields: &[u32],
    message: &[u8],
    layout: &mut [u32],
    events: &mut [u64],
    verdicts: &mut [u64],
) -> Result<Shape, Refusal>
    requires { ((type_place_of fields.now).first ≤ (type_place_of fields.now).past) × ((type_place_of fields.now).past ≤ length message.now) }
    ensures outcome { result ≡ list_of_fields dictionary.now fields.now message.now layout.old events.old verdicts.old }
    ensures layout { layout.new ≡ expanded_in dictionary.now (type_of_fields fields.now message.now) layout.old }
    ensures events { events.new ≡ events_of_fields dictionary.now fields.now message.now layout.old events.old verdicts.old }
    ensures verdicts { verdicts.new ≡ verdicts_of_fields dictionary.now fields.now message.now layout.old events.old verdicts.old }
{
    let part = message_type(fields);
    let first = part.first;
    let past = part.past;
    let expanded = expand(dictionary, &message[first..past], layout)?;
    let words = expanded.words;
    list_events(
        dictionary,
        &layout[0..words],
        fields,
        message,
        part,
        events,
        verdicts,
    )
}

// The message text, then what its fields are for.
fn list_message(
    dictionary: &[u32],
    message: &[u8],
    layout: &mut [u32],
    fields: &mut [u32],
    events: &mut [u64],
    verdicts: &mut [u64],
) -> Result<Shape, Refusal>
    ensures outcome { result ≡ list_of_message dictionary.now message.now layout.old fields.old events.old verdicts.old }
    ensures layout { layout.new ≡ layout_of_message dictionary.now message.now layout.old fields.old events.old verdicts.old }
    ensures fields { fields.new ≡ fields_in message.now fields.old }
    ensures events { events.new ≡ events_of_message dictionary.now message.now layout.old fields.old events.old verdicts.old }
    ensures verdicts { verdicts.new ≡ verdicts_of_message dictionary.now message.now layout.old fields.old events.old verdicts.old }
{
    let count = read_message(message, fields)?;
    let size = 3 * count;
    list_fields(
        dictionary,
        &fields[0..size],
        message,
        layout,
        events,
        verdicts,
    )
}

// The list of a message by a dictionary text, each call lent its space: dictionary words, layout words, field table, event words, verdicts.
pub fn list(
    dictionary_text: &[u8],
    message: &[u8],
    words: &mut [u32],
    layout: &mut [u32],
    fields: &mut [u32],
    events: &mut [u64],
    verdicts: &mut [u64],
) -> Result<Shape, Refusal>
    ensures outcome { result ≡ list_of dictionary_text.now message.now words.old layout.old fields.old events.old verdicts.old }
    ensures words { words.new ≡ read_in dictionary_text.now words.old }
    ensures layout { layout.new ≡ layout_of dictionary_text.now message.now words.old layout.old fields.old events.old verdicts.old }
    ensures fields { fields.new ≡ fields_of dictionary_text.now message.now words.old layout.old fields.old events.old verdicts.old }
    ensures events { events.new ≡ events_of dictionary_text.now message.now words.old layout.old fields.old events.old verdicts.old }
    ensures verdicts { verdicts.new ≡ verdicts_of dictionary_text.now message.now words.old layout.old fields.old events.old verdicts.old }
    ensures held { Held result message.now events.new verdicts.new }
{
    let size = read_dictionary(dictionary_text, words)?;
    list_message(&words[0..size], message, layout, fields, events, verdicts)
}
