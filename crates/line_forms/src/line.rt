// The forms of a line, of the dictionary text and of the layout text.
ghost use Rattle.std.specs.Prelude.{◌≡◌, MatchOption, true, false, length, drop};
ghost use Rattle.std.specs.Option.{unwrap_or};
ghost use Rattle.line_forms.specs.declared.line.Line.TheVariants.{Unknown};
ghost use Rattle.line_forms.specs.LineForms.{def_of, begin_of, message_of, numbered_flag, field_of, group_of, use_of, end_of, line_of, definition_line_of, block_line_of};
ghost use Rattle.lines.specs.Lines.{starts_with};

use lines::line_parts::{
    Admitted, parse_flag, parse_message_type, parse_number, parse_type, parse_value,
};
use lines::lines::{before, behind, is_same, starts_with};

#[derive(Clone, Copy)]
pub enum Line {
    // def=TAG,TYPE: the tag, and the place of TYPE among the names of FieldType
    Def(u32, u32),
    // value=V
    Value(Admitted),
    // begin=header
    BeginHeader,
    // begin=trailer
    BeginTrailer,
    // end=header
    EndHeader,
    // end=trailer
    EndTrailer,
    // component=N
    Component(u32),
    // message=T,app (true) or message=T,admin (false)
    Message(u32, bool),
    // field=TAG,R
    Field(u32, bool),
    // group=COUNT,DELIMITER,R
    Group(u32, u32, bool),
    // use=N,R
    Use(u32, bool),
    // end=N, end=COUNT, end=T: what stands there as a number, and as a message type
    End(Option<u32>, Option<u32>),
    // member=TAG
    Member(u32),
    // required=TAG
    RequiredTag(u32),
    // any other line
    Unknown,
}

// What stands after the key, if the bytes start with it. The library's strip_prefix was tried: the
// reading of a dictionary text takes a twentieth more instructions with it.
#[inline(always)]
fn after<'a>(bytes: &'a [u8], key: &[u8]) -> Option<&'a [u8]>
    ensures { MatchOption result (starts_with key.now bytes.now ≡ false) (λ rest. (starts_with key.now bytes.now ≡ true) × (rest.now ≡ drop (length key.now) bytes.now)) }
{
    if starts_with(bytes, key) {
        return Some(&bytes[key.len()..]);
    }
    None
}

// TAG,TYPE
#[tactic(auto, unfolding(crate::specs::LineForms::def_of))]
fn def_line(rest: &[u8]) -> Option<Line>
    ensures { unwrap_or result Unknown ≡ def_of rest.now }
{
    let tag = parse_number(before(rest, b','))?;
    let place = parse_type(behind(rest, b','))?;
    Some(Line::Def(tag, place))
}

#[tactic(auto, unfolding(crate::specs::LineForms::begin_of))]
fn begin_line(rest: &[u8]) -> Option<Line>
    ensures { unwrap_or result Unknown ≡ begin_of rest.now }
{
    if is_same(rest, b"header") {
        return Some(Line::BeginHeader);
    }
    if is_same(rest, b"trailer") {
        return Some(Line::BeginTrailer);
    }
    None
}

// T,app or T,admin
#[tactic(auto, unfolding(crate::specs::LineForms::message_of))]
fn message_line(rest: &[u8]) -> Option<Line>
    ensures { unwrap_or result Unknown ≡ message_of rest.now }
{
    let name = parse_message_type(before(rest, b','))?;
    let kind = behind(rest, b',');
    let app = is_same(kind, b"app");
    if app || is_same(kind, b"admin") {
        return Some(Line::Message(name, app));
    }
    None
}

// TAG,R or DELIMITER,R or N,R
fn parse_numbered_flag(rest: &[u8]) -> Option<(u32, bool)>
    ensures { result ≡ numbered_flag rest.now }
{
    parse_number(before(rest, b',')).zip(parse_flag(behind(rest, b',')))
}

// COUNT,DELIMITER,R
#[tactic(auto, unfolding(crate::specs::LineForms::group_of, crate::specs::LineForms::group_rest))]
fn group_line(rest: &[u8]) -> Option<Line>
    ensures { unwrap_or result Unknown ≡ group_of rest.now }
{
    let count = parse_number(before(rest, b','))?;
    let (delimiter, required) = parse_numbered_flag(behind(rest, b','))?;
    Some(Line::Group(count, delimiter, required))
}

// header, trailer, N, COUNT or T
#[tactic(auto, unfolding(crate::specs::LineForms::end_of))]
fn end_line(rest: &[u8]) -> Option<Line>
    ensures { unwrap_or result Unknown ≡ end_of rest.now }
{
    if is_same(rest, b"header") {
        return Some(Line::EndHeader);
    }
    if is_same(rest, b"trailer") {
        return Some(Line::EndTrailer);
    }
    match (parse_number(rest), parse_message_type(rest)) {
        (None, None) => None,
        (number, name) => Some(Line::End(number, name)),
    }
}

// A line of a block, or a line of a layout text.
#[tactic(auto, unfolding(crate::specs::LineForms::block_line_of))]
fn block_line(bytes: &[u8]) -> Option<Line>
    ensures { unwrap_or result Unknown ≡ block_line_of bytes.now }
{
    if let Some(name) = after(bytes, b"component=") {
        return parse_number(name).map(Line::Component);
    }
    if let Some(rest) = after(bytes, b"message=") {
        return message_line(rest);
    }
    if let Some(tag) = after(bytes, b"member=") {
        return parse_number(tag).map(Line::Member);
    }
    parse_number(after(bytes, b"required=")?).map(Line::RequiredTag)
}

#[tactic(auto, unfolding(crate::specs::LineForms::definition_line_of))]
fn definition_line(bytes: &[u8]) -> Option<Line>
    ensures { unwrap_or result Unknown ≡ definition_line_of bytes.now }
{
    if let Some(rest) = after(bytes, b"def=") {
        return def_line(rest);
    }
    if let Some(value) = after(bytes, b"value=") {
        return parse_value(value).map(Line::Value);
    }
    if let Some(rest) = after(bytes, b"begin=") {
        return begin_line(rest);
    }
    block_line(bytes)
}

#[tactic(auto, unfolding(crate::specs::LineForms::line_of, crate::specs::LineForms::field_of, crate::specs::LineForms::use_of))]
fn known_line(bytes: &[u8]) -> Option<Line>
    ensures { unwrap_or result Unknown ≡ line_of bytes.now }
{
    if let Some(rest) = after(bytes, b"field=") {
        return parse_numbered_flag(rest).map(|(tag, required)| Line::Field(tag, required));
    }
    if let Some(rest) = after(bytes, b"group=") {
        return group_line(rest);
    }
    if let Some(rest) = after(bytes, b"use=") {
        return parse_numbered_flag(rest).map(|(name, required)| Line::Use(name, required));
    }
    if let Some(rest) = after(bytes, b"end=") {
        return end_line(rest);
    }
    definition_line(bytes)
}

// The form of a line, without its line feed.
pub fn line_of(bytes: &[u8]) -> Line
    ensures { result ≡ line_of bytes.now }
{
    known_line(bytes).unwrap_or(Line::Unknown)
}
