// The expansion of a message type. The Rust's `add_group` and `add_component` (scope.rs), which call each other by way of the body that both add; each
// spends a node and goes one depth down, and the proof that they end falls on the depths left and the nodes left.
//
// A body is walked by its lines: a place is the number of a line among the dictionary's lines, from 0. What is added goes into the trace
// (builder.rt), so that a level needs no memory of its own. `path` has the names of the open components, the one opened last first: the Rust's HashSet.
ghost use Rattle.std.specs.Prelude.{◌≡◌, ◌&&◌, ◌∷◌, ◌+◌, ◌<◌, length, take};
ghost use Rattle.layouts.specs.Limits.{gate_limits};
ghost use Rattle.dictionary.specs.DictionaryWords.{word_lines};
ghost use Rattle.bodies.specs.DictionaryInWords.{dictionary_in};
ghost use Rattle.bodies.specs.DictionaryLookups.{BodyAt};
ghost use Rattle.expansion.specs.Expansion.{add_group, add_component};
ghost use Rattle.bodies.specs.ExpansionPromises.{group_at, fill_at, Asks, Fills, Uses};

use crate::body_line::{BodyLine, body_line};
use definitions::definitions::component_of;
use dictionary::dictionary::Dictionary;
use expansion::builder::{Builder, Stop, add_field, enter_group, leave_group, spend};
use refusals::refusal::Refusal;

// A line `group=COUNT,DELIMITER,R`, and the place of the first line of its body.
#[derive(Clone, Copy)]
pub struct GroupLine {
    pub count: u32,
    pub delimiter: u32,
    pub required: bool,
    pub first: usize,
}

// Writes the names of a path with one more open component, and returns how many they are.
fn open_component(names: &mut [u32], path: &[u32], name: u32) -> usize
    requires { length path.now < length names.old }
    ensures count { result ≡ length path.now + 1 }
    ensures names { take result names.new ≡ name ∷ path.now }
{
    let past = path.len() + 1;
    names[0] = name;
    names[1..past].copy_from_slice(path);
    past
}

// Adds what is left of the body that is open at `place`, a line at a time: fields, groups and uses.
// No struct of `trace` and `builder`: the builder is given back by value, the trace is lent, and each
// clause names what the one was and became beside the other.
#[cycle(add_body_add_component_add_group)]
pub fn add_body(
    dictionary: Dictionary<'_>,
    place: usize,
    depth_left: usize,
    path: &[u32],
    collect: bool,
    trace: &mut [u64],
    builder: Builder,
) -> Result<(usize, Builder), Stop>
    requires { Asks depth_left path.now builder × BodyAt (word_lines dictionary.words.now) place }
    ensures { Fills (fill_at dictionary.entry.words.now depth_left path.now collect place) dictionary.entry.words.now place
        builder trace.old result trace.new }
{
    let mut at = place;
    let mut so_far = builder;
    // no iterator over the lines: a group moves the place past its whole body
    loop {
        match body_line(dictionary, at) {
            Some(BodyLine::Field(tag, required)) => {
                so_far = add_field(trace, so_far, tag, collect && required)?;
                at += 1;
            }
            Some(BodyLine::Group(count, delimiter, required)) => {
                let group = GroupLine {
                    count,
                    delimiter,
                    required,
                    first: at + 1,
                };
                let (past, filled) = add_group(
                    dictionary, group, depth_left, path, collect, trace, so_far,
                )?;
                at = past;
                so_far = filled;
            }
            Some(BodyLine::Use(name, required)) => {
                so_far = add_component(
                    dictionary, name, required, depth_left, path, collect, trace, so_far,
                )?;
                at += 1;
            }
            None => return Ok((at + 1, so_far)),
        }
    }
}

// Adds a group to the level in work, with the level formed by one entry.
#[cycle(add_body_add_component_add_group)]
fn add_group(
    dictionary: Dictionary<'_>,
    group: GroupLine,
    depth_left: usize,
    path: &[u32],
    collect: bool,
    trace: &mut [u64],
    builder: Builder,
) -> Result<(usize, Builder), Stop>
    requires { Asks depth_left path.now builder × BodyAt (word_lines dictionary.words.now) group.first }
    ensures { Fills (add_group gate_limits (dictionary_in dictionary.entry.words.now) depth_left path.now collect (group_at dictionary.entry.words.now group))
        dictionary.entry.words.now group.first builder trace.old result trace.new }
{
    let node = spend(builder, group.count, depth_left)?;
    let required = group.required && collect;
    let entry = enter_group(trace, node, group.count, required, group.delimiter)?;
    let below = depth_left - 1;
    let (past, filled) = add_body(dictionary, group.first, below, path, true, trace, entry)?;
    let last = leave_group(trace, filled, group.delimiter)?;
    Ok((past, last))
}

// Expands a component reference into the level in work.
#[cycle(add_body_add_component_add_group)]
fn add_component(
    dictionary: Dictionary<'_>,
    name: u32,
    required: bool,
    depth_left: usize,
    path: &[u32],
    collect: bool,
    trace: &mut [u64],
    builder: Builder,
) -> Result<Builder, Stop>
    requires { Asks depth_left path.now builder }
    ensures { Uses (add_component gate_limits (dictionary_in dictionary.entry.words.now) depth_left path.now collect
        (record { name = name; required = required })) builder trace.old result trace.new }
{
    let node = spend(builder, name, depth_left)?;
    let Some(number) = component_of(dictionary, name) else {
        return Err(Stop::Error(Refusal::ComponentNotDefined(name)));
    };
    if path.contains(&name) {
        return Ok(node);
    }
    let mut names = [0u32; 33]; // no heap: a component is at most 33 deep
    let open = open_component(&mut names, path, name);
    let collects = collect && required;
    let first = number + 1;
    let below = depth_left - 1;
    let (_, filled) = add_body(
        dictionary,
        first,
        below,
        &names[0..open],
        collects,
        trace,
        node,
    )?;
    Ok(filled)
}
