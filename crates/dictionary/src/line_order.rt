// The order of the lines of a dictionary text, as in dictionary_order, where the count tags of the
// open group blocks stand in an array that is lent, so that no line copies them.
ghost use Rattle.std.specs.Prelude.{◌≡◌, ℕ, ◌≤◌};
ghost use Rattle.dictionary_order.specs.declared.dictionary_order.State.{State};
ghost use Rattle.dictionary_order.specs.DictionaryOrder.{start, opened_block, closed_block, def_step, value_step, open_block, close_block, field_step, group_step, use_step, end_step, step_of, after};
ghost use Rattle.dictionary.specs.LineOrder.{state_of, kept_of, standing_of, Follows};

use dictionary_order::dictionary_order::{Part, Stage};
use line_forms::line::Line;

// The state after a line without the count tags of the open group blocks: see State in
// dictionary_order.
#[derive(Clone, Copy)]
pub struct Standing {
    pub stage: Stage,
    pub part: Part,
    pub name: u32,
    pub depth: usize,
}

// A block opens: its body is to come.
fn opened(stage: Stage, name: u32) -> Standing
    ensures { result ≡ kept_of (opened_block stage name start) }
{
    Standing {
        stage,
        part: Part::Fields,
        name,
        depth: 0,
    }
}

// A block is closed, or none was opened yet.
fn closed(stage: Stage) -> Standing
    ensures { result ≡ kept_of (closed_block stage start) }
{
    Standing {
        stage,
        part: Part::NoBody,
        name: 0,
        depth: 0,
    }
}

#[tactic(auto, unfolding(ascii::specs::Notation::is_between))]
fn def_step(standing: Standing) -> Option<Standing>
    ensures { Follows result standing def_step }
{
    match standing.stage {
        Stage::Beginning | Stage::Definitions => Some(closed(Stage::Definitions)),
        _ => None,
    }
}

fn value_step(standing: Standing) -> Option<Standing>
    ensures { Follows result standing value_step }
{
    match standing.stage {
        Stage::Definitions => Some(standing),
        _ => None,
    }
}

// A block opens where the text may have one.
fn open_block(is_allowed: bool, stage: Stage, name: u32) -> Option<Standing>
    ensures { result ≡ standing_of (open_block is_allowed stage name start 0) }
{
    if is_allowed {
        return Some(opened(stage, name));
    }
    None
}

// The block that is open closes where it is this one, and no group block is open in it.
fn close_block(standing: Standing, is_open: bool, stage: Stage) -> Option<Standing>
    ensures { Follows result standing (close_block is_open stage) }
{
    if is_open && standing.depth == 0 {
        return Some(closed(stage));
    }
    None
}

fn field_step(standing: Standing) -> Option<Standing>
    ensures { Follows result standing field_step }
{
    match standing.part {
        Part::Fields => Some(standing),
        _ => None,
    }
}

// Only a component, a message and a group block have `use` lines.
#[tactic(auto, unfolding(ascii::specs::Notation::is_between))]
fn use_step(standing: Standing) -> Option<Standing>
    ensures { Follows result standing use_step }
{
    let is_allowed = match standing.stage {
        Stage::InComponent | Stage::InMessage | Stage::Other(_) => true,
        _ => 0 < standing.depth,
    };
    match standing.part {
        Part::Fields | Part::Groups | Part::Uses if is_allowed => Some(Standing {
            part: Part::Uses,
            ..standing
        }),
        _ => None,
    }
}

fn group_step(standing: Standing, counts: &mut [u32; 40], count: u32) -> Option<Standing>
    ensures next { Follows result standing (group_step count) }
    ensures counts { (number : ℕ) → counts.new ≡ (after (state_of standing counts.old) (group_step count (state_of standing counts.old) number)).counts }
{
    if !matches!(standing.part, Part::Fields | Part::Groups) {
        return None;
    }
    let depth = standing.depth;
    if depth < 40 {
        counts[depth] = count;
        return Some(Standing {
            part: Part::Fields,
            depth: depth + 1,
            ..standing
        });
    }
    None
}

// Closes the innermost open block: a group block, or else a component or a message.
fn end_step(
    standing: Standing,
    counts: &[u32; 40],
    name: Option<u32>,
    letters: Option<u32>,
) -> Option<Standing>
    requires { standing.depth ≤ 40 }
    ensures { (number : ℕ) → result ≡ standing_of (end_step name letters (state_of standing counts.now) number) }
{
    if 0 < standing.depth {
        let depth = standing.depth - 1;
        if name == Some(counts[depth]) {
            return Some(Standing {
                part: Part::Groups,
                depth,
                ..standing
            });
        }
        return None;
    }
    match standing.stage {
        Stage::InComponent if name == Some(standing.name) => Some(closed(Stage::AfterTrailer)),
        Stage::InMessage if letters == Some(standing.name) => Some(closed(Stage::AfterMessage)),
        _ => None,
    }
}

// What the line does: where it is taken, what stands after it. A group block that opens leaves its
// count tag among those lent.
#[tactic(auto, unfolding(dictionary_order::specs::DictionaryOrder::step_of, ascii::specs::Notation::is_between))]
pub fn next_standing(standing: Standing, counts: &mut [u32; 40], line: Line) -> Option<Standing>
    requires { standing.depth ≤ 40 }
    ensures next { (number : ℕ) → result ≡ standing_of (step_of (state_of standing counts.old) number line) }
    ensures counts { (number : ℕ) → counts.new ≡ (after (state_of standing counts.old) (step_of (state_of standing counts.old) number line)).counts }
{
    match line {
        Line::Def(_, _) => def_step(standing),
        Line::Value(_) => value_step(standing),
        Line::BeginHeader => {
            let is_allowed = matches!(standing.stage, Stage::Beginning | Stage::Definitions);
            open_block(is_allowed, Stage::InHeader, 0)
        }
        Line::BeginTrailer => {
            let is_allowed = matches!(standing.stage, Stage::AfterHeader);
            open_block(is_allowed, Stage::InTrailer, 0)
        }
        Line::EndHeader => {
            let is_open = matches!(standing.stage, Stage::InHeader);
            close_block(standing, is_open, Stage::AfterHeader)
        }
        Line::EndTrailer => {
            let is_open = matches!(standing.stage, Stage::InTrailer);
            close_block(standing, is_open, Stage::AfterTrailer)
        }
        Line::Component(name) => {
            let is_allowed = matches!(standing.stage, Stage::AfterTrailer);
            open_block(is_allowed, Stage::InComponent, name)
        }
        Line::Message(letters, _) => {
            let is_allowed = matches!(standing.stage, Stage::AfterTrailer | Stage::AfterMessage);
            open_block(is_allowed, Stage::InMessage, letters)
        }
        Line::Field(_, _) => field_step(standing),
        Line::Group(count, _, _) => group_step(standing, counts, count),
        Line::Use(_, _) => use_step(standing),
        Line::End(name, letters) => end_step(standing, counts, name, letters),
        Line::Member(_) | Line::RequiredTag(_) | Line::Unknown => None,
    }
}
