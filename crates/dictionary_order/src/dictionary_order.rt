// The order of the lines of a dictionary text: which lines may stand where.
ghost use Rattle.std.specs.Prelude.{◌≡◌, ◌≤◌};
ghost use Rattle.dictionary_order.specs.DictionaryOrder.{stage_number, part_number, opened_block, closed_block, def_step, value_step, open_block, close_block, field_step, group_step, use_step, end_step, step_of};

use line_forms::line::Line;
use refusals::refusal::Refusal;

// Which part of the text is being read: what was read last where no block is open, or the open
// block.
#[derive(Clone, Copy)]
pub enum Stage {
    Beginning,
    Definitions,
    AfterHeader,
    // components may still come
    AfterTrailer,
    // only messages may still come
    AfterMessage,
    InHeader,
    InTrailer,
    InComponent,
    InMessage,
    // what names no stage: by how much its number is above 9. Only lines of a body are taken there
    Other(u8),
}

// The stage with this number.
impl From<u8> for Stage {
    ghost from_gives = { λ number stage. stage_number stage ≡ number };

    fn from(number: u8) -> Stage {
        match number {
            0 => Stage::Beginning,
            1 => Stage::Definitions,
            2 => Stage::AfterHeader,
            3 => Stage::AfterTrailer,
            4 => Stage::AfterMessage,
            5 => Stage::InHeader,
            6 => Stage::InTrailer,
            7 => Stage::InComponent,
            8 => Stage::InMessage,
            _ => Stage::Other(number - 9),
        }
    }
}

// Which lines of the innermost open body were read last. NoBody is a state of its own, in which no
// line of a body may stand, so it is no Option of a part.
#[derive(Clone, Copy)]
pub enum Part {
    Fields,
    // a group block has closed
    Groups,
    Uses,
    // no body is open
    NoBody,
    // what names no part: by how much its number is above 4. No line of a body is taken there
    Other(u8),
}

// The part with this number.
impl From<u8> for Part {
    ghost from_gives = { λ number part. part_number part ≡ number };

    fn from(number: u8) -> Part {
        match number {
            0 => Part::Fields,
            1 => Part::Groups,
            2 => Part::Uses,
            3 => Part::NoBody,
            _ => Part::Other(number - 4),
        }
    }
}

// That at most 40 blocks are open is asked of a state and is no ghost field: `..state` takes none.
#[derive(Clone, Copy)]
pub struct State {
    pub stage: Stage,
    pub part: Part,
    // N of the open component, T of the open message, else 0
    pub name: u32,
    // how many group blocks are open
    pub depth: usize,
    // their count tags, the outermost first; the gate has no heap, so there is room for 40
    pub counts: [u32; 40],
}

// A block opens: its body is to come.
fn opened(state: State, stage: Stage, name: u32) -> State
    ensures { result ≡ opened_block stage name state }
{
    State {
        stage,
        part: Part::Fields,
        name,
        depth: 0,
        ..state
    }
}

// A block is closed, or none was opened yet.
fn closed(state: State, stage: Stage) -> State
    ensures { result ≡ closed_block stage state }
{
    State {
        stage,
        part: Part::NoBody,
        name: 0,
        depth: 0,
        ..state
    }
}

#[tactic(auto, unfolding(ascii::specs::Notation::is_between))]
fn def_step(state: State, number: u64) -> Result<State, Refusal>
    ensures { result ≡ def_step state number }
{
    match state.stage {
        Stage::Beginning | Stage::Definitions => Ok(closed(state, Stage::Definitions)),
        _ => Err(Refusal::NotAllowed(number)),
    }
}

fn value_step(state: State, number: u64) -> Result<State, Refusal>
    ensures { result ≡ value_step state number }
{
    match state.stage {
        Stage::Definitions => Ok(state),
        _ => Err(Refusal::NotAllowed(number)),
    }
}

// A block opens where the text may have one.
fn open_block(
    state: State,
    number: u64,
    is_allowed: bool,
    stage: Stage,
    name: u32,
) -> Result<State, Refusal>
    ensures { result ≡ open_block is_allowed stage name state number }
{
    if is_allowed {
        return Ok(opened(state, stage, name));
    }
    Err(Refusal::NotAllowed(number))
}

// The block that is open closes where it is this one, and no group block is open in it.
fn close_block(state: State, number: u64, is_open: bool, stage: Stage) -> Result<State, Refusal>
    ensures { result ≡ close_block is_open stage state number }
{
    if is_open && state.depth == 0 {
        return Ok(closed(state, stage));
    }
    Err(Refusal::NotAllowed(number))
}

// Like `member_step` of layout_text in form alone: the parts of a body are others than a level's.
fn field_step(state: State, number: u64) -> Result<State, Refusal>
    ensures { result ≡ field_step state number }
{
    match state.part {
        Part::Fields => Ok(state),
        _ => Err(Refusal::NotAllowed(number)),
    }
}

fn group_step(state: State, number: u64, count: u32) -> Result<State, Refusal>
    ensures { result ≡ group_step count state number }
{
    if !matches!(state.part, Part::Fields | Part::Groups) {
        return Err(Refusal::NotAllowed(number));
    }
    let depth = state.depth;
    if depth < 40 {
        let mut counts = state.counts;
        counts[depth] = count;
        return Ok(State {
            part: Part::Fields,
            depth: depth + 1,
            counts,
            ..state
        });
    }
    Err(Refusal::TooManyOpen(number))
}

// Only a component, a message and a group block have `use` lines.
#[tactic(auto, unfolding(ascii::specs::Notation::is_between))]
fn use_step(state: State, number: u64) -> Result<State, Refusal>
    ensures { result ≡ use_step state number }
{
    let is_allowed = match state.stage {
        Stage::InComponent | Stage::InMessage | Stage::Other(_) => true,
        _ => 0 < state.depth,
    };
    match state.part {
        Part::Fields | Part::Groups | Part::Uses if is_allowed => Ok(State {
            part: Part::Uses,
            ..state
        }),
        _ => Err(Refusal::NotAllowed(number)),
    }
}

// Closes the innermost open block: a group block, or else a component or a message.
fn end_step(
    state: State,
    number: u64,
    name: Option<u32>,
    letters: Option<u32>,
) -> Result<State, Refusal>
    requires { state.depth ≤ 40 }
    ensures { result ≡ end_step name letters state number }
{
    if 0 < state.depth {
        let depth = state.depth - 1;
        if name == Some(state.counts[depth]) {
            return Ok(State {
                part: Part::Groups,
                depth,
                ..state
            });
        }
        return Err(Refusal::NotAllowed(number));
    }
    match state.stage {
        Stage::InComponent if name == Some(state.name) => Ok(closed(state, Stage::AfterTrailer)),
        Stage::InMessage if letters == Some(state.name) => Ok(closed(state, Stage::AfterMessage)),
        _ => Err(Refusal::NotAllowed(number)),
    }
}

// What the line of this number does in this state.
#[tactic(auto, unfolding(crate::specs::DictionaryOrder::step_of, ascii::specs::Notation::is_between))]
pub fn take_line(state: State, number: u64, line: Line) -> Result<State, Refusal>
    requires { state.depth ≤ 40 }
    ensures { result ≡ step_of state number line }
{
    match line {
        Line::Def(_, _) => def_step(state, number),
        Line::Value(_) => value_step(state, number),
        Line::BeginHeader => {
            let is_allowed = matches!(state.stage, Stage::Beginning | Stage::Definitions);
            open_block(state, number, is_allowed, Stage::InHeader, 0)
        }
        Line::BeginTrailer => {
            let is_allowed = matches!(state.stage, Stage::AfterHeader);
            open_block(state, number, is_allowed, Stage::InTrailer, 0)
        }
        Line::EndHeader => {
            let is_open = matches!(state.stage, Stage::InHeader);
            close_block(state, number, is_open, Stage::AfterHeader)
        }
        Line::EndTrailer => {
            let is_open = matches!(state.stage, Stage::InTrailer);
            close_block(state, number, is_open, Stage::AfterTrailer)
        }
        Line::Component(name) => {
            let is_allowed = matches!(state.stage, Stage::AfterTrailer);
            open_block(state, number, is_allowed, Stage::InComponent, name)
        }
        Line::Message(letters, _) => {
            let is_allowed = matches!(state.stage, Stage::AfterTrailer | Stage::AfterMessage);
            open_block(state, number, is_allowed, Stage::InMessage, letters)
        }
        Line::Field(_, _) => field_step(state, number),
        Line::Group(count, _, _) => group_step(state, number, count),
        Line::Use(_, _) => use_step(state, number),
        Line::End(name, letters) => end_step(state, number, name, letters),
        Line::Member(_) | Line::RequiredTag(_) | Line::Unknown => {
            Err(Refusal::UnknownForm(number))
        }
    }
}
