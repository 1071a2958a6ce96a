// Adding to the level in work. The Rust's `ScopeBuilder` and `Level`: what is added is written down in a trace, a word for each step, and
// read from there when the levels are put in order. So a refusal leaves nothing behind, and a level needs no memory of its own.
ghost use Rattle.std.specs.Prelude.{◌≡◌, ◌+◌, ◌<◌};
ghost use Rattle.layouts.specs.Limits.{gate_limits};
ghost use Rattle.expansion.specs.Expansion.{add_member, add_required, add_field};
ghost use Rattle.expansion.specs.Trace.{Fits, Adds, SpendsNode, Grows, Enters, Leaves};

use crate::step::Step;
use refusals::refusal::Refusal;

// Document 01: "one of 4,096 nodes", "members of all levels may number 8,192 and the entries of all required lists 2,048".
pub const NODES: usize = 4096;

pub const MEMBERS: usize = 8192;

pub const REQUIRED: usize = 2048;

// What was spent and added so far, and how many words of the trace it takes. That it `Fits` is asked of
// each step and is no ghost field: specs/ writes builders as these four numbers, and each would carry its proof.
#[derive(Clone, Copy)]
pub struct Builder {
    pub nodes: usize,
    pub members: usize,
    pub required: usize,
    pub len: usize,
}

// Why nothing more is added. The Rust's builder goes on past an error; the gate stops at the first. An
// enum of its own, since only a refusal is the call's answer: a full trace is tried again with more words.
#[derive(Clone, Copy)]
pub enum Stop {
    Error(Refusal),
    // the trace is full: fewer words were lent than the 14,336 for each member, required entry and node
    NoRoom,
}

// Charges one node against the budget and checks the depth ceiling.
pub fn spend(builder: Builder, name: u32, depth_left: usize) -> Result<Builder, Stop>
    requires { Fits builder }
    ensures change { SpendsNode builder name depth_left result }
    ensures grows { Grows builder result }
{
    if depth_left == 0 {
        return Err(Stop::Error(Refusal::TooDeep(name)));
    }
    if builder.nodes >= NODES {
        return Err(Stop::Error(Refusal::OutOfNodes(name)));
    }
    Ok(Builder {
        nodes: builder.nodes + 1,
        ..builder
    })
}

// Adds a tag to the members of the level in work.
pub fn add_member(trace: &mut [u64], builder: Builder, tag: u32) -> Result<Builder, Stop>
    requires { Fits builder }
    ensures change { Adds (add_member gate_limits tag) builder trace.old result trace.new }
    ensures grows { Grows builder result }
{
    if builder.members >= MEMBERS {
        return Err(Stop::Error(Refusal::MembersOver));
    }
    if builder.len >= trace.len() {
        return Err(Stop::NoRoom);
    }
    trace[builder.len] = u64::from(Step::Member(tag));
    Ok(Builder {
        members: builder.members + 1,
        len: builder.len + 1,
        ..builder
    })
}

// Adds a tag to the required list of the level in work.
pub fn add_required(trace: &mut [u64], builder: Builder, tag: u32) -> Result<Builder, Stop>
    requires { Fits builder }
    ensures change { Adds (add_required gate_limits tag) builder trace.old result trace.new }
    ensures grows { Grows builder result }
{
    if builder.required >= REQUIRED {
        return Err(Stop::Error(Refusal::MembersOver));
    }
    if builder.len >= trace.len() {
        return Err(Stop::NoRoom);
    }
    trace[builder.len] = u64::from(Step::Required(tag));
    Ok(Builder {
        required: builder.required + 1,
        len: builder.len + 1,
        ..builder
    })
}

// The Rust's `Level::add_field`.
pub fn add_field(
    trace: &mut [u64],
    builder: Builder,
    tag: u32,
    required: bool,
) -> Result<Builder, Stop>
    requires { Fits builder }
    ensures change { Adds (add_field gate_limits tag required) builder trace.old result trace.new }
    ensures grows { Grows builder result }
{
    let member = add_member(trace, builder, tag)?;
    if required {
        add_required(trace, member, tag)
    } else {
        Ok(member)
    }
}

// Enters a group whose node is spent: its count tag is a member of the level in work, and its delimiter the first of its entry level.
pub fn enter_group(
    trace: &mut [u64],
    builder: Builder,
    count: u32,
    required: bool,
    delimiter: u32,
) -> Result<Builder, Stop>
    requires { Fits builder }
    ensures change { Enters count required delimiter builder trace.old result trace.new }
    ensures grows { Grows builder result }
{
    if builder.members + 1 >= MEMBERS {
        return Err(Stop::Error(Refusal::MembersOver));
    }
    if builder.len + 1 >= trace.len() {
        return Err(Stop::NoRoom);
    }
    trace[builder.len] = u64::from(Step::Enter(count, required));
    trace[builder.len + 1] = u64::from(Step::Member(delimiter));
    Ok(Builder {
        members: builder.members + 2,
        len: builder.len + 2,
        ..builder
    })
}

// Leaves a group: its entry level is filled, and stands in the level around.
pub fn leave_group(trace: &mut [u64], builder: Builder, delimiter: u32) -> Result<Builder, Stop>
    requires { Fits builder × (builder.len < builder.members + builder.required + builder.nodes) }
    ensures change { Leaves delimiter builder trace.old result trace.new }
{
    if builder.len >= trace.len() {
        return Err(Stop::NoRoom);
    }
    trace[builder.len] = u64::from(Step::Leave(delimiter));
    Ok(Builder {
        len: builder.len + 1,
        ..builder
    })
}
