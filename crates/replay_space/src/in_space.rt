// A call beside its recorded answer: lent space for just its words, more, and one word less than it
// needs; one that is refused, with space and with none.
use crate::space::{Word, is_unwritten, took_from_start};
use replay_lines::cases::Replayed;
use replay_lines::given::{Given, Refused, Written, is_refused_as, is_short, is_written};

// The number and the words are those recorded, lent just their words and all of the space.
pub fn replay_written<W: Word, F: Fn(&mut [W]) -> Given>(
    call: F,
    number: usize,
    words: &[W],
    space: &mut [W],
) -> Replayed
    requires { F.IsAlwaysCallable call }
{
    let needed = words.len();
    if space.len() < needed {
        return Replayed::Differs;
    }
    let just = writes(&call, number, words, &mut space[..needed]);
    let ample = writes(&call, number, words, space);
    // all three calls are made, also where one differs: what a call writes stays in the space
    let short = is_short_of_one(&call, needed, &mut space[..needed]);
    Replayed::from(just && ample && short)
}

// The call writes just these words; `took_from_start` says what becomes of the space.
fn writes<W: Word, F: Fn(&mut [W]) -> Given>(
    call: &F,
    number: usize,
    words: &[W],
    space: &mut [W],
) -> bool
    requires { F.IsAlwaysCallable call.now }
{
    let given = call(space);
    let took = took_from_start(space, words);
    took && is_written(
        given,
        Written {
            number,
            words: words.len(),
        },
    )
}

// With one word less than it needs the call is refused with 13 and the words needed, and nothing is
// written. A call that needs none can not be lent less.
pub fn is_short_of_one<W: Word, F: Fn(&mut [W]) -> Given>(
    call: &F,
    needed: usize,
    space: &mut [W],
) -> bool
    requires { F.IsAlwaysCallable call.now }
{
    if needed == 0 {
        return true;
    }
    if space.len() < needed {
        return false;
    }
    let given = call(&mut space[..needed - 1]);
    is_short(given, needed) && is_unwritten(space)
}

// With space and with none the refusal is the one recorded, and nothing is written. What was recorded
// in another form differs.
pub fn replay_refused<W: Word, F: Fn(&mut [W]) -> Given>(
    call: F,
    recorded: Option<Refused>,
    space: &mut [W],
) -> Replayed
    requires { F.IsAlwaysCallable call }
{
    let in_space = call(space);
    let in_none = call(&mut space[..0]);
    let Some(refused) = recorded else {
        return Replayed::Differs;
    };
    Replayed::from(
        is_refused_as(in_space, refused) && is_refused_as(in_none, refused) && is_unwritten(space),
    )
}
