// A call that writes words of 32 bits, beside recorded numbers.
use replay_lines::cases::{Replayed, Unread};
use replay_lines::given::Given;
use replay_space::in_space::replay_written;

// The words are those recorded, which are put at the start of the room. A number of more than 32
// bits is no word; the call is made with its low bits all the same, as what it writes stays in the
// space.
pub fn replay_numbers<F: Fn(&mut [u32]) -> Given>(
    call: F,
    number: usize,
    recorded: &[u64],
    room: &mut [u32],
    space: &mut [u32],
) -> Result<Replayed, Unread>
    requires { F.IsAlwaysCallable call }
{
    let words = room.get_mut(..recorded.len()).ok_or(Unread::NoForm)?;
    for (word, number) in words.iter_mut().zip(recorded) {
        *word = (*number & 0xffff_ffff) as u32;
    }
    let replayed = replay_written(call, number, words, space);
    if recorded.iter().all(|word| *word <= 0xffff_ffff) {
        return Ok(replayed);
    }
    Ok(Replayed::Differs)
}
