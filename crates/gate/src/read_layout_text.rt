// Reading a hand-made layout text into lent words.
ghost use Rattle.std.specs.Prelude.{◌≡◌, length};
ghost use Rattle.read_layout.specs.ReadLayout.{read_outcome, read_words};
ghost use Rattle.outcomes.specs.Answers.{words_outcome};

use outcomes::outcome::Outcome;
use read_layout::read_layout::read_layout;

// `words`: how many words the layout takes.
pub fn gate_read_layout(text: &[u8], layout: &mut [u32]) -> Outcome
    ensures outcome { result ≡ words_outcome (read_outcome text.now (length layout.old)) }
    ensures memory { layout.new ≡ read_words text.now layout.old }
{
    Outcome::from(read_layout(text, layout))
}
