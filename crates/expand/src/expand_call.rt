// The expansion of a message type, on lent words: from a dictionary's words to those of the type's layout.
ghost use Rattle.std.specs.Prelude.{◌≡◌, ◌*◌, ◌≤◌, length};
ghost use Rattle.arrange.specs.ArrangeGather.{level_count, GatherRoom};
ghost use Rattle.expand.specs.ExpandCall.{expanded_of, expanded_in};
ghost use Rattle.expand.specs.ExpandSteps.{told_answer, told_with, ExpandedIn};

use arrange::arrange::gather;
use dictionary::dictionary::Dictionary;
use expansion::builder::Stop;
use layouts::put_layout::put_layout;
use refusals::refusal::Refusal;

// What the expansion of a message type gives.
#[derive(Clone, Copy)]
pub struct Expanded {
    pub nodes: usize,
    pub words: usize,
}

// Writes the layout that the trace tells of, gathered in the memory that is lent for it. It, `arrange_in`
// and `arrange_told` are one step, apart for the sake of its memory: so they take and ask the same.
fn arrange(
    trace: &[u64],
    nodes: usize,
    members: &mut [u32],
    required: &mut [u32],
    tags: &mut [u32],
    rows: &mut [u32],
    layout: &mut [u32],
) -> Result<Expanded, Refusal>
    requires { GatherRoom trace.now members.old required.old tags.old rows.old × (length members.old ≤ 14336) × (length required.old ≤ 14336) × (level_count trace.now ≤ 4097) }
    ensures outcome { result ≡ told_answer trace.now nodes (length layout.old) }
    ensures memory { layout.new ≡ told_with trace.now nodes layout.old }
{
    let all = gather(trace, members, required, tags, rows);
    let groups = all.levels - 1;
    let row_words = 6 * all.levels;
    let needed = 7 + 6 * groups + all.members + all.required;
    if layout.len() < needed {
        return Err(Refusal::SpaceShort(needed as u64));
    }
    put_layout(
        layout,
        groups,
        &members[..all.members],
        &required[..all.required],
        &rows[..row_words],
    );
    Ok(Expanded {
        nodes,
        words: needed,
    })
}

// Writes the layout that the trace tells of, gathered in memory for so many words and rows. It is
// compiled by itself, so that a call takes no more memory than it needs.
#[inline(never)]
fn arrange_in<const WORDS: usize, const ROWS: usize>(
    trace: &[u64],
    nodes: usize,
    layout: &mut [u32],
) -> Result<Expanded, Refusal>
    requires { (WORDS ≤ 14336) × (ROWS ≤ 24582) × (length trace.now ≤ WORDS) × (level_count trace.now ≤ 4097) × (6 * level_count trace.now ≤ ROWS) }
    ensures outcome { result ≡ told_answer trace.now nodes (length layout.old) }
    ensures memory { layout.new ≡ told_with trace.now nodes layout.old }
{
    // no heap: a word of the trace adds at most one to each of these, and a level takes six words in rows
    let mut members = [0u32; WORDS];
    let mut required = [0u32; WORDS];
    let mut tags = [0u32; WORDS];
    let mut rows = [0u32; ROWS];
    arrange(
        trace,
        nodes,
        &mut members,
        &mut required,
        &mut tags,
        &mut rows,
        layout,
    )
}

// Writes the layout that the trace tells of. A message type mostly has a short trace, which takes
// little memory: less to clear. The top and as many groups as the trace has words take six words
// each in rows, and 4,096 groups are the most.
fn arrange_told(trace: &[u64], nodes: usize, layout: &mut [u32]) -> Result<Expanded, Refusal>
    requires { (length trace.now ≤ 14336) × (level_count trace.now ≤ 4097) }
    ensures outcome { result ≡ told_answer trace.now nodes (length layout.old) }
    ensures memory { layout.new ≡ told_with trace.now nodes layout.old }
{
    if trace.len() <= 512 {
        arrange_in::<512, 3078>(trace, nodes, layout)
    } else if trace.len() <= 1024 {
        arrange_in::<1024, 6150>(trace, nodes, layout)
    } else {
        arrange_in::<14336, 24582>(trace, nodes, layout)
    }
}

// Expands a message type with a trace of so many words; `None` where these are too few. It is
// compiled by itself, as `arrange_in` is.
#[inline(never)]
fn expand_in<const WORDS: usize>(
    dictionary: Dictionary<'_>,
    message_type: &[u8],
    layout: &mut [u32],
) -> Option<Result<Expanded, Refusal>>
    requires { WORDS ≤ 14336 }
    ensures { ExpandedIn WORDS dictionary.entry.words.now message_type.now layout.old result layout.new }
{
    // no heap: room for so many steps
    let mut trace = [0u64; WORDS];
    match build::build::expand(dictionary, message_type, &mut trace) {
        Ok(builder) => {
            let told = trace.get(..builder.len)?;
            Some(arrange_told(told, builder.nodes, layout))
        }
        Err(Stop::Error(refusal)) => Some(Err(refusal)),
        Err(Stop::NoRoom) => None,
    }
}

// Expands a message type of the dictionary in lent words, and writes the words of its layout. The Rust's `ScopeBuilder::expand`, with one
// dictionary as transport and application: "Schema expansion shared by the validator and the group reader." Refuses dictionary words that do not
// pass their check with 2, place 0; then 6, then 7 to 10 as met, then 13.
pub fn expand(
    dictionary: &[u32],
    message_type: &[u8],
    layout: &mut [u32],
) -> Result<Expanded, Refusal>
    ensures outcome { result ≡ expanded_of dictionary.now message_type.now (length layout.old) }
    ensures memory { layout.new ≡ expanded_in dictionary.now message_type.now layout.old }
{
    let Some(dictionary) = Dictionary::new(dictionary) else {
        return Err(Refusal::UnknownForm(0));
    };
    // as a message type mostly needs, and then as the limits allow
    match expand_in::<1024>(dictionary, message_type, layout) {
        Some(answer) => answer,
        None => expand_in::<14336>(dictionary, message_type, layout).unwrap(),
    }
}
