// The verdicts on the values of a message, on lent words: a call that refuses what it cannot judge, and else writes one word a field.
ghost use Rattle.std.specs.Prelude.{◌≡◌, ◌≤◌, ◌<◌, length};
ghost use Rattle.field_table.specs.FieldTable.{row_count, fields_of};
ghost use Rattle.verdicts.specs.Verdicts.{field_verdict, written_in, space_answer, space_with, judged_of, verdicts_in};
ghost use Rattle.verdict.specs.FieldRecords.{field_record, filled_in, Holds};

use dictionary::dictionary::Dictionary;
use field_table::field_table::FieldTable;
use refusals::refusal::Refusal;
use verdict::verdict::{Verdict, check_value, record_of};

// Writes the number of the record that defines each field's tag. That the space has a word for each
// field ties the space to the table, and stands in no type of one of them.
fn write_records(dictionary: Dictionary<'_>, table: FieldTable<'_>, verdicts: &mut [u64])
    requires fields_in_bounds { row_count table.fields.now ≤ length verdicts.old }
    ensures memory { verdicts.new ≡ filled_in (field_record dictionary.entry.words.now table.entry.fields.now)
        (row_count table.entry.fields.now) verdicts.old }
{
    for position in 0..table.len() {
        let tag = table.tag_at(position);
        verdicts[position] = record_of(dictionary, tag) as u64;
    }
}

// The verdict on the field at `index`, whose tag has the record with this number.
fn verdict_at(
    dictionary: Dictionary<'_>,
    table: FieldTable<'_>,
    strict: bool,
    index: usize,
    number: usize,
) -> Verdict
    requires index_bound { index < row_count table.fields.now }
    requires number_value { number ≡ field_record dictionary.words.now table.fields.now index }
    ensures { result ≡ field_verdict dictionary.entry.words.now strict
        (fields_of table.entry.fields.now table.entry.message.now) index }
{
    check_value(dictionary, number, table.value_at(index), strict)
}

// Writes the verdict on each field over the number of its record.
fn judge_values(
    dictionary: Dictionary<'_>,
    table: FieldTable<'_>,
    strict: bool,
    verdicts: &mut [u64],
)
    requires fields_in_bounds { row_count table.fields.now ≤ length verdicts.old }
    requires holds { Holds (field_record dictionary.words.now table.fields.now)
        (row_count table.fields.now) verdicts.old }
    ensures memory { verdicts.new ≡ written_in dictionary.entry.words.now table.entry.fields.now
        table.entry.message.now strict verdicts.old }
{
    for index in 0..table.len() {
        let number = verdicts[index] as usize;
        let verdict = verdict_at(dictionary, table, strict, index, number);
        verdicts[index] = u64::from(verdict);
    }
}

// Writes the verdict on each field, in the order of the table. All tags are searched for before a value is judged: so no search waits for the tests of a
// value, whose jumps hang on the message (docs/SPEED.md).
fn write_verdicts(
    dictionary: Dictionary<'_>,
    table: FieldTable<'_>,
    strict: bool,
    verdicts: &mut [u64],
)
    requires fields_in_bounds { row_count table.fields.now ≤ length verdicts.old }
    ensures memory { verdicts.new ≡ written_in dictionary.entry.words.now table.entry.fields.now
        table.entry.message.now strict verdicts.old }
{
    write_records(dictionary, table, verdicts);
    judge_values(dictionary, table, strict, verdicts);
}

// The verdicts, once the lent words are accepted.
fn judge_fields(
    dictionary: Dictionary<'_>,
    table: FieldTable<'_>,
    strict: bool,
    verdicts: &mut [u64],
) -> Result<usize, Refusal>
    ensures outcome { result ≡ space_answer table.entry.fields.now verdicts.old }
    ensures memory { verdicts.new ≡ space_with dictionary.entry.words.now table.entry.fields.now
        table.entry.message.now strict verdicts.old }
{
    let needed = table.len();
    if verdicts.len() < needed {
        return Err(Refusal::SpaceShort(needed as u64));
    }
    write_verdicts(dictionary, table, strict, verdicts);
    Ok(needed)
}

// Gives the verdict on the value of each field: whether its tag is defined, its value has the form of its type, and is admitted. Refuses, in this order:
// dictionary words and field tables that are not accepted, and a space that is short; then nothing is written.
pub fn check_values(
    dictionary: &[u32],
    fields: &[u32],
    message: &[u8],
    strict: bool,
    verdicts: &mut [u64],
) -> Result<usize, Refusal>
    ensures outcome { result ≡ judged_of dictionary.now fields.now message.now verdicts.old }
    ensures memory { verdicts.new ≡ verdicts_in dictionary.now fields.now message.now strict verdicts.old }
{
    let Some(dictionary) = Dictionary::new(dictionary) else {
        return Err(Refusal::UnknownForm(0));
    };
    let table = FieldTable::new(fields, message)?;
    judge_fields(dictionary, table, strict, verdicts)
}
