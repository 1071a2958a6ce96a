// The field table: three words a field, tag, first byte, byte after the last, in the message (document 01, 'The events of a walk'). The Rust's
// slice of FieldRef.
ghost use Rattle.std.specs.Prelude.{◌≡◌, ◌<◌, length, Ok, Err, MatchResult};
ghost use Rattle.field_table.specs.FieldTable.{row_count, tag_of, first_of, past_of, table_check_of, fields_of};
ghost use Rattle.field_table.specs.WalkInput.{count_at};

use counts::count::parse_count;
use refusals::refusal::Refusal;

// How many fields the table has.
pub fn row_count(fields: &[u32]) -> usize
    ensures { result ≡ row_count fields.now }
{
    fields.len() / 3
}

// The tag of the field at `index`.
pub fn tag_at(fields: &[u32], index: usize) -> u32
    requires { index < row_count fields.now }
    ensures { result ≡ tag_of fields.now index }
{
    fields[3 * index]
}

// Where its value begins in the message.
pub fn first_at(fields: &[u32], index: usize) -> usize
    requires { index < row_count fields.now }
    ensures { result ≡ first_of fields.now index }
{
    fields[3 * index + 1] as usize
}

// The place after its value.
pub fn past_at(fields: &[u32], index: usize) -> usize
    requires { index < row_count fields.now }
    ensures { result ≡ past_of fields.now index }
{
    fields[3 * index + 2] as usize
}

// Checks the table against a message of so many bytes: words in threes, at most 4,096 fields, and each field inside the message.
pub fn check_field_table(fields: &[u32], message_len: usize) -> Result<(), Refusal>
    ensures outcome { result ≡ table_check_of fields.now message_len }
{
    let (rows, rest) = fields.as_chunks::<3>();
    if !rest.is_empty() || 4096 < rows.len() {
        return Err(Refusal::BadField(0));
    }
    for (index, [_, first, past]) in rows.iter().enumerate() {
        if past < first {
            return Err(Refusal::BadField(index as u64 + 1));
        }
        if message_len < *past as usize {
            return Err(Refusal::BadField(index as u64 + 1));
        }
    }
    Ok(())
}

// A field table that is accepted for a message, both lent: three words a field, tag, first byte,
// byte after the last, in the message (document 01, 'The events of a walk'). The Rust's slice of
// FieldRef. A method asks that the index is one of its rows, which ties its argument to the value.
#[derive(Clone, Copy)]
pub struct FieldTable<'a> {
    pub fields: &'a [u32],
    pub message: &'a [u8],
    pub ghost accepted: { table_check_of fields.now (length message.now) ≡ Ok tt },
}

impl<'a> FieldTable<'a> {
    // The table, or what refuses it (`check_field_table`).
    pub fn new(fields: &'a [u32], message: &'a [u8]) -> Result<Self, Refusal>
        ensures outcome { MatchResult result
            (λ table. (table.fields.now ≡ fields.now) × (table.message.now ≡ message.now))
            (λ refusal. table_check_of fields.now (length message.now) ≡ Err refusal) }
    {
        check_field_table(fields, message.len())?;
        Ok(FieldTable { fields, message })
    }

    // How many fields the table has.
    pub fn len(self) -> usize
        ensures { result ≡ row_count self.entry.fields.now }
    {
        row_count(self.fields)
    }

    // The tag of the field at `index`.
    pub fn tag_at(self, index: usize) -> u32
        requires { index < row_count self.fields.now }
        ensures { result ≡ tag_of self.entry.fields.now index }
    {
        tag_at(self.fields, index)
    }

    // The value of the field at `index`, a part of the message.
    pub fn value_at(self, index: usize) -> &'a [u8]
        requires { index < row_count self.fields.now }
        ensures { result.now ≡ (fields_of self.entry.fields.now self.entry.message.now).value_at index }
    {
        let first = self.fields[3 * index + 1] as usize;
        let past = self.fields[3 * index + 2] as usize;
        &self.message[first..past]
    }

    // The count that the field at `index` declares as a count field.
    pub fn count_at(self, index: usize) -> Option<u64>
        requires { index < row_count self.fields.now }
        ensures { result ≡ count_at (fields_of self.entry.fields.now self.entry.message.now) index }
    {
        parse_count(self.value_at(index))
    }
}
