// The type of a message: the value of its first field 35 (document 01, 'One list in full').
ghost use Rattle.std.specs.Prelude.{◌≡◌};
ghost use Rattle.std.specs.List.{find};
ghost use Rattle.message_text.specs.MessageType.{type_place_of, is_type};

// Where a value stands in a message: the index of its first byte, and the one after its last.
#[derive(Clone, Copy)]
pub struct Stretch {
    pub first: usize,
    pub past: usize,
}

// FIX's tag MsgType
const MSG_TYPE: u32 = 35;

// The first row of a field 35.
fn type_row(rows: &[[u32; 3]]) -> Option<[u32; 3]>
    ensures { result ≡ find is_type rows.now }
{
    rows.iter().copied().find(|row| row[0] == MSG_TYPE)
}

// Where the value of the first field 35 stands; an empty stretch where there is none.
pub fn message_type(fields: &[u32]) -> Stretch
    ensures outcome { result ≡ type_place_of fields.now }
{
    let (rows, _) = fields.as_chunks::<3>();
    match type_row(rows) {
        Some(row) => Stretch {
            first: row[1] as usize,
            past: row[2] as usize,
        },
        None => Stretch { first: 0, past: 0 },
    }
}
