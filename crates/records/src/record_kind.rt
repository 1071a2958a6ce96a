// The kinds of a dictionary's records. The first word of a record is the number of its kind.
ghost use Rattle.std.specs.Prelude.{◌≡◌};
ghost use Rattle.records.specs.RecordKind.{kind_number, kind_numbered};

// The kind of a record: the form of its line. An end= line has two, since its X is kept as the
// letters of a T where it is one, else as a number.
#[derive(Clone, Copy, Debug, PartialEq, Eq)]
pub enum RecordKind {
    Def = 1,
    Value = 2,
    BeginHeader = 3,
    BeginTrailer = 4,
    Component = 5,
    Message = 6,
    Field = 7,
    Group = 8,
    Use = 9,
    EndHeader = 10,
    EndTrailer = 11,
    EndLetters = 12,
    EndNumber = 13,
}

// A word that is the number of no kind.
#[derive(Clone, Copy, Debug, PartialEq, Eq)]
pub struct UnknownKind;

// The number of the kind.
impl From<RecordKind> for u32 {
    ghost from_gives = { λ kind number. number ≡ kind_number kind };

    fn from(kind: RecordKind) -> u32
        ensures outcome { result ≡ kind_number kind }
    {
        kind as u32
    }
}

// The kind with this number. A match: Rattle turns no number into a case by itself.
impl TryFrom<u32> for RecordKind {
    type Error = UnknownKind;

    ghost try_from_gives = { λ number outcome. outcome ≡ kind_numbered number };

    fn try_from(number: u32) -> Result<RecordKind, UnknownKind>
        ensures outcome { result ≡ kind_numbered number }
    {
        match number {
            1 => Ok(RecordKind::Def),
            2 => Ok(RecordKind::Value),
            3 => Ok(RecordKind::BeginHeader),
            4 => Ok(RecordKind::BeginTrailer),
            5 => Ok(RecordKind::Component),
            6 => Ok(RecordKind::Message),
            7 => Ok(RecordKind::Field),
            8 => Ok(RecordKind::Group),
            9 => Ok(RecordKind::Use),
            10 => Ok(RecordKind::EndHeader),
            11 => Ok(RecordKind::EndTrailer),
            12 => Ok(RecordKind::EndLetters),
            13 => Ok(RecordKind::EndNumber),
            _ => Err(UnknownKind),
        }
    }
}
