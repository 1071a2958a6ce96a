// The data types of FIX fields. Ported from schema.rs, `FieldType`.
ghost use Rattle.std.specs.Prelude.{◌≡◌};
ghost use Rattle.std.specs.Result.{result_ok};
ghost use Rattle.field_types.specs.FieldType.{format_of, is_multi_value, type_numbered};

// FIX field data type.
#[derive(Clone, Copy)]
pub enum FieldType {
    // Integer value.
    Int,
    // Length field (for data fields).
    Length,
    // Sequence number.
    SeqNum,
    // Number of entries in a repeating group.
    NumInGroup,
    // Tag number reference.
    TagNum,
    // Day of month (1-31).
    DayOfMonth,
    // Floating point number.
    Float,
    // Quantity.
    Qty,
    // Price.
    Price,
    // Price offset.
    PriceOffset,
    // Amount (price * quantity).
    Amt,
    // Percentage.
    Percentage,
    // Single character.
    Char,
    // Boolean (Y/N).
    Boolean,
    // String.
    String,
    // Multiple character value (space-separated).
    MultipleCharValue,
    // Multiple string value (space-separated).
    MultipleStringValue,
    // Country code (ISO 3166).
    Country,
    // Currency code (ISO 4217).
    Currency,
    // Exchange code (ISO 10383 MIC).
    Exchange,
    // Month-year (YYYYMM or YYYYMMDD or YYYYMMWW).
    MonthYear,
    // UTC timestamp.
    UtcTimestamp,
    // UTC time only.
    UtcTimeOnly,
    // UTC date only.
    UtcDateOnly,
    // Local market date.
    LocalMktDate,
    // Local market time.
    LocalMktTime,
    // Timezone.
    TzTimeOnly,
    // Timezone with timestamp.
    TzTimestamp,
    // Raw data (binary).
    Data,
    // XML data.
    XmlData,
    // Language code (ISO 639-1).
    Language,
    // Pattern (regex).
    Pattern,
    // Tenor (e.g., "1M", "3M").
    Tenor,
    // Reserved for future use.
    Reserved,
}

// The on-the-wire forms that the data types admit: those that the arms of the Rust's `is_valid_value` test.
#[derive(Clone, Copy)]
pub enum Format {
    SignedInteger,
    UnsignedInteger,
    Day,
    Decimal,
    OneCharacter,
    YesOrNo,
    Tokens(Option<usize>),
    Letters(usize),
    YearMonth,
    Date,
    TimeOfDay,
    DateAndTime,
    Anything,
}

impl FieldType {
    // The form that a value of this type must have.
    pub fn format(self) -> Format
        ensures { result ≡ format_of self }
    {
        match self {
            FieldType::Int => Format::SignedInteger,
            FieldType::Length => Format::UnsignedInteger,
            FieldType::SeqNum => Format::UnsignedInteger,
            FieldType::NumInGroup => Format::UnsignedInteger,
            FieldType::TagNum => Format::UnsignedInteger,
            FieldType::DayOfMonth => Format::Day,
            FieldType::Float => Format::Decimal,
            FieldType::Qty => Format::Decimal,
            FieldType::Price => Format::Decimal,
            FieldType::PriceOffset => Format::Decimal,
            FieldType::Amt => Format::Decimal,
            FieldType::Percentage => Format::Decimal,
            FieldType::Char => Format::OneCharacter,
            FieldType::Boolean => Format::YesOrNo,
            FieldType::String => Format::Anything,
            FieldType::MultipleCharValue => Format::Tokens(Some(1)),
            FieldType::MultipleStringValue => Format::Tokens(None),
            FieldType::Country => Format::Letters(2),
            FieldType::Currency => Format::Letters(3),
            FieldType::Exchange => Format::Anything,
            FieldType::MonthYear => Format::YearMonth,
            FieldType::UtcTimestamp => Format::DateAndTime,
            FieldType::UtcTimeOnly => Format::TimeOfDay,
            FieldType::UtcDateOnly => Format::Date,
            FieldType::LocalMktDate => Format::Date,
            FieldType::LocalMktTime => Format::Anything,
            FieldType::TzTimeOnly => Format::Anything,
            FieldType::TzTimestamp => Format::Anything,
            FieldType::Data => Format::Anything,
            FieldType::XmlData => Format::Anything,
            FieldType::Language => Format::Anything,
            FieldType::Pattern => Format::Anything,
            FieldType::Tenor => Format::Anything,
            FieldType::Reserved => Format::Anything,
        }
    }

    // Returns true if this type carries a space-separated list of values.
    pub fn is_multi_value(self) -> bool
        ensures { result ≡ is_multi_value self }
    {
        matches!(
            self,
            FieldType::MultipleCharValue | FieldType::MultipleStringValue
        )
    }
}

// A number that no type has.
#[derive(Clone, Copy)]
pub struct NoSuchType;

// The type whose number is given. The numbers are those that the cases have in memory, so that the
// match is compiled to one test: a table of the types would be read.
impl TryFrom<usize> for FieldType {
    type Error = NoSuchType;

    ghost try_from_gives = { λ number typed. result_ok typed ≡ type_numbered number };

    #[tactic(auto, unfolding(crate::specs::FieldType::type_numbered))]
    fn try_from(number: usize) -> Result<Self, NoSuchType> {
        match number {
            0 => Ok(FieldType::Int),
            1 => Ok(FieldType::Length),
            2 => Ok(FieldType::SeqNum),
            3 => Ok(FieldType::NumInGroup),
            4 => Ok(FieldType::TagNum),
            5 => Ok(FieldType::DayOfMonth),
            6 => Ok(FieldType::Float),
            7 => Ok(FieldType::Qty),
            8 => Ok(FieldType::Price),
            9 => Ok(FieldType::PriceOffset),
            10 => Ok(FieldType::Amt),
            11 => Ok(FieldType::Percentage),
            12 => Ok(FieldType::Char),
            13 => Ok(FieldType::Boolean),
            14 => Ok(FieldType::String),
            15 => Ok(FieldType::MultipleCharValue),
            16 => Ok(FieldType::MultipleStringValue),
            17 => Ok(FieldType::Country),
            18 => Ok(FieldType::Currency),
            19 => Ok(FieldType::Exchange),
            20 => Ok(FieldType::MonthYear),
            21 => Ok(FieldType::UtcTimestamp),
            22 => Ok(FieldType::UtcTimeOnly),
            23 => Ok(FieldType::UtcDateOnly),
            24 => Ok(FieldType::LocalMktDate),
            25 => Ok(FieldType::LocalMktTime),
            26 => Ok(FieldType::TzTimeOnly),
            27 => Ok(FieldType::TzTimestamp),
            28 => Ok(FieldType::Data),
            29 => Ok(FieldType::XmlData),
            30 => Ok(FieldType::Language),
            31 => Ok(FieldType::Pattern),
            32 => Ok(FieldType::Tenor),
            33 => Ok(FieldType::Reserved),
            _ => Err(NoSuchType),
        }
    }
}
