// Refusals: document 01's table 'When the gate says no', one case a row. Every call of the gate refuses with one of them.
ghost use Rattle.std.specs.Prelude.{◌≡◌};
ghost use Rattle.refusals.specs.Refusal.{refusal_number, refusal_place};

#[derive(Clone, Copy)]
pub enum Refusal {
    // 1: text over 65,536 bytes
    TextTooLong,
    // 2: line of no form known to its kind of text; the line. Lent words that are no accepted dictionary's: 0
    UnknownForm(u64),
    // 3: line not allowed there, or the text stops with a block open, or a dictionary text before `end=trailer`; the line, or last plus 1
    NotAllowed(u64),
    // 4: 41 group blocks open; the line
    TooManyOpen(u64),
    // 5: tag, component or type defined again; the line
    DefinedAgain(u64),
    // 6: type not defined
    TypeNotDefined,
    // 7: component not defined; N
    ComponentNotDefined(u32),
    // 8: too deep; count tag or N
    TooDeep(u32),
    // 9: node 4,097; count tag or N
    OutOfNodes(u32),
    // 10: members or required over
    MembersOver,
    // 11: layout rule broken; rule and tag. Lent words that are no layout's: 0 and 0
    RuleBroken(u32, u32),
    // 12: words not in threes or over 4,096 fields: 0; else a field that starts behind its end or ends behind the message: that field, from 1
    BadField(u64),
    // 13: event, verdict, dictionary or layout space short; words needed
    SpaceShort(u64),
    // 14: no such top group; the tag given
    NoSuchGroup(u32),
}

// Document 01's numbers stand here case by case: `as` reads the number of an enum whose cases hold no values.
impl Refusal {
    // The number that the table gives the refusal.
    pub fn number(self) -> u64
        ensures outcome { result ≡ refusal_number self }
    {
        match self {
            Refusal::TextTooLong => 1,
            Refusal::UnknownForm(_) => 2,
            Refusal::NotAllowed(_) => 3,
            Refusal::TooManyOpen(_) => 4,
            Refusal::DefinedAgain(_) => 5,
            Refusal::TypeNotDefined => 6,
            Refusal::ComponentNotDefined(_) => 7,
            Refusal::TooDeep(_) => 8,
            Refusal::OutOfNodes(_) => 9,
            Refusal::MembersOver => 10,
            Refusal::RuleBroken(_, _) => 11,
            Refusal::BadField(_) => 12,
            Refusal::SpaceShort(_) => 13,
            Refusal::NoSuchGroup(_) => 14,
        }
    }

    // The place that the table gives the refusal.
    pub fn place(self) -> u64
        ensures outcome { result ≡ refusal_place self }
    {
        match self {
            Refusal::TextTooLong | Refusal::TypeNotDefined | Refusal::MembersOver => 0,
            Refusal::UnknownForm(line)
            | Refusal::NotAllowed(line)
            | Refusal::TooManyOpen(line)
            | Refusal::DefinedAgain(line) => line,
            Refusal::ComponentNotDefined(name)
            | Refusal::TooDeep(name)
            | Refusal::OutOfNodes(name)
            | Refusal::NoSuchGroup(name) => u64::from(name),
            Refusal::RuleBroken(rule, tag) => u64::from(rule) * 0x1_0000_0000 + u64::from(tag),
            Refusal::BadField(field) => field,
            Refusal::SpaceShort(needed) => needed,
        }
    }
}
