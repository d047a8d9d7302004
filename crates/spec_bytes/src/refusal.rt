// Refusals: document 01's causes, and from 18 on those of the change requests.
ghost use Rattle.std.specs.Prelude.{◌≡◌};
ghost use Rattle.spec_bytes.specs.Refusals.{refusal_number};

#[derive(Clone, Copy, PartialEq, Eq, Debug)]
pub enum Refusal {
    PointerSize,
    SectionTooLong,
    BadHeader,
    BadStrings,
    BadRecord,
    BadReference,
    // A member or an array element that is a prototype.
    PrototypeHeld,
    Loop,
    WorkShort,
    NoSuchId,
    // Closed or never opened; or the lengths lent are not those of opening.
    SessionClosed,
    TooDeep,
    Cycle,
    NamelessTypedef,
    AlignmentZero,
    Overflow,
    TextFull,
    // A body that the placing mode cannot lay out.
    Misplaced,
    NoDeclaration,
    NoField,
    CeilingPassed,
    OutputShort,
}

// Its number, which the C interface hands out.
impl From<Refusal> for u32 {
    fn from(value: Refusal) -> u32
        ensures { result ≡ refusal_number value }
    {
        match value {
            Refusal::PointerSize => 1,
            Refusal::SectionTooLong => 2,
            Refusal::BadHeader => 3,
            Refusal::BadStrings => 4,
            Refusal::BadRecord => 5,
            Refusal::BadReference => 6,
            Refusal::PrototypeHeld => 7,
            Refusal::Loop => 8,
            Refusal::WorkShort => 9,
            Refusal::NoSuchId => 10,
            Refusal::SessionClosed => 11,
            Refusal::TooDeep => 12,
            Refusal::Cycle => 13,
            Refusal::NamelessTypedef => 14,
            Refusal::AlignmentZero => 15,
            Refusal::Overflow => 16,
            Refusal::TextFull => 17,
            Refusal::Misplaced => 18,
            Refusal::NoDeclaration => 19,
            Refusal::NoField => 21,
            Refusal::CeilingPassed => 22,
            Refusal::OutputShort => 23,
        }
    }
}
