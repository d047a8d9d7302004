// The session record and the answers; what every call of a session shares, as definitions in specs/ with laws in proofs/.
use spec_bytes::refusal::Refusal;

// The lengths are those at opening; text_len is the length of the text so far. Bit 0 of modes is union_as_struct,
// bit 1 strong_arrays, bit 2 the placing mode, bit 3 names that cannot collide. visits: the types and members looked
// at to find alignments, by the requests accepted so far. By default it is a session that was never opened. (`open` is a flag
// beside the rest, and no Option: the record for C has it as a word, and a call on a closed session answers its text_len.)
#[derive(Clone, Copy, Default)]
pub struct Session {
    pub open: bool,
    pub section_len: u64,
    pub work_len: u64,
    pub types: u32,
    pub enumerators: u32,
    pub text_len: u32,
    pub pointer_size: u32,
    pub modes: u32,
    pub visits: u32,
}

// A refused call: its refusal, and the value that goes with it.
#[derive(Clone, Copy)]
pub struct Refused {
    pub refusal: Refusal,
    pub value: u32,
}

// What a call comes to: the session after it, and the answer, a value or a refusal.
#[derive(Clone, Copy)]
pub struct Turn {
    pub session: Session,
    pub answer: Result<u32, Refused>,
}

// Where the requests of a call have come to: the length of the accepted text, and the refusal that stopped them, if one did;
// with a refusal also the visits counted before it. (No Result: length and visits count after a refusal too; so in Tally.)
#[derive(Clone, Copy)]
pub struct Reached {
    pub len: u32,
    pub stop: Option<Refusal>,
    pub visits: u32,
}

// Where the ids of a list have come to: as Reached, and how many were accepted; the visits are those of the record.
#[derive(Clone, Copy)]
pub struct Tally {
    pub len: u32,
    pub stop: Option<Refusal>,
    pub accepted: u32,
    pub visits: u32,
}
