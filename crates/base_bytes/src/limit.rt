// The limits of document 01, and the numbers of 32 bits.

// Bytes of a section. (Here and below a number stands once for each width: it is compared with a length, a word and a sum of words, and a
// comparison has one type on both sides.)
pub const MOST_BYTES: usize = 16777216;

pub const MOST_BYTES_32: u32 = MOST_BYTES as u32;

pub const MOST_BYTES_64: u64 = MOST_BYTES as u64;

// Records of a section, and types: void is counted. A word for each type makes an array of this length.
pub const MOST_RECORDS: u32 = 262144;

pub const MOST_TYPES: u32 = MOST_RECORDS + 1;

pub const TYPES_LEN: usize = MOST_TYPES as usize;

// Calls open at once; entries of a chain or of a path.
pub const MOST_CALLS: u32 = 512;

// Bytes of text.
pub const MOST_TEXT: usize = 1073741824;

// The first number past those of 32 bits.
pub const TWO_TO_32: u64 = 1 << 32;
