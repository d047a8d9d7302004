// The words of a record, by its kind.
ghost use Rattle.std.specs.Prelude.{◌≡◌, ◌+◌, ◌*◌, ◌%◌};
ghost use Rattle.session_cut_marks.specs.roles.Words.{digit_at, fixed_words, entry_words, roles, role, role_of, words_in, word_of};

use base_bytes::element::peek;
use btf_open_causes::references::Entry;
use btf_type_table::kind::vlen_of;
use btf_type_table::table::Table;
use spec_type_table::{KINDS, Kind};

// The words that every record of its kind has. (Not by btf_type_table's `extra_of`: that tells bytes, with those of the entries, and none
// for void and where there is no such kind. The words of those two are 3 and 0 here.)
fn fixed_words(e: Entry) -> u32
    ensures { result ≡ fixed_words (e.word % 32) }
{
    match e.kind() {
        Kind::Int | Kind::Var | Kind::DeclTag => 4,
        Kind::Array => 6,
        Kind::Unknown => 0,
        _ => 3,
    }
}

// The words of one of its entries.
fn entry_words(e: Entry) -> u32
    ensures { result ≡ entry_words (e.word % 32) }
{
    match e.kind() {
        Kind::Struct | Kind::Union | Kind::Datasec | Kind::Enum64 => 3,
        Kind::Enum | Kind::FuncProto => 2,
        _ => 0,
    }
}

// What a word of a record is: the offset of a name, a stored id, or neither.
#[derive(Clone, Copy)]
pub enum Role {
    Name,
    Id,
    Plain,
}

// The first word: name_off.
fn name_role(e: Entry) -> Role
    ensures { result ≡ role_of (role (e.word % 32) 0) }
{
    match e.kind() {
        Kind::Void | Kind::Unknown => Role::Plain,
        _ => Role::Name,
    }
}

// The third word: `type`, or `size` or unused.
fn type_role(e: Entry) -> Role
    ensures { result ≡ role_of (role (e.word % 32) 2) }
{
    match e.kind() {
        Kind::Ptr
        | Kind::Typedef
        | Kind::Volatile
        | Kind::Const
        | Kind::Restrict
        | Kind::Func
        | Kind::FuncProto
        | Kind::Var
        | Kind::DeclTag
        | Kind::TypeTag => Role::Id,
        _ => Role::Plain,
    }
}

// A row for each kind 0 to 19: what its first six words are, 1 a name and 2 an id.
const ROWS: &[u8] =
    b"000000100000102000100220100120100120100100100000102000102000102000102000102000102120102000100200100000102000102000100100";

const WORDS_OF_ROW: usize = 6;

// Word k of what follows the first three, of a record without entries. (By the rows and not by kind: such a record has six words at most,
// and of a word past them the definition says what the rows of the next kinds have.)
fn row_role(e: Entry, k: u32) -> Role
    ensures { result ≡ role_of (digit_at roles (e.word % 32 * 6 + (3 + k))) }
{
    let row = ((e.word % KINDS) as usize) * WORDS_OF_ROW;
    match peek(ROWS, row + (3 + (k as usize)), b'0') {
        b'1' => Role::Name,
        b'2' => Role::Id,
        _ => Role::Plain,
    }
}

// Word k of what follows the first three: entries of two or three words repeat.
#[inline]
fn entry_role(e: Entry, k: u32) -> Role
    ensures { result ≡ role_of (role (e.word % 32) (3 + k)) }
{
    match e.kind() {
        Kind::Struct | Kind::Union => match k % 3 {
            0 => Role::Name,
            1 => Role::Id,
            _ => Role::Plain,
        },
        Kind::FuncProto => match k % 2 {
            0 => Role::Name,
            _ => Role::Id,
        },
        Kind::Enum => match k % 2 {
            0 => Role::Name,
            _ => Role::Plain,
        },
        Kind::Enum64 => match k % 3 {
            0 => Role::Name,
            _ => Role::Plain,
        },
        Kind::Datasec => match k % 3 {
            0 => Role::Id,
            _ => Role::Plain,
        },
        _ => row_role(e, k),
    }
}

// What word j of the record with entry e is. (Inline, as each word is asked: a cut of the kernel's table takes an eighth more instructions
// without.)
#[inline]
pub fn word_role(e: Entry, j: u32) -> Role
    ensures { result ≡ role_of (role (e.word % 32) j) }
{
    match j {
        0 => name_role(e),
        1 => Role::Plain,
        2 => type_role(e),
        _ => entry_role(e, j - 3),
    }
}

// How many words it has.
pub fn words_in(b: &Table, e: Entry) -> u32
    ensures { result ≡ words_in b.now.head b.now.section.now e.word }
{
    let v = vlen_of(b.word((e.place() as usize) + 4));
    fixed_words(e) + entry_words(e) * v
}

// Word j of it.
pub fn word_of(b: &Table, e: Entry, j: u32) -> u32
    ensures { result ≡ word_of b.now.head b.now.section.now e.word j }
{
    b.word((e.place() as usize) + (j as usize) * 4)
}
