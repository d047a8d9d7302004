// The words of a record without its section: kind, flag, count of entries, and where entries stand.
ghost use Rattle.std.specs.Prelude.{◌≡◌, ℕ, eqb};
ghost use Rattle.spec_bytes.specs.words.Words.{pick};
ghost use Rattle.spec_type_table.specs.Kinds.{kind_named};
ghost use Rattle.spec_type_table.specs.Records.{vlen_of, kind_of, flag_of, member_at, param_at, extra_of, entries_of};

use spec_type_table::{BtfType, Entries, KIND_UNIT, KINDS, Kind};

// btf_type.info: bits 0-15 vlen, 24-28 kind, 31 kind_flag.
const VLENS: u32 = 1 << 16;

const KIND_FLAG: u32 = 1 << 31;

pub fn vlen_of(info: u32) -> u32
    ensures { result ≡ vlen_of info }
{
    info % VLENS
}

// The kind's number. (Beside Kind::of, which is by the same bits: a Kind has no number where there is no such kind, and spec_type_table
// holds conversions to its own types only.)
pub fn kind_of(info: u32) -> u32
    ensures { result ≡ kind_of info }
{
    info / KIND_UNIT % KINDS
}

pub fn kind_flag_of(info: u32) -> bool
    ensures { result ≡ flag_of info }
{
    KIND_FLAG <= info
}

// How many bytes follow the twelve of a record of a kind with this vlen; none where there is no such kind.
pub fn extra_of(kind: Kind, vlen: u32) -> Option<u32>
    ensures { (n : ℕ) → kind ≡ kind_named n → result ≡ extra_of n vlen }
{
    let n = vlen % VLENS;
    match kind {
        Kind::Int | Kind::Var | Kind::DeclTag => Some(4),
        Kind::Array => Some(12),
        Kind::Struct | Kind::Union | Kind::Datasec | Kind::Enum64 => Some(12 * n),
        Kind::Enum | Kind::FuncProto => Some(8 * n),
        Kind::Ptr
        | Kind::Fwd
        | Kind::Typedef
        | Kind::Volatile
        | Kind::Const
        | Kind::Restrict
        | Kind::Func
        | Kind::Float
        | Kind::TypeTag => Some(0),
        Kind::Void | Kind::Unknown => None,
    }
}

#[tactic(auto, using(spec_type_table::proofs::KindNames::kind_numbers, std::proofs::lemmas::Bool::Decides::nat_tests))]
pub fn is_struct(t: BtfType) -> bool
    ensures { result ≡ eqb (kind_of t.info) 4 }
{
    Kind::of(t.info) == Kind::Struct
}

// The entries of a record.
pub fn entries_of(t: BtfType) -> Entries
    ensures { result ≡ entries_of t }
{
    Entries {
        at: t.at,
        vlen: vlen_of(t.info),
    }
}

// The place of member k; of an ENUM64's value k too. (Two functions: one over the width would be called by a number where these say which
// struct of the Linux page it is, and each is one line.)
pub fn member_place(at: u32, k: u32) -> usize
    ensures { result ≡ member_at at k }
{
    (at as usize) + 12 + (k as usize) * 12
}

// The place of parameter k; of an ENUM's value k too.
pub fn param_place(at: u32, k: u32) -> usize
    ensures { result ≡ param_at at k }
{
    (at as usize) + 12 + (k as usize) * 8
}

// The place of value k of an enum, whose values are wide in an ENUM64: a struct btf_enum64 or a struct btf_enum.
pub fn value_place(wide: bool, at: u32, k: u32) -> usize
    ensures { result ≡ pick wide (member_at at k) (param_at at k) }
{
    if wide {
        return member_place(at, k);
    }
    param_place(at, k)
}
