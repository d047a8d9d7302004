// The kinds of a type.
ghost use Rattle.std.specs.Prelude.{◌≡◌};
ghost use Rattle.spec_type_table.specs.Records.{kind_of};
ghost use Rattle.spec_type_table.specs.Kinds.{kind_named};

#[derive(Clone, Copy, PartialEq, Eq, Debug)]
pub enum Kind {
    Void,
    Int,
    Ptr,
    Array,
    Struct,
    Union,
    Enum,
    Fwd,
    Typedef,
    Volatile,
    Const,
    Restrict,
    Func,
    FuncProto,
    Var,
    Datasec,
    Float,
    DeclTag,
    TypeTag,
    Enum64,
    // There is no kind of this number.
    Unknown,
}

// btf_type.info: bits 24-28 are the kind.
pub const KIND_UNIT: u32 = 1 << 24;

pub const KINDS: u32 = 1 << 5;

impl Kind {
    #[inline]
    pub fn of(info: u32) -> Kind
        ensures { result ≡ kind_named (kind_of info) }
    {
        Kind::from(info / KIND_UNIT % KINDS)
    }
}

impl From<u32> for Kind {
    #[inline]
    #[tactic(auto, using(crate::proofs::KindNames::unknown), unfolding(crate::specs::Kinds::kind_named))]
    fn from(number: u32) -> Kind
        ensures { result ≡ kind_named number }
    {
        match number {
            0 => Kind::Void,
            1 => Kind::Int,
            2 => Kind::Ptr,
            3 => Kind::Array,
            4 => Kind::Struct,
            5 => Kind::Union,
            6 => Kind::Enum,
            7 => Kind::Fwd,
            8 => Kind::Typedef,
            9 => Kind::Volatile,
            10 => Kind::Const,
            11 => Kind::Restrict,
            12 => Kind::Func,
            13 => Kind::FuncProto,
            14 => Kind::Var,
            15 => Kind::Datasec,
            16 => Kind::Float,
            17 => Kind::DeclTag,
            18 => Kind::TypeTag,
            19 => Kind::Enum64,
            _ => Kind::Unknown,
        }
    }
}
