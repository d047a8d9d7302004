// What a token of a declaration is.
ghost use Rattle.std.specs.Prelude.{◌≡◌};
ghost use Rattle.session_declaration_reader.specs.tokens.Looking.{qualifier_code, is_word_kind, is_mark_kind};

#[derive(Clone, Copy, PartialEq, Eq)]
pub enum Qualifier {
    Const,
    Volatile,
    Restrict,
}

// Its number in an entry of a chain.
impl From<Qualifier> for u64 {
    fn from(qualifier: Qualifier) -> u64
        ensures { result ≡ qualifier_code qualifier }
    {
        match qualifier {
            Qualifier::Const => 1,
            Qualifier::Volatile => 2,
            Qualifier::Restrict => 3,
        }
    }
}

// The byte of what is no token.
pub const NO_TOKEN: u8 = 0;

// A mark is a byte that stands by itself; `...` is the mark of its byte. What is no token is a mark too, and no variant of its own: the
// definition says of a byte 0 in the text what it says of such a run, and is_mark and void_before promise it for each byte, 0 with them.
#[derive(Clone, Copy)]
pub enum TokenKind {
    End,
    Qualifier(Qualifier),
    // struct, union or enum.
    Tag,
    Void,
    // Any other word.
    Word,
    Count(u32),
    Mark(u8),
}

impl TokenKind {
    // Whether it is a word and no qualifier.
    pub fn is_word(self) -> bool
        ensures { result ≡ is_word_kind self }
    {
        matches!(self, TokenKind::Tag | TokenKind::Void | TokenKind::Word)
    }

    pub fn is_mark(self, mark: u8) -> bool
        ensures { result ≡ is_mark_kind mark self }
    {
        matches!(self, TokenKind::Mark(b) if b == mark)
    }
}
