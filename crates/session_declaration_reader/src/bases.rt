// Qualifiers and bases of a declaration's text.
mod items;

ghost use Rattle.std.specs.Prelude.{◌≡◌};
ghost use Rattle.session_declaration_reader.specs.bases.Bases.{ends_name, bracketed, void_before};
ghost use Rattle.session_declaration_reader.specs.tokens.Looking.{tokens_from};
ghost use Rattle.session_declaration_reader.specs.bases.Looking.{BaseWord, QualsAt, behind_void};
ghost use Rattle.session_declaration_reader.specs.bases.Looking.{Untagged, BaseEnds, BaseAt};

pub use crate::bases::items::{Chain, Entry};
use crate::token_kind::{Qualifier, TokenKind};
use crate::tokens::{Cursor, Tok};

// At most three qualifiers, and where they end.
#[derive(Clone, Copy)]
pub struct Quals {
    pub list: [Option<Qualifier>; 3],
    pub end: usize,
}

// A base: its qualifiers, and where its words start and end.
#[derive(Clone, Copy)]
pub struct Base {
    pub quals: Quals,
    pub start: usize,
    pub end: usize,
}

impl Cursor<'_> {
    // None where a qualifier stands twice. (By index: tried with `iter_mut`, and it is no Rust, since `contains` looks at the whole list in
    // each turn, while the iterator holds its places.)
    pub fn quals_at(self) -> Option<Quals>
        ensures { QualsAt self.entry.text.now self.entry.at result }
    {
        let mut list = [None; 3];
        let mut end = self.at;
        for i in 0..3 {
            let t = (Cursor { at: end, ..self }).token();
            let TokenKind::Qualifier(q) = t.kind else {
                return Some(Quals { list, end });
            };
            if list.contains(&Some(q)) {
                return None;
            }
            list[i] = Some(q);
            end = t.end;
        }
        // There are three of them, so that a fourth stands twice.
        let t = (Cursor { at: end, ..self }).token();
        if let TokenKind::Qualifier(_) = t.kind {
            return None;
        }
        Some(Quals { list, end })
    }

    // Whether the word before this place is the declared name.
    fn ends_name(self) -> bool
        ensures { result ≡ ends_name (tokens_from self.entry) }
    {
        let t = self.token();
        if t.kind.is_word() || t.kind.is_mark(b'*') {
            return false;
        }
        !self.is_bracketed()
    }

    // The word of the base that stands next; with a name wanted, the last word is the name.
    fn base_word(self, named: bool) -> Option<Tok>
        ensures { BaseWord self.entry.text.now self.entry.at named result }
    {
        let t = self.token();
        if !t.kind.is_word() {
            return None;
        }
        let behind = Cursor { at: t.end, ..self };
        if named && behind.ends_name() {
            return None;
        }
        Some(t)
    }

    // Where the words of the base end, if none of them is struct, union or enum. (A `while`, to the first that is no word: `successors` is
    // endless for std, and with `take` it would count besides, only to end.)
    fn untagged_end(self, named: bool) -> Option<usize>
        ensures { Untagged self.entry.text.now self.entry.at named result }
    {
        let mut end = self.at;
        while let Some(t) = (Cursor { at: end, ..self }).base_word(named) {
            if let TokenKind::Tag = t.kind {
                return None;
            }
            end = t.end;
        }
        Some(end)
    }

    // Where the base that stands next ends: its keyword and a tag, or words.
    fn base_end(self, named: bool) -> Option<usize>
        ensures { BaseEnds self.entry.text.now self.entry.at named result }
    {
        let t = self.base_word(named)?;
        let second = Cursor { at: t.end, ..self };
        let TokenKind::Tag = t.kind else {
            return second.untagged_end(named);
        };
        let u = second.base_word(named)?;
        let third = Cursor { at: u.end, ..self };
        match third.base_word(named) {
            Some(_) => None,
            None => Some(u.end),
        }
    }

    // The base that stands next, with its qualifiers.
    pub fn base_at(self, named: bool) -> Option<Base>
        ensures { BaseAt self.entry.text.now self.entry.at named result }
    {
        let quals = self.quals_at()?;
        let behind = Cursor {
            at: quals.end,
            ..self
        };
        let end = behind.base_end(named)?;
        let t = behind.token();
        Some(Base {
            quals,
            start: t.start,
            end,
        })
    }

    // What stands behind a `void` that is next.
    pub fn behind_void(self) -> Option<TokenKind>
        ensures { result ≡ behind_void (tokens_from self.entry) }
    {
        let t = self.token();
        let TokenKind::Void = t.kind else {
            return None;
        };
        let behind = Cursor { at: t.end, ..self };
        let u = behind.token();
        Some(u.kind)
    }

    // `void` by itself, before that mark.
    pub fn void_before(self, mark: u8) -> bool
        ensures { result ≡ void_before mark (tokens_from self.entry) }
    {
        let behind = self.behind_void();
        behind.is_some_and(|kind| kind.is_mark(mark))
    }

    // Whether a declarator in parentheses stands next: it begins with a star.
    pub fn is_bracketed(self) -> bool
        ensures { result ≡ bracketed (tokens_from self.entry) }
    {
        let t = self.token();
        if !t.kind.is_mark(b'(') {
            return false;
        }
        let behind = Cursor { at: t.end, ..self };
        let u = behind.token();
        u.kind.is_mark(b'*')
    }
}
