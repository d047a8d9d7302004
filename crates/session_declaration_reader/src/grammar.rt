// The grammar of declarators and parameters, by the C precedence of brackets, parentheses and stars. `left` bounds the calls that are
// open at once; entries are stored from the declared name to the base. Each function answers where what it read ends.
ghost use Rattle.std.specs.Prelude.{◌≡◌, false};
ghost use Rattle.session_declaration_reader.specs.grammar.Chain as chains;
ghost use Rattle.session_declaration_reader.specs.grammar.Grammar as grammar;
ghost use Rattle.session_declaration_reader.specs.grammar.Encoding.{layer_items, param_items};
ghost use Rattle.session_declaration_reader.specs.tokens.Looking.{tokens_from};
ghost use Rattle.session_declaration_reader.specs.bases.Entries.{stored};
ghost use Rattle.session_declaration_reader.specs.grammar.Emission as emission;
ghost use Rattle.session_declaration_reader.specs.grammar.Emission.{outcome, emits, proto_items, behind_items};

use crate::bases::{Base, Chain, Entry};
use crate::token_kind::TokenKind;
use crate::tokens::Cursor;

impl Cursor<'_> {
    // A star before a declarator; or one in parentheses, or the name, with what stands behind it.
    #[cycle(grammar)]
    pub fn declarator(self, named: bool, left: u32, chain: &mut Chain) -> Option<usize>
        ensures read { outcome self.entry.text.now result (stored chain.new)
            ≡ emits layer_items chain.old.words.now chain.old.n (grammar.declarator left named (tokens_from self.entry)) }
        ensures same { chain.new.words.ghost_name ≡ chain.old.words.ghost_name }
    {
        let left = left.checked_sub(1)?;
        let t = self.token();
        let behind = Cursor { at: t.end, ..self };
        if t.kind.is_mark(b'*') {
            return behind.starred(named, left, chain);
        }
        if self.is_bracketed() {
            return behind.in_brackets(named, left, chain);
        }
        if !named {
            return self.suffixes(left, chain);
        }
        if !t.kind.is_word() {
            return None;
        }
        behind.suffixes(left, chain)
    }

    // Behind a star.
    #[cycle(grammar)]
    fn starred(self, named: bool, left: u32, chain: &mut Chain) -> Option<usize>
        ensures read { outcome self.entry.text.now result (stored chain.new)
            ≡ emits layer_items chain.old.words.now chain.old.n (emission.starred left named (tokens_from self.entry)) }
        ensures same { chain.new.words.ghost_name ≡ chain.old.words.ghost_name }
    {
        let q = self.quals_at()?;
        let behind = Cursor { at: q.end, ..self };
        let end = behind.declarator(named, left, chain)?;
        chain.put_quals(q);
        chain.put_entry(Entry::Pointer);
        Some(end)
    }

    // Behind the opening parenthesis of a declarator.
    #[cycle(grammar)]
    fn in_brackets(self, named: bool, left: u32, chain: &mut Chain) -> Option<usize>
        ensures read { outcome self.entry.text.now result (stored chain.new)
            ≡ emits layer_items chain.old.words.now chain.old.n (emission.in_brackets left named (tokens_from self.entry)) }
        ensures same { chain.new.words.ghost_name ≡ chain.old.words.ghost_name }
    {
        let at = self.declarator(named, left, chain)?;
        let t = (Cursor { at, ..self }).token();
        if !t.kind.is_mark(b')') {
            return None;
        }
        let behind = Cursor { at: t.end, ..self };
        behind.suffixes(left, chain)
    }

    // The counts and parameter lists behind a declarator.
    #[cycle(grammar)]
    fn suffixes(self, left: u32, chain: &mut Chain) -> Option<usize>
        ensures read { outcome self.entry.text.now result (stored chain.new)
            ≡ emits layer_items chain.old.words.now chain.old.n (grammar.suffixes left chains.named (tokens_from self.entry)) }
        ensures same { chain.new.words.ghost_name ≡ chain.old.words.ghost_name }
    {
        let left = left.checked_sub(1)?;
        let t = self.token();
        let behind = Cursor { at: t.end, ..self };
        if t.kind.is_mark(b'[') {
            return behind.counts(left, chain);
        }
        if t.kind.is_mark(b'(') {
            return behind.protos(left, chain);
        }
        Some(self.at)
    }

    // Behind an opening bracket.
    #[cycle(grammar)]
    fn counts(self, left: u32, chain: &mut Chain) -> Option<usize>
        ensures read { outcome self.entry.text.now result (stored chain.new)
            ≡ emits layer_items chain.old.words.now chain.old.n (emission.counts left (tokens_from self.entry)) }
        ensures same { chain.new.words.ghost_name ≡ chain.old.words.ghost_name }
    {
        let t = self.token();
        let TokenKind::Count(count) = t.kind else {
            return None;
        };
        let u = (Cursor { at: t.end, ..self }).token();
        if !u.kind.is_mark(b']') {
            return None;
        }
        chain.put_entry(Entry::Array(count));
        let behind = Cursor { at: u.end, ..self };
        behind.suffixes(left, chain)
    }

    // Behind the opening parenthesis of a parameter list: the prototype, and what stands behind it.
    #[cycle(grammar)]
    fn protos(self, left: u32, chain: &mut Chain) -> Option<usize>
        ensures read { outcome self.entry.text.now result (stored chain.new)
            ≡ emits layer_items chain.old.words.now chain.old.n (emission.protos left (tokens_from self.entry)) }
        ensures same { chain.new.words.ghost_name ≡ chain.old.words.ghost_name }
    {
        let at = self.params(left, chain)?;
        let behind = Cursor { at, ..self };
        behind.suffixes(left, chain)
    }

    // A prototype with its parameters; a lone void is none.
    #[cycle(grammar)]
    fn params(self, left: u32, chain: &mut Chain) -> Option<usize>
        ensures read { outcome self.entry.text.now result (stored chain.new)
            ≡ emits proto_items chain.old.words.now chain.old.n (grammar.params left (tokens_from self.entry)) }
        ensures same { chain.new.words.ghost_name ≡ chain.old.words.ghost_name }
    {
        let left = left.checked_sub(1)?;
        let t = self.token();
        if t.kind.is_mark(b')') {
            chain.put_entry(Entry::Prototype(false));
            return Some(t.end);
        }
        if self.void_before(b')') {
            let u = (Cursor { at: t.end, ..self }).token();
            chain.put_entry(Entry::Prototype(false));
            return Some(u.end);
        }
        chain.put_entry(Entry::Prototype(true));
        self.param_list(left, chain)
    }

    // One parameter or more.
    #[cycle(grammar)]
    fn param_list(self, left: u32, chain: &mut Chain) -> Option<usize>
        ensures read { outcome self.entry.text.now result (stored chain.new)
            ≡ emits param_items chain.old.words.now chain.old.n (grammar.param_list left (tokens_from self.entry)) }
        ensures same { chain.new.words.ghost_name ≡ chain.old.words.ghost_name }
    {
        let left = left.checked_sub(1)?;
        if self.void_before(b')') || self.void_before(b',') {
            return None;
        }
        let base = self.base_at(false)?;
        let layers = Cursor {
            at: base.end,
            ..self
        };
        let at = layers.declarator(false, left, chain)?;
        let behind = Cursor { at, ..self };
        behind.param_behind(left, chain, base)
    }

    // Behind a parameter's layers: its base, and the parameters after it.
    #[cycle(grammar)]
    fn param_behind(self, left: u32, chain: &mut Chain, base: Base) -> Option<usize>
        ensures read { outcome self.entry.text.now result (stored chain.new)
            ≡ emits (behind_items base) chain.old.words.now chain.old.n (grammar.param_end left (tokens_from self.entry)) }
        ensures same { chain.new.words.ghost_name ≡ chain.old.words.ghost_name }
    {
        let t = self.token();
        chain.put_base(base, t.kind.is_mark(b','));
        self.param_end(left, chain)
    }

    // Behind a parameter.
    #[cycle(grammar)]
    fn param_end(self, left: u32, chain: &mut Chain) -> Option<usize>
        ensures read { outcome self.entry.text.now result (stored chain.new)
            ≡ emits param_items chain.old.words.now chain.old.n (grammar.param_end left (tokens_from self.entry)) }
        ensures same { chain.new.words.ghost_name ≡ chain.old.words.ghost_name }
    {
        let left = left.checked_sub(1)?;
        let t = self.token();
        if !t.kind.is_mark(b',') {
            if !t.kind.is_mark(b')') {
                return None;
            }
            return Some(t.end);
        }
        let behind = Cursor { at: t.end, ..self };
        let u = behind.token();
        if u.kind.is_mark(b'.') {
            let last = Cursor { at: u.end, ..self };
            return last.dots_end(chain);
        }
        behind.param_list(left, chain)
    }

    // Behind `...`.
    fn dots_end(self, chain: &mut Chain) -> Option<usize>
        ensures read { outcome self.entry.text.now result (stored chain.new)
            ≡ emits param_items chain.old.words.now chain.old.n (emission.dots_end (tokens_from self.entry)) }
        ensures same { chain.new.words.ghost_name ≡ chain.old.words.ghost_name }
    {
        let t = self.token();
        if !t.kind.is_mark(b')') {
            return None;
        }
        chain.put_entry(Entry::Base(0, 0));
        Some(t.end)
    }
}
