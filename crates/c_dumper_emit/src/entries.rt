// The entry of a line in the lent list: three words, before any other step of the line.
ghost use Rattle.std.specs.Prelude.{◌≡◌, List, ℕ, ◌<◌, ◌/◌, length, Ok};
ghost use Rattle.spec_c_dumper.specs.rules.Machine.{obind};
ghost use Rattle.spec_c_dumper.specs.origins.Causes.{entry, cause_at, entries_in};
ghost use Rattle.spec_type_table.specs.Table.{type_of};
ghost use Rattle.c_dumper_dependency_order.specs.leaders.Leaders.{leader_words, entry_in};
ghost use Rattle.c_dumper_emit.specs.entries.Traced.{cause_code, entry_of, entry_put, traced_out, note_n, note_if_n, shown_of};

use crate::emission::Emission;
use base_bytes::refusal::Refusal;
use base_bytes::word::put_word;
use btf_type_table::table::Table;
use c_dumper_dependency_order::leaders::leader_of;
use spec_type_table::BtfType;

// An entry of the lent list.
const ENTRY_WORDS: usize = 3;

pub const ENTRY_BYTES: usize = 4 * ENTRY_WORDS;

// The next place in the text, and how many entries the list has.
#[derive(Clone, Copy)]
pub struct Pen {
    pub at: usize,
    pub count: usize,
}

// Why a line is there; the numbers of an entry.
#[derive(Clone, Copy)]
pub enum Cause {
    Requested,
    Needed,
    ForwardLine,
    EarlyTypedef,
}

impl From<Cause> for u32 {
    fn from(value: Cause) -> u32
        ensures { result ≡ cause_code value }
    {
        value as u32
    }
}

// An entry: the id of a line, the number of its cause, whatever it is, and the id that led there.
#[derive(Clone, Copy)]
pub struct Origin {
    pub id: u32,
    pub cause: u32,
    pub leader: u32,
}

impl Emission<'_> {
    // The entry of a listed id.
    pub fn listed_origin(&self, id: u32) -> Origin
        ensures { entry_of result ≡ entry_in self.now.request.req self.now.request.turn (leader_words self.now.leaders.now) id }
    {
        if id == self.request.req {
            return Origin {
                id,
                cause: u32::from(Cause::Requested),
                leader: id,
            };
        }
        Origin {
            id,
            cause: u32::from(Cause::Needed),
            leader: leader_of(self.leaders, self.request.req, self.request.turn, id),
        }
    }

    // At the top a line is there because its id is listed, within a container because of that.
    pub fn origin_at(&self, within: u32, id: u32, cont: u32) -> Origin
        ensures { entry_of result ≡ cause_at within
            (entry_in self.now.request.req self.now.request.turn (leader_words self.now.leaders.now) id) id cont }
    {
        if cont == 0 {
            return self.listed_origin(id);
        }
        Origin {
            id,
            cause: within,
            leader: cont,
        }
    }
}

// A forward line is there because of its container.
pub fn forward_origin(id: u32, cont: u32) -> Origin
    ensures { entry_of result ≡ entry id 2 cont }
{
    Origin {
        id,
        cause: u32::from(Cause::ForwardLine),
        leader: cont,
    }
}

fn put_entry(list: &mut [u8], k: usize, id: u32, cause: u32, leader: u32)
    requires { k < length list.old / 12 }
    ensures { list.new ≡ entry_put list.old k (entry id cause leader) }
{
    let at = k * ENTRY_WORDS;
    put_word(list, at, id);
    put_word(list, at + 1, cause);
    put_word(list, at + 2, leader);
}

// One more entry, whatever the number of its cause, or 17.
pub fn note(list: &mut [u8], p: Pen, id: u32, cause: u32, leader: u32) -> Result<Pen, Refusal>
    ensures { (n : ℕ) (t w : List ℕ) → traced_out n result t w list.new
        ≡ obind (traced_out n (Ok p) t w list.old) (λ m. note_n (entries_in list.old) (entry id cause leader) m) }
{
    if list.len() / ENTRY_BYTES <= p.count {
        return Err(Refusal::TextFull);
    }
    put_entry(list, p.count, id, cause, leader);
    Ok(Pen {
        count: p.count + 1,
        ..p
    })
}

// Of a line that prints nothing there is no entry.
pub fn note_if(list: &mut [u8], p: Pen, e: Origin, shown: bool) -> Result<Pen, Refusal>
    ensures { (n : ℕ) (t w : List ℕ) → traced_out n result t w list.new
        ≡ obind (traced_out n (Ok p) t w list.old)
        (λ m. note_if_n shown (entries_in list.old) (entry_of e) m) }
{
    if shown {
        return note(list, p, e.id, e.cause, e.leader);
    }
    Ok(p)
}

// Whether the forward line or the typedef of a type prints anything: that of the compiler's own type does not.
pub fn is_shown(b: &Table, t: BtfType) -> bool
    ensures { result ≡ shown_of (type_of b.now.head b.now.section.now t) }
{
    if b.is_named(t) {
        return !b.is_builtin(t.name_off);
    }
    true
}
