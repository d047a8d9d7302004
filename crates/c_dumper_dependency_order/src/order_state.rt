// What ordering keeps: the order states of the types and the order list, both in the work words, and what it has come to.
ghost use Rattle.std.specs.Prelude.{◌≡◌, false};
ghost use Rattle.spec_c_dumper.specs.rules.Order.{is_done};
ghost use Rattle.spec_type_table.specs.Cells.{get_field, put_field};
ghost use Rattle.c_dumper_dependency_order.specs.order_state.Work.{mark_is, mark_of, code, strong_of, refused_by};

use base_bytes::refusal::Refusal;
use btf_type_table::cell;
use btf_type_table::cell::{get_field, put_field};

// How far ordering has come with a type, or emission; the numbers of the marks in the work. The Rust has an enum of three for each.
#[derive(Clone, Copy, PartialEq, Eq)]
pub enum Mark {
    New,
    Open,
    Done,
}

impl From<Mark> for u32 {
    #[inline]
    fn from(mark: Mark) -> u32
        ensures { result ≡ code (mark_is mark) }
    {
        mark as u32
    }
}

impl From<u32> for Mark {
    // Any other word is a type that is new.
    #[inline]
    fn from(word: u32) -> Mark
        ensures { mark_is result ≡ mark_of word }
    {
        match word {
            2 => Mark::Done,
            1 => Mark::Open,
            _ => Mark::New,
        }
    }
}

// What ordering has come to: the calls made under a ceiling, the length of the order list, and whether the last way was strong.
#[derive(Clone, Copy)]
pub struct Order {
    pub made: u64,
    pub len: u32,
    pub is_strong: bool,
}

impl Order {
    // The same after a way that was strong, or was not.
    pub fn strong(self, is_strong: bool) -> Order
        ensures { result ≡ strong_of self is_strong }
    {
        Order { is_strong, ..self }
    }

    pub fn refused(self, c: Refusal) -> Halted
        ensures { result ≡ refused_by self c }
    {
        Halted {
            refusal: c,
            made: self.made,
        }
    }

    // The same by a number, of no refusal too: no way goes on from there, so none was strong.
    pub fn stopped_by(self, number: u32) -> Stopped
        ensures { result ≡ record { order = strong_of self false; number = number } }
    {
        Stopped {
            order: self.strong(false),
            number,
        }
    }
}

// What stopped it: a refusal, and the calls made by then.
#[derive(Clone, Copy)]
pub struct Halted {
    pub refusal: Refusal,
    pub made: u64,
}

// What it had come to when a number stopped it.
#[derive(Clone, Copy)]
pub struct Stopped {
    pub order: Order,
    pub number: u32,
}

// The mark of a type in a word of its cell: cell::ORDER_STATE, or cell::EMIT_STATE for emission.
#[inline]
pub fn get_mark(work: &[u8], id: u32, word: u32) -> Mark
    ensures { mark_is result ≡ mark_of (get_field work.now id word) }
{
    Mark::from(get_field(work, id, word))
}

#[inline]
pub fn is_done(work: &[u8], id: u32, word: u32) -> bool
    ensures { result ≡ is_done (mark_of (get_field work.now id word)) }
{
    get_mark(work, id, word) == Mark::Done
}

pub fn set_mark(work: &mut [u8], id: u32, word: u32, mark: Mark)
    ensures { work.new ≡ put_field work.old id word (code (mark_is mark)) }
{
    put_field(work, id, word, u32::from(mark))
}

// The id at a place of the order list.
pub fn get_listed(work: &[u8], k: u32) -> u32
    ensures { result ≡ get_field work.now k 11 }
{
    get_field(work, k, cell::ORDER_SLOT)
}

pub fn set_listed(work: &mut [u8], k: u32, id: u32)
    ensures { work.new ≡ put_field work.old k 11 id }
{
    put_field(work, k, cell::ORDER_SLOT, id)
}
