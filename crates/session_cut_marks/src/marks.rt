// Which types are kept, and their new numbers. Marks are closed over followed ids: each id is marked once and put on a stack
// once, so every reference is looked at once. The tags and the numbers are of `session_cut_marks::tags`.
ghost use Rattle.std.specs.Prelude.{◌≡◌, ◌/◌, get_or, length};
ghost use Rattle.spec_bytes.specs.words.Words.{get_word};
ghost use Rattle.btf_open_causes.specs.references.Followed.{followed_count, followed_id};
ghost use Rattle.session_cut_marks.specs.marks.Marks.{pushed, pushed_to, weight, closed, ids_of};
ghost use Rattle.session_cut_marks.specs.marks.Marking.{heap_of, SameSlices};
ghost use Rattle.session_cut_marks.specs.kept.AtKept.{at_index};

use crate::tags::{mark_tags, number};
use base_bytes::element::peek;
use base_bytes::limit;
use btf_open_causes::references::Index;

// The marks, and the ids that have one and whose references are still to be followed: the first `height` of the stack. (No Vec: fixed
// memory, no heap. Each function that takes it ensures `same`: a struct that holds a `&mut` owes that it is still the same slice.)
#[derive(Drop)]
struct Marking<'a> {
    marks: &'a mut [u32],
    stack: &'a mut [u32],
    height: usize,
}

impl Marking<'_> {
    // Marks y and puts it on the stack, if it has no mark; void has none. (Tests each place itself: tried with peek and store on a field
    // that is a reference, and the proof of what the field has afterwards did not close.)
    fn push(&mut self, y: u32)
        ensures turned { heap_of self.new ≡ pushed (heap_of self.old) y }
        ensures same { SameSlices self.old self.new }
    {
        let at = y as usize;
        let is_void = at == 0;
        if is_void {
            return;
        }
        if self.marks.len() <= at {
            return;
        }
        if self.stack.len() <= self.height {
            return;
        }
        if self.marks[at] != 0 {
            return;
        }
        self.marks[at] = 1;
        self.stack[self.height] = y;
        self.height += 1;
    }

    // What type x follows.
    fn push_followed(&mut self, index: &Index, x: u32)
        ensures turned { heap_of self.new
            ≡ pushed_to (at_index followed_id index.now x) (heap_of self.old) (at_index followed_count index.now x) }
        ensures same { SameSlices self.old self.new }
    {
        let e = index.entry(x);
        for k in 0..index.count_at(e.kind(), e.place()) {
            self.push(index.id_at(e.kind(), e.place(), k));
        }
    }

    // Id i of the stack.
    fn stacked(&self, i: usize) -> u32
        ensures { result ≡ get_or self.now.stack.now i 0 }
    {
        peek(self.stack, i, 0)
    }

    // Until the stack is empty: the last id is taken from it, and what it follows is marked.
    fn close(&mut self, index: &Index)
        ensures turned { heap_of self.new ≡ at_index closed index.now (weight (heap_of self.old)) (heap_of self.old) }
        ensures same { SameSlices self.old self.new }
    {
        // A `while`: a `for` is no plainer, since the stack falls and grows, and no range says the turns.
        while self.height > 0 {
            let top = self.height - 1;
            let x = self.stacked(top);
            self.height = top;
            self.push_followed(index, x);
        }
    }

    // The given ids, four bytes each, least significant first.
    fn push_given(&mut self, given: &[u8])
        ensures turned { heap_of self.new
            ≡ pushed_to (get_word given.now) (heap_of self.old) (length given.now / 4) }
        ensures same { SameSlices self.old self.new }
    {
        for id in given.as_chunks::<4>().0 {
            self.push(u32::from_le_bytes(*id));
        }
    }
}

// For each id its new number, and 0 for what is not kept. The ids lent are zeros, 262145 of them; other words count as marks.
pub fn number_kept(index: &Index, given: &[u8], ids: &mut [u32])
    ensures { ids.new ≡ at_index ids_of index.now given.now ids.old }
{
    let mut stack = [0u32; limit::TYPES_LEN];
    let mut marking = Marking {
        marks: ids,
        stack: &mut stack,
        height: 0,
    };
    marking.push_given(given);
    marking.close(index);
    mark_tags(index, ids);
    number(ids);
}
