// After the marks: the declaration tags of what is marked, then the numbers in old order.
ghost use Rattle.std.specs.Prelude.{◌≡◌, ◌<◌};
ghost use Rattle.btf_open_causes.specs.references.Followed.{type_count};
ghost use Rattle.session_cut_marks.specs.tags.Tags.{some_number, tag_on, tagged_at, tagged_to, numbered, numbered_at, numbers_of};
ghost use Rattle.session_cut_marks.specs.kept.AtKept.{at_index};

use base_bytes::element::{peek, store};
use base_bytes::limit;
use btf_open_causes::references::Index;
use spec_type_table::Kind;

// What the DECL_TAG x is on, where that is neither void nor a DECL_TAG.
fn tag_on(index: &Index, x: u32) -> Option<u32>
    ensures { result ≡ some_number (at_index tag_on index.now x) }
{
    let e = index.entry(x);
    if e.kind() != Kind::DeclTag {
        return None;
    }
    let t = index.table.word((e.place() as usize) + 8);
    let is_tag = index.kind_at(t) == Kind::DeclTag;
    if is_tag {
        return None;
    }
    if t == 0 {
        return None;
    }
    Some(t)
}

// Marks x, if it is a tag on what is marked.
fn mark_tag(index: &Index, marks: &mut [u32], x: u32)
    ensures { marks.new ≡ at_index tagged_at index.now marks.old x }
{
    let Some(t) = tag_on(index, x) else {
        return;
    };
    if peek(marks, t as usize, 0) == 0 {
        return;
    }
    store(marks, x as usize, 1);
}

pub fn mark_tags(index: &Index, marks: &mut [u32])
    ensures { marks.new ≡ at_index tagged_to index.now marks.old (type_count index.now.table.head) }
{
    for x in 0..index.count() {
        mark_tag(index, marks, x);
    }
}

// The number after c for x, if x has a mark.
fn number_one(ids: &mut [u32], x: usize, c: u32) -> u32
    requires { c < 4294967295 }
    ensures { numbered ids.new result ≡ numbered_at (numbered ids.old c) x }
{
    if peek(ids, x, 0) == 0 {
        return c;
    }
    store(ids, x, c + 1);
    c + 1
}

// "ids renumbered in old order": each mark becomes a number. (By index: a slice may be longer than there are types, and after an adapter of
// iter_mut, as take, a proof knows no element of it.)
pub fn number(ids: &mut [u32])
    ensures { ids.new ≡ numbers_of ids.old }
{
    let mut c = 0;
    for x in 0..limit::TYPES_LEN {
        c = number_one(ids, x, c);
    }
}
