// Which types of a section are kept.
ghost use Rattle.std.specs.Prelude.{◌≡◌, get_or};
ghost use Rattle.btf_open_causes.specs.references.Followed.{entry_at};
ghost use Rattle.session_cut_marks.specs.tags.Tags.{some_number};

use base_bytes::element::peek;
use btf_open_causes::references::{Entry, Index};

// A section with the index of its records, and the new id of each type: 0 for what is not kept (fixed memory). (By type as the index is,
// and no array of both: the index is there before any id is known, and opening makes it too, where nothing has a new id.)
#[derive(Clone, Copy)]
pub struct Kept<'a> {
    pub index: Index<'a>,
    pub ids: &'a [u32],
}

impl Kept<'_> {
    // The new id of type x, if it is kept.
    pub fn new_id(&self, x: u32) -> Option<u32>
        ensures { result ≡ some_number (get_or self.now.ids.now x 0) }
    {
        let id = peek(self.ids, x as usize, 0);
        if id == 0 {
            return None;
        }
        Some(id)
    }

    // The entry of its record.
    pub fn entry(&self, x: u32) -> Entry
        ensures { result.word ≡ entry_at self.now.index.table.head self.now.index.start.now x }
    {
        self.index.entry(x)
    }
}
