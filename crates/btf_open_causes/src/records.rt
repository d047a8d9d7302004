// Cause 5: the records, one after the other, and the index of where each starts.
ghost use Rattle.std.specs.Prelude.{◌≡◌, ◌+◌, ◌*◌, ◌%◌, ◌≤◌, set};
ghost use Rattle.spec_type_table.specs.Records.{section_word, kind_of};
ghost use Rattle.spec_linux_btf.specs.Reading.{kind as kind_named};
ghost use Rattle.spec_linux_btf.specs.Places.{all_named_p};
ghost use Rattle.btf_open_causes.specs.records.Pass.{entry_width, named_by, enums_of, next_p, scan_out, scan_p, scan_section};

use crate::header::btf_header;
use crate::references::Entry;
use base_bytes::element::store;
use base_bytes::limit;
use btf_type_table::kind::{extra_of, kind_of, vlen_of};
use btf_type_table::table::Table;
use spec_type_table::Kind;

// How many types, void counted, and enumerators a pass over sound records found.
#[derive(Clone, Copy)]
pub struct Counts {
    pub types: u32,
    pub enumerators: u32,
}

// How long an entry with a name is: of members, parameters and enumerators. (Not by `extra_of`: by that a DATASEC's entries, which have no
// name, are 12 bytes long too.)
fn named_entry(info: u32) -> Option<u32>
    ensures { result ≡ entry_width (kind_named (kind_of info)) }
{
    match Kind::of(info) {
        Kind::Struct | Kind::Union | Kind::Enum64 => Some(12),
        Kind::Enum | Kind::FuncProto => Some(8),
        _ => None,
    }
}

// How many enumerators a record with this info word has.
fn enumerators_of(info: u32) -> u32
    ensures { result ≡ enums_of info }
{
    match Kind::of(info) {
        Kind::Enum | Kind::Enum64 => vlen_of(info),
        _ => 0,
    }
}

// The type area of a table: where it ends, and how many bytes of names the section has.
#[derive(Clone, Copy)]
struct Area<'a> {
    table: Table<'a>,
    end: u32,
    str_len: u32,
}

impl Area<'_> {
    // Whether the name offsets of the n entries of the record at a place, each `width` bytes long, lie inside the string area.
    fn are_names_inside(&self, at: u32, n: u32, width: u32) -> bool
        ensures { result ≡ all_named_p self.now.str_len width (section_word self.now.table.head self.now.table.section.now) (at + 12) n }
    {
        let first = (at as usize) + 12;
        (0..n).all(|k| self.table.word(first + (k as usize) * (width as usize)) < self.str_len)
    }

    // Whether the names of the record at a place lie inside the string area.
    fn are_record_names_inside(&self, at: u32, info: u32) -> bool
        ensures { result ≡ named_by self.now.str_len (section_word self.now.table.head self.now.table.section.now) info at }
    {
        if self.str_len <= self.table.word(at as usize) {
            return false;
        }
        let Some(width) = named_entry(info) else {
            return true;
        };
        self.are_names_inside(at, vlen_of(info), width)
    }

    // The place after the record at a place, whose info word is known; none where it is malformed or reaches past the end of the area.
    fn next_record(&self, at: u32, info: u32) -> Option<u32>
        requires { info ≡ section_word self.now.table.head self.now.table.section.now (at + 4) }
        ensures { result ≡ next_p (section_word self.now.table.head self.now.table.section.now) self.now.str_len self.now.end at }
    {
        let left = self.end.checked_sub(at)?.checked_sub(12)?;
        // Bits 16 to 23, 29 and 30 are unused.
        if info / 65536 % 256 != 0 || info / 536870912 % 4 != 0 {
            return None;
        }
        let n = extra_of(Kind::of(info), vlen_of(info))?;
        if left < n || !self.are_record_names_inside(at, info) {
            return None;
        }
        Some(at + 12 + n)
    }

    // The type area from a place to its end. The last turn only asks whether that is reached: there is no type of its number.
    fn scan(&self, from: u32, start: &mut [u32]) -> Option<Counts>
        requires { (from ≤ self.now.end) × (self.now.end ≤ 16777216) }
        ensures { scan_out result start.new
            ≡ scan_p (section_word self.now.table.head self.now.table.section.now) self.now.str_len from self.now.end start.old }
    {
        let mut at = from;
        let mut enumerators: u32 = 0;
        for types in 1..=limit::MOST_TYPES {
            if self.end <= at {
                return Some(Counts { types, enumerators });
            }
            let info = self.table.word((at as usize) + 4);
            store(start, types as usize, Entry::new(at, kind_of(info)).word);
            at = self.next_record(at, info)?;
            enumerators += enumerators_of(info);
        }
        None
    }
}

// The records of a section whose areas lie inside it; none where one is not sound.
pub fn scan(b: &Table, start: &mut [u32]) -> Option<Counts>
    ensures { scan_out result start.new ≡ scan_section b.now.head b.now.section.now start.old }
{
    let h = btf_header(b.section);
    let from = (h.hdr_len as u64) + (h.type_off as u64);
    let end = from + (h.type_len as u64);
    if limit::MOST_BYTES_64 < end {
        return None;
    }
    let area = Area {
        table: *b,
        end: end as u32,
        str_len: h.str_len,
    };
    area.scan(from as u32, start)
}
