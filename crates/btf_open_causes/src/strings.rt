// Causes 3 and 4: whether header and string area are not sound.
ghost use Rattle.std.specs.Prelude.{◌≡◌, not, ◌+◌};
ghost use Rattle.spec_linux_btf.specs.Section.{header_sound, strings_sound};
ghost use Rattle.btf_open_causes.specs.header.Header.{is_magic, bad_strings};

use crate::header::{Header, LITTLE_MAGIC, btf_header, is_big_endian};

// The least length of a section, the only version, and the least that a sound header says of its own length.
const LEAST_LENGTH: usize = 24;

const VERSION: u8 = 1;

const LEAST_HEADER: u32 = 24;

// The end of an area.
fn area_end(h: Header, off: u32, len: u32) -> u64
    ensures { result ≡ h.hdr_len + off + len }
{
    (h.hdr_len as u64) + (off as u64) + (len as u64)
}

// At least 24 bytes, the magic in either order, version 1.
fn is_magic(section: &[u8]) -> bool
    ensures { result ≡ is_magic section.now }
{
    section.len() >= LEAST_LENGTH
        && (is_big_endian(section) || section.starts_with(&LITTLE_MAGIC))
        && section[2] == VERSION
}

// Cause 3: too short, magic, version, header length, or an area past the end.
pub fn has_bad_header(section: &[u8]) -> bool
    ensures { result ≡ not (header_sound section.now) }
{
    let h = btf_header(section);
    if !is_magic(section) || h.hdr_len < LEAST_HEADER {
        return true;
    }
    let len = section.len() as u64;
    len < area_end(h, h.type_off, h.type_len) || len < area_end(h, h.str_off, h.str_len)
}

// Whether a string area starts and ends in 0 and is ASCII.
fn is_sound_area(strs: &[u8]) -> bool
    ensures { result ≡ strings_sound strs.now }
{
    strs.starts_with(&[0]) && strs.ends_with(&[0]) && strs.is_ascii()
}

// Cause 4.
pub fn has_bad_strings(section: &[u8]) -> bool
    ensures { result ≡ bad_strings section.now }
{
    let h = btf_header(section);
    let from = (h.hdr_len as usize) + (h.str_off as usize);
    match section.get(from..from + (h.str_len as usize)) {
        Some(strs) => !is_sound_area(strs),
        None => true,
    }
}
