// Runs the program's work on each stored section that the file `names` lists, and compares what it would print with the
// stored text: NAME.btf with NAME.out.
#![tactic(auto)]

use base_bytes::put::put_bytes;
use btfdump_run::streams::read_full;
use std::fs::File;
use std::io;
use std::io::Write;
use std::rt::Files;

// Bytes that are read of a file, and bytes of work and text.
const MOST: usize = 65536;

// Opens the file whose name is `name` and `ending`. The path is put together in bytes of its own, since the program allocates
// nothing; where it does not fit, it is those bytes.
fn open_read<R: Files>(rt: &R, name: &[u8], ending: &str) -> Option<R::File> {
    let mut path = [0u8; 128];
    let at = put_bytes(&mut path, 0, name).unwrap_or(path.len());
    let n = put_bytes(&mut path, at, ending.as_bytes()).unwrap_or(path.len());
    File::open(rt, str::from_utf8(path.get(..n)?).ok()?).ok()
}

// The first bytes of that file; where there is none, the buffer as it is.
fn read_file<'a, R: Files>(rt: &R, name: &[u8], ending: &str, buf: &'a mut [u8]) -> &'a [u8] {
    match open_read(rt, name, ending) {
        Some(mut file) => {
            let len = read_full(&mut file, buf);
            &buf[..len]
        }
        None => buf,
    }
}

// Whether the section of a name gives its text.
fn holds<R: Files>(rt: &R, name: &[u8]) -> bool {
    let mut section = [0u8; MOST];
    let mut expected = [0u8; MOST];
    let mut work = [0u8; MOST];
    let mut text = [0u8; MOST];
    let section = read_file(rt, name, ".btf", &mut section);
    let expected = read_file(rt, name, ".out", &mut expected);
    match btfdump_run::program::run(section, &mut work, &mut text) {
        Some(len) => text.get(..len) == Some(expected),
        None => false,
    }
}

// Tries the name on each line, and says how many there were and which differ. A write that fails is passed over.
fn try_all<R: Files + Print>(rt: &R, names: &[u8]) {
    let mut count: u32 = 0;
    let mut differ: u32 = 0;
    for line in names.split_inclusive(|b| *b == b'\n') {
        let name = line.strip_suffix(b"\n").unwrap_or(line);
        count = count.saturating_add(1);
        if !holds(rt, name) {
            differ = differ.saturating_add(1);
            let _ = io::writer(rt).write_all(name);
            let _ = println!(rt; " differs");
        }
    }
    let _ = println!(rt; "{count} sections, {differ} differ");
}

fn main(rt: HostRuntime) {
    let mut buf = [0u8; MOST];
    try_all(&rt, read_file(&rt, b"names", "", &mut buf));
}
