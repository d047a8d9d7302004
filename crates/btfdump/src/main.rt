// Reads a section from standard input, its first 65,536 bytes, and prints the header of all its types, or the refusal.
#![tactic(auto)]

use btfdump_run::streams::{read_full, write_first};

fn main(rt: HostRuntime) {
    let mut section = [0u8; 65536];
    let n = read_full(&mut rt.stdin(), &mut section);
    let mut work = [0u8; 65536];
    let mut text = [0u8; 65536];
    if let Some(len) = btfdump_run::program::run(&section[..n], &mut work, &mut text) {
        // A write that fails ends the program quietly.
        let _ = write_first(&mut rt.stdout(), &text, len);
    }
}
