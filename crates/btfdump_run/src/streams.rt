// Whole slices read and written.
ghost use Rattle.std.specs.Prelude.{◌≤◌, length, take, OnOk};
ghost use Rattle.std.specs.Io.KnownBytes.{Appends, Consumes};

use std::io;
use std::io::{Read, Write};

// Reads until the buffer is full, the input ends or a read fails: how many bytes stand at its start. (A loop, since std fills a slice by
// read_exact alone, which does not say what it read of an input that ends before.)
pub fn read_full<R: Read>(reader: &mut R, buf: &mut [u8]) -> usize
    ensures in_bounds { result ≤ length buf.new }
    ensures bytes { Consumes (R.remaining reader.old) (R.remaining reader.new) (take result buf.new) }
{
    let mut done = 0;
    while done < buf.len() {
        match reader.read(&mut buf[done..]) {
            Ok(0) | Err(_) => return done,
            Ok(n) => done += n,
        }
    }
    done
}

// Writes the first n bytes; nothing where there are fewer.
pub fn write_first<W: Write>(writer: &mut W, bytes: &[u8], n: usize) -> io::Result<()>
    ensures { OnOk result (n ≤ length bytes.now → Appends (W.contents writer.old) (W.contents writer.new) (take n bytes.now)) }
{
    match bytes.get(..n) {
        Some(first) => writer.write_all(first),
        None => Ok(()),
    }
}
