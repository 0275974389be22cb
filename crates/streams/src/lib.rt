// What the programs read: standard input into a buffer of a fixed size.
// Rests on nothing.

#![tactic(auto)]

ghost use Rattle.std.specs.Prelude.{◌≡◌, ◌≤◌, length, take};
ghost use Rattle.std.specs.Io.KnownBytes.{Consumes};

use std::io::Read;

// 65,536 zeros, for a whole file of cases.
pub fn large_buffer() -> [u8; 65536]
    ensures { 65536 ≡ length result }
{
    [0u8; 65536]
}

// Reads until `buf` is full, the input ends or a read fails; how many bytes stand at the start of `buf`. They are all that was taken from the reader, in
// its order. A read that gives fewer bytes than there is room for, as from a pipe, is no end.
pub fn read_full<R: Read>(reader: &mut R, buf: &mut [u8]) -> usize
    ensures fits { result ≤ length buf.new }
    ensures taken { Consumes (R.remaining reader.old) (R.remaining reader.new) (take result buf.new) }
{
    let mut done = 0;
    while done < buf.len() {
        match reader.read(&mut buf[done..]) {
            Ok(0) => return done,
            Ok(n) => done += n,
            Err(_) => return done,
        }
    }
    done
}
