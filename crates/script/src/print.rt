// Printing.
use std::io;

pub fn length(rt: &impl Print, n: usize) -> io::Result<()> {
    print!(rt; " {n}")
}

pub fn number(rt: &impl Print, x: u32) -> io::Result<()> {
    length(rt, x as usize)
}

pub fn signed(rt: &impl Print, x: i32) -> io::Result<()> {
    print!(rt; " {x}")
}

// The end of a line; memory that is not as it must be is said.
pub fn end(rt: &impl Print, right: bool) -> io::Result<()> {
    if right {
        rt.write_all(b"\n")
    } else {
        rt.write_all(b" memory\n")
    }
}
