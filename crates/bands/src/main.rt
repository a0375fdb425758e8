//! Prints the listing of the recording on standard input.
#![tactic(auto)]

ghost use Rattle.std.specs.Prelude.{◌≤◌, length, IfOk};

use listing::listing;
use std::io;
use std::io::{Read, Write};

/// Reads until the memory is full or the input ends. Returns how many bytes were read.
fn fill<R: Read>(input: &mut R, memory: &mut [u8]) -> io::Result<usize>
    ensures { IfOk result (λ n. n ≤ length memory.new) }
{
    // A loop: `read_exact` fails on an early end, `read_to_end` wants a heap, and `copy` has no clause on this input's count.
    let mut count = 0;
    while count < memory.len() {
        match input.read(&mut memory[count..])? {
            0 => break,
            more => count += more,
        }
    }
    Ok(count)
}

fn main(rt: HostRuntime) -> io::Result<()> {
    let mut recording = [0u8; 8196];
    let count = fill(&mut rt.stdin(), &mut recording)?;
    let mut text = [0u8; 8192];
    let size = listing(&recording[..count], &mut text).unwrap();
    rt.stdout().write_all(&text[..size])
}
