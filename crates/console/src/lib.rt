// The lines of the program `tightcheck`: a theory file read from a reader, what is printed of it written to a writer.
#![tactic(auto)]

ghost use Rattle.std.specs.Prelude.{◌≡◌, ◌≤◌, IfOk, length, take};
ghost use Rattle.console.specs.Printed.{printed_of};

use std::io;
use std::io::{Read, Write};
use theory::Refusal;

// Tells on standard error what failed, and why.
fn fail(rt: &impl Eprint, what: &str, why: &io::Error) {
    let _ = eprintln!(rt; "tightcheck: {what}: {why}");
}

// Reads until `file` is full or the input ends, and answers how many bytes it read.
// Of std's calls, read_exact does not say how many, and read_to_end fills a Vec.
pub fn read_full<R: Read>(input: &mut R, file: &mut [u8]) -> io::Result<usize>
    ensures { IfOk result (λ n. n ≤ length file.new) }
{
    let mut n = 0;
    while n < file.len() {
        let more = input.read(&mut file[n..])?;
        if more == 0 {
            break;
        }
        n += more;
    }
    Ok(n)
}

// What is printed of the file, at the front of the output; answers its length.
fn printed(file: &[u8], out: &mut [u8; 65536]) -> usize
    ensures { (result ≤ 65536) × (take result out.new ≡ printed_of file.now) }
{
    // 0 where the text is longer than the output
    let n = run::run(file, out);
    if n == 0 {
        text::refused_line(out, 0, Refusal::ShortBuffer(9))
    } else {
        n
    }
}

// Prints what the program says of the file; a failed write is told on standard error.
fn print<W: Write>(rt: &impl Eprint, file: &[u8], output: &mut W) {
    let mut out = [0u8; 65536];
    let n = printed(file, &mut out);
    if let Err(e) = output.write_all(&out[..n]) {
        fail(rt, "writing the text", &e);
    }
}

// Reads a theory file from `input` and prints what the program says of it to `output`.
// A failed read prints nothing there, and is told on standard error.
pub fn answer<R: Read, W: Write>(rt: &impl Eprint, input: &mut R, output: &mut W) {
    // one byte more than a file may have is seen and refused
    let mut file = [0u8; 65537];
    match read_full(input, &mut file) {
        Ok(n) => print(rt, &file[..n], output),
        Err(e) => fail(rt, "reading the theory file", &e),
    }
}
