// Runs the lines of `tightcheck` on the files of data/, and on two inputs that cannot be read.
#![tactic(auto)]

use std::fs::File;
use std::io;
use std::io::Read;

// What a name opens: a file, or why it is not open, which each read tells.
#[derive(Drop)]
struct Opened(io::Result<File>);

impl Read for Opened {
    fn read(&mut self, buf: &mut [u8]) -> io::Result<usize> {
        match &mut self.0 {
            Ok(file) => file.read(buf),
            Err(e) => Err(io::Error::from(e.kind())),
        }
    }
}

fn show(rt: &HostRuntime, name: &str) -> io::Result<()> {
    println!(rt; "== {name}")?;
    let mut input = Opened(File::open(rt, name));
    console::answer(rt, &mut input, &mut io::writer(rt));
    Ok(())
}

fn main(rt: HostRuntime) -> io::Result<()> {
    show(&rt, "full")?;
    show(&rt, "over")?;
    show(&rt, "many")?;
    show(&rt, "words")?;
    // a directory, and a file that is not there
    show(&rt, ".")?;
    show(&rt, "missing")?;
    println!(rt; "== end")
}
