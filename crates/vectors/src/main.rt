// Replays stored theory files through a run and prints their texts. `stdin` holds each file behind its length in four bytes, low byte first; `stdout` is what the Rust answers of them.
#![tactic(auto)]

use std::io;

fn show(rt: &impl Print, file: &[u8]) -> io::Result<()> {
    let mut out = [0u8; 65536];
    let n = run::run(file, &mut out);
    match out.get(..n) {
        Some(text) => rt.write_all(text),
        None => Ok(()),
    }
}

// Up to the first length or file that is cut.
fn replay(rt: &impl Print, mut files: &[u8]) -> io::Result<()> {
    while let Some((length, rest)) = files.split_first_chunk::<4>() {
        let n = u32::from_le_bytes(*length) as usize;
        let Some((file, rest)) = rest.split_at_checked(n) else {
            break;
        };
        show(rt, file)?;
        files = rest;
    }
    Ok(())
}

fn main(rt: HostRuntime) -> io::Result<()> {
    let mut files = [0u8; 65536];
    let n = console::read_full(&mut rt.stdin(), &mut files)?;
    replay(&rt, &files[..n])
}
