// Document 01's example file, judged, loaded and read back, then the small inputs of its refusals 1 to 8: a line for each.
#![tactic(auto)]

ghost use Rattle.std.specs.Prelude.{◌≡◌, ◌≤◌};
ghost use Rattle.record.specs.File.{theory_file, verdict};

use record::Summary;
use std::io;
use theory::Refusal;

fn show_refused(rt: &impl Print, r: Refusal) -> io::Result<()> {
    let (number, place) = match r {
        Refusal::BadKind(k) => (1, k),
        Refusal::CutRecord(k) => (2, k),
        Refusal::PastLimit(k) => (3, k),
        Refusal::BadAtom(k) => (4, k),
        Refusal::BadOperand(k) => (5, k),
        Refusal::NoOperands(k) => (6, k),
        Refusal::BadRoot(k) => (7, k),
        Refusal::NotRising(k) => (8, k),
        Refusal::ShortBuffer(b) => (9, b),
        _ => (0, 0),
    };
    println!(rt; "refused {number} {place}")
}

fn show_sound(rt: &impl Print, s: Summary) -> io::Result<()> {
    let t = s.counts;
    println!(rt;
        "sound {} {} {} {} {} {} {}",
        t.stamp, t.atoms, t.nodes, t.operands, t.roots, s.candidates, s.first,
    )
}

fn show(rt: &impl Print, file: &[u8]) -> io::Result<()> {
    match record::judge(file) {
        Ok(s) => show_sound(rt, s),
        Err(r) => show_refused(rt, r),
    }
}

fn show_words(rt: &impl Print, label: &str, words: &[u32]) -> io::Result<()> {
    print!(rt; "{label}")?;
    for word in words {
        print!(rt; " {word}")?;
    }
    println!(rt)
}

// The first word of each candidate, found one after the other.
fn show_candidates(rt: &impl Print, file: &[u8], s: Summary) -> io::Result<()>
    requires { (verdict (theory_file file.now) ≡ Ok s) × (s.counts.atoms ≤ 512) }
{
    let mut words = [0u64; 8];
    let mut at = s.first;
    for _candidate in 0..s.candidates {
        at = load::candidate(file, at, s.counts.atoms, &mut words);
        println!(rt; "candidate {}", words[0])?;
    }
    Ok(())
}

fn show_all_candidates(rt: &impl Print, file: &[u8]) -> io::Result<()> {
    match record::judge(file) {
        Ok(s) if s.counts.atoms <= 512 => show_candidates(rt, file, s),
        Ok(_) => Ok(()),
        Err(r) => show_refused(rt, r),
    }
}

// Into tables of the given lengths.
fn show_loaded(
    rt: &impl Print,
    file: &[u8],
    nodes: &mut [u32],
    operands: &mut [u32],
    roots: &mut [u32],
) -> io::Result<()> {
    match load::load(file, nodes, operands, roots) {
        Ok(s) => show_sound(rt, s)?,
        Err(r) => show_refused(rt, r)?,
    }
    show_words(rt, "nodes", nodes)?;
    show_words(rt, "operands", operands)?;
    show_words(rt, "roots", roots)
}

fn example(rt: &impl Print) -> io::Result<()> {
    let file =
        b"TH\x07\x00\x00\x00\x02\x00\x00\x00NA\x00\x00\x00\x00NA\x01\x00\x00\x00NI\x00\x00\x00\x00\x01\x00\x00\x00NFNI\x00\x00\x00\x00\x03\x00\x00\x00ND\x02\x00\x00\x00\x00\x00\x00\x00\x04\x00\x00\x00RT\x05\x00\x00\x00RT\x02\x00\x00\x00CA\x01\x00\x00\x00\x01\x00\x00\x00CA\x02\x00\x00\x00\x00\x00\x00\x00\x01\x00\x00\x00CA\x01\x00\x00\x00\x00\x00\x00\x00CA\x00\x00\x00\x00";
    show(rt, file)?;
    let mut nodes = [9u32; 19];
    let mut operands = [9u32; 3];
    let mut roots = [9u32; 3];
    show_loaded(rt, file, &mut nodes, &mut operands, &mut roots)?;
    show_all_candidates(rt, file)?;
    let mut blank = [9u32; 18];
    let mut short = [9u32; 1];
    let mut none = [9u32; 2];
    show_loaded(rt, file, &mut blank, &mut short, &mut none)
}

fn bad_mark(rt: &impl Print) -> io::Result<()> {
    // nothing at all
    show(rt, b"")?;
    // an unknown mark
    show(rt, b"NX\x00\x00\x00\x00")?;
    // a node before TH
    show(rt, b"NF")?;
    // TH twice
    show(
        rt,
        b"TH\x07\x00\x00\x00\x02\x00\x00\x00TH\x07\x00\x00\x00\x02\x00\x00\x00",
    )?;
    // a node after a root
    show(
        rt,
        b"TH\x07\x00\x00\x00\x02\x00\x00\x00NFRT\x00\x00\x00\x00NF",
    )?;
    // a root after a candidate
    show(
        rt,
        b"TH\x07\x00\x00\x00\x02\x00\x00\x00NFCA\x00\x00\x00\x00RT\x00\x00\x00\x00",
    )
}

fn bad_cut(rt: &impl Print) -> io::Result<()> {
    // TH and 3 bytes
    show(rt, b"TH\x07\x00\x00")?;
    // one byte where a record should begin
    show(rt, b"TH\x07\x00\x00\x00\x02\x00\x00\x00Q")?;
    // a count that times 4 leaves 32 bits
    show(
        rt,
        b"TH\x07\x00\x00\x00\x02\x00\x00\x00NFNC\x01\x00\x00\x40\x00\x00\x00\x00",
    )?;
    // the greatest count
    show(rt, b"TH\x07\x00\x00\x00\x02\x00\x00\x00CA\xff\xff\xff\xff")?;
    // TH 0 65537
    show(rt, b"TH\x00\x00\x00\x00\x01\x00\x01\x00")
}

fn bad_values(rt: &impl Print) -> io::Result<()> {
    // NA 2 of 2 atoms
    show(rt, b"TH\x07\x00\x00\x00\x02\x00\x00\x00NA\x02\x00\x00\x00")?;
    // CA with an atom too high, not rising either
    show(
        rt,
        b"TH\x07\x00\x00\x00\x02\x00\x00\x00CA\x03\x00\x00\x00\x01\x00\x00\x00\x01\x00\x00\x00\x02\x00\x00\x00",
    )?;
    // node 0 NI 0 0
    show(
        rt,
        b"TH\x07\x00\x00\x00\x02\x00\x00\x00NI\x00\x00\x00\x00\x00\x00\x00\x00",
    )?;
    // NC 0
    show(rt, b"TH\x07\x00\x00\x00\x02\x00\x00\x00NC\x00\x00\x00\x00")?;
    // RT 6 of 6 nodes
    show(
        rt,
        b"TH\x07\x00\x00\x00\x02\x00\x00\x00NA\x00\x00\x00\x00NA\x01\x00\x00\x00NI\x00\x00\x00\x00\x01\x00\x00\x00NFNI\x00\x00\x00\x00\x03\x00\x00\x00ND\x02\x00\x00\x00\x00\x00\x00\x00\x04\x00\x00\x00RT\x06\x00\x00\x00",
    )?;
    // RT before any node
    show(rt, b"TH\x07\x00\x00\x00\x02\x00\x00\x00RT\x00\x00\x00\x00")?;
    // CA 2 1 1
    show(
        rt,
        b"TH\x07\x00\x00\x00\x02\x00\x00\x00CA\x02\x00\x00\x00\x01\x00\x00\x00\x01\x00\x00\x00",
    )?;
    // TH alone is sound
    show(rt, b"TH\x07\x00\x00\x00\x02\x00\x00\x00")
}

fn main(rt: HostRuntime) -> io::Result<()> {
    example(&rt)?;
    bad_mark(&rt)?;
    bad_cut(&rt)?;
    bad_values(&rt)
}
