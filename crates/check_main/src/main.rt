// Runs the public calls on document 01's figures: checks kept or fresh at the threshold, each buffer a word short, refusals 9, 15, 16 and 17 with the words of the kept evaluation after 17. A label and the answer, a line each.
#![tactic(auto)]

ghost use Rattle.std.specs.Prelude.{◌≤◌};

use evaluate::Plan;
use std::io;
use theory::{Counts, Refusal};
use update::Accepted;

// Document 01's example, as words, and its two producers.
const COUNTS: Counts = Counts {
    stamp: 7,
    atoms: 2,
    nodes: 6,
    operands: 2,
    roots: 2,
};

const NODES: [u32; 18] = [0, 0, 0, 0, 1, 0, 2, 0, 1, 1, 0, 0, 2, 0, 3, 4, 0, 2];

const OPERANDS: [u32; 2] = [0, 4];

const ROOTS: [u32; 2] = [5, 2];

const PRODUCERS: [u32; 8] = [0, 0, 5, 1, 1, 1, 2, 0];

// What a check is lent of a theory and its plan.
#[derive(Clone, Copy)]
struct Lent<'a> {
    counts: Counts,
    plan: Plan,
    nodes: &'a [u32],
    operands: &'a [u32],
    roots: &'a [u32],
    producers: &'a [u32],
    readers: &'a [u64],
}

impl Lent<'_> {
    fn check(self, stamp: u32, candidate: &[u64], kept: &mut [u32]) -> Result<Accepted, Refusal> {
        evaluate::check(
            self.counts,
            self.plan,
            stamp,
            candidate,
            self.nodes,
            self.operands,
            self.roots,
            self.producers,
            self.readers,
            kept,
        )
    }
}

// A plan by its stamp and the number of its producers.
fn by(stamp: u32, producers: usize) -> Plan {
    Plan { stamp, producers }
}

// The first n bytes, if the line fits.
fn show_line(rt: &impl Print, out: &[u8], n: usize) -> io::Result<()> {
    match out.get(..n) {
        Some(line) => rt.write_all(line),
        None => Ok(()),
    }
}

fn show_refused(rt: &impl Print, r: Refusal) -> io::Result<()> {
    let mut out = [0u8; 64];
    let n = text::refused_line(&mut out, 0, r);
    show_line(rt, &out, n)
}

fn show_planning(rt: &impl Print, planning: Result<usize, Refusal>) -> io::Result<()> {
    match planning {
        Ok(p) => println!(rt; "planned {p}"),
        Err(r) => show_refused(rt, r),
    }
}

// The verdict's line, behind the number i.
fn show_checked(rt: &impl Print, i: usize, checked: Result<Accepted, Refusal>) -> io::Result<()> {
    match checked {
        Ok(Accepted { verdict, visited }) => {
            let mut out = [0u8; 64];
            let n = text::verdict_line(&mut out, 0, i, verdict, visited);
            show_line(rt, &out, n)
        }
        Err(r) => show_refused(rt, r),
    }
}

// ---- kept or fresh

// A theory of two nodes, Atom 0 and Atom 1: a check of {}, then of the candidate with atoms 1 to 63 and word 1, `changed` atoms in all. A kept check visits node 1, a fresh one both.
fn show_change(rt: &impl Print, atoms: usize, word: u64, changed: usize) -> io::Result<()> {
    let counts = Counts {
        stamp: 7,
        atoms,
        nodes: 2,
        operands: 0,
        roots: 0,
    };
    let nodes = [0u32, 0, 0, 0, 1, 0];
    // tables of which nothing is listed, with a word each
    let none = [0u32; 1];
    let mut readers = [0u64; 537];
    let _ = plan::plan(
        counts,
        &nodes,
        &none,
        &none,
        &mut [0u32; 1],
        &mut [0u32; 527],
        &mut readers,
        &mut [0u32; 2667],
    );
    let lent = Lent {
        counts,
        plan: by(7, 0),
        nodes: &nodes,
        operands: &none,
        roots: &none,
        producers: &none,
        readers: &readers,
    };
    let mut kept = [0u32; 1601];
    let _ = lent.check(7, &[0u64; 9], &mut kept);
    let candidate = [0xffff_ffff_ffff_fffe, word, 0, 0, 0, 0, 0, 0, 0];
    let checked = lent.check(7, &candidate, &mut kept);
    print!(rt; "{atoms} atoms: ")?;
    show_checked(rt, changed, checked)
}

fn changes(rt: &impl Print) -> io::Result<()> {
    show_change(rt, 512, 1, 64)?;
    show_change(rt, 512, 3, 65)?;
    show_change(rt, 520, 3, 65)?;
    show_change(rt, 520, 7, 66)?;
    show_change(rt, 527, 3, 65)?;
    show_change(rt, 527, 7, 66)?;
    show_change(rt, 66, 1, 64)?;
    show_change(rt, 66, 3, 65)
}

// ---- refusal 9

// Buffer 5 of 1 word for 2 atoms.
fn show_planned(rt: &impl Print) -> io::Result<()> {
    let planning = plan::plan(
        COUNTS,
        &NODES,
        &OPERANDS,
        &ROOTS,
        &mut [0u32; 8],
        &mut [0u32; 1],
        &mut [0u64; 34],
        &mut [0u32; 86],
    );
    print!(rt; "plan, 1 rank of 2: ")?;
    show_planning(rt, planning)
}

fn show_certified(rt: &impl Print) -> io::Result<()> {
    let planning = plan::certify(
        COUNTS,
        &NODES,
        &OPERANDS,
        &ROOTS,
        &[0, 1],
        &mut [0u32; 8],
        &mut [0u32; 1],
        &mut [0u64; 34],
        &mut [0u32; 86],
    );
    print!(rt; "certify, 1 rank of 2: ")?;
    show_planning(rt, planning)
}

// How many words of buffer `number` are lent: all, or one less if it is one of `first` to `last`.
fn length(words: usize, number: usize, first: usize, last: usize) -> usize
    ensures { result ≤ words }
{
    if (first..=last).contains(&number) {
        words.saturating_sub(1)
    } else {
        words
    }
}

// A fresh check, which reads no reader table, with buffers `first` to `last` a word short.
fn show_short(rt: &impl Print, first: usize, last: usize) -> io::Result<()> {
    let lent = Lent {
        counts: COUNTS,
        plan: by(7, 2),
        nodes: &NODES[..length(18, 1, first, last)],
        operands: &OPERANDS[..length(2, 2, first, last)],
        roots: &ROOTS[..length(2, 3, first, last)],
        producers: &PRODUCERS[..length(8, 4, first, last)],
        readers: &[0u64; 34][..length(34, 6, first, last)],
    };
    let candidate = [2u64];
    let mut kept = [0u32; 36];
    let checked = lent.check(
        7,
        &candidate[..length(1, 0, first, last)],
        &mut kept[..length(36, 7, first, last)],
    );
    print!(rt; "check, short {first} to {last}: ")?;
    show_checked(rt, 0, checked)
}

// Each buffer alone, then with all behind it.
fn short_buffers(rt: &impl Print) -> io::Result<()> {
    show_short(rt, 7, 7)?;
    for b in 0..7 {
        show_short(rt, b, b)?;
        show_short(rt, b, 7)?;
    }
    Ok(())
}

// ---- refusals 3, 9, 15, 16 and 17 of a check

// By the example with node 3 of kind 5, which is 17 if nothing comes before it.
fn show_refusal(
    rt: &impl Print,
    label: &str,
    atoms: usize,
    plan: Plan,
    stamp: u32,
    candidate: &[u64],
) -> io::Result<()> {
    let mut nodes = NODES;
    nodes[9] = 5;
    let lent = Lent {
        counts: Counts { atoms, ..COUNTS },
        plan,
        nodes: &nodes,
        operands: &OPERANDS,
        roots: &ROOTS,
        producers: &PRODUCERS,
        readers: &[0u64; 98],
    };
    let checked = lent.check(stamp, candidate, &mut [0u32; 228]);
    print!(rt; "{label}: ")?;
    show_checked(rt, 0, checked)
}

fn refusals(rt: &impl Print) -> io::Result<()> {
    let none = [];
    let stray = [6];
    let sound = [2];
    let second = [0, 68];
    // all at once, and mended one by one
    show_refusal(rt, "65537 atoms", 65537, by(8, 2), 8, &none)?;
    show_refusal(rt, "no candidate words", 2, by(8, 2), 8, &none)?;
    show_refusal(rt, "both stamps 8 for 7", 2, by(8, 2), 8, &stray)?;
    show_refusal(rt, "stamp 8 for 7", 2, by(7, 2), 8, &stray)?;
    show_refusal(rt, "plan's stamp 8 for 7", 2, by(8, 2), 7, &stray)?;
    show_refusal(rt, "bit 2 of 2 atoms", 2, by(7, 2), 7, &stray)?;
    show_refusal(rt, "node 3 of kind 5", 2, by(7, 2), 7, &sound)?;
    show_refusal(rt, "3 producers of 2 roots", 2, by(7, 3), 7, &sound)?;
    show_refusal(rt, "bits 66 and 70 of 66 atoms", 66, by(7, 2), 7, &second)
}

// ---- refusal 17

// A word of a lent buffer that is changed before a check.
#[derive(Clone, Copy)]
enum Damage {
    Node(usize, u32),
    Operand(usize, u32),
    Root(usize, u32),
    Producer(usize, u32),
    Reader(usize, u64),
    Kept(usize, u32),
}

// The example as it was planned, and a kept evaluation with a word past the 36 that are listed.
#[derive(Drop)]
struct Planned {
    nodes: [u32; 18],
    operands: [u32; 2],
    roots: [u32; 2],
    producers: [u32; 8],
    readers: [u64; 34],
    kept: [u32; 37],
}

fn put_word<W: Copy>(words: &mut [W], i: usize, x: W) {
    if let Some(word) = words.get_mut(i) {
        *word = x;
    }
}

impl Planned {
    fn new() -> Planned {
        let mut producers = [0; 8];
        let mut readers = [0; 34];
        let _ = plan::plan(
            COUNTS,
            &NODES,
            &OPERANDS,
            &ROOTS,
            &mut producers,
            &mut [0u32; 2],
            &mut readers,
            &mut [0u32; 86],
        );
        let mut kept = [0; 37];
        kept[36] = 9;
        Planned {
            nodes: NODES,
            operands: OPERANDS,
            roots: ROOTS,
            producers,
            readers,
            kept,
        }
    }

    fn change(&mut self, damage: Damage) {
        match damage {
            Damage::Node(i, x) => put_word(&mut self.nodes, i, x),
            Damage::Operand(i, x) => put_word(&mut self.operands, i, x),
            Damage::Root(i, x) => put_word(&mut self.roots, i, x),
            Damage::Producer(i, x) => put_word(&mut self.producers, i, x),
            Damage::Reader(i, x) => put_word(&mut self.readers, i, x),
            Damage::Kept(i, x) => put_word(&mut self.kept, i, x),
        }
    }

    // Of a candidate of one word.
    fn check(&mut self, word: u64) -> Result<Accepted, Refusal> {
        let lent = Lent {
            counts: COUNTS,
            plan: by(7, 2),
            nodes: &self.nodes,
            operands: &self.operands,
            roots: &self.roots,
            producers: &self.producers,
            readers: &self.readers,
        };
        lent.check(7, &[word], &mut self.kept)
    }
}

// A check of candidate `before`, a change, and a check of candidate `word`: whether the listed words are 0 after it, the word past them, and the answer. A `before` that is refused leaves no check held.
fn show_damaged(
    rt: &impl Print,
    label: &str,
    before: u64,
    damage: Damage,
    word: u64,
) -> io::Result<()> {
    let mut example = Planned::new();
    let _ = example.check(before);
    example.change(damage);
    let checked = example.check(word);
    print!(rt; "{label}: ")?;
    if example.kept[..36].iter().all(|word| *word == 0) {
        print!(rt; "cleared, then ")?;
    }
    print!(rt; "{}, ", example.kept[36])?;
    show_checked(rt, 0, checked)
}

// Candidate {1}; the one before it, 4, is refused (16).
fn fresh(rt: &impl Print) -> io::Result<()> {
    show_damaged(rt, "fresh, node 3 of kind 5", 4, Damage::Node(9, 5), 2)?;
    show_damaged(rt, "fresh, node 1 Atom 2 of 2", 4, Damage::Node(4, 2), 2)?;
    show_damaged(rt, "fresh, node 2 Implies 2 1", 4, Damage::Node(7, 2), 2)?;
    show_damaged(rt, "fresh, node 5 Or 5 4", 4, Damage::Operand(0, 5), 2)?;
    show_damaged(
        rt,
        "fresh, node 5 past the operands",
        4,
        Damage::Node(16, 1),
        2,
    )?;
    show_damaged(
        rt,
        "fresh, producer 1 of atom 2",
        4,
        Damage::Producer(4, 2),
        2,
    )?;
    show_damaged(
        rt,
        "fresh, producer 1 from node 6",
        4,
        Damage::Producer(5, 7),
        2,
    )?;
    show_damaged(rt, "fresh, root 6 of 6", 4, Damage::Root(1, 6), 2)
}

// From {} to {0} or {1}, from {0} to {}.
fn kept_nodes(rt: &impl Print) -> io::Result<()> {
    show_damaged(rt, "kept, node 4 of kind 5", 0, Damage::Node(12, 5), 1)?;
    show_damaged(rt, "kept, node 1 Atom 2 of 2", 0, Damage::Node(4, 2), 2)?;
    show_damaged(rt, "kept, node 2 Implies 2 1", 0, Damage::Node(7, 2), 1)?;
    show_damaged(rt, "kept, node 5 Or 0 5", 1, Damage::Operand(1, 5), 0)?;
    show_damaged(
        rt,
        "kept, node 5 past the operands",
        0,
        Damage::Node(16, 1),
        1,
    )
}

// Of node 1, whose readers begin at word 14, and of atom 1, whose nodes begin at word 20.
fn kept_readers(rt: &impl Print) -> io::Result<()> {
    let root = 0xc000_0000_0000_0002;
    let producer = 0x8000_0000_0000_0002;
    let tagged = 0x4000_0000_0000_0002;
    show_damaged(
        rt,
        "kept, root position 2 of 2",
        0,
        Damage::Reader(14, root),
        2,
    )?;
    show_damaged(
        rt,
        "kept, producer 2 of 2",
        0,
        Damage::Reader(14, producer),
        2,
    )?;
    show_damaged(
        rt,
        "kept, a reader of tag 1",
        0,
        Damage::Reader(14, tagged),
        2,
    )?;
    show_damaged(
        rt,
        "kept, node 1 read by itself",
        0,
        Damage::Reader(14, 1),
        2,
    )?;
    show_damaged(
        rt,
        "kept, node 1 read by node 6",
        0,
        Damage::Reader(14, 6),
        2,
    )?;
    show_damaged(rt, "kept, starts out of order", 0, Damage::Reader(2, 13), 2)?;
    show_damaged(
        rt,
        "kept, an atom's out of order",
        0,
        Damage::Reader(9, 19),
        2,
    )?;
    show_damaged(rt, "kept, atom 1 is node 6", 0, Damage::Reader(20, 6), 2)
}

// Words 3 and 19 are the false roots' count and set, word 17 is the candidate.
fn kept_words(rt: &impl Print) -> io::Result<()> {
    show_damaged(rt, "kept, no false root to leave", 1, Damage::Kept(3, 0), 3)?;
    show_damaged(rt, "kept, a third false root", 0, Damage::Kept(3, 2), 1)?;
    show_damaged(rt, "kept, false root 6 of 6", 1, Damage::Root(1, 6), 1)?;
    show_damaged(
        rt,
        "kept, root position 9 of 2 false",
        1,
        Damage::Kept(19, 512),
        1,
    )?;
    show_damaged(
        rt,
        "kept, candidate bit 2 of 2 atoms",
        0,
        Damage::Kept(17, 4),
        0,
    )
}

fn main(rt: HostRuntime) -> io::Result<()> {
    changes(&rt)?;
    show_planned(&rt)?;
    show_certified(&rt)?;
    short_buffers(&rt)?;
    refusals(&rt)?;
    fresh(&rt)?;
    kept_nodes(&rt)?;
    kept_readers(&rt)?;
    kept_words(&rt)
}
