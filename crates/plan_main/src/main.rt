// Plans document 01's example and the drawings that a plan refuses: producers, ranks and reader lists, a line each, or the refusal.
#![tactic(auto)]

use readers::{Reader, Reading};
use std::io;
use theory::{Counts, Refusal};

fn show_refused(rt: &impl Print, r: Refusal) -> io::Result<()> {
    match r {
        Refusal::ShortBuffer(b) => println!(rt; "refused 9 {b}"),
        Refusal::UnsupportedRoot(k) => println!(rt; "refused 10 {k}"),
        Refusal::UnsupportedBody(k, b) => println!(rt; "refused 11 {k} {b}"),
        Refusal::PositiveCycle(a) => println!(rt; "refused 12 {a}"),
        Refusal::RankShape => println!(rt; "refused 13 0"),
        Refusal::RankOrder(a) => println!(rt; "refused 14 {a}"),
        _ => println!(rt; "refused 0"),
    }
}

// The first n words.
fn show_words(rt: &impl Print, words: &[u32], n: usize) -> io::Result<()> {
    for word in words.iter().take(n) {
        print!(rt; " {word}")?;
    }
    println!(rt;)
}

fn show_reading(rt: &impl Print, word: u64) -> io::Result<()> {
    match Reader(word).reading() {
        Reading::Node(k) => print!(rt; " n{k}"),
        Reading::Producer(p) => print!(rt; " p{p}"),
        Reading::Root(r) => print!(rt; " r{r}"),
        Reading::Unknown => print!(rt; " ?"),
    }
}

fn show_list(rt: &impl Print, list: &[u64]) -> io::Result<()> {
    for word in list {
        show_reading(rt, *word)?;
    }
    println!(rt;)
}

// The lists of the first n slots of the reader table.
fn show_lists(rt: &impl Print, table: &[u64], n: usize) -> io::Result<()> {
    for k in 0..n {
        if k + 1 < table.len() && readers::in_order(table, table.len(), k) {
            show_list(rt, readers::readers_of(table, k))?;
        }
    }
    Ok(())
}

// The plan with proposed ranks, or with those that are derived.
fn show_plan(
    rt: &impl Print,
    counts: Counts,
    nodes: &[u32],
    operands: &[u32],
    roots: &[u32],
    proposed: Option<&[u32]>,
) -> io::Result<()> {
    let mut producers = [0u32; 16];
    let mut ranks = [0u32; 8];
    let mut table = [0u64; 64];
    let mut work = [0u32; 160];
    let planning = match proposed {
        None => plan::plan(
            counts,
            nodes,
            operands,
            roots,
            &mut producers,
            &mut ranks,
            &mut table,
            &mut work,
        ),
        Some(given) => plan::certify(
            counts,
            nodes,
            operands,
            roots,
            given,
            &mut producers,
            &mut ranks,
            &mut table,
            &mut work,
        ),
    };
    match planning {
        Ok(p) => {
            println!(rt; "producers {p}")?;
            show_words(rt, &producers, 16)?;
            print!(rt; "ranks")?;
            show_words(rt, &ranks, counts.atoms)?;
            show_lists(rt, &table, counts.nodes)
        }
        Err(r) => show_refused(rt, r),
    }
}

fn counts(atoms: usize, nodes: usize, operands: usize, roots: usize) -> Counts {
    Counts {
        stamp: 7,
        atoms,
        nodes,
        operands,
        roots,
    }
}

fn main(rt: HostRuntime) -> io::Result<()> {
    // Document 01's example: a choice of 0, and 1 from 0.
    let drawn = [0u32, 0, 0, 0, 1, 0, 2, 0, 1, 1, 0, 0, 2, 0, 3, 4, 0, 2];
    let operands = [0u32, 4];
    let roots = [5u32, 2];
    show_plan(&rt, counts(2, 6, 2, 2), &drawn, &operands, &roots, None)?;
    for proposed in [[0u32, 1], [0, 2], [0, 0]] {
        show_plan(
            &rt,
            counts(2, 6, 2, 2),
            &drawn,
            &operands,
            &roots,
            Some(&proposed),
        )?;
    }
    // C5: 1 from 2, 2 from 1, 0 from 1.
    let five = [0u32, 0, 0, 0, 1, 0, 0, 2, 0, 2, 2, 1, 2, 1, 2, 2, 1, 0];
    let five_roots = [3u32, 4, 5];
    show_plan(&rt, counts(3, 6, 0, 3), &five, &operands, &five_roots, None)?;
    // C6: an Implies as body.
    let six = [0u32, 0, 0, 0, 1, 0, 2, 0, 1, 0, 2, 0, 2, 2, 3];
    let six_roots = [4u32];
    show_plan(&rt, counts(3, 5, 0, 1), &six, &operands, &six_roots, None)?;
    // An And as root; And(0, 0) as body, listed twice.
    let group = [0u32, 0, 0, 0, 1, 0, 3, 0, 2];
    let pair = [0u32, 1];
    let group_roots = [2u32];
    show_plan(&rt, counts(2, 3, 2, 1), &group, &pair, &group_roots, None)?;
    let twice = [0u32, 0, 0, 0, 1, 0, 3, 0, 2, 2, 2, 1];
    let same = [0u32, 0];
    let twice_roots = [3u32];
    show_plan(&rt, counts(2, 4, 2, 1), &twice, &same, &twice_roots, None)
}
