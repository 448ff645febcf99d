// The theory file: a cursor by value goes over it record by record.
#![tactic(auto)]

ghost use Rattle.std.specs.Prelude.{◌≡◌, ◌+◌, ◌*◌, ◌<◌, ◌≤◌, length, leb};
ghost use Rattle.theory.specs.Admission.{all_below};
ghost use Rattle.theory.specs.Limits.{Limited};
ghost use Rattle.record.specs.Mark.{mark_at, in_order};
ghost use Rattle.record.specs.Number.{number, numbers};
ghost use Rattle.record.specs.Rising.{rising};
ghost use Rattle.record.specs.Layout.{counted, arity, value_count, values_start, values_of, record_end};
ghost use Rattle.record.specs.Passed.{counts_after, passed, passed_other};
ghost use Rattle.record.specs.Record.{judged_group, judged_values, judged_whole, judged};
ghost use Rattle.record.specs.File.{theory_file, verdict, start};
ghost use Rattle.record.specs.Bounds.{Within};

use theory::{Counts, Refusal};

// What a record is.
#[derive(Clone, Copy)]
pub enum Mark {
    Theory,
    Atom,
    False,
    Implies,
    And,
    Or,
    Root,
    Candidate,
    Unknown,
}

// How far into a file a record stands: before the first one, then among the nodes, the roots or the candidates.
#[derive(Clone, Copy, PartialEq, Eq)]
pub enum Stage {
    Start,
    Nodes,
    Roots,
    Candidates,
}

// Where a record begins, how many came before it, the stage and the counts they lead to, and where the candidates begin.
#[derive(Clone, Copy)]
pub struct Cursor {
    pub at: usize,
    pub records: usize,
    pub stage: Stage,
    pub counts: Counts,
    pub candidates: usize,
    pub first: usize,
}

// The counts of a sound file, the number of its candidates, and the place of the first one.
#[derive(Clone, Copy)]
pub struct Summary {
    pub counts: Counts,
    pub candidates: usize,
    pub first: usize,
}

// The values of a record.
#[derive(Clone, Copy)]
pub struct Values {
    pub start: usize,
    pub count: usize,
}

#[tactic(auto, unfolding(crate::specs::Mark::mark_at, crate::specs::Mark::node_mark_at, crate::specs::Mark::is_mark))]
pub fn mark_at(file: &[u8], at: usize) -> Mark
    requires { at + 2 ≤ length file.now }
    ensures { result ≡ mark_at file.now at }
{
    match &[file[at], file[at + 1]] {
        b"TH" => Mark::Theory,
        b"RT" => Mark::Root,
        b"CA" => Mark::Candidate,
        b"NA" => Mark::Atom,
        b"NF" => Mark::False,
        b"NI" => Mark::Implies,
        b"NC" => Mark::And,
        b"ND" => Mark::Or,
        _ => Mark::Unknown,
    }
}

// Four bytes, low byte first.
#[tactic(auto, unfolding(crate::specs::Number::number))]
pub fn number(file: &[u8], at: usize) -> usize
    requires { at + 4 ≤ length file.now }
    ensures value { result ≡ number file.now at }
    ensures upper_bound { result < 4294967296 }
{
    u32::from_le_bytes([file[at], file[at + 1], file[at + 2], file[at + 3]]) as usize
}

fn in_order(mark: Mark, stage: Stage) -> bool
    ensures { result ≡ in_order mark stage }
{
    match mark {
        Mark::Theory => stage == Stage::Start,
        Mark::Atom | Mark::False | Mark::Implies | Mark::And | Mark::Or => stage == Stage::Nodes,
        Mark::Root => stage == Stage::Nodes || stage == Stage::Roots,
        Mark::Candidate => stage != Stage::Start,
        Mark::Unknown => false,
    }
}

fn counted(mark: Mark) -> bool
    ensures { result ≡ counted mark }
{
    matches!(mark, Mark::And | Mark::Or | Mark::Candidate)
}

fn arity(mark: Mark) -> usize
    ensures value { result ≡ arity mark }
    ensures upper_bound { result ≤ 2 }
{
    match mark {
        Mark::Theory | Mark::Implies => 2,
        Mark::Atom | Mark::Root => 1,
        _ => 0,
    }
}

// The record at `at` ends within the file.
#[tactic(auto, using(crate::proofs::Laws::whole_tests))]
fn is_whole(file: &[u8], at: usize, mark: Mark) -> bool
    requires { at + 2 ≤ length file.now }
    ensures { result ≡ leb (record_end file.now at mark) (length file.now) }
{
    let left = file.len() - (at + 2);
    if counted(mark) {
        left >= 4 && 4 * number(file, at + 2) <= left - 4
    } else {
        4 * arity(mark) <= left
    }
}

// Of a whole record.
#[tactic(auto, using(crate::proofs::Laws::counted_within, crate::proofs::Laws::fixed_within), unfolding(crate::specs::Layout::values_start, crate::specs::Layout::value_count))]
pub fn values_of(file: &[u8], at: usize, mark: Mark) -> Values
    requires { record_end file.now at mark ≤ length file.now }
    ensures { (result.start ≡ values_start file.now at mark) × (result.count ≡ value_count file.now at mark) × (result.count < 4294967296) }
{
    if counted(mark) {
        Values {
            start: at + 6,
            count: number(file, at + 2),
        }
    } else {
        Values {
            start: at + 2,
            count: arity(mark),
        }
    }
}

// Each of the values is below the bound.
#[tactic(auto, using(crate::proofs::Laws::below_turns))]
fn all_below(file: &[u8], v: Values, bound: usize) -> bool
    requires { v.start + 4 * v.count ≤ length file.now }
    ensures { result ≡ all_below bound (numbers file.now v.start v.count) }
{
    let Values { start, count } = v;
    for i in 0..count {
        if number(file, start + 4 * i) >= bound {
            return false;
        }
    }
    true
}

// The values are strictly rising.
#[tactic(auto, using(crate::proofs::Laws::rising_turns))]
fn is_rising(file: &[u8], v: Values) -> bool
    requires { v.start + 4 * v.count ≤ length file.now }
    ensures { result ≡ rising (numbers file.now v.start v.count) }
{
    let Values { start, count } = v;
    if count == 0 {
        return true;
    }
    let mut last = number(file, start);
    for i in 1..count {
        let x = number(file, start + 4 * i);
        if x <= last {
            return false;
        }
        last = x;
    }
    true
}

// The counts with what a record adds to them.
#[tactic(auto, using(crate::proofs::Laws::length_numbers, crate::proofs::Laws::two_numbers))]
pub fn counts_after(file: &[u8], t: Counts, mark: Mark, v: Values) -> Counts
    requires { (v.start + 4 * v.count ≤ length file.now) × (arity mark ≤ v.count) × (v.count < 4294967296) × Limited t }
    ensures { result ≡ counts_after t mark (numbers file.now v.start v.count) }
{
    match mark {
        Mark::Theory => Counts {
            stamp: number(file, v.start) as u32,
            atoms: number(file, v.start + 4),
            ..t
        },
        Mark::Atom | Mark::False | Mark::Implies => Counts {
            nodes: t.nodes + 1,
            ..t
        },
        Mark::And | Mark::Or => Counts {
            nodes: t.nodes + 1,
            operands: t.operands + v.count,
            ..t
        },
        Mark::Root => Counts {
            roots: t.roots + v.count,
            ..t
        },
        Mark::Candidate | Mark::Unknown => t,
    }
}

// The cursor past a record that is no candidate.
fn passed_other(c: Cursor, stage: Stage, counts: Counts, end: usize) -> Cursor
    requires { c.records < 9223372036854775808 }
    ensures { result ≡ passed_other c stage counts end }
{
    Cursor {
        at: end,
        records: c.records + 1,
        stage,
        counts,
        candidates: c.candidates,
        first: end,
    }
}

// The cursor past a record that ends at `end`.
pub fn passed(c: Cursor, mark: Mark, counts: Counts, end: usize) -> Cursor
    requires { (c.records < 9223372036854775808) × (c.candidates < 9223372036854775808) }
    ensures { result ≡ passed c mark counts end }
{
    match mark {
        Mark::Theory | Mark::Atom | Mark::False | Mark::Implies | Mark::And | Mark::Or => {
            passed_other(c, Stage::Nodes, counts, end)
        }
        Mark::Root => passed_other(c, Stage::Roots, counts, end),
        Mark::Candidate => Cursor {
            at: end,
            records: c.records + 1,
            stage: Stage::Candidates,
            counts,
            candidates: c.candidates + 1,
            first: c.first,
        },
        Mark::Unknown => passed_other(c, Stage::Start, counts, end),
    }
}

// And or Or: 6, 5.
#[tactic(auto, using(crate::proofs::Laws::length_numbers), unfolding(crate::specs::Record::judged_group, crate::specs::Record::unless))]
fn judge_group(file: &[u8], c: Cursor, v: Values, next: Cursor) -> Result<Cursor, Refusal>
    requires { v.start + 4 * v.count ≤ length file.now }
    ensures { result ≡ judged_group c (numbers file.now v.start v.count) (Ok next) }
{
    if v.count == 0 {
        return Err(Refusal::NoOperands(c.records));
    }
    if !all_below(file, v, c.counts.nodes) {
        return Err(Refusal::BadOperand(c.records));
    }
    Ok(next)
}

// A candidate: 4, 8.
#[tactic(auto, unfolding(crate::specs::Record::judged_values, crate::specs::Record::unless))]
fn judge_candidate(file: &[u8], c: Cursor, v: Values, next: Cursor) -> Result<Cursor, Refusal>
    requires { v.start + 4 * v.count ≤ length file.now }
    ensures { result ≡ judged_values c Mark.Candidate (numbers file.now v.start v.count) (Ok next) }
{
    if !all_below(file, v, c.counts.atoms) {
        return Err(Refusal::BadAtom(c.records));
    }
    if !is_rising(file, v) {
        return Err(Refusal::NotRising(c.records));
    }
    Ok(next)
}

// 6, 4, 5, 7, 8 by the values of the record.
#[tactic(auto, unfolding(crate::specs::Record::judged_values, crate::specs::Record::unless))]
fn judge_values(
    file: &[u8],
    c: Cursor,
    mark: Mark,
    v: Values,
    next: Cursor,
) -> Result<Cursor, Refusal>
    requires { v.start + 4 * v.count ≤ length file.now }
    ensures { result ≡ judged_values c mark (numbers file.now v.start v.count) (Ok next) }
{
    match mark {
        Mark::Atom if !all_below(file, v, c.counts.atoms) => Err(Refusal::BadAtom(c.records)),
        Mark::Implies if !all_below(file, v, c.counts.nodes) => Err(Refusal::BadOperand(c.records)),
        Mark::And | Mark::Or => judge_group(file, c, v, next),
        Mark::Root if !all_below(file, v, c.counts.nodes) => Err(Refusal::BadRoot(c.records)),
        Mark::Candidate => judge_candidate(file, c, v, next),
        _ => Ok(next),
    }
}

// A record that is whole: 3, then by its values.
#[tactic(auto, using(crate::proofs::Steps::whole_exits), unfolding(crate::specs::Layout::record_end))]
fn judge_whole(file: &[u8], c: Cursor, mark: Mark) -> Result<Cursor, Refusal>
    requires { Within (length file.now) c × (record_end file.now c.at mark ≤ length file.now) }
    ensures { result ≡ judged_whole c mark (values_of file.now c.at mark) (record_end file.now c.at mark) }
{
    let v = values_of(file, c.at, mark);
    let counts = counts_after(file, c.counts, mark, v);
    if theory::limits(counts).is_err() {
        return Err(Refusal::PastLimit(c.records));
    }
    let next = passed(c, mark, counts, v.start + 4 * v.count);
    judge_values(file, c, mark, v, next)
}

// The record that begins at the cursor.
#[tactic(auto, using(crate::proofs::Steps::record_exits))]
fn judge_record(file: &[u8], c: Cursor) -> Result<Cursor, Refusal>
    requires { Within (length file.now) c }
    ensures { result ≡ judged file.now c }
{
    if file.len() - c.at < 2 {
        return Err(Refusal::CutRecord(c.records));
    }
    let mark = mark_at(file, c.at);
    if !in_order(mark, c.stage) {
        return Err(Refusal::BadKind(c.records));
    }
    if !is_whole(file, c.at, mark) {
        return Err(Refusal::CutRecord(c.records));
    }
    judge_whole(file, c, mark)
}

// Before the first record.
pub fn start() -> Cursor
    ensures { result ≡ start }
{
    Cursor {
        at: 0,
        records: 0,
        stage: Stage::Start,
        counts: Counts {
            stamp: 0,
            atoms: 0,
            nodes: 0,
            operands: 0,
            roots: 0,
        },
        candidates: 0,
        first: 0,
    }
}

// Whether the file is sound, and what it holds; or why not, and at which record. Each record says where the next one begins, so no range of places is gone over.
#[tactic(auto, using(crate::proofs::Judging::judge_turns), unfolding(crate::specs::File::theory_file))]
pub fn judge(file: &[u8]) -> Result<Summary, Refusal>
    ensures { result ≡ verdict (theory_file file.now) }
{
    let mut c = start();
    while c.at < file.len() {
        c = judge_record(file, c)?;
    }
    match c.stage {
        Stage::Start => Err(Refusal::BadKind(c.records)),
        _ => Ok(Summary {
            counts: c.counts,
            candidates: c.candidates,
            first: c.first,
        }),
    }
}
