// The tables and the candidates of a theory file, written into lent buffers.
#![tactic(auto)]

ghost use Rattle.std.specs.Prelude.{◌≡◌, ◌++◌, ◌+◌, ◌*◌, ◌<◌, ◌≤◌, length, drop};
ghost use Rattle.theory.specs.Limits.{Limited, Lent};
ghost use Rattle.record.specs.Number.{number, numbers};
ghost use Rattle.record.specs.Layout.{arity, record_end, values_of};
ghost use Rattle.record.specs.Passed.{counts_after, passed};
ghost use Rattle.record.specs.Contents.{of_record};
ghost use Rattle.record.specs.Bounds.{Within};
ghost use Rattle.record.specs.File.{theory_file, verdict, start};
ghost use Rattle.load.specs.Tables.{tables};
ghost use Rattle.load.specs.Loading.{outcome, loading};
ghost use Rattle.load.specs.Store.{placed, words_of, operand_count, root_count, stored, stored_from};
ghost use Rattle.load.specs.Candidate.{word_count, candidate_words, CandidateAt};
ghost use Rattle.load.specs.Room.{Fits, Stands};

use record::{Cursor, Mark, Summary, Values};
use theory::Refusal;

fn number32(file: &[u8], at: usize) -> u32
    requires { at + 4 ≤ length file.now }
    ensures { result ≡ number file.now at }
{
    record::number(file, at) as u32
}

// The three words of a node, if the record is one; a span begins at `begin`.
#[tactic(auto, using(record::proofs::Laws::length_numbers, record::proofs::Laws::one_number, record::proofs::Laws::two_numbers))]
fn node_words(file: &[u8], begin: usize, mark: Mark, v: Values) -> Option<[u32; 3]>
    requires { (v.start + 4 * v.count ≤ length file.now) × (arity mark ≤ v.count) × (v.count < 4294967296) × (begin < 4294967296) }
    ensures { words_of result ≡ (of_record begin mark (numbers file.now v.start v.count)).nodes }
{
    match mark {
        Mark::Atom => Some([0, number32(file, v.start), 0]),
        Mark::False => Some([1, 0, 0]),
        Mark::Implies => Some([2, number32(file, v.start), number32(file, v.start + 4)]),
        Mark::And => Some([3, begin as u32, v.count as u32]),
        Mark::Or => Some([4, begin as u32, v.count as u32]),
        Mark::Theory | Mark::Root | Mark::Candidate | Mark::Unknown => None,
    }
}

#[tactic(auto, using(crate::proofs::Laws::placed_none, crate::proofs::Laws::placed_part))]
fn put(nodes: &mut [u32], at: usize, added: Option<[u32; 3]>)
    requires { at + length (words_of added) ≤ length nodes.old }
    ensures { nodes.new ≡ placed nodes.old at (words_of added) }
{
    if let Some(words) = added {
        nodes[at..at + 3].copy_from_slice(&words);
    }
}

// So many numbers of the file, into the table from `at` on.
#[tactic(auto, using(crate::proofs::Laws::copy_turns))]
fn copy(file: &[u8], from: usize, count: usize, table: &mut [u32], at: usize)
    requires { (from + 4 * count ≤ length file.now) × (at + count ≤ length table.old) }
    ensures { table.new ≡ placed table.old at (numbers file.now from count) }
{
    for i in 0..count {
        table[at + i] = number32(file, from + 4 * i);
    }
}

// How many of the values go into the operand table.
fn operand_count(mark: Mark, count: usize) -> usize
    ensures { result ≡ operand_count mark count }
{
    match mark {
        Mark::And | Mark::Or => count,
        _ => 0,
    }
}

// How many of them go into the list of roots.
fn root_count(mark: Mark, count: usize) -> usize
    ensures { result ≡ root_count mark count }
{
    match mark {
        Mark::Root => count,
        _ => 0,
    }
}

// The record at the cursor, into the tables.
#[tactic(auto, using(record::proofs::Steps::fixed_least, crate::proofs::Laws::counts_room))]
fn store(
    file: &[u8],
    c: Cursor,
    mark: Mark,
    v: Values,
    nodes: &mut [u32],
    operands: &mut [u32],
    roots: &mut [u32],
)
    requires { Stands file.now c mark v × Limited c.counts × Lent (counts_after c.counts mark (numbers file.now v.start v.count)) (length nodes.old) (length operands.old) (length roots.old) }
    ensures { tables nodes.new operands.new roots.new ≡ stored file.now c (tables nodes.old operands.old roots.old) }
{
    let t = c.counts;
    put(nodes, 3 * t.nodes, node_words(file, t.operands, mark, v));
    copy(
        file,
        v.start,
        operand_count(mark, v.count),
        operands,
        t.operands,
    );
    copy(file, v.start, root_count(mark, v.count), roots, t.roots);
}

#[tactic(auto, using(record::proofs::Steps::fixed_least))]
fn next_cursor(file: &[u8], c: Cursor, mark: Mark, v: Values) -> Cursor
    requires { Within (length file.now) c × Stands file.now c mark v }
    ensures { result ≡ passed c mark (counts_after c.counts mark (numbers file.now v.start v.count)) (v.start + 4 * v.count) }
{
    let counts = record::counts_after(file, c.counts, mark, v);
    record::passed(c, mark, counts, v.start + 4 * v.count)
}

// Every record of a sound file, into tables that are long enough. Each record says where the next one begins, so no range of places is gone over.
fn store_all(file: &[u8], nodes: &mut [u32], operands: &mut [u32], roots: &mut [u32])
    requires { Fits (verdict (theory_file file.now)) (length nodes.old) (length operands.old) (length roots.old) }
    ensures { tables nodes.new operands.new roots.new ≡ stored_from file.now start (tables nodes.old operands.old roots.old) (length file.now) }
{
    let mut c = record::start();
    while c.at < file.len() {
        let mark = record::mark_at(file, c.at);
        let v = record::values_of(file, c.at, mark);
        store(file, c, mark, v, nodes, operands, roots);
        c = next_cursor(file, c, mark, v);
    }
}

// A sound file, as judged: 9, or else the tables. Between crates: a caller has the summary from `record::judge`.
#[tactic(auto, using(crate::proofs::Outcomes::exits))]
pub fn load_sound(
    file: &[u8],
    s: Summary,
    nodes: &mut [u32],
    operands: &mut [u32],
    roots: &mut [u32],
) -> Result<Summary, Refusal>
    requires { verdict (theory_file file.now) ≡ Ok s }
    ensures { outcome result (tables nodes.new operands.new roots.new) ≡ loading (theory_file file.now) (tables nodes.old operands.old roots.old) }
{
    if nodes.len() < 3 * s.counts.nodes {
        return Err(Refusal::ShortBuffer(1));
    }
    if operands.len() < s.counts.operands {
        return Err(Refusal::ShortBuffer(2));
    }
    if roots.len() < s.counts.roots {
        return Err(Refusal::ShortBuffer(3));
    }
    store_all(file, nodes, operands, roots);
    Ok(s)
}

// The tables of the file, written to the front of buffers 1, 2 and 3; or why not, with nothing altered.
pub fn load(
    file: &[u8],
    nodes: &mut [u32],
    operands: &mut [u32],
    roots: &mut [u32],
) -> Result<Summary, Refusal>
    ensures { outcome result (tables nodes.new operands.new roots.new) ≡ loading (theory_file file.now) (tables nodes.old operands.old roots.old) }
{
    let s = record::judge(file)?;
    load_sound(file, s, nodes, operands, roots)
}

// The candidate that begins at `at`, as a set of atoms, by the reader of crate `file_reader`; answers where the next record begins.
// Between crates: a caller has the place from a sound file (`sound_candidates`).
#[tactic(auto, using(crate::proofs::Sets::candidate_laws))]
pub fn candidate(file: &[u8], at: usize, atoms: usize, words: &mut [u64]) -> usize
    requires { CandidateAt file.now atoms at × (atoms ≤ 65536) × (word_count atoms ≤ length words.old) }
    ensures { (result ≡ record_end file.now at Mark.Candidate) × (words.new ≡ candidate_words atoms (values_of file.now at Mark.Candidate) ++ drop (word_count atoms) words.old) }
{
    words[..atoms.div_ceil(64)].fill(0);
    file_reader::candidate_from(file, at, words)
}
