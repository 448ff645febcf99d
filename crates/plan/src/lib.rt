// The planner's public calls: everything is judged in the work area alone, then buffers 4, 5 and 6 are written.
#![tactic(auto)]

ghost use Rattle.std.specs.Prelude.{◌≡◌, ◌+◌, ◌*◌, ◌≤◌, length, take, drop, ◌++◌, option_copied};
ghost use Rattle.base.specs.Front.{front};
ghost use Rattle.theory.specs.Limits.{limits_of, Limited};
ghost use Rattle.theory.specs.Admission.{or_else, admission};
ghost use Rattle.theory.specs.WellFormed.{NodeTables, RootTable};
ghost use Rattle.compile.specs.ClassWord.{class_words};
ghost use Rattle.compile.specs.Producers.{roots_supported};
ghost use Rattle.dependency.specs.Laying.{Ready};
ghost use Rattle.plan.specs.Buffers.{short_buffer, readers_length};
ghost use Rattle.plan.specs.Outcome.{outcome, planned, zeroed, plan_outcome, certify_outcome};
ghost use Rattle.plan.specs.Finished.{Finished, Entered, judged_by, ranks_by};
ghost use Rattle.plan.specs.JudgedIn.{Zero, JudgedIn};
ghost use Rattle.plan.specs.Called.{outcome_by};

use theory::{Counts, Refusal};

// How long the lent buffers are.
#[derive(Clone, Copy)]
pub struct Lengths {
    pub nodes: usize,
    pub operands: usize,
    pub roots: usize,
    pub producers: usize,
    pub ranks: usize,
    pub readers: usize,
    pub work: usize,
}

// Refusal 9.
fn short_buffer(counts: Counts, l: Lengths) -> Result<(), Refusal>
    requires { Limited counts }
    ensures { result ≡ short_buffer counts l }
{
    if l.nodes < 3 * counts.nodes {
        return Err(Refusal::ShortBuffer(1));
    }
    if l.operands < counts.operands {
        return Err(Refusal::ShortBuffer(2));
    }
    if l.roots < counts.roots {
        return Err(Refusal::ShortBuffer(3));
    }
    if l.producers < 4 * counts.roots {
        return Err(Refusal::ShortBuffer(4));
    }
    if l.ranks < counts.atoms {
        return Err(Refusal::ShortBuffer(5));
    }
    if l.readers < readers::table_words(counts) {
        return Err(Refusal::ShortBuffer(6));
    }
    if l.work
        < 16 + 5 * (counts.atoms + counts.nodes)
            + 3 * (counts.operands + counts.nodes + counts.roots)
    {
        return Err(Refusal::ShortBuffer(8));
    }
    Ok(())
}

// Refusals 3, 9, then 1, 6, 4, 5 by node and 7 by root.
fn enter(
    counts: Counts,
    nodes: &[u32],
    operands: &[u32],
    roots: &[u32],
    l: Lengths,
) -> Result<(), Refusal>
    requires { (l.nodes ≡ length nodes.now) × (l.operands ≡ length operands.now) × (l.roots ≡ length roots.now) }
    ensures { result ≡ or_else (limits_of counts) (or_else (short_buffer counts l) (admission counts nodes.now operands.now roots.now)) }
{
    theory::limits(counts)?;
    short_buffer(counts, l)?;
    theory::admit(counts, nodes, operands, roots)
}

// Class words at the front of a zeroed area, then refusals 10 and 11.
fn prepare(
    counts: Counts,
    nodes: &[u32],
    operands: &[u32],
    roots: &[u32],
    area: &mut [u32],
) -> Result<(), Refusal>
    requires { (counts.nodes ≤ length area.old) × NodeTables counts nodes.now operands.now × RootTable counts roots.now }
    ensures { (result ≡ roots_supported counts nodes.now operands.now (class_words nodes.now operands.now counts.nodes) roots.now) × (area.new ≡ class_words nodes.now operands.now counts.nodes ++ drop counts.nodes area.old) }
{
    compile::classify(counts, nodes, operands, area);
    let n = counts.nodes;
    compile::roots_supported(counts, nodes, operands, roots, &area[..n])
}

// Refusals 10 and 11, then 12 where ranks are derived, or 13 and 14 where they are proposed, in a zeroed area;
// if there is none, the class words stand at its front, and derived ranks 2 v words behind them.
fn judge(
    counts: Counts,
    nodes: &[u32],
    operands: &[u32],
    roots: &[u32],
    proposed: Option<&[u32]>,
    area: &mut [u32],
) -> Result<(), Refusal>
    requires { Ready counts nodes.now operands.now roots.now (counts.atoms + counts.nodes) area.old × Zero area.old }
    ensures { JudgedIn counts nodes.now operands.now roots.now (option_copied proposed.entry) area.new result }
{
    prepare(counts, nodes, operands, roots, area)?;
    let n = counts.nodes;
    match proposed {
        Some(given) => ranks::rank_check(counts, nodes, operands, roots, given, area, n),
        None => {
            let v = counts.atoms + n;
            let ranked = dependency::derive_ranks(counts, nodes, operands, roots, area, v);
            ranked.map_err(|cycle| Refusal::PositiveCycle(cycle.atom))
        }
    }
}

// The first n words of the source, to the front of the buffer. A loop, since with copy_from_slice the archive for C needs memmove from outside.
fn copy(buffer: &mut [u32], source: &[u32], n: usize)
    requires { (n ≤ length buffer.old) × (n ≤ length source.now) }
    ensures { buffer.new ≡ front (take n source.now) buffer.old }
{
    for i in 0..n {
        buffer[i] = source[i];
    }
}

// Buffers 4, 5 and 6 of an accepted theory, its ranks at the front of source; answers the number of producers.
fn finish(
    counts: Counts,
    nodes: &[u32],
    operands: &[u32],
    roots: &[u32],
    classes: &[u32],
    source: &[u32],
    producers: &mut [u32],
    ranks: &mut [u32],
    readers: &mut [u64],
) -> usize
    requires limited { Limited counts × NodeTables counts nodes.now operands.now × RootTable counts roots.now × (counts.nodes ≤ length classes.now) × (counts.atoms ≤ length source.now) }
    requires roots_in_bounds { (4 * counts.roots ≤ length producers.old) × (counts.atoms ≤ length ranks.old) × (readers_length counts ≤ length readers.old) }
    ensures { Finished counts nodes.now operands.now roots.now classes.now source.now producers.old ranks.old readers.old producers.new ranks.new readers.new result }
{
    let p = compile::extract(counts, nodes, operands, roots, classes, producers);
    readers::build(counts, nodes, operands, roots, producers, p, readers);
    let n = counts.atoms;
    copy(ranks, source, n);
    p
}

// An entered theory, with proposed ranks or none; what is in the work area at the end is left there.
fn plan_entered(
    counts: Counts,
    nodes: &[u32],
    operands: &[u32],
    roots: &[u32],
    proposed: Option<&[u32]>,
    producers: &mut [u32],
    ranks: &mut [u32],
    readers: &mut [u64],
    work: &mut [u32],
) -> Result<usize, Refusal>
    requires { Entered counts nodes.now operands.now roots.now (length producers.old) (length ranks.old) (length readers.old) work.old }
    ensures { outcome result producers.new ranks.new readers.new (zeroed work.old) ≡ planned counts nodes.now operands.now roots.now producers.old ranks.old readers.old work.old (judged_by counts nodes.now operands.now roots.now (option_copied proposed.entry)) (ranks_by counts nodes.now operands.now roots.now (option_copied proposed.entry)) }
{
    judge(counts, nodes, operands, roots, proposed, &mut work[16..])?;
    let end = 16 + counts.nodes;
    let at = end + 2 * (counts.atoms + counts.nodes);
    Ok(finish(
        counts,
        nodes,
        operands,
        roots,
        &work[16..end],
        proposed.unwrap_or(&work[at..]),
        producers,
        ranks,
        readers,
    ))
}

// Plans a theory with proposed ranks, or derives them.
fn plan_with(
    counts: Counts,
    nodes: &[u32],
    operands: &[u32],
    roots: &[u32],
    proposed: Option<&[u32]>,
    producers: &mut [u32],
    ranks: &mut [u32],
    readers: &mut [u64],
    work: &mut [u32],
) -> Result<usize, Refusal>
    ensures { outcome result producers.new ranks.new readers.new work.new ≡ outcome_by counts nodes.now operands.now roots.now producers.old ranks.old readers.old work.old (option_copied proposed.entry) }
{
    work.fill(0);
    let lengths = Lengths {
        nodes: nodes.len(),
        operands: operands.len(),
        roots: roots.len(),
        producers: producers.len(),
        ranks: ranks.len(),
        readers: readers.len(),
        work: work.len(),
    };
    enter(counts, nodes, operands, roots, lengths)?;
    let planned = plan_entered(
        counts, nodes, operands, roots, proposed, producers, ranks, readers, work,
    );
    work.fill(0);
    planned
}

// Plans a theory: producers, ranks and reader lists, or the refusal; the work area is zero after every call.
pub fn plan(
    counts: Counts,
    nodes: &[u32],
    operands: &[u32],
    roots: &[u32],
    producers: &mut [u32],
    ranks: &mut [u32],
    readers: &mut [u64],
    work: &mut [u32],
) -> Result<usize, Refusal>
    ensures { outcome result producers.new ranks.new readers.new work.new ≡ plan_outcome counts nodes.now operands.now roots.now producers.old ranks.old readers.old work.old }
{
    plan_with(
        counts, nodes, operands, roots, None, producers, ranks, readers, work,
    )
}

// The same with proposed ranks, which are copied once they are accepted.
pub fn certify(
    counts: Counts,
    nodes: &[u32],
    operands: &[u32],
    roots: &[u32],
    proposed: &[u32],
    producers: &mut [u32],
    ranks: &mut [u32],
    readers: &mut [u64],
    work: &mut [u32],
) -> Result<usize, Refusal>
    ensures { outcome result producers.new ranks.new readers.new work.new ≡ certify_outcome counts nodes.now operands.now roots.now proposed.now producers.old ranks.old readers.old work.old }
{
    plan_with(
        counts,
        nodes,
        operands,
        roots,
        Some(proposed),
        producers,
        ranks,
        readers,
        work,
    )
}
