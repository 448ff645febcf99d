// The public check of a candidate (`check` and `evaluate` of tight/evaluate.rs): kept where a check of this stamp is held and few atoms changed, else fresh.
#![tactic(auto)]

ghost use Rattle.std.specs.Prelude.{◌≡◌, ◌+◌, ◌*◌, ◌/◌, ◌≤◌, max, length};
ghost use Rattle.formula.specs.Passes.{Within};
ghost use Rattle.words.specs.Sets.{member};
ghost use Rattle.readers.specs.ReaderTable.{reader_words};
ghost use Rattle.theory.specs.Limits.{Limited};
ghost use Rattle.kept.specs.SetOf.{words64};
ghost use Rattle.kept.specs.Tables.{Tables};
ghost use Rattle.kept.specs.Layout.{of_words};
ghost use Rattle.kept.specs.Check.{fresh_result, tables_admission, is_kept, result as result_of};
ghost use Rattle.kept.specs.Outcome.{outcome};
ghost use Rattle.kept_laws.specs.Given.{used_by, sized};
ghost use Rattle.update.specs.Results.{lent, Results};
ghost use Rattle.evaluate.specs.Checks.{Lent, keeps_by, Spans, tables_of, candidate_of, outcome_of, settled};

use difference::Differing;
use tests::Lengths;
use theory::{Counts, Refusal};
use update::Accepted;

// A plan's stamp and how many producers it has.
#[derive(Clone, Copy)]
pub struct Plan {
    pub stamp: u32,
    pub producers: usize,
}

// How the candidates differ, if a check of this stamp is held and at most max(64, atoms / 8) atoms changed: then the pairs of words that differ are marked, and the check is kept. If none, it is fresh.
fn compare(counts: Counts, candidate: &[u64], kept: &[u32], marks: &mut [u64]) -> Option<Differing>
    requires { Limited counts × (length candidate.now ≡ words64 counts.atoms) × (used_by counts ≤ length kept.now) × (words64 counts.atoms ≤ 64 * length marks.old) }
    ensures keeps { (T : Tables) → keeps_by result ≡ is_kept 64 8 (sized counts T) (member 64 candidate.now) (of_words (sized counts T) kept.now) }
    ensures spans { Spans counts kept.now candidate.now marks.new result }
{
    if kept[0] != 1 {
        return None;
    }
    if kept[1] != counts.stamp {
        return None;
    }
    let d = difference::difference(counts, candidate, kept, marks);
    if d.changes > usize::max(64, counts.atoms / 8) {
        return None;
    }
    Some(d)
}

// A fresh check: the evaluation laid anew, on which nothing waits, then the verdict.
fn fresh(
    counts: Counts,
    made: usize,
    candidate: &[u64],
    nodes: &[u32],
    operands: &[u32],
    roots: &[u32],
    producers: &[u32],
    readers: &[u64],
    kept: &mut [u32],
) -> Result<Accepted, Refusal>
    requires { Lent counts (length candidate.now) (length nodes.now) (length operands.now) (length roots.now) (length producers.now) (length kept.old) × (reader_words counts ≤ length readers.now) × (made ≤ counts.roots) × Within counts.atoms (member 64 candidate.now) }
    ensures { (T : Tables) → Results (lent counts made nodes.now operands.now roots.now producers.now readers.now T) kept.old (fresh_result (lent counts made nodes.now operands.now roots.now producers.now readers.now T) (member 64 candidate.now) (tables_admission (lent counts made nodes.now operands.now roots.now producers.now readers.now T) (member 64 candidate.now))) result kept.new }
{
    complete::complete(
        counts, made, candidate, nodes, operands, roots, producers, kept,
    )?;
    update::walk(
        counts,
        made,
        nodes,
        operands,
        roots,
        producers,
        readers,
        kept,
        counts.nodes,
    )
}

// The check of a candidate that passed the tests, of a plan with at most as many producers as roots; `candidate` is its listed words, `marks` a set of pairs of them.
fn evaluate_with(
    counts: Counts,
    made: usize,
    candidate: &[u64],
    nodes: &[u32],
    operands: &[u32],
    roots: &[u32],
    producers: &[u32],
    readers: &[u64],
    kept: &mut [u32],
    marks: &mut [u64],
) -> Result<Accepted, Refusal>
    requires { Lent counts (length candidate.now) (length nodes.now) (length operands.now) (length roots.now) (length producers.now) (length kept.old) × (reader_words counts ≤ length readers.now) × Within counts.atoms (member 64 candidate.now) × (made ≤ counts.roots) × (words64 counts.atoms ≤ 64 * length marks.old) × (length marks.old ≤ 16) }
    ensures { (T : Tables) → Results (lent counts made nodes.now operands.now roots.now producers.now readers.now T) kept.old (result_of 64 8 (lent counts made nodes.now operands.now roots.now producers.now readers.now T) (member 64 candidate.now) (of_words (lent counts made nodes.now operands.now roots.now producers.now readers.now T) kept.old)) result kept.new }
{
    match compare(counts, candidate, kept, marks) {
        Some(d) => update::update(
            counts, made, candidate, nodes, operands, roots, producers, readers, kept, marks,
            d.first, d.end,
        ),
        None => fresh(
            counts, made, candidate, nodes, operands, roots, producers, readers, kept,
        ),
    }
}

// The same of any plan.
fn evaluate(
    counts: Counts,
    made: usize,
    candidate: &[u64],
    nodes: &[u32],
    operands: &[u32],
    roots: &[u32],
    producers: &[u32],
    readers: &[u64],
    kept: &mut [u32],
) -> Result<Accepted, Refusal>
    requires { Lent counts (length candidate.now) (length nodes.now) (length operands.now) (length roots.now) (length producers.now) (length kept.old) × (reader_words counts ≤ length readers.now) × Within counts.atoms (member 64 candidate.now) }
    ensures { (T : Tables) → Results (lent counts made nodes.now operands.now roots.now producers.now readers.now T) kept.old (result_of 64 8 (lent counts made nodes.now operands.now roots.now producers.now readers.now T) (member 64 candidate.now) (of_words (lent counts made nodes.now operands.now roots.now producers.now readers.now T) kept.old)) result kept.new }
{
    if made > counts.roots {
        return Err(Refusal::BadEntry(0));
    }
    let mut marks = [0u64; 16];
    evaluate_with(
        counts,
        made,
        candidate,
        nodes,
        operands,
        roots,
        producers,
        readers,
        kept,
        &mut marks[..],
    )
}

// After refusal 17 the listed words, n of them, are 0.
fn settle(
    checked: Result<Accepted, Refusal>,
    kept: &mut [u32],
    n: usize,
) -> Result<Accepted, Refusal>
    requires { n ≤ length kept.old }
    ensures { (result ≡ checked) × (kept.new ≡ settled n checked kept.old) }
{
    let Err(_) = checked else {
        return checked;
    };
    kept[..n].fill(0);
    checked
}

// Whether the candidate is a stable model, with the nodes gone over; `kept` is the kept evaluation (document 01's books). The same equation holds on words, plans and tables not made here: kept_laws/proofs/AnyWords says what it gives there.
pub fn check(
    counts: Counts,
    plan: Plan,
    stamp: u32,
    candidate: &[u64],
    nodes: &[u32],
    operands: &[u32],
    roots: &[u32],
    producers: &[u32],
    readers: &[u64],
    kept: &mut [u32],
) -> Result<Accepted, Refusal>
    ensures { outcome_of result kept.new ≡ outcome 64 8 (tables_of counts plan nodes.now operands.now roots.now producers.now readers.now) (candidate_of stamp candidate.now) kept.old }
{
    // named again, so that the compiler hands the parts of each on by value
    let candidate = &candidate[..];
    let nodes = &nodes[..];
    let operands = &operands[..];
    let roots = &roots[..];
    let producers = &producers[..];
    let readers = &readers[..];
    let l = Lengths {
        candidate: candidate.len(),
        nodes: nodes.len(),
        operands: operands.len(),
        roots: roots.len(),
        producers: producers.len(),
        readers: readers.len(),
        kept: kept.len(),
    };
    tests::tests(counts, plan.stamp, stamp, candidate, l)?;
    let words = (counts.atoms + 63) / 64;
    let checked = evaluate(
        counts,
        plan.producers,
        &candidate[..words],
        nodes,
        operands,
        roots,
        producers,
        readers,
        kept,
    );
    let n = 16 + 2 * counts.nodes + 3 * counts.atoms + counts.roots;
    settle(checked, kept, n)
}
