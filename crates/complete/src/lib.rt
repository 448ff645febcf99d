// The fresh check: `complete` and `summarize` of tight/evaluate.rs on the words of a kept evaluation.
#![tactic(auto)]

ghost use Rattle.std.specs.Prelude.{◌≡◌, cond, ℕ, ◌+◌, ◌*◌, ◌<◌, ◌≤◌, length, get_or};
ghost use Rattle.formula.specs.Passes.{Within};
ghost use Rattle.theory.specs.Admission.{or_else, first_refusal};
ghost use Rattle.theory.specs.Limits.{Limited};
ghost use Rattle.words.specs.Bit.{bit};
ghost use Rattle.words.specs.Sets.{member};
ghost use Rattle.kept.specs.Tabulate.{tabulate};
ghost use Rattle.kept.specs.SetOf.{words32, words64};
ghost use Rattle.kept.specs.Tables.{Tables};
ghost use Rattle.kept.specs.Evaluation.{present, body_true, fresh};
ghost use Rattle.kept.specs.Check.{node_entry, producer_entry, root_entry, tables_admission};
ghost use Rattle.kept.specs.Layout.{of_words, written};
ghost use Rattle.kept_laws.specs.Given.{support_at, used_by, sized, produced, rooted, planned};
ghost use Rattle.words.specs.Halves.{half};
ghost use Rattle.kept_laws.specs.Wrote.{Wrote};
ghost use Rattle.node_truth.specs.InWords.{true_in};
ghost use Rattle.complete.specs.Laid.{Laid};
ghost use Rattle.complete.specs.Search.{lacks_in, next_lacking};
ghost use Rattle.complete.specs.Phases.{viewed, summed, opened, emptied, with_halves, begun, Stored, truth_set, truths_laid, producer_counted, support_laid, missing_laid, root_laid, roots_laid, summarised, NoSupport, NoMissing, NoFalseRoots};

use kept_laws::OutOfRange;
use theory::{Counts, Node, Refusal};

// A part becomes the candidate's words of 32 bits.
fn lay_halves(candidate: &[u64], part: &mut [u32])
    requires { length part.old ≤ 2 * length candidate.now }
    ensures { part.new ≡ tabulate (length part.old) (half candidate.now) }
{
    for i in 0..part.len() {
        part[i] = words::half_word(candidate, i);
    }
}

// Worklist but its first node, support, missing atoms and false roots, without their counts.
fn empty(counts: Counts, kept: &mut [u32])
    requires { Limited counts × (used_by counts ≤ length kept.old) }
    ensures { (T : Tables) → kept.new ≡ written (sized counts T) kept.old (emptied (sized counts T) (of_words (sized counts T) kept.old)) }
{
    let worklist = 8 + counts.nodes;
    let candidate = kept_laws::candidate_at(counts);
    let missing = kept_laws::missing_at(counts);
    let end = kept_laws::groups_at(counts) + (counts.nodes + 31) / 32;
    kept[worklist..candidate].fill(0);
    kept[missing..end].fill(0);
}

fn lay_candidate(counts: Counts, candidate: &[u64], kept: &mut [u32])
    requires { Limited counts × (length candidate.now ≡ words64 counts.atoms) × (used_by counts ≤ length kept.old) }
    ensures { (T : Tables) → kept.new ≡ written (sized counts T) kept.old (with_halves (sized counts T) candidate.now (of_words (sized counts T) kept.old)) }
{
    let at = kept_laws::candidate_at(counts);
    let end = kept_laws::missing_at(counts);
    lay_halves(candidate, &mut kept[at..end]);
}

// A check is held; no missing atom, false root or node on the worklist is counted, and the worklist has no first node and remembers none.
fn lay_header(counts: Counts, kept: &mut [u32])
    requires { Limited counts × (used_by counts ≤ length kept.old) }
    ensures { (T : Tables) → kept.new ≡ written (sized counts T) kept.old (opened (sized counts T) (of_words (sized counts T) kept.old)) }
{
    kept[0] = 1;
    kept[1] = counts.stamp;
    kept[2] = 0;
    kept[3] = 0;
    kept[4] = 0;
    kept[5] = counts.nodes as u32;
    kept[6] = 0;
    kept[7] = 0;
}

// All but truth: the candidate, and nothing summarised.
fn reset(counts: Counts, candidate: &[u64], kept: &mut [u32])
    requires { Limited counts × (length candidate.now ≡ words64 counts.atoms) × (used_by counts ≤ length kept.old) }
    ensures { (T : Tables) → kept.new ≡ written (sized counts T) kept.old (begun (sized counts T) (of_words (sized counts T) kept.old).truths (tabulate (words32 counts.atoms) (half candidate.now))) }
{
    lay_header(counts, kept);
    empty(counts, kept);
    lay_candidate(counts, candidate, kept);
}

// Node k gets a truth that was read; Err if none was.
fn lay(kept: &mut [u32], k: usize, seen: Option<bool>) -> Result<(), OutOfRange>
    requires { 8 + k < length kept.old }
    ensures { Stored kept.old k (seen) result kept.new }
{
    // a store of each truth, so that a truth that is foreseen need not be waited for
    match seen {
        Some(true) => kept[8 + k] = 1,
        Some(false) => kept[8 + k] = 0,
        None => return Err(OutOfRange),
    }
    Ok(())
}

// Node k gets its truth; Err if an entry met there is outside its table, or an operand not below it.
fn lay_truth(
    counts: Counts,
    nodes: &[u32],
    operands: &[u32],
    kept: &mut [u32],
    k: usize,
) -> Result<(), OutOfRange>
    requires { Limited counts × (k < counts.nodes) × (3 * counts.nodes ≤ length nodes.now) × (counts.operands ≤ length operands.now) × (used_by counts ≤ length kept.old) }
    ensures { (T : Tables) → Wrote (viewed counts nodes.now operands.now T) kept.old (truth_set (viewed counts nodes.now operands.now T) k (of_words (viewed counts nodes.now operands.now T) kept.old)) result kept.new }
{
    // node_truth's match again: with one function for both, a fresh check takes 1.43 to 2.46 of the instructions (docs/DECISIONS.md, Forms)
    // the kind that is met most, by one comparison
    if nodes[3 * k] == 2 {
        let left = words::word(nodes, 3 * k + 1);
        let right = words::word(nodes, 3 * k + 2);
        let seen = node_truth::implies_truth(kept, k, left, right);
        return lay(kept, k, seen);
    }
    match theory::view(nodes, k) {
        Node::Atom(a) => {
            let seen = node_truth::atom_truth(counts, kept, a);
            lay(kept, k, seen)
        }
        Node::False => lay(kept, k, Some(false)),
        Node::Implies(left, right) => {
            let seen = node_truth::implies_truth(kept, k, left, right);
            lay(kept, k, seen)
        }
        Node::And(s, c) => {
            let seen = node_truth::span_truth(operands, counts.operands, kept, k, s, c, false);
            lay(kept, k, seen)
        }
        Node::Or(s, c) => {
            let seen = node_truth::span_truth(operands, counts.operands, kept, k, s, c, true);
            lay(kept, k, seen)
        }
        Node::Unknown => Err(OutOfRange),
    }
}

// All nodes rising.
fn lay_truths(
    counts: Counts,
    nodes: &[u32],
    operands: &[u32],
    kept: &mut [u32],
) -> Result<(), Refusal>
    requires { Limited counts × (3 * counts.nodes ≤ length nodes.now) × (counts.operands ≤ length operands.now) × (used_by counts ≤ length kept.old) }
    ensures { (T : Tables) → Laid (viewed counts nodes.now operands.now T) kept.old (first_refusal (node_entry (viewed counts nodes.now operands.now T) (present (of_words (viewed counts nodes.now operands.now T) kept.old))) 0 counts.nodes) (truths_laid (viewed counts nodes.now operands.now T) (of_words (viewed counts nodes.now operands.now T) kept.old)) result kept.new }
{
    for k in 0..counts.nodes {
        let Ok(()) = lay_truth(counts, nodes, operands, kept, k) else {
            return Err(Refusal::BadEntry(k));
        };
    }
    Ok(())
}

// By its second word, a producer has no body or a true one.
fn body_true(kept: &[u32], body: usize) -> bool
    requires { 8 + body ≤ length kept.now }
    ensures { result ≡ body_true (true_in kept.now) body }
{
    match body {
        0 => true,
        _ => node_truth::holds(kept, body - 1),
    }
}

// What a producer adds to the support of its head: 1 if it counts.
fn adds(kept: &[u32], body: usize) -> u32
    requires { 8 + body ≤ length kept.now }
    ensures { (result ≡ cond (body_true (true_in kept.now) body) 1 0) × (result ≤ 1) }
{
    u32::from(body_true(kept, body))
}

// Producer p: the support of its head goes up if it counts; Err if its head is no atom or its body no node.
fn count_producer(
    counts: Counts,
    producers: &[u32],
    kept: &mut [u32],
    p: usize,
) -> Result<(), OutOfRange>
    requires { Limited counts × (4 * p + 1 < length producers.now) × (used_by counts ≤ length kept.old) × ((a : ℕ) → a < counts.atoms → get_or kept.old (support_at counts + a) 0 ≤ counts.roots) }
    ensures { (T : Tables) → Wrote (produced counts T.made producers.now T) kept.old (producer_counted (produced counts T.made producers.now T) p (of_words (produced counts T.made producers.now T) kept.old)) result kept.new }
{
    let head = words::word(producers, 4 * p);
    let body = words::word(producers, 4 * p + 1);
    if head >= counts.atoms {
        return Err(OutOfRange);
    }
    if body > counts.nodes {
        return Err(OutOfRange);
    }
    let at = kept_laws::support_at(counts) + head;
    // no branch goes by the body's truth
    kept[at] = kept[at] + adds(kept, body);
    Ok(())
}

// The support of each atom, where it was zero.
fn count_producers(
    counts: Counts,
    made: usize,
    producers: &[u32],
    kept: &mut [u32],
) -> Result<(), Refusal>
    requires { Limited counts × (made ≤ counts.roots) × (4 * counts.roots ≤ length producers.now) × (used_by counts ≤ length kept.old) × NoSupport counts kept.old }
    ensures { (T : Tables) → Laid (produced counts made producers.now T) kept.old (first_refusal (producer_entry (produced counts made producers.now T)) 0 made) (support_laid (produced counts made producers.now T) (of_words (produced counts made producers.now T) kept.old)) result kept.new }
{
    for p in 0..made {
        count_producer(counts, producers, kept, p)?;
    }
    Ok(())
}

// The atoms of word q of the candidate that have no support; all 32 are atoms.
fn lacking(counts: Counts, kept: &[u32], q: usize) -> u32
    requires { Limited counts × (32 * q + 32 ≤ counts.atoms) × (used_by counts ≤ length kept.now) }
    ensures { (k : ℕ) → k < 32 → bit result k ≡ lacks_in counts kept.now (32 * q + k) }
{
    let support = kept_laws::support_at(counts);
    let x = kept[support + counts.atoms + q];
    if x == 0 {
        return 0;
    }
    let supported = words::set::nonzeros(kept, support + 32 * q);
    (x | supported) ^ supported
}

// Whether atom a is in the candidate and has no support.
fn lacks(counts: Counts, kept: &[u32], a: usize) -> bool
    requires { Limited counts × (a < counts.atoms) × (used_by counts ≤ length kept.now) }
    ensures { result ≡ lacks_in counts kept.now a }
{
    node_truth::present(counts, kept, a) && kept[kept_laws::support_at(counts) + a] == 0
}

// The lowest atom from `from` on that is in the candidate and has no support, atom by atom; the number of atoms if there is none, as the definition `next_lacking` has it.
fn next_single(counts: Counts, kept: &[u32], from: usize) -> usize
    requires { Limited counts × (from ≤ counts.atoms) × (used_by counts ≤ length kept.now) }
    ensures { result ≡ next_lacking counts kept.now from }
{
    for a in from..counts.atoms {
        if lacks(counts, kept, a) {
            return a;
        }
    }
    counts.atoms
}

// The same, 32 atoms at a time: from anywhere within a word to the start of the next, so no range of places is gone over.
fn next_lacking(counts: Counts, kept: &[u32], from: usize) -> usize
    requires { Limited counts × (from ≤ counts.atoms) × (used_by counts ≤ length kept.now) }
    ensures { result ≡ next_lacking counts kept.now from }
{
    let mut a = from;
    while a / 32 < counts.atoms / 32 {
        let x = lacking(counts, kept, a / 32) >> (a % 32);
        if x != 0 {
            return a + words::bits(x as u64, 0) as usize;
        }
        a = a / 32 * 32 + 32;
    }
    next_single(counts, kept, a)
}

// The missing atoms, where there was none: from one to the next, so no range of places is gone over.
fn lay_missing(counts: Counts, kept: &mut [u32])
    requires { Limited counts × (used_by counts ≤ length kept.old) × NoMissing counts kept.old }
    ensures { (T : Tables) → kept.new ≡ written (sized counts T) kept.old (missing_laid (sized counts T) (of_words (sized counts T) kept.old)) }
{
    let mut a = next_lacking(counts, kept, 0);
    while a < counts.atoms {
        // no count leaves its range here
        let _ = retained::missing(counts, kept, a, true);
        a = next_lacking(counts, kept, a + 1);
    }
}

// Root position p is among the false roots if its node is false; Err if it is no node.
fn lay_root(counts: Counts, roots: &[u32], kept: &mut [u32], p: usize) -> Result<(), OutOfRange>
    requires { Limited counts × (p < counts.roots) × (counts.roots ≤ length roots.now) × (used_by counts ≤ length kept.old) }
    ensures { (T : Tables) → Wrote (rooted counts roots.now T) kept.old (root_laid (rooted counts roots.now T) p (of_words (rooted counts roots.now T) kept.old)) result kept.new }
{
    let root = words::word(roots, p);
    if root >= counts.nodes {
        return Err(OutOfRange);
    }
    if node_truth::holds(kept, root) {
        return Ok(());
    }
    retained::root(counts, kept, p, false)
}

// The false roots by position, where there was none.
fn lay_roots(counts: Counts, roots: &[u32], kept: &mut [u32]) -> Result<(), Refusal>
    requires { Limited counts × (counts.roots ≤ length roots.now) × (used_by counts ≤ length kept.old) × NoFalseRoots counts kept.old }
    ensures { (T : Tables) → Laid (rooted counts roots.now T) kept.old (first_refusal (root_entry (rooted counts roots.now T)) 0 counts.roots) (roots_laid (rooted counts roots.now T) (of_words (rooted counts roots.now T) kept.old)) result kept.new }
{
    for p in 0..counts.roots {
        lay_root(counts, roots, kept, p)?;
    }
    Ok(())
}

// Support, missing atoms and false roots, where there was none of them.
fn summarize(
    counts: Counts,
    made: usize,
    roots: &[u32],
    producers: &[u32],
    kept: &mut [u32],
) -> Result<(), Refusal>
    requires limited { Limited counts × (made ≤ counts.roots) × (counts.roots ≤ length roots.now) × (4 * counts.roots ≤ length producers.now) × (used_by counts ≤ length kept.old) }
    requires no_support { NoSupport counts kept.old × NoMissing counts kept.old × NoFalseRoots counts kept.old }
    ensures { (T : Tables) → Laid (summed counts made roots.now producers.now T) kept.old (or_else (first_refusal (producer_entry (summed counts made roots.now producers.now T)) 0 made) (first_refusal (root_entry (summed counts made roots.now producers.now T)) 0 counts.roots)) (summarised (summed counts made roots.now producers.now T) (of_words (summed counts made roots.now producers.now T) kept.old)) result kept.new }
{
    count_producers(counts, made, producers, kept)?;
    lay_missing(counts, kept);
    lay_roots(counts, roots, kept)
}

// A check of the candidate by all nodes rising, then producers, then roots.
// A function of its own, as the walk is: laid into `tight_check` its loop's speed goes by where the linker lays that.
#[inline(never)]
pub fn complete(
    counts: Counts,
    made: usize,
    candidate: &[u64],
    nodes: &[u32],
    operands: &[u32],
    roots: &[u32],
    producers: &[u32],
    kept: &mut [u32],
) -> Result<(), Refusal>
    requires { Limited counts × (made ≤ counts.roots) × (length candidate.now ≡ words64 counts.atoms) × (3 * counts.nodes ≤ length nodes.now) × (counts.operands ≤ length operands.now) × (counts.roots ≤ length roots.now) × (4 * counts.roots ≤ length producers.now) × (used_by counts ≤ length kept.old) × Within counts.atoms (member 64 candidate.now) }
    ensures { (T : Tables) → Laid (planned counts made nodes.now operands.now roots.now producers.now T) kept.old (tables_admission (planned counts made nodes.now operands.now roots.now producers.now T) (member 64 candidate.now)) (fresh (planned counts made nodes.now operands.now roots.now producers.now T) (member 64 candidate.now)) result kept.new }
{
    reset(counts, candidate, kept);
    lay_truths(counts, nodes, operands, kept)?;
    summarize(counts, made, roots, producers, kept)
}
