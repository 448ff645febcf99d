// A kept check: the walk from the kept candidate to the new one (`update` of tight/evaluate.rs).
#![tactic(auto)]

ghost use Rattle.std.specs.Prelude.{◌≡◌, suc, ◌+◌, ◌*◌, ◌/◌, ◌≤◌, ltb, length};
ghost use Rattle.formula.specs.Passes.{Within};
ghost use Rattle.words.specs.Next.{next};
ghost use Rattle.words.specs.Sets.{member};
ghost use Rattle.theory.specs.Limits.{Limited};
ghost use Rattle.kept.specs.SetOf.{words64};
ghost use Rattle.kept.specs.Tables.{Tables};
ghost use Rattle.kept.specs.Evaluation.{Evaluation};
ghost use Rattle.kept.specs.Layout.{of_words};
ghost use Rattle.kept.specs.Walk.{walk, kept_walk};
ghost use Rattle.kept.specs.Check.{concluded, kept_result};
ghost use Rattle.kept_laws.specs.Given.{used_by, sized};
ghost use Rattle.kept_laws.specs.Turns.{resumed};
ghost use Rattle.difference.specs.Marks.{Marked, Between};
ghost use Rattle.step.specs.Steps.{Lent};
ghost use Rattle.verdict.specs.Told.{judged_of};
ghost use Rattle.update.specs.Results.{lent, answer_of, answer_in, Results};

use kept_laws::OutOfRange;
use theory::{Counts, Refusal};
use verdict::Verdict;

// The verdict, and how many nodes were gone over.
#[derive(Clone, Copy)]
pub struct Accepted {
    pub verdict: Verdict,
    pub visited: usize,
}

// A verdict after n nodes.
fn told(judged: Result<Verdict, OutOfRange>, n: usize) -> Result<Accepted, Refusal>
    ensures { (e : Evaluation) → answer_of result ≡ answer_in (concluded (judged_of judged) n e) }
{
    let verdict = judged?;
    Ok(Accepted {
        verdict,
        visited: n,
    })
}

// Steps until the worklist is empty, then the verdict; `gone` nodes were gone over before. After a fresh check too, whose worklist is empty: with two callers the walk stays a function of its own, with registers of its own.
pub fn walk(
    counts: Counts,
    made: usize,
    nodes: &[u32],
    operands: &[u32],
    roots: &[u32],
    producers: &[u32],
    readers: &[u64],
    kept: &mut [u32],
    gone: usize,
) -> Result<Accepted, Refusal>
    requires { Lent counts made (length nodes.now) (length operands.now) (length producers.now) (length readers.now) (length kept.old) × (counts.roots ≤ length roots.now) × (gone ≤ counts.nodes) }
    ensures { (T : Tables) → Results (lent counts made nodes.now operands.now roots.now producers.now readers.now T) kept.old (resumed (lent counts made nodes.now operands.now roots.now producers.now readers.now T) gone (walk (lent counts made nodes.now operands.now roots.now producers.now readers.now T) (suc counts.nodes) (of_words (lent counts made nodes.now operands.now roots.now producers.now readers.now T) kept.old))) result kept.new }
{
    // named again, so that the compiler hands them on by value
    let nodes = &nodes[..];
    let operands = &operands[..];
    let roots = &roots[..];
    let producers = &producers[..];
    let readers = &readers[..];
    let mut n = gone;
    loop {
        match step::step(counts, made, nodes, operands, producers, readers, kept) {
            Ok(None) => {
                return told(verdict::judge(counts, roots, kept), n);
            }
            Ok(Some(_)) => {
                n += 1;
            }
            Err(r) => {
                return Err(r);
            }
        }
    }
}

// Whether the kept candidate has a member that is no atom.
fn stray_member(counts: Counts, kept: &[u32]) -> bool
    requires { Limited counts × (used_by counts ≤ length kept.now) }
    ensures { (T : Tables) → result ≡ ltb (next 32 (of_words (sized counts T) kept.now).candidate counts.atoms) (32 * length (of_words (sized counts T) kept.now).candidate) }
{
    let a = counts.atoms;
    if a % 32 == 0 {
        return false;
    }
    let at = kept_laws::missing_at(counts) - 1;
    kept[at] >> (a % 32) != 0
}

// The kept evaluation brought to the new candidate, whose listed words `candidate` is; `marks` the pairs of its words that may differ, all of them from `first` to `end`.
pub fn update(
    counts: Counts,
    made: usize,
    candidate: &[u64],
    nodes: &[u32],
    operands: &[u32],
    roots: &[u32],
    producers: &[u32],
    readers: &[u64],
    kept: &mut [u32],
    marks: &[u64],
    first: usize,
    end: usize,
) -> Result<Accepted, Refusal>
    requires { Lent counts made (length nodes.now) (length operands.now) (length producers.now) (length readers.now) (length kept.old) × (counts.roots ≤ length roots.now) × (length candidate.now ≡ words64 counts.atoms) × Within counts.atoms (member 64 candidate.now) × Marked counts kept.old candidate.now marks.now × (words64 counts.atoms ≤ 64 * length marks.now) × (length marks.now ≤ 16) × Between counts kept.old candidate.now first end }
    ensures { (T : Tables) → Results (lent counts made nodes.now operands.now roots.now producers.now readers.now T) kept.old (kept_result (lent counts made nodes.now operands.now roots.now producers.now readers.now T) (kept_walk (lent counts made nodes.now operands.now roots.now producers.now readers.now T) (member 64 candidate.now) (of_words (lent counts made nodes.now operands.now roots.now producers.now readers.now T) kept.old))) result kept.new }
{
    if stray_member(counts, kept) {
        return Err(Refusal::BadEntry(0));
    }
    start::start(counts, candidate, readers, kept, marks, first, end)?;
    walk(
        counts, made, nodes, operands, roots, producers, readers, kept, 0,
    )
}
