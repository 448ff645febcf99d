// The verdict that a kept evaluation tells.
#![tactic(auto)]

ghost use Rattle.std.specs.Prelude.{◌≡◌, cond, ℕ, ◌<◌, ◌≤◌, ltb, length};
ghost use Rattle.theory.specs.Limits.{Limited};
ghost use Rattle.kept.specs.CountedSet.{lookup};
ghost use Rattle.kept.specs.Tables.{Tables};
ghost use Rattle.kept.specs.Verdict.{not_model, verdict_of};
ghost use Rattle.kept.specs.Layout.{of_words};
ghost use Rattle.kept_laws.specs.Given.{used_by, sized, rooted};
ghost use Rattle.verdict.specs.Told.{judged_of, lookup_of};

use kept_laws::OutOfRange;
use theory::Counts;

// Not a model, with its first false root's node; residual, with the lowest atom that nothing produces; stable.
#[derive(Clone, Copy)]
pub enum Verdict {
    NotModel(usize),
    Residual(usize),
    Stable,
}

// The lowest member of the set in `words`, whose count is not 0 and whose members are below n; Err, here and below, where a set and its count, or its table, are at odds, or the root named is no node.
fn lowest(words: &[u32], n: usize) -> Result<Option<usize>, OutOfRange>
    requires { length words.now ≤ 8192 }
    ensures { (size : ℕ) → (size ≡ 0 → ⊥) → lookup_of result ≡ lookup n 0 (record { members = words.now; size = size }) }
{
    let i = words::set::next_word(words, 0);
    if i < n { Ok(Some(i)) } else { Err(OutOfRange) }
}

// The two sets differ in their places, their counts and their bounds alone; what is said of each names its field of the evaluation, so one function of both would say less.
fn first_false(counts: Counts, kept: &[u32]) -> Result<Option<usize>, OutOfRange>
    requires { Limited counts × (used_by counts ≤ length kept.now) }
    ensures { (T : Tables) → lookup_of result ≡ lookup counts.roots 0 (of_words (sized counts T) kept.now).false_roots }
{
    if kept[3] == 0 {
        return Ok(None);
    }
    let at = kept_laws::false_roots_at(counts);
    let end = kept_laws::groups_at(counts);
    lowest(&kept[at..end], counts.roots)
}

fn first_missing(counts: Counts, kept: &[u32]) -> Result<Option<usize>, OutOfRange>
    requires { Limited counts × (used_by counts ≤ length kept.now) }
    ensures { (T : Tables) → lookup_of result ≡ lookup counts.atoms 0 (of_words (sized counts T) kept.now).missing }
{
    if kept[2] == 0 {
        return Ok(None);
    }
    let at = kept_laws::missing_at(counts);
    let end = kept_laws::false_roots_at(counts);
    lowest(&kept[at..end], counts.atoms)
}

// Not a model, by the false root `root`.
fn false_root(counts: Counts, root: usize) -> Result<Verdict, OutOfRange>
    ensures { judged_of result ≡ cond (ltb root counts.nodes) (Some (not_model root)) None }
{
    if root < counts.nodes {
        Ok(Verdict::NotModel(root))
    } else {
        Err(OutOfRange)
    }
}

// By the false roots in root order, then the missing atoms.
pub fn judge(counts: Counts, roots: &[u32], kept: &[u32]) -> Result<Verdict, OutOfRange>
    requires { Limited counts × (counts.roots ≤ length roots.now) × (used_by counts ≤ length kept.now) }
    ensures { (T : Tables) → judged_of result ≡ verdict_of (rooted counts roots.now T) (of_words (rooted counts roots.now T) kept.now) }
{
    if let Some(p) = first_false(counts, kept)? {
        return false_root(counts, words::word(roots, p));
    }
    match first_missing(counts, kept)? {
        Some(a) => Ok(Verdict::Residual(a)),
        None => Ok(Verdict::Stable),
    }
}
