// Changes of a kept evaluation in its lent words: `queue`, `presence`, `support` and `root` of tight/evaluate.rs. Each that can fail answers Err where a count would leave its range.
#![tactic(auto)]

ghost use Rattle.std.specs.Prelude.{◌≡◌, true, false, ◌&&◌, ◌+◌, ◌-◌, ◌*◌, ◌/◌, ◌<◌, ◌≤◌, eqb, ltb, length, get_or, set};
ghost use Rattle.theory.specs.Limits.{Limited};
ghost use Rattle.words.specs.Next.{next};
ghost use Rattle.kept.specs.SetOf.{words32};
ghost use Rattle.kept.specs.Tables.{Tables};
ghost use Rattle.kept.specs.Layout.{of_words, written};
ghost use Rattle.kept.specs.Step.{entered, support_moved, root_turned};
ghost use Rattle.kept_laws.specs.Given.{groups_at, used_by, sized, supplied};
ghost use Rattle.kept_laws.specs.Wrote.{Wrote};
ghost use Rattle.retained.specs.Member.{Put, bit_put, member_put};
ghost use Rattle.retained.specs.Changes.{missing_turned, missing_moved, presence_turned, waiting, other_behind, advanced_to, drained, dequeued};
ghost use Rattle.retained.specs.Groups.{regrouped};

use kept_laws::OutOfRange;
use theory::Counts;

// i becomes a member of the set whose words begin at `at` and whose count, `most` at most, is word `size`.
pub fn include(
    kept: &mut [u32],
    at: usize,
    size: usize,
    most: usize,
    i: usize,
) -> Result<(), OutOfRange>
    requires { (at + i / 32 < length kept.old) × (size < length kept.old) × (most < 4294967296) }
    ensures { Put kept.old (member_put at size most i true kept.old) result kept.new }
{
    let q = at + i / 32;
    let word = kept[q];
    if (word >> (i % 32)) % 2 == 1 {
        return Ok(());
    }
    let n = words::word(kept, size);
    if n >= most {
        return Err(OutOfRange);
    }
    kept[q] = word | (1u32 << (i % 32));
    kept[size] = (n + 1) as u32;
    Ok(())
}

// i becomes none: the converse, with the other bound and the other sign at each line.
pub fn exclude(
    kept: &mut [u32],
    at: usize,
    size: usize,
    most: usize,
    i: usize,
) -> Result<(), OutOfRange>
    requires { (at + i / 32 < length kept.old) × (size < length kept.old) }
    ensures { Put kept.old (member_put at size most i false kept.old) result kept.new }
{
    let q = at + i / 32;
    let word = kept[q];
    if (word >> (i % 32)) % 2 != 1 {
        return Ok(());
    }
    let n = words::word(kept, size);
    if n == 0 {
        return Err(OutOfRange);
    }
    let m = 1u32 << (i % 32);
    kept[q] = (word | m) ^ m;
    kept[size] = (n - 1) as u32;
    Ok(())
}

fn turn(
    kept: &mut [u32],
    at: usize,
    size: usize,
    most: usize,
    i: usize,
    x: bool,
) -> Result<(), OutOfRange>
    requires { (at + i / 32 < length kept.old) × (size < length kept.old) × (most < 4294967296) }
    ensures { Put kept.old (member_put at size most i x kept.old) result kept.new }
{
    if x {
        include(kept, at, size, most, i)
    } else {
        exclude(kept, at, size, most, i)
    }
}

// Node m among those that wait behind the first.
fn wait(counts: Counts, kept: &mut [u32], m: usize) -> Result<(), OutOfRange>
    requires { Limited counts × (m < counts.nodes) × (used_by counts ≤ length kept.old) }
    ensures { (T : Tables) → Wrote (sized counts T) kept.old (waiting (sized counts T) m (of_words (sized counts T) kept.old)) result kept.new }
{
    include(kept, 8 + counts.nodes, 4, counts.nodes, m)?;
    mark(kept, kept_laws::groups_at(counts), m / 32, true);
    Ok(())
}

// Where node m enters, `other` waits behind the first: m itself, or the first that it comes before. That one is remembered with the number
// of those that wait then, unless one further on is. One call of `wait`: with two the walk has too few registers.
fn put_behind(counts: Counts, kept: &mut [u32], m: usize, other: usize) -> Result<(), OutOfRange>
    requires { Limited counts × (other < counts.nodes) × (used_by counts ≤ length kept.old) }
    ensures { (T : Tables) → Wrote (sized counts T) kept.old (other_behind (sized counts T) m other (of_words (sized counts T) kept.old)) result kept.new }
{
    wait(counts, kept, other)?;
    if other == m {
        return Ok(());
    }
    if words::word(kept, 6) > other {
        return Ok(());
    }
    kept[6] = other as u32;
    kept[7] = kept[4];
    Ok(())
}

// Node m onto the worklist: the lower of it and the first comes first, the other waits behind; a first above the number of nodes is refused.
pub fn queue(counts: Counts, kept: &mut [u32], m: usize) -> Result<(), OutOfRange>
    requires { Limited counts × (m < counts.nodes) × (used_by counts ≤ length kept.old) }
    ensures { (T : Tables) → Wrote (sized counts T) kept.old (entered (sized counts T) m (of_words (sized counts T) kept.old)) result kept.new }
{
    let first = words::word(kept, 5);
    let mut other = m;
    if m <= first {
        if m == first {
            return Ok(());
        }
        kept[5] = m as u32;
        if first >= counts.nodes {
            return if first == counts.nodes {
                Ok(())
            } else {
                Err(OutOfRange)
            };
        }
        other = first;
    }
    put_behind(counts, kept, m, other)
}

// The first word from q on that has members by the groups: a number if there is none too, as the definition `next` has it.
fn next_group(counts: Counts, kept: &[u32], q: usize) -> usize
    requires { Limited counts × (q < counts.nodes) × (used_by counts ≤ length kept.now) }
    ensures { (T : Tables) → result ≡ next 32 (of_words (sized counts T) kept.now).worklist.groups q }
{
    let at = kept_laws::groups_at(counts);
    let end = at + (counts.nodes + 31) / 32;
    words::set::next(&kept[at..end], q)
}

// A word that has become 0, q, leaves its group.
fn regroup(counts: Counts, kept: &mut [u32], q: usize, rest: u32)
    requires { Limited counts × (q < counts.nodes) × (used_by counts ≤ length kept.old) }
    ensures { kept.new ≡ regrouped (groups_at counts) q rest kept.old }
{
    if rest == 0 {
        mark(kept, kept_laws::groups_at(counts), q, false);
    }
}

// The lowest member of word q comes first, after node k; Err if the word has none or it is not above k.
fn advance(counts: Counts, kept: &mut [u32], k: usize, q: usize) -> Result<(), OutOfRange>
    requires { Limited counts × (q < words32 counts.nodes) × (used_by counts ≤ length kept.old) × (get_or kept.old 5 0 ≡ k) × (0 < get_or kept.old 4 0) }
    ensures { (T : Tables) → Wrote (sized counts T) kept.old (advanced_to (sized counts T) q (of_words (sized counts T) kept.old)) result kept.new }
{
    let at = 8 + counts.nodes + q;
    let x = kept[at];
    if x == 0 {
        return Err(OutOfRange);
    }
    let t = u32::trailing_zeros(x);
    let m = 32 * q + t as usize;
    if m <= k {
        return Err(OutOfRange);
    }
    let rest = x & (x - 1);
    kept[at] = rest;
    regroup(counts, kept, q, rest);
    kept[4] = kept[4] - 1;
    kept[5] = m as u32;
    Ok(())
}

// The first leaves and no other waits: nothing is remembered.
fn drain(counts: Counts, kept: &mut [u32])
    requires { Limited counts × (used_by counts ≤ length kept.old) }
    ensures { (T : Tables) → kept.new ≡ written (sized counts T) kept.old (drained (sized counts T) (of_words (sized counts T) kept.old)) }
{
    kept[5] = counts.nodes as u32;
    if kept[7] == 0 {
        return;
    }
    kept[6] = 0;
    kept[7] = 0;
}

// No more wait behind node k, the first, than when the node remembered, and still ahead, was put behind.
fn far_next(kept: &[u32], k: usize) -> bool
    requires { 7 < length kept.now }
    ensures { result ≡ (eqb (get_or kept.now 4 0) (get_or kept.now 7 0) && ltb k (get_or kept.now 6 0)) }
{
    if kept[4] != kept[7] {
        return false;
    }
    k < words::word(kept, 6)
}

// The first node of the worklist, k, off it: the next one comes first.
pub fn dequeue(counts: Counts, kept: &mut [u32], k: usize) -> Result<(), OutOfRange>
    requires { Limited counts × (k < counts.nodes) × (used_by counts ≤ length kept.old) × (get_or kept.old 5 0 ≡ k) }
    ensures { (T : Tables) → Wrote (sized counts T) kept.old (dequeued (sized counts T) (of_words (sized counts T) kept.old)) result kept.new }
{
    if kept[4] == 0 {
        drain(counts, kept);
        return Ok(());
    }
    if far_next(kept, k) {
        let q = words::word(kept, 6) / 32;
        if q >= (counts.nodes + 31) / 32 {
            return Err(OutOfRange);
        }
        return advance(counts, kept, k, q);
    }
    // the word of k first, as the groups take longer to read
    if kept[8 + counts.nodes + k / 32] != 0 {
        return advance(counts, kept, k, k / 32);
    }
    let q = next_group(counts, kept, k / 32);
    if q >= (counts.nodes + 31) / 32 {
        return Err(OutOfRange);
    }
    advance(counts, kept, k, q)
}

// Root position p holds or not.
pub fn root(counts: Counts, kept: &mut [u32], p: usize, holds: bool) -> Result<(), OutOfRange>
    requires { Limited counts × (p < counts.roots) × (used_by counts ≤ length kept.old) }
    ensures { (T : Tables) → Wrote (sized counts T) kept.old (root_turned (sized counts T) holds p (of_words (sized counts T) kept.old)) result kept.new }
{
    let at = kept_laws::false_roots_at(counts);
    turn(kept, at, 3, counts.roots, p, !holds)
}

// Atom a is missing or not; `root` has another set, count and bound, and names another field of the evaluation.
pub fn missing(counts: Counts, kept: &mut [u32], a: usize, lacking: bool) -> Result<(), OutOfRange>
    requires { Limited counts × (a < counts.atoms) × (used_by counts ≤ length kept.old) }
    ensures { (T : Tables) → Wrote (sized counts T) kept.old (missing_turned (sized counts T) a lacking (of_words (sized counts T) kept.old)) result kept.new }
{
    let at = kept_laws::missing_at(counts);
    turn(kept, at, 2, counts.atoms, a, lacking)
}

// Atom a becomes missing or not, by its support and whether it is to be in the candidate, which is not written here.
pub fn presence(counts: Counts, kept: &mut [u32], a: usize, x: bool) -> Result<(), OutOfRange>
    requires { Limited counts × (a < counts.atoms) × (used_by counts ≤ length kept.old) }
    ensures { (T : Tables) → Wrote (sized counts T) kept.old (presence_turned (sized counts T) a x (of_words (sized counts T) kept.old)) result kept.new }
{
    let at = kept_laws::support_at(counts) + a;
    let lacking = x && kept[at] == 0;
    missing(counts, kept, a, lacking)
}

// i is in the set whose words begin at `at`, or not.
fn mark(kept: &mut [u32], at: usize, i: usize, x: bool)
    requires { at + i / 32 < length kept.old }
    ensures { kept.new ≡ bit_put at i x kept.old }
{
    let q = at + i / 32;
    let word = kept[q];
    let m = 1u32 << (i % 32);
    if x {
        kept[q] = word | m;
    } else {
        kept[q] = (word | m) ^ m;
    }
}

// Atom a, with `before` producers that have a true body, gains one: if that is its first it is not missing.
fn relieved(counts: Counts, kept: &mut [u32], a: usize, before: usize) -> Result<(), OutOfRange>
    requires { Limited counts × (a < counts.atoms) × (used_by counts ≤ length kept.old) }
    ensures { (T : Tables) → Wrote (sized counts T) kept.old (missing_moved (sized counts T) a before (before + 1) (of_words (sized counts T) kept.old)) result kept.new }
{
    if before != 0 {
        return Ok(());
    }
    missing(counts, kept, a, false)
}

// One producer more of atom a has a true body. `lose` is its converse: bounds, sign and what is missing then all differ, so one function of both would be a branch at each line.
fn gain(counts: Counts, made: usize, kept: &mut [u32], a: usize) -> Result<(), OutOfRange>
    requires { Limited counts × (made ≤ counts.roots) × (a < counts.atoms) × (used_by counts ≤ length kept.old) }
    ensures { (T : Tables) → Wrote (supplied counts made T) kept.old (support_moved (supplied counts made T) true a (of_words (supplied counts made T) kept.old)) result kept.new }
{
    let at = kept_laws::support_at(counts) + a;
    let before = words::word(kept, at);
    if before >= made {
        return Err(OutOfRange);
    }
    relieved(counts, kept, a, before)?;
    kept[at] = (before + 1) as u32;
    Ok(())
}

// Atom a loses one of them: if that was its last it is missing where it is in the candidate.
fn deserted(counts: Counts, kept: &mut [u32], a: usize, before: usize) -> Result<(), OutOfRange>
    requires { Limited counts × (a < counts.atoms) × (used_by counts ≤ length kept.old) × (0 < before) }
    ensures { (T : Tables) → Wrote (sized counts T) kept.old (missing_moved (sized counts T) a before (before - 1) (of_words (sized counts T) kept.old)) result kept.new }
{
    if before != 1 {
        return Ok(());
    }
    let lacking = node_truth::present(counts, kept, a);
    missing(counts, kept, a, lacking)
}

// One producer less.
fn lose(counts: Counts, kept: &mut [u32], a: usize) -> Result<(), OutOfRange>
    requires { Limited counts × (a < counts.atoms) × (used_by counts ≤ length kept.old) }
    ensures { (T : Tables) → Wrote (sized counts T) kept.old (support_moved (sized counts T) false a (of_words (sized counts T) kept.old)) result kept.new }
{
    let at = kept_laws::support_at(counts) + a;
    let before = words::word(kept, at);
    if before == 0 {
        return Err(OutOfRange);
    }
    deserted(counts, kept, a, before)?;
    kept[at] = (before - 1) as u32;
    Ok(())
}

// The body of a producer of atom a has become true or false.
pub fn support(
    counts: Counts,
    made: usize,
    kept: &mut [u32],
    a: usize,
    holds: bool,
) -> Result<(), OutOfRange>
    requires { Limited counts × (made ≤ counts.roots) × (a < counts.atoms) × (used_by counts ≤ length kept.old) }
    ensures { (T : Tables) → Wrote (supplied counts made T) kept.old (support_moved (supplied counts made T) holds a (of_words (supplied counts made T) kept.old)) result kept.new }
{
    if holds {
        gain(counts, made, kept, a)
    } else {
        lose(counts, kept, a)
    }
}
