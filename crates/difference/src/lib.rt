// How the kept candidate and the new one differ: the first pass of `update` in tight/evaluate.rs.
#![tactic(auto)]

ghost use Rattle.std.specs.Prelude.{◌≡◌, true, ◌+◌, ◌*◌, ◌/◌, ◌<◌, ◌≤◌, length, get_or};
ghost use Rattle.theory.specs.Limits.{Limited};
ghost use Rattle.words.specs.Sets.{member};
ghost use Rattle.kept.specs.SetOf.{words64};
ghost use Rattle.kept.specs.Tables.{Tables};
ghost use Rattle.kept.specs.Layout.{of_words};
ghost use Rattle.kept.specs.Check.{changes};
ghost use Rattle.kept_laws.specs.Given.{used_by, sized};
ghost use Rattle.difference.specs.ChangedLaws.{word_changes};
ghost use Rattle.difference.specs.Marks.{Same, SameFrom, Upto, Marked, Between};
ghost use Rattle.difference.specs.Found.{Found};

use theory::Counts;

// At how many atoms the candidates differ, and the pairs outside which they do not.
#[derive(Clone, Copy)]
pub struct Differing {
    pub changes: usize,
    pub first: usize,
    pub end: usize,
}

// Words i and i + 1 as one.
pub fn pair(kept: &[u32], i: usize) -> u64
    requires { i + 1 < length kept.now }
    ensures { result ≡ get_or kept.now i 0 + get_or kept.now (i + 1) 0 * 4294967296 }
{
    (kept[i] as u64) + (kept[i + 1] as u64) * 0x1_0000_0000
}

// Whether two words of the kept candidate, at places 2 j and 2 j + 1 from `at` on, are word j of the new one.
fn same_pair(candidate: &[u64], kept: &[u32], at: usize, j: usize) -> bool
    requires { (j < length candidate.now) × (at + 2 * j + 1 < length kept.now) }
    ensures { result ≡ true → Same at kept.now candidate.now (2 * j) × Same at kept.now candidate.now (2 * j + 1) }
{
    pair(kept, at + 2 * j) == candidate[j]
}

// At how many atoms pair j differs; it is marked.
fn pair_changes(candidate: &[u64], kept: &[u32], at: usize, j: usize, marks: &mut [u64]) -> usize
    requires { (j < length candidate.now) × (at + 2 * j + 1 < length kept.now) × (j / 64 < length marks.old) }
    ensures result_value { word_changes at kept.now candidate.now (2 * j) + result ≡ word_changes at kept.now candidate.now (2 * (j + 1)) }
    ensures upto { Upto at kept.now candidate.now (2 * j) marks.old → Upto at kept.now candidate.now (2 * (j + 1)) marks.new }
{
    words::set::insert(marks, j);
    words::set::changed(pair(kept, at + 2 * j), candidate[j]) as usize
}

// d, what is found of the pairs before pair j, with pair j added, which is marked if it differs.
fn with_pair(
    candidate: &[u64],
    kept: &[u32],
    at: usize,
    j: usize,
    marks: &mut [u64],
    d: Differing,
) -> Differing
    requires bounds { (j < 1024) × (j < length candidate.now) × (at + 2 * j + 1 < length kept.now) × (j < 64 * length marks.old) }
    requires found { Found at kept.now candidate.now (2 * j) marks.old d }
    ensures { Found at kept.now candidate.now (2 * (j + 1)) marks.new result × (result.first ≤ d.first) }
{
    if same_pair(candidate, kept, at, j) {
        return d;
    }
    let changes = d.changes + pair_changes(candidate, kept, at, j, marks);
    Differing {
        changes,
        first: d.first.min(j),
        end: j + 1,
    }
}

// d, what is found of the pairs before `first`, with pairs `first` to `end` added; those that differ are marked.
fn pairs_changes(
    candidate: &[u64],
    kept: &[u32],
    at: usize,
    first: usize,
    end: usize,
    marks: &mut [u64],
    mut d: Differing,
) -> Differing
    requires first_le_end { (first ≤ end) × (end ≤ 1024) × (end ≤ length candidate.now) × (at + 2 * end ≤ length kept.now) × (end ≤ 64 * length marks.old) }
    requires found { Found at kept.now candidate.now (2 * first) marks.old d }
    ensures { Found at kept.now candidate.now (2 * end) marks.new result × (result.first ≤ d.first) }
{
    for j in first..end {
        d = with_pair(candidate, kept, at, j, marks, d);
    }
    d
}

// Whether the 16 pairs from `first` on are all the same; no branch in the loop, so that several are compared at once.
fn same_block(candidate: &[u64], kept: &[u32], at: usize, first: usize) -> bool
    requires { (first + 16 ≤ length candidate.now) × (at + 2 * (first + 16) ≤ length kept.now) }
    ensures { result ≡ true → SameFrom at kept.now candidate.now first (first + 16) }
{
    let mut d = 0u64;
    for j in first..first + 16 {
        d = d | (candidate[j] ^ pair(kept, at + 2 * j));
    }
    d == 0
}

// Whether pairs `first` to `end`, 16 at most, are seen to be the same: where they are fewer, or all there are, they are not looked at.
fn same_pairs(candidate: &[u64], kept: &[u32], at: usize, first: usize, end: usize) -> bool
    requires { (first ≤ end) × (end ≤ first + 16) × (end ≤ length candidate.now) × (at + 2 * end ≤ length kept.now) }
    ensures { result ≡ true → SameFrom at kept.now candidate.now first end }
{
    if candidate.len() <= 16 {
        return false;
    }
    if end - first < 16 {
        return false;
    }
    same_block(candidate, kept, at, first)
}

// The same of a block, 16 pairs at most.
fn block_changes(
    candidate: &[u64],
    kept: &[u32],
    at: usize,
    first: usize,
    end: usize,
    marks: &mut [u64],
    d: Differing,
) -> Differing
    requires first_le_end { (first ≤ end) × (end ≤ first + 16) × (end ≤ 1024) × (end ≤ length candidate.now) × (at + 2 * end ≤ length kept.now) × (end ≤ 64 * length marks.old) }
    requires found { Found at kept.now candidate.now (2 * first) marks.old d }
    ensures { Found at kept.now candidate.now (2 * end) marks.new result × (result.first ≤ d.first) }
{
    if same_pairs(candidate, kept, at, first, end) {
        return d;
    }
    pairs_changes(candidate, kept, at, first, end, marks, d)
}

// What is found of all pairs.
fn all_changes(
    candidate: &[u64],
    kept: &[u32],
    at: usize,
    pairs: usize,
    marks: &mut [u64],
) -> Differing
    requires { (pairs ≤ 1024) × (pairs ≤ length candidate.now) × (at + 2 * pairs ≤ length kept.now) × (pairs ≤ 64 * length marks.old) }
    ensures { Found at kept.now candidate.now (2 * pairs) marks.new result × (result.first ≤ pairs) }
{
    let mut d = Differing {
        changes: 0,
        first: pairs,
        end: 0,
    };
    for j in (0..pairs).step_by(16) {
        let end = (j + 16).min(pairs);
        d = block_changes(candidate, kept, at, j, end, marks, d);
    }
    d
}

// d, what is found of the pairs, with the word behind them added: the lower half of one more pair.
fn last_change(
    candidate: &[u64],
    kept: &[u32],
    at: usize,
    pairs: usize,
    marks: &mut [u64],
    d: Differing,
) -> Differing
    requires pairs_bound { (pairs ≤ 1024) × (pairs < length candidate.now) × (at + 2 * pairs < length kept.now) × (pairs / 64 < length marks.old) }
    requires found { Found at kept.now candidate.now (2 * pairs) marks.old d × (d.first ≤ pairs) }
    ensures { Found at kept.now candidate.now (2 * pairs + 1) marks.new result }
{
    let old = kept[at + 2 * pairs];
    let new = words::half_word(candidate, 2 * pairs);
    if old == new {
        return d;
    }
    words::set::insert(marks, pairs);
    let changes = d.changes + (words::set::changed(old, new) as usize);
    Differing {
        changes,
        first: d.first,
        end: pairs + 1,
    }
}

// The pairs that differ are marked. `candidate` is the new one's listed words.
pub fn difference(counts: Counts, candidate: &[u64], kept: &[u32], marks: &mut [u64]) -> Differing
    requires { Limited counts × (length candidate.now ≡ words64 counts.atoms) × (used_by counts ≤ length kept.now) × (words64 counts.atoms ≤ 64 * length marks.old) }
    ensures changes_value { (T : Tables) → result.changes ≡ changes (member 64 candidate.now) (of_words (sized counts T) kept.now) }
    ensures marked { Marked counts kept.now candidate.now marks.new }
    ensures between { Between counts kept.now candidate.now result.first result.end }
{
    let at = kept_laws::candidate_at(counts);
    let words = (counts.atoms + 31) / 32;
    let pairs = words / 2;
    let d = all_changes(candidate, kept, at, pairs, marks);
    if words == 2 * pairs {
        return d;
    }
    last_change(candidate, kept, at, pairs, marks, d)
}
