// The start of a kept check: the new candidate with its missing atoms, and the atom nodes of changed atoms on the worklist (the second pass of `update` in tight/evaluate.rs).
#![tactic(auto)]

ghost use Rattle.std.specs.Prelude.{◌≡◌, true, ℕ, ◌+◌, ◌*◌, ◌<◌, ◌≤◌, length};
ghost use Rattle.base.specs.Places.{places};
ghost use Rattle.formula.specs.Satisfaction.{Interpretation};
ghost use Rattle.formula.specs.Passes.{Within};
ghost use Rattle.theory.specs.Limits.{Limited};
ghost use Rattle.words.specs.Bit.{bit};
ghost use Rattle.words.specs.Changed.{unlike};
ghost use Rattle.words.specs.Sets.{member};
ghost use Rattle.readers.specs.ReaderTable.{reader_words};
ghost use Rattle.kept.specs.SetOf.{words64};
ghost use Rattle.kept.specs.Tables.{Tables};
ghost use Rattle.kept.specs.Evaluation.{present};
ghost use Rattle.kept.specs.Layout.{of_words};
ghost use Rattle.kept.specs.Start.{all_entered, walk_start};
ghost use Rattle.kept_laws.specs.Given.{used_by, sized, listed};
ghost use Rattle.kept_laws.specs.StartChanged.{all_turned};
ghost use Rattle.kept_laws.specs.Wrote.{Wrote};
ghost use Rattle.difference.specs.Marks.{Marked, Between};
ghost use Rattle.start.specs.Moved.{atom_moved, pair_laid};

use kept_laws::OutOfRange;
use theory::Counts;

// The nodes listed onto the worklist; Err is refusal 17, here and below.
fn enter_all(counts: Counts, list: &[u64], kept: &mut [u32]) -> Result<(), OutOfRange>
    requires { Limited counts × (used_by counts ≤ length kept.old) }
    ensures { (T : Tables) → Wrote (sized counts T) kept.old (all_entered (sized counts T) (of_words (sized counts T) kept.old) list.now) result kept.new }
{
    for word in list {
        let m = *word as usize;
        if m >= counts.nodes {
            return Err(OutOfRange);
        }
        retained::queue(counts, kept, m)?;
    }
    Ok(())
}

// Atom a becomes missing or not, and its atom nodes go onto the worklist; the candidate has it already.
fn turn_atom(
    counts: Counts,
    readers: &[u64],
    kept: &mut [u32],
    a: usize,
    x: bool,
) -> Result<(), OutOfRange>
    requires { Limited counts × (reader_words counts ≤ length readers.now) × (used_by counts ≤ length kept.old) × (a < counts.atoms) }
    ensures { (T : Tables) (J : Interpretation) → J a ≡ x → Wrote (listed counts readers.now T) kept.old (atom_moved (listed counts readers.now T) J a (of_words (listed counts readers.now T) kept.old)) result kept.new }
{
    retained::presence(counts, kept, a, x)?;
    let listed = readers::table_words(counts);
    if !readers::in_order(readers, listed, counts.nodes + 1 + a) {
        return Err(OutOfRange);
    }
    enter_all(
        counts,
        readers::atom_nodes_of(readers, counts.nodes, a),
        kept,
    )
}

// Words 2 j and 2 j + 1 of the kept candidate as one; behind its last word stands none.
fn old_pair(counts: Counts, kept: &[u32], j: usize) -> u64
    requires { Limited counts × (used_by counts ≤ length kept.now) × (j < words64 counts.atoms) }
    ensures { (T : Tables) (k : ℕ) → k < 64 → present (of_words (sized counts T) kept.now) (j * 64 + k) ≡ bit result k }
{
    let at = kept_laws::candidate_at(counts) + 2 * j;
    if 64 * j + 32 < counts.atoms {
        return difference::pair(kept, at);
    }
    kept[at] as u64
}

// The words of pair j in the kept candidate become those of `new`.
fn lay_pair(counts: Counts, kept: &mut [u32], j: usize, new: u64)
    requires { Limited counts × (used_by counts ≤ length kept.old) × (j < words64 counts.atoms) }
    ensures { kept.new ≡ pair_laid counts j new kept.old }
{
    let at = kept_laws::candidate_at(counts) + 2 * j;
    kept[at] = (new % 0x1_0000_0000) as u32;
    if counts.atoms > 64 * j + 32 {
        kept[at + 1] = (new >> 32) as u32;
    }
}

// The atoms of words 2 j and 2 j + 1, taken as one, become as `new` has them, the candidate first: one loop for both, as one of the two often has no change.
fn turn_pair(
    counts: Counts,
    readers: &[u64],
    kept: &mut [u32],
    j: usize,
    new: u64,
) -> Result<(), OutOfRange>
    requires limited { Limited counts × (reader_words counts ≤ length readers.now) × (used_by counts ≤ length kept.old) × (j < words64 counts.atoms) }
    requires k_bound { (T : Tables) (k : ℕ) → k < 64 → unlike (present (of_words (listed counts readers.now T) kept.old) (j * 64 + k)) (bit new k) ≡ true → j * 64 + k < counts.atoms }
    ensures { (T : Tables) (J : Interpretation) → ((k : ℕ) → k < 64 → J (j * 64 + k) ≡ bit new k) → Wrote (listed counts readers.now T) kept.old (all_turned (listed counts readers.now T) J (places (λ a. unlike (present (of_words (listed counts readers.now T) kept.old) a) (J a)) (j * 64) 64) (of_words (listed counts readers.now T) kept.old)) result kept.new }
{
    let mut x = old_pair(counts, kept, j) ^ new;
    lay_pair(counts, kept, j, new);
    // each turn takes the lowest place off x, until none is left
    loop {
        let k = words::bits(x, 0);
        if k == 64 {
            return Ok(());
        }
        let a = j * 64 + k as usize;
        turn_atom(counts, readers, kept, a, (new >> k) % 2 == 1)?;
        x = x & (x - 1);
    }
}

// The new candidate, and the atom nodes of changed atoms on the worklist; `candidate` is its listed words, `marks` the pairs of u32 words that may differ; those before `first` and from `end` on do not.
pub fn start(
    counts: Counts,
    candidate: &[u64],
    readers: &[u64],
    kept: &mut [u32],
    marks: &[u64],
    first: usize,
    end: usize,
) -> Result<(), OutOfRange>
    requires limited { Limited counts × (length candidate.now ≡ words64 counts.atoms) × (reader_words counts ≤ length readers.now) × (used_by counts ≤ length kept.old) × Marked counts kept.old candidate.now marks.now × (words64 counts.atoms ≤ 64 * length marks.now) × (length marks.now ≤ 16) }
    requires within { Within counts.atoms (member 64 candidate.now) × ((T : Tables) → Within counts.atoms (present (of_words (sized counts T) kept.old))) }
    requires between { Between counts kept.old candidate.now first end }
    ensures { (T : Tables) → Wrote (listed counts readers.now T) kept.old (walk_start (listed counts readers.now T) (member 64 candidate.now) counts.atoms (of_words (listed counts readers.now T) kept.old)) result kept.new }
{
    // from one marked pair to the next
    let mut j = first;
    while j < end {
        turn_pair(counts, readers, kept, j, candidate[j])?;
        if j + 1 == end {
            return Ok(());
        }
        j = words::set::next(marks, j + 1);
    }
    Ok(())
}
