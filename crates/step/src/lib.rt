// One step of a kept check: the lowest node of the worklist gets its truth, and its readers are told if that changed.
#![tactic(auto)]

ghost use Rattle.std.specs.Prelude.{◌≡◌, ◌+◌, ◌*◌, ◌<◌, ◌≤◌, length, get_or};
ghost use Rattle.theory.specs.Limits.{Limited};
ghost use Rattle.readers.specs.Reader.{reading_of};
ghost use Rattle.readers.specs.ReaderTable.{reader_words};
ghost use Rattle.kept.specs.Tables.{Tables};
ghost use Rattle.kept.specs.Layout.{of_words};
ghost use Rattle.kept.specs.Step.{reader_updated, readers_updated, step};
ghost use Rattle.kept_laws.specs.Given.{used_by, produced, told, walked};
ghost use Rattle.kept_laws.specs.Wrote.{Wrote};
ghost use Rattle.step.specs.Steps.{Lent, settled_to, taken_from, Steps};

use kept_laws::OutOfRange;
use readers::Reader;
use theory::{Counts, Refusal};

// A reader of node k, which has become true or false, is told. A word below the number of nodes is that node as a reader, the most frequent one.
fn update_reader(
    counts: Counts,
    made: usize,
    producers: &[u32],
    kept: &mut [u32],
    k: usize,
    holds: bool,
    word: u64,
) -> Result<(), OutOfRange>
    requires { Limited counts × (made ≤ counts.roots) × (4 * counts.roots ≤ length producers.now) × (used_by counts ≤ length kept.old) }
    ensures { (T : Tables) → Wrote (produced counts made producers.now T) kept.old (reader_updated (produced counts made producers.now T) k holds (of_words (produced counts made producers.now T) kept.old) (reading_of word)) result kept.new }
{
    if word < counts.nodes as u64 {
        let m = word as usize;
        if m <= k {
            return Err(OutOfRange);
        }
        return retained::queue(counts, kept, m);
    }
    let p = Reader(word).producer_index() as usize;
    if p < made {
        let a = words::word(producers, 4 * p);
        if a >= counts.atoms {
            return Err(OutOfRange);
        }
        return retained::support(counts, made, kept, a, holds);
    }
    let r = Reader(word).root_index() as usize;
    if r >= counts.roots {
        return Err(OutOfRange);
    }
    retained::root(counts, kept, r, holds)
}

// Each of the readers listed, one after the other.
fn update_readers(
    counts: Counts,
    made: usize,
    producers: &[u32],
    list: &[u64],
    kept: &mut [u32],
    k: usize,
    holds: bool,
) -> Result<(), OutOfRange>
    requires { Limited counts × (made ≤ counts.roots) × (4 * counts.roots ≤ length producers.now) × (used_by counts ≤ length kept.old) }
    ensures { (T : Tables) → Wrote (produced counts made producers.now T) kept.old (readers_updated (produced counts made producers.now T) k holds (of_words (produced counts made producers.now T) kept.old) list.now) result kept.new }
{
    for word in list {
        update_reader(counts, made, producers, kept, k, holds, *word)?;
    }
    Ok(())
}

// Node k, off the worklist, gets its truth; `from` is where its list of readers starts.
fn settle(
    counts: Counts,
    made: usize,
    producers: &[u32],
    readers: &[u64],
    kept: &mut [u32],
    k: usize,
    from: usize,
    holds: bool,
) -> Result<(), OutOfRange>
    requires { Limited counts × (made ≤ counts.roots) × (4 * counts.roots ≤ length producers.now) × (reader_words counts ≤ length readers.now) × (used_by counts ≤ length kept.old) × (k < counts.nodes) × (from ≡ get_or readers.now k 0) }
    ensures { (T : Tables) → Wrote (told counts made producers.now readers.now T) kept.old (settled_to (told counts made producers.now readers.now T) k holds (of_words (told counts made producers.now readers.now T) kept.old)) result kept.new }
{
    if node_truth::holds(kept, k) == holds {
        return Ok(());
    }
    if !readers::in_order_from(readers, readers::table_words(counts), k, from) {
        return Err(OutOfRange);
    }
    let list = readers::list_from(readers, k, from);
    kept[8 + k] = u32::from(holds);
    update_readers(counts, made, producers, list, kept, k, holds)
}

// Node k, the first of the worklist, leaves it and gets its truth.
fn take(
    counts: Counts,
    made: usize,
    producers: &[u32],
    readers: &[u64],
    kept: &mut [u32],
    k: usize,
    from: usize,
    holds: bool,
) -> Result<Option<usize>, Refusal>
    requires { Limited counts × (made ≤ counts.roots) × (4 * counts.roots ≤ length producers.now) × (reader_words counts ≤ length readers.now) × (used_by counts ≤ length kept.old) × (k < counts.nodes) × (get_or kept.old 5 0 ≡ k) × (from ≡ get_or readers.now k 0) }
    ensures { (T : Tables) → Steps (told counts made producers.now readers.now T) kept.old (taken_from (told counts made producers.now readers.now T) k holds (of_words (told counts made producers.now readers.now T) kept.old)) result kept.new }
{
    retained::dequeue(counts, kept, k)?;
    match settle(counts, made, producers, readers, kept, k, from, holds) {
        Ok(()) => Ok(Some(k)),
        Err(_) => Err(Refusal::BadEntry(k)),
    }
}

// One step: the first node of the worklist, if there is one; or refusal 17.
pub fn step(
    counts: Counts,
    made: usize,
    nodes: &[u32],
    operands: &[u32],
    producers: &[u32],
    readers: &[u64],
    kept: &mut [u32],
) -> Result<Option<usize>, Refusal>
    requires { Lent counts made (length nodes.now) (length operands.now) (length producers.now) (length readers.now) (length kept.old) }
    ensures { (T : Tables) → Steps (walked counts made nodes.now operands.now producers.now readers.now T) kept.old (step (walked counts made nodes.now operands.now producers.now readers.now T) (of_words (walked counts made nodes.now operands.now producers.now readers.now T) kept.old)) result kept.new }
{
    let k = words::word(kept, 5);
    if k >= counts.nodes {
        if k == counts.nodes {
            return Ok(None);
        }
        return Err(Refusal::BadEntry(0));
    }
    // where its readers are listed, read before its truth: the truth takes longer to see
    let from = words::word(readers, k);
    let seen = node_truth::node_truth(counts, nodes, operands, kept, k);
    let Some(holds) = seen else {
        return Err(Refusal::BadEntry(k));
    };
    take(counts, made, producers, readers, kept, k, from, holds)
}
