// The tests of a check before 17: 3 by counts, 9, 15, 16.
#![tactic(auto)]

ghost use Rattle.std.specs.Prelude.{◌≡◌, ℕ, ◌≤◌, length};
ghost use Rattle.theory.specs.Limits.{Limited};
ghost use Rattle.kept.specs.SetOf.{words64};
ghost use Rattle.kept.specs.Tables.{Tables};
ghost use Rattle.kept.specs.Tests.{first_short, stray_bit, tests};
ghost use Rattle.kept_laws.specs.Given.{sized};
ghost use Rattle.tests.specs.Lent.{buffers_by, Sizes};

use theory::{Counts, Refusal};

// How long the lent buffers are.
#[derive(Clone, Copy)]
pub struct Lengths {
    pub candidate: usize,
    pub nodes: usize,
    pub operands: usize,
    pub roots: usize,
    pub producers: usize,
    pub readers: usize,
    pub kept: usize,
}

// Refusal 9.
fn short_buffer(counts: Counts, l: Lengths) -> Result<(), Refusal>
    requires { Limited counts }
    ensures { result ≡ first_short (buffers_by counts l) }
{
    if l.candidate < (counts.atoms + 63) / 64 {
        return Err(Refusal::ShortBuffer(0));
    }
    if l.nodes < 3 * counts.nodes {
        return Err(Refusal::ShortBuffer(1));
    }
    if l.operands < counts.operands {
        return Err(Refusal::ShortBuffer(2));
    }
    if l.roots < counts.roots {
        return Err(Refusal::ShortBuffer(3));
    }
    if l.producers < 4 * counts.roots {
        return Err(Refusal::ShortBuffer(4));
    }
    if l.readers < readers::table_words(counts) {
        return Err(Refusal::ShortBuffer(6));
    }
    if l.kept < 16 + 2 * counts.nodes + 3 * counts.atoms + counts.roots {
        return Err(Refusal::ShortBuffer(7));
    }
    Ok(())
}

// Refusal 16. A stray bit stands in the last word; its place is searched only where that word has one.
fn stray_bit(counts: Counts, candidate: &[u64]) -> Result<(), Refusal>
    requires { Limited counts × (words64 counts.atoms ≤ length candidate.now) }
    ensures { (T : Tables) (stamp : ℕ) → result ≡ stray_bit (sized counts T) (record { stamp = stamp; words = candidate.now }) }
{
    if counts.atoms % 64 == 0 {
        return Ok(());
    }
    if candidate[counts.atoms / 64] >> (counts.atoms % 64) == 0 {
        return Ok(());
    }
    let n = (counts.atoms + 63) / 64;
    let i = words::set::next(&candidate[..n], counts.atoms);
    if i < 64 * n {
        return Err(Refusal::StrayBit(i));
    }
    Ok(())
}

// Refusals 3, 9, 15, 16.
pub fn tests(
    counts: Counts,
    plan: u32,
    stamp: u32,
    candidate: &[u64],
    l: Lengths,
) -> Result<(), Refusal>
    requires { l.candidate ≡ length candidate.now }
    ensures { (T : Tables) → Sizes T counts plan l → result ≡ tests T (record { stamp = stamp; words = candidate.now }) l.kept }
{
    theory::limits(counts)?;
    short_buffer(counts, l)?;
    if stamp != counts.stamp {
        return Err(Refusal::ForeignStamp);
    }
    if plan != counts.stamp {
        return Err(Refusal::ForeignStamp);
    }
    stray_bit(counts, candidate)
}
