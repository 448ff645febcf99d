// Where the sections of a kept evaluation begin in its words, and a change that an entry out of its table stops; beside it, without code, what the loops of a check keep and what holds of a check on any words.
#![tactic(auto)]

ghost use Rattle.std.specs.Prelude.{◌≡◌};
ghost use Rattle.theory.specs.Limits.{Limited};
ghost use Rattle.kept_laws.specs.Given.{support_at, candidate_at, missing_at, false_roots_at, groups_at};
ghost use Rattle.theory.specs.declared.Refusal.TheVariants.{BadEntry};

use theory::{Counts, Refusal};

// A count or an entry that was met is out of its range: refusal 17, whose place the caller knows.
#[derive(Clone, Copy)]
pub struct OutOfRange;

// Where no node is being read, the place is 0.
impl From<OutOfRange> for Refusal {
    ghost from_gives = { λ _ r. r ≡ BadEntry 0 };

    fn from(_met: OutOfRange) -> Refusal {
        Refusal::BadEntry(0)
    }
}

pub fn support_at(counts: Counts) -> usize
    requires { Limited counts }
    ensures { result ≡ support_at counts }
{
    8 + counts.nodes + (counts.nodes + 31) / 32
}

pub fn candidate_at(counts: Counts) -> usize
    requires { Limited counts }
    ensures { result ≡ candidate_at counts }
{
    support_at(counts) + counts.atoms
}

pub fn missing_at(counts: Counts) -> usize
    requires { Limited counts }
    ensures { result ≡ missing_at counts }
{
    candidate_at(counts) + (counts.atoms + 31) / 32
}

pub fn false_roots_at(counts: Counts) -> usize
    requires { Limited counts }
    ensures { result ≡ false_roots_at counts }
{
    missing_at(counts) + (counts.atoms + 31) / 32
}

pub fn groups_at(counts: Counts) -> usize
    requires { Limited counts }
    ensures { result ≡ groups_at counts }
{
    false_roots_at(counts) + (counts.roots + 31) / 32
}
