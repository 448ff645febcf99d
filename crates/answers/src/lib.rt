// The answer of a public call as one u64, for a host: host/tight.h names the fields.
#![tactic(auto)]

ghost use Rattle.std.specs.Prelude.{◌≡◌, ◌<◌};
ghost use Rattle.kept.specs.Outcome.{accepted};
ghost use Rattle.verdict.specs.Told.{verdict_as};
ghost use Rattle.update.specs.Results.{answer_of};
ghost use Rattle.answers.specs.Word.{word, refusal_word, planning_word, check_word};
ghost use Rattle.answers.specs.Fits.{RefusalFits, PlanningFits, AnswerFits};

use theory::Refusal;
use update::Accepted;
use verdict::Verdict;

// Three fields of 8, 32 and 24 bits.
fn pack(number: usize, place: usize, body: usize) -> u64
    requires { (number < 256) × (place < 4294967296) × (body < 16777216) }
    ensures { result ≡ word number place body }
{
    ((body * 4294967296 + place) * 256 + number) as u64
}

// A refusal's number, its place and, for 11, its body.
fn pack_refusal(r: Refusal) -> u64
    requires { RefusalFits r }
    ensures { result ≡ refusal_word r }
{
    let told = text::numbers_of(r);
    match told.body {
        Some(body) => pack(told.number, told.place, body),
        None => pack(told.number, told.place, 0),
    }
}

// Of a planning call: the number of producers, or the refusal.
pub fn pack_planning(planning: Result<usize, Refusal>) -> u64
    requires { PlanningFits planning }
    ensures { result ≡ planning_word planning }
{
    match planning {
        Ok(p) => pack(0, p, 0),
        Err(r) => pack_refusal(r),
    }
}

// A verdict after n nodes.
fn pack_verdict(v: Verdict, n: usize) -> u64
    requires { AnswerFits (accepted (verdict_as v) n) }
    ensures { result ≡ check_word (accepted (verdict_as v) n) }
{
    match v {
        Verdict::Stable => pack(0, 0, n),
        Verdict::NotModel(root) => pack(0, root * 256 + 1, n),
        Verdict::Residual(atom) => pack(0, atom * 256 + 2, n),
    }
}

// Of a check: the verdict, what it names and the nodes visited, or the refusal.
pub fn pack_checked(checked: Result<Accepted, Refusal>) -> u64
    requires { AnswerFits (answer_of checked) }
    ensures { result ≡ check_word (answer_of checked) }
{
    match checked {
        Ok(a) => pack_verdict(a.verdict, a.visited),
        Err(r) => pack_refusal(r),
    }
}
