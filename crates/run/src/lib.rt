// A run: a file's bytes become the text that the user reads, on the run's own zeroed tables for 512 atoms, 1,024 nodes, 1,024 operand entries and 512 roots.
#![tactic(auto)]

ghost use Rattle.std.specs.Prelude.{◌≡◌, ◌+◌, ◌^◌, ◌<◌, ◌≤◌, length, take, drop, replicate, ◌++◌};
ghost use Rattle.record.specs.File.{theory_file, verdict};
ghost use Rattle.record.specs.Layout.{values_of, record_end};
ghost use Rattle.load.specs.Candidate.{CandidateAt};
ghost use Rattle.text.specs.Clip.{Put};
ghost use Rattle.text.specs.Lines.{theory_line, ranks_line};
ghost use Rattle.kept.specs.Outcome.{outcome};
ghost use Rattle.update.specs.Results.{answer_of};
ghost use Rattle.evaluate.specs.Checks.{tables_of};
ghost use Rattle.run.specs.Text.{candidate_of, check_line, check_lines, own_plan, planned_text, sound_text, text_of, candidates_in};
ghost use Rattle.run.specs.Run.{run_of, running};

use evaluate::Plan;
use record::{Mark, Summary};
use theory::{Counts, Refusal};
use update::Accepted;

// Where the next candidate stands in the file, and where the text goes on.
#[derive(Clone, Copy)]
pub struct Next {
    pub place: usize,
    pub at: usize,
}

// The line of a check.
fn put_checked(out: &mut [u8], at: usize, i: usize, checked: Result<Accepted, Refusal>) -> usize
    requires { at ≤ 2 ^ 40 }
    ensures { Put out.old at (check_line i (answer_of checked)) result out.new }
{
    match checked {
        Ok(a) => text::verdict_line(out, at, i, a.verdict, a.visited),
        Err(r) => text::refused_line(out, at, r),
    }
}

// Candidate number i, which stands at `place`, checked.
fn check_line(
    file: &[u8],
    place: usize,
    i: usize,
    counts: Counts,
    plan: Plan,
    nodes: &[u32],
    operands: &[u32],
    roots: &[u32],
    producers: &[u32],
    readers: &[u64],
    words: &mut [u64],
    kept: &mut [u32],
    out: &mut [u8],
    at: usize,
) -> Next
    requires { CandidateAt file.now counts.atoms place × (counts.atoms ≤ 512) × (8 ≤ length words.old) × (at ≤ 2 ^ 40) }
    ensures { (result.place ≡ record_end file.now place Mark.Candidate) × Put out.old at (check_line i (outcome 64 8 (tables_of counts plan nodes.now operands.now roots.now producers.now readers.now) (candidate_of (tables_of counts plan nodes.now operands.now roots.now producers.now readers.now) (values_of file.now place Mark.Candidate)) kept.old).answer) result.at out.new × (kept.new ≡ (outcome 64 8 (tables_of counts plan nodes.now operands.now roots.now producers.now readers.now) (candidate_of (tables_of counts plan nodes.now operands.now roots.now producers.now readers.now) (values_of file.now place Mark.Candidate)) kept.old).words) }
{
    let next = load::candidate(file, place, counts.atoms, words);
    let n = (counts.atoms + 63) / 64;
    let checked = evaluate::check(
        counts,
        plan,
        counts.stamp,
        &words[..n],
        nodes,
        operands,
        roots,
        producers,
        readers,
        kept,
    );
    Next {
        place: next,
        at: put_checked(out, at, i, checked),
    }
}

// A line for each candidate, one kept evaluation carried through.
fn check_lines(
    file: &[u8],
    s: Summary,
    plan: Plan,
    nodes: &[u32],
    operands: &[u32],
    roots: &[u32],
    producers: &[u32],
    readers: &[u64],
    out: &mut [u8],
    at: usize,
) -> usize
    requires { (verdict (theory_file file.now) ≡ Ok s) × (s.counts.atoms ≤ 512) × (length file.now ≤ 65536) × (at ≤ 2 ^ 39) }
    ensures { Put out.old at (check_lines (tables_of s.counts plan nodes.now operands.now roots.now producers.now readers.now) 0 (candidates_in file.now) (replicate 4112 0)) result out.new }
{
    let mut words = [0u64; 8];
    let mut kept = [0u32; 4112];
    let mut place = s.first;
    let mut end = at;
    for i in 0..s.candidates {
        let next = check_line(
            file, place, i, s.counts, plan, nodes, operands, roots, producers, readers, &mut words,
            &mut kept, out, end,
        );
        place = next.place;
        end = next.at;
    }
    end
}

// The loaded tables planned, then the lines.
fn plan_lines(
    file: &[u8],
    s: Summary,
    nodes: &[u32],
    operands: &[u32],
    roots: &[u32],
    out: &mut [u8],
) -> usize
    requires { (verdict (theory_file file.now) ≡ Ok s) × (s.counts.atoms ≤ 512) × (length file.now ≤ 65536) }
    ensures { Put out.old 0 (planned_text s.counts nodes.now operands.now roots.now (candidates_in file.now) (own_plan s.counts nodes.now operands.now roots.now)) result out.new }
{
    let mut producers = [0u32; 2048];
    let mut ranks = [0u32; 512];
    let mut readers = [0u64; 6658];
    let mut work = [0u32; 15376];
    let planning = plan::plan(
        s.counts,
        nodes,
        operands,
        roots,
        &mut producers,
        &mut ranks,
        &mut readers,
        &mut work,
    );
    match planning {
        Err(r) => text::refused_line(out, 0, r),
        Ok(p) => {
            let plan = Plan {
                stamp: s.counts.stamp,
                producers: p,
            };
            let end = head_lines(out, s.counts, p, &ranks);
            check_lines(
                file, s, plan, nodes, operands, roots, &producers, &readers, out, end,
            )
        }
    }
}

// The first two lines.
fn head_lines(out: &mut [u8], counts: Counts, p: usize, ranks: &[u32]) -> usize
    requires { (counts.atoms ≤ 512) × (counts.atoms ≤ length ranks.now) }
    ensures { Put out.old 0 (theory_line counts p ++ ranks_line (take counts.atoms ranks.now)) result out.new }
{
    let end = text::theory_line(out, 0, counts, p);
    let n = counts.atoms;
    text::ranks_line(out, end, &ranks[..n])
}

// A sound file: 9 by the run's own tables, or else loaded.
fn sound_lines(file: &[u8], s: Summary, out: &mut [u8]) -> usize
    requires { (verdict (theory_file file.now) ≡ Ok s) × (length file.now ≤ 65536) }
    ensures { Put out.old 0 (sound_text s (theory_file file.now)) result out.new }
{
    if s.counts.atoms > 512 {
        return text::refused_line(out, 0, Refusal::ShortBuffer(0));
    }
    let mut nodes = [0u32; 3072];
    let mut operands = [0u32; 1024];
    let mut roots = [0u32; 512];
    match load::load_sound(file, s, &mut nodes, &mut operands, &mut roots) {
        Err(r) => text::refused_line(out, 0, r),
        Ok(_) => plan_lines(file, s, &nodes, &operands, &roots, out),
    }
}

// The text of the file, as much of it as fits; answers how long it is.
fn lines(file: &[u8], out: &mut [u8]) -> usize
    ensures { Put out.old 0 (text_of file.now) result out.new }
{
    if file.len() > 65536 {
        return text::refused_line(out, 0, Refusal::PastLimit(65536));
    }
    match record::judge(file) {
        Err(r) => text::refused_line(out, 0, r),
        Ok(s) => sound_lines(file, s, out),
    }
}

// The text of the file at the front of the output, and its length; 0 and the output unaltered if it does not fit: a number, since the C function `tight_run` answers the same.
pub fn run(file: &[u8], out: &mut [u8]) -> usize
    ensures { running result out.new ≡ run_of file.now out.old }
{
    // A text that fits here is made once and copied; a longer one is only counted here, and made again in the output.
    let mut text = [0u8; 16384];
    let n = lines(file, &mut text);
    if n > out.len() {
        return 0;
    }
    if n <= 16384 {
        out[..n].copy_from_slice(&text[..n]);
        return n;
    }
    lines(file, out)
}
