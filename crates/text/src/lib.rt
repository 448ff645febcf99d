// The lines that the user reads, as bytes in a lent slice. A text is written as far as it fits; each function answers where the text goes on.
#![tactic(auto)]

ghost use Rattle.std.specs.Prelude.{◌≡◌, [], ◌∷◌, ◌++◌, ◌^◌, ◌≤◌, length};
ghost use Rattle.theory.specs.Refusal.{told};
ghost use Rattle.verdict.specs.Told.{verdict_as};
ghost use Rattle.text.specs.Clip.{Put};
ghost use Rattle.text.specs.Decimal.{decimal};
ghost use Rattle.text.specs.Lines.{spaced, theory_line, ranks_line, verdict_text, verdict_line, refused_line, told_of};

use theory::{Counts, Refusal};
use verdict::Verdict;

// A refusal's numbers: two of them, and for 11 the body too.
#[derive(Clone, Copy)]
pub struct Told {
    pub number: usize,
    pub place: usize,
    pub body: Option<usize>,
}

fn put(out: &mut [u8], at: usize, byte: u8) -> usize
    requires { at ≤ 2 ^ 45 }
    ensures { Put out.old at (byte ∷ []) result out.new }
{
    if at < out.len() {
        out[at] = byte;
    }
    at + 1
}

fn put_text(out: &mut [u8], at: usize, text: &[u8]) -> usize
    requires { (at ≤ 2 ^ 44) × (length text.now ≤ 1024) }
    ensures { Put out.old at text.now result out.new }
{
    let mut end = at;
    for byte in text {
        end = put(out, end, *byte);
    }
    end
}

// In decimal.
pub fn put_number(out: &mut [u8], at: usize, n: usize) -> usize
    requires { at ≤ 2 ^ 44 }
    ensures { Put out.old at (decimal n) result out.new }
{
    if n < 10 {
        return put(out, at, (48 + n) as u8);
    }
    let end = put_number(out, at, n / 10);
    put(out, end, (48 + n % 10) as u8)
}

// A space and the number.
fn put_field(out: &mut [u8], at: usize, n: usize) -> usize
    requires { at ≤ 2 ^ 43 }
    ensures { Put out.old at (spaced (n ∷ [])) result out.new }
{
    let end = put(out, at, 32);
    put_number(out, end, n)
}

// The label and a field.
fn put_labelled(out: &mut [u8], at: usize, label: &[u8], n: usize) -> usize
    requires { (at ≤ 2 ^ 42) × (length label.now ≤ 1024) }
    ensures { Put out.old at (label.now ++ spaced (n ∷ [])) result out.new }
{
    let end = put_text(out, at, label);
    put_field(out, end, n)
}

// The first line: the stamp, three counts and the number of producers.
pub fn theory_line(out: &mut [u8], at: usize, counts: Counts, producers: usize) -> usize
    requires { at ≤ 2 ^ 40 }
    ensures { Put out.old at (theory_line counts producers) result out.new }
{
    let mut end = put_labelled(out, at, b"th", counts.stamp as usize);
    end = put_labelled(out, end, b" atoms", counts.atoms);
    end = put_labelled(out, end, b" nodes", counts.nodes);
    end = put_labelled(out, end, b" roots", counts.roots);
    end = put_labelled(out, end, b" producers", producers);
    put(out, end, 10)
}

// A field for each word.
fn put_words(out: &mut [u8], at: usize, words: &[u32]) -> usize
    requires { (at ≤ 2 ^ 42) × (length words.now ≤ 65536) }
    ensures { Put out.old at (spaced words.now) result out.new }
{
    let mut end = at;
    for word in words {
        end = put_field(out, end, *word as usize);
    }
    end
}

pub fn ranks_line(out: &mut [u8], at: usize, ranks: &[u32]) -> usize
    requires { (at ≤ 2 ^ 40) × (length ranks.now ≤ 65536) }
    ensures { Put out.old at (ranks_line ranks.now) result out.new }
{
    let mut end = put_text(out, at, b"ranks");
    end = put_words(out, end, ranks);
    put(out, end, 10)
}

fn put_verdict(out: &mut [u8], at: usize, v: Verdict) -> usize
    requires { at ≤ 2 ^ 41 }
    ensures { Put out.old at (verdict_text (verdict_as v)) result out.new }
{
    match v {
        Verdict::NotModel(root) => put_labelled(out, at, b" notmodel", root),
        Verdict::Residual(atom) => put_labelled(out, at, b" residual", atom),
        Verdict::Stable => put_text(out, at, b" stable -"),
    }
}

// Candidate number i, its verdict and the nodes gone over.
pub fn verdict_line(out: &mut [u8], at: usize, i: usize, v: Verdict, n: usize) -> usize
    requires { at ≤ 2 ^ 40 }
    ensures { Put out.old at (verdict_line i (verdict_as v) n) result out.new }
{
    let mut end = put_number(out, at, i);
    end = put_verdict(out, end, v);
    let last = put_field(out, end, n);
    put(out, last, 10)
}

fn two(number: usize, place: usize) -> Told
    ensures { told_of result ≡ number ∷ place ∷ [] }
{
    Told {
        number,
        place,
        body: None,
    }
}

// The numbers of a refusal.
pub fn numbers_of(r: Refusal) -> Told
    ensures { told_of result ≡ told r }
{
    match r {
        Refusal::BadKind(place) => two(1, place),
        Refusal::CutRecord(place) => two(2, place),
        Refusal::PastLimit(place) => two(3, place),
        Refusal::BadAtom(place) => two(4, place),
        Refusal::BadOperand(place) => two(5, place),
        Refusal::NoOperands(place) => two(6, place),
        Refusal::BadRoot(place) => two(7, place),
        Refusal::NotRising(place) => two(8, place),
        Refusal::ShortBuffer(buffer) => two(9, buffer),
        Refusal::UnsupportedRoot(root) => two(10, root),
        Refusal::UnsupportedBody(root, body) => Told {
            number: 11,
            place: root,
            body: Some(body),
        },
        Refusal::PositiveCycle(atom) => two(12, atom),
        Refusal::RankShape => two(13, 0),
        Refusal::RankOrder(head) => two(14, head),
        Refusal::ForeignStamp => two(15, 0),
        Refusal::StrayBit(bit) => two(16, bit),
        Refusal::BadEntry(node) => two(17, node),
    }
}

fn put_told(out: &mut [u8], at: usize, t: Told) -> usize
    requires { at ≤ 2 ^ 42 }
    ensures { Put out.old at (spaced (told_of t)) result out.new }
{
    let mut end = put_field(out, at, t.number);
    end = put_field(out, end, t.place);
    match t.body {
        Some(body) => put_field(out, end, body),
        None => end,
    }
}

pub fn refused_line(out: &mut [u8], at: usize, r: Refusal) -> usize
    requires { at ≤ 2 ^ 40 }
    ensures { Put out.old at (refused_line r) result out.new }
{
    let mut end = put_text(out, at, b"refused");
    end = put_told(out, end, numbers_of(r));
    put(out, end, 10)
}
