// Sets of numbers in words of one width.
ghost use Rattle.std.specs.Prelude.{◌≡◌, true, not, ℕ, ◌+◌, ◌*◌, ◌/◌, ◌^◌, ◌<◌, ◌≤◌, length, get_or, eqb, MatchOption};
ghost use Rattle.words.specs.Bit.{bit};
ghost use Rattle.words.specs.Sets.{inserted};
ghost use Rattle.words.specs.Changed.{changed};
ghost use Rattle.words.specs.Next.{next};
ghost use Rattle.words.specs.Block.{AllZero};

use crate::width::Word;

// i becomes a member.
pub fn insert(words: &mut [u64], i: usize)
    requires { i / 64 < length words.old }
    ensures { words.new ≡ inserted 64 words.old i }
{
    let q = i / 64;
    words[q] = words[q] | (1u64 << (i % 64));
}

// At how many places the words differ.
pub fn changed<W: Word>(old: W, new: W) -> u32
    ensures { result ≡ changed W.BITS (W.number old) (W.number new) }
{
    (old.wide() ^ new.wide()).count_ones()
}

// The lowest member from `from` on, or the words' width times their number if there is none: a number, as the definition `next` has it, since callers compare it with a bound of their own.
pub fn next<W: Word>(words: &[W], from: usize) -> usize
    requires from_bound { from ≤ W.BITS * length words.now }
    requires words_bound { W.BITS * length words.now < 2 ^ 64 }
    ensures { result ≡ next W.BITS (W.numbers words.now) from }
{
    let q = from / W::BITS;
    if words.len() <= q {
        return from;
    }
    let rest = words[q].rest(from % W::BITS);
    if rest == 0 {
        return next_word(words, q + 1);
    }
    from + W::lowest(rest) as usize
}

// The same from the start of word `first` on. What stands near is found word by word, by loads as wide as the stores just made there;
// what stands farther, block by block. A function of its own, so that `next` is short enough to be laid into its callers.
#[inline(never)]
pub fn next_word<W: Word>(words: &[W], first: usize) -> usize
    requires first_in_bounds { first ≤ length words.now }
    requires words_bound { W.BITS * length words.now < 2 ^ 64 }
    ensures { result ≡ next W.BITS (W.numbers words.now) (W.BITS * first) }
{
    let near = words.len().min(first + 8);
    if let Some(i) = within(words, first, near) {
        return i;
    }
    next_far(words, near)
}

// The same, whole blocks of 32 words first.
fn next_far<W: Word>(words: &[W], first: usize) -> usize
    requires first_in_bounds { first ≤ length words.now }
    requires words_bound { W.BITS * length words.now < 2 ^ 64 }
    ensures { result ≡ next W.BITS (W.numbers words.now) (W.BITS * first) }
{
    let blocks = (words.len() - first) / 32;
    for k in 0..blocks {
        let q = first + 32 * k;
        if !block_empty(words, q) {
            let i = q + nonzeros(words, q).trailing_zeros() as usize;
            return W::BITS * i + W::lowest(words[i].wide()) as usize;
        }
    }
    within(words, first + 32 * blocks, words.len()).unwrap_or(W::BITS * words.len())
}

// The same in the words from `first` up to `end`, if there is one.
fn within<W: Word>(words: &[W], first: usize, end: usize) -> Option<usize>
    requires first_to_end { first ≤ end }
    requires end_in_bounds { end ≤ length words.now }
    requires words_bound { W.BITS * length words.now < 2 ^ 64 }
    ensures { MatchOption result (next W.BITS (W.numbers words.now) (W.BITS * first) ≡ next W.BITS (W.numbers words.now) (W.BITS * end)) (λ i. i ≡ next W.BITS (W.numbers words.now) (W.BITS * first)) }
{
    for q in first..end {
        let x = words[q].wide();
        if x != 0 {
            return Some(W::BITS * q + W::lowest(x) as usize);
        }
    }
    None
}

// Whether the 32 words from `first` on are all 0. Each is read, so that the compiler makes one wide `or` of the loop.
fn block_empty<W: Word>(words: &[W], first: usize) -> bool
    requires { first + 32 ≤ length words.now }
    ensures { (result ≡ true → AllZero (W.numbers words.now) first (first + 32)) × (AllZero (W.numbers words.now) first (first + 32) → result ≡ true) }
{
    let mut x = 0;
    for word in &words[first..first + 32] {
        x |= word.wide();
    }
    x == 0
}

// Which of the 32 words from `first` on are not 0, in a loop of 32 rounds for the same reason.
pub fn nonzeros<W: Word>(words: &[W], first: usize) -> u32
    requires { first + 32 ≤ length words.now }
    ensures { (k : ℕ) → k < 32 → bit result k ≡ not (eqb (get_or (W.numbers words.now) (first + k) 0) 0) }
{
    let mut x = 0u32;
    for k in 0..32 {
        if words[first + k].wide() != 0 {
            x |= 1u32 << k;
        }
    }
    x
}
