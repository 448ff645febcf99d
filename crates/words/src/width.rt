// What words of 32 and of 64 bits have in common.
ghost use Rattle.std.specs.Prelude.{◌≡◌, ℕ, ◌/◌, ◌^◌, ◌<◌, List};
ghost use Rattle.std.proofs.Common.{lit≤};
ghost use Rattle.std.specs.Int.Count.{count_trailing_zeros};
ghost use Rattle.words.specs.WordLaws.{WordLaws, plain};

pub trait Word: Copy {
    // A word's width.
    ghost BITS: { ℕ };

    // The number that a word is, and those that the words of a list are.
    ghost number: { Self → ℕ };

    ghost numbers: { List Self → List ℕ };

    const BITS: usize;

    // The word as a number of 64 bits.
    fn wide(self) -> u64
        ensures value { result ≡ number self }
        ensures fits { result < 2 ^ BITS };

    // The word without its k lowest digits, by a shift as wide as the word.
    fn rest(self, k: usize) -> u64
        requires { k < BITS }
        ensures value { result ≡ number self / 2 ^ k }
        ensures fits { number self < 2 ^ BITS };

    // The lowest set place of what a word is, or is without its lowest digits.
    fn lowest(rest: u64) -> u32
        requires fits { rest < 2 ^ BITS }
        requires some { rest ≡ 0 → ⊥ }
        ensures { result ≡ count_trailing_zeros 64 rest };

    ghost laws: { WordLaws BITS number numbers };
}

impl Word for u32 {
    ghost BITS = { 32 };

    ghost number = { λ x. x };

    ghost numbers = { λ ws. ws };

    ghost laws = { plain 32 (lit≤ tt) (lit≤ tt) };

    const BITS: usize = 32;

    fn wide(self) -> u64 {
        self as u64
    }

    fn rest(self, k: usize) -> u64 {
        (self >> k) as u64
    }

    // By its own width's trailing zeros: the worklist's search has other code with the leaf `bits`.
    fn lowest(rest: u64) -> u32 {
        (rest as u32).trailing_zeros()
    }
}

impl Word for u64 {
    ghost BITS = { 64 };

    ghost number = { λ x. x };

    ghost numbers = { λ ws. ws };

    ghost laws = { plain 64 (lit≤ tt) (lit≤ tt) };

    const BITS: usize = 64;

    fn wide(self) -> u64 {
        self
    }

    fn rest(self, k: usize) -> u64 {
        self >> k
    }

    fn lowest(rest: u64) -> u32 {
        crate::bits(rest, 0)
    }
}
