// Words lent in slices: read as numbers, and as sets of bits.
#![tactic(auto)]

ghost use Rattle.std.specs.Prelude.{◌≡◌, ◌*◌, ◌^◌, ◌<◌, length, get_or};
ghost use Rattle.base.specs.Places.{places};
ghost use Rattle.words.specs.Bit.{bit};
ghost use Rattle.words.specs.Halves.{half};

pub mod set;
pub mod width;

use width::Word;

// Word i of a table, as a number.
pub fn word<W: Word>(table: &[W], i: usize) -> usize
    requires { i < length table.now }
    ensures value { result ≡ get_or (W.numbers table.now) i 0 }
    ensures upper_bound { result < 2 ^ W.BITS }
{
    table[i].wide() as usize
}

// Word i of a list of u64 words taken as u32 words.
pub fn half_word(table: &[u64], i: usize) -> u32
    requires { i < 2 * length table.now }
    ensures { result ≡ half table.now i }
{
    ((table[i / 2] >> (i % 2 * 32)) % 0x1_0000_0000) as u32
}

// The word's set place number i, rising from i = 0, or 64 if there are not so many: a number, as its clause and its readers have it, and one comparison tells.
pub fn bits(word: u64, i: usize) -> u32
    ensures { result ≡ get_or (places (bit word) 0 64) i 64 }
{
    let mut x = word;
    for _ in 0..i {
        if x == 0 {
            return 64;
        }
        x &= x - 1;
    }
    x.trailing_zeros()
}
