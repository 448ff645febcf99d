// A reader that keeps the file slice and its offset: thin functions over the by-value functions of crate `record`.
#![tactic(auto)]

ghost use Rattle.std.specs.Prelude.{◌≡◌, ◌+◌, ◌*◌, ◌/◌, ◌<◌, ◌≤◌, length};
ghost use Rattle.base.specs.Each.{Each};
ghost use Rattle.record.specs.Number.{numbers};
ghost use Rattle.record.specs.Layout.{record_end, values_of};
ghost use Rattle.file_reader.specs.Insert.{inserted_all, Fitting};

use record::Mark;

#[derive(Drop)]
struct Reader<'a> {
    file: &'a [u8],
    offset: usize,
}

// Each of so many numbers of the file, into the set.
fn insert_all(file: &[u8], from: usize, count: usize, words: &mut [u64])
    requires { (from + 4 * count ≤ length file.now) × Each (λ a. a / 64 < length words.old) (numbers file.now from count) }
    ensures { words.new ≡ inserted_all words.old (numbers file.now from count) }
{
    for i in 0..count {
        words::set::insert(words, record::number(file, from + 4 * i));
    }
}

// The atoms of the candidate that begins at `at`, into the set; answers where the record ends.
#[tactic(auto, unfolding(record::specs::Layout::record_end, record::specs::Layout::values_of))]
fn candidate_at(file: &[u8], at: usize, words: &mut [u64]) -> usize
    requires { Fitting file.now at (length words.old) }
    ensures { (result ≡ record_end file.now at Mark.Candidate) × (words.new ≡ inserted_all words.old (values_of file.now at Mark.Candidate)) }
{
    let v = record::values_of(file, at, Mark::Candidate);
    insert_all(file, v.start, v.count, words);
    v.start + 4 * v.count
}

impl<'a> Reader<'a> {
    // A reader at an offset of the file.
    fn new(file: &'a [u8], offset: usize) -> Reader<'a>
        ensures { (result.file ≡ file.entry) × (result.offset ≡ offset) }
    {
        Reader { file, offset }
    }

    // The atoms of the candidate at the reader, into the set; the reader goes on past the record.
    fn candidate(&mut self, words: &mut [u64])
        requires { Fitting self.old.file.now self.old.offset (length words.old) }
        ensures { (self.new.file ≡ self.old.file) × (self.new.offset ≡ record_end self.old.file.now self.old.offset Mark.Candidate) × (words.new ≡ inserted_all words.old (values_of self.old.file.now self.old.offset Mark.Candidate)) }
    {
        self.offset = candidate_at(self.file, self.offset, words);
    }
}

// The candidate that begins at `at`, read by a reader; answers where the record ends.
pub fn candidate_from(file: &[u8], at: usize, words: &mut [u64]) -> usize
    requires { Fitting file.now at (length words.old) }
    ensures { (result ≡ record_end file.now at Mark.Candidate) × (words.new ≡ inserted_all words.old (values_of file.now at Mark.Candidate)) }
{
    let mut reader = Reader::new(file, at);
    reader.candidate(words);
    reader.offset
}
