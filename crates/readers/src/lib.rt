// The reader lists: who reads each node's truth. A port of tight/readers.rs.
#![tactic(auto)]

ghost use Rattle.std.specs.Prelude.{◌≡◌, ℕ, ◌+◌, ◌*◌, ◌^◌, ◌<◌, ◌≤◌, ◌&&◌, List, leb, length, get_or};
ghost use Rattle.readers.specs.Reader.{node_reader, producer_reader, root_reader, reading_of};
ghost use Rattle.readers.specs.declared.Reading.TheVariants.{Producer, Root};
ghost use Rattle.readers.specs.Incidences.{atom_slot, items_at, producer_items, root_items, incidences};
ghost use Rattle.readers.specs.Joined.{joined};
ghost use Rattle.readers.specs.Pass.{passed, Fits, passed_all, FitsAll, Countable, counted, Placeable, placed};
ghost use Rattle.readers.specs.Laid.{list_at, InOrder, in_order};
ghost use Rattle.readers.specs.Planned.{Planned};
ghost use Rattle.readers.specs.Placement.{Head, total, Zero, Summed};
ghost use Rattle.readers.specs.ReaderTable.{slots, reader_words, built};
ghost use Rattle.theory.specs.Limits.{Limited};
ghost use Rattle.theory.specs.WellFormed.{NodeTables};

use theory::{Counts, Node};

// A packed reader: its tag in the top two bits, its index below.
#[derive(Clone, Copy)]
pub struct Reader(pub u64);

#[derive(Clone, Copy)]
pub enum Reading {
    Node(usize),
    Producer(usize),
    Root(usize),
    Unknown,
}

impl Reader {
    pub const SHIFT: u32 = 62;

    // A producer's tag, where it stands in the word.
    const PRODUCER: u64 = 2 << Reader::SHIFT;

    // A root position's.
    const ROOT: u64 = 3 << Reader::SHIFT;

    pub fn node(i: usize) -> Reader
        requires { i < 2 ^ 62 }
        ensures { result.0 ≡ node_reader i }
    {
        Reader(i as u64)
    }

    pub fn producer(i: usize) -> Reader
        requires { i < 2 ^ 62 }
        ensures { result.0 ≡ producer_reader i }
    {
        Reader(Reader::PRODUCER | i as u64)
    }

    pub fn root(i: usize) -> Reader
        requires { i < 2 ^ 62 }
        ensures { result.0 ≡ root_reader i }
    {
        Reader(Reader::ROOT | i as u64)
    }

    // The index of a producer's word; any other word gives 2^62 at least, so that one comparison tells both.
    pub fn producer_index(self) -> u64
        ensures { (result < 2 ^ 62 → reading_of self.0 ≡ Producer result) × ((i : ℕ) → reading_of self.0 ≡ Producer i → result ≡ i) }
    {
        self.0 ^ Reader::PRODUCER
    }

    // The same of a root position's.
    pub fn root_index(self) -> u64
        ensures { (result < 2 ^ 62 → reading_of self.0 ≡ Root result) × ((i : ℕ) → reading_of self.0 ≡ Root i → result ≡ i) }
    {
        self.0 ^ Reader::ROOT
    }

    // What any word says.
    pub fn reading(self) -> Reading
        ensures { result ≡ reading_of self.0 }
    {
        let word = self.0;
        let index = (word % (1 << Reader::SHIFT)) as usize;
        match word >> Reader::SHIFT {
            0 => Reading::Node(index),
            2 => Reading::Producer(index),
            3 => Reading::Root(index),
            _ => Reading::Unknown,
        }
    }
}

// The words of n lists begin: where entries begin, then 0 for each list.
fn clear(table: &mut [u64], n: usize)
    requires { n + 1 ≤ length table.old }
    ensures { Head n (n + 1) Zero table.old table.new }
{
    table[0] = (n + 1) as u64;
    table[1..=n].fill(0);
}

// What one pass over the incidences does with each entry of a list.
trait Pass {
    // When a list has room for one more.
    ghost room: { ℕ → List ℕ → Type 0 };

    // The table behind it.
    ghost after: { ℕ → ℕ → List ℕ → List ℕ };

    fn enter(table: &mut [u64], slot: usize, entry: u64)
        requires { room slot table.old }
        ensures { table.new ≡ after slot entry table.old };
}

// The first pass: each list's word counts its entries.
struct Counting;

impl Pass for Counting {
    ghost room = { Countable };

    ghost after = { λ s e. counted s };

    fn enter(table: &mut [u64], slot: usize, _entry: u64) {
        table[slot + 1] += 1;
    }
}

// The second: each entry goes where its list goes on.
struct Placing;

impl Pass for Placing {
    ghost room = { Placeable };

    ghost after = { placed };

    fn enter(table: &mut [u64], slot: usize, entry: u64) {
        let at = words::word(table, slot + 1);
        table[at] = entry;
        table[slot + 1] = (at + 1) as u64;
    }
}

// A span's entries: node k, once for each operand.
fn pass_span<P: Pass>(span: &[u32], k: usize, table: &mut [u64])
    requires { (k < 2 ^ 62) × Fits P.room (λ o. P.after o (node_reader k)) span.now table.old }
    ensures { table.new ≡ passed (λ o. P.after o (node_reader k)) span.now table.old }
{
    for o in span {
        P::enter(table, *o as usize, Reader::node(k).0);
    }
}

// The entries that node k makes.
fn pass_node<P: Pass>(counts: Counts, nodes: &[u32], operands: &[u32], k: usize, table: &mut [u64])
    requires { (k < counts.nodes) × Limited counts × NodeTables counts nodes.now operands.now × FitsAll P.room P.after (items_at counts nodes.now operands.now k) table.old }
    ensures { table.new ≡ passed_all P.after (items_at counts nodes.now operands.now k) table.old }
{
    match theory::view(nodes, k) {
        Node::Atom(a) => P::enter(table, counts.nodes + 1 + a, k as u64),
        Node::Implies(left, right) => {
            P::enter(table, left, Reader::node(k).0);
            P::enter(table, right, Reader::node(k).0);
        }
        Node::And(s, c) | Node::Or(s, c) => pass_span::<P>(&operands[s..s + c], k, table),
        Node::False | Node::Unknown => {}
    }
}

// The entries that nodes make.
fn pass_nodes<P: Pass>(counts: Counts, nodes: &[u32], operands: &[u32], table: &mut [u64])
    requires { Limited counts × NodeTables counts nodes.now operands.now × FitsAll P.room P.after (joined (items_at counts nodes.now operands.now) 0 counts.nodes) table.old }
    ensures { table.new ≡ passed_all P.after (joined (items_at counts nodes.now operands.now) 0 counts.nodes) table.old }
{
    for k in 0..counts.nodes {
        pass_node::<P>(counts, nodes, operands, k, table);
    }
}

// The entries that p producers make. Each is four words, the second its body + 1, or 0 without body; a producer's entry has its index.
fn pass_producers<P: Pass>(producers: &[u32], p: usize, table: &mut [u64])
    requires { (4 * p ≤ length producers.now) × FitsAll P.room P.after (joined (producer_items producers.now) 0 p) table.old }
    ensures { table.new ≡ passed_all P.after (joined (producer_items producers.now) 0 p) table.old }
{
    for i in 0..p {
        if let Some(body) = words::word(producers, 4 * i + 1).checked_sub(1) {
            P::enter(table, body, Reader::producer(i).0);
        }
    }
}

// The entries that root positions make.
fn pass_roots<P: Pass>(roots: &[u32], table: &mut [u64])
    requires { FitsAll P.room P.after (joined (root_items roots.now) 0 (length roots.now)) table.old }
    ensures { table.new ≡ passed_all P.after (joined (root_items roots.now) 0 (length roots.now)) table.old }
{
    for (i, root) in roots.iter().enumerate() {
        P::enter(table, *root as usize, Reader::root(i).0);
    }
}

// The entries that all of them make, in the order of discovery.
fn pass_all<P: Pass>(
    counts: Counts,
    nodes: &[u32],
    operands: &[u32],
    roots: &[u32],
    producers: &[u32],
    p: usize,
    table: &mut [u64],
)
    requires { Planned counts nodes.now operands.now roots.now producers.now p × FitsAll P.room P.after (incidences counts nodes.now operands.now roots.now producers.now p) table.old }
    ensures { table.new ≡ passed_all P.after (incidences counts nodes.now operands.now roots.now producers.now p) table.old }
{
    pass_nodes::<P>(counts, nodes, operands, table);
    pass_producers::<P>(producers, p, table);
    pass_roots::<P>(&roots[..counts.roots], table);
}

// Counts become starts: a list's word is the sum of those before it, from where entries begin.
fn sum(table: &mut [u64], n: usize)
    requires { (n + 1 ≤ length table.old) × (n + 1 + total table.old n < 2 ^ 62) × (get_or table.old 0 0 ≡ n + 1) }
    ensures { Head n (n + 1) (Summed table.old n) table.old table.new }
{
    let mut start = n + 1;
    for word in &mut table[1..=n] {
        let size = *word as usize;
        *word = start as u64;
        start += size;
    }
}

// The reader table into the front of table, in two passes over the incidences.
pub fn build(
    counts: Counts,
    nodes: &[u32],
    operands: &[u32],
    roots: &[u32],
    producers: &[u32],
    p: usize,
    table: &mut [u64],
)
    requires { Planned counts nodes.now operands.now roots.now producers.now p × (reader_words counts ≤ length table.old) }
    ensures { table.new ≡ built counts nodes.now operands.now roots.now producers.now p table.old }
{
    let n = counts.nodes + counts.atoms + 1;
    clear(table, n);
    pass_all::<Counting>(counts, nodes, operands, roots, producers, p, table);
    sum(table, n);
    pass_all::<Placing>(counts, nodes, operands, roots, producers, p, table);
}

// How many words the table of these counts has.
pub fn table_words(counts: Counts) -> usize
    requires { Limited counts }
    ensures { result ≡ reader_words counts }
{
    2 + counts.atoms + 4 * counts.nodes + counts.operands + 2 * counts.roots
}

// Whether the starts of a list are in order and within the first `listed` words.
fn ordered(start: usize, end: usize, listed: usize) -> bool
    ensures { result ≡ (leb start end && leb end listed) }
{
    start <= end && end <= listed
}

// Whether list s of any table, which starts at `start`, has its two starts in order and within the first `listed` words.
pub fn in_order_from(table: &[u64], listed: usize, s: usize, start: usize) -> bool
    requires { (s + 1 < length table.now) × (start ≡ get_or table.now s 0) }
    ensures { result ≡ in_order table.now listed s }
{
    ordered(start, words::word(table, s + 1), listed)
}

// The same, its start read from the table.
pub fn in_order(table: &[u64], listed: usize, s: usize) -> bool
    requires { s + 1 < length table.now }
    ensures { result ≡ in_order table.now listed s }
{
    in_order_from(table, listed, s, words::word(table, s))
}

// List s of any table whose two starts are in order, the first of them at hand: that part of the table.
pub fn list_from(table: &[u64], s: usize, start: usize) -> &[u64]
    requires { (s + 1 < length table.now) × InOrder table.now (length table.now) s × (start ≡ get_or table.now s 0) }
    ensures { result.now ≡ list_at table.now s }
{
    let end = words::word(table, s + 1);
    &table[start..end]
}

// The same, its start read from the table.
fn list_at(table: &[u64], s: usize) -> &[u64]
    requires { (s + 1 < length table.now) × InOrder table.now (length table.now) s }
    ensures { result.now ≡ list_at table.now s }
{
    list_from(table, s, words::word(table, s))
}

// The readers of a node: its part of the table.
pub fn readers_of(table: &[u64], node: usize) -> &[u64]
    requires { (node + 1 < length table.now) × InOrder table.now (length table.now) node }
    ensures { result.now ≡ list_at table.now node }
{
    list_at(table, node)
}

// The atom nodes of an atom: its part of the table of a theory with so many nodes.
pub fn atom_nodes_of(table: &[u64], nodes: usize, atom: usize) -> &[u64]
    requires { (atom_slot nodes atom + 1 < length table.now) × InOrder table.now (length table.now) (atom_slot nodes atom) }
    ensures { result.now ≡ list_at table.now (atom_slot nodes atom) }
{
    list_at(table, nodes + 1 + atom)
}
