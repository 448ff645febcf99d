// The plan's first half: classes of nodes, and the producers of roots. A port of tight/compile.rs.
#![tactic(auto)]

ghost use Rattle.std.specs.Prelude.{◌≡◌, ◌++◌, ◌+◌, ◌*◌, ◌<◌, ◌≤◌, length, get_or, drop};
ghost use Rattle.theory.specs.Node.{node_at};
ghost use Rattle.theory.specs.NodeClass.{is_false};
ghost use Rattle.theory.specs.WellFormed.{NodeTables, RootTable};
ghost use Rattle.base.specs.Front.{front};
ghost use Rattle.theory.specs.Limits.{Limited};
ghost use Rattle.theory.specs.Spans.{Indexed};
ghost use Rattle.compile.specs.ClassWord.{node_class_word, class_words};
ghost use Rattle.compile.specs.Greatest.{greatest_of};
ghost use Rattle.compile.specs.Head.{as_atom, chosen, either_order, head_of, seen, word_of};
ghost use Rattle.compile.specs.Producer.{fact, rule, produced};
ghost use Rattle.compile.specs.Producers.{refused_by, roots_supported, made_by, producers_before, producer_words};
ghost use Rattle.compile.specs.ProducersLaws.{stored, appended, MadeSmall};
ghost use Rattle.compile.specs.ProducerLaws.{bodied};

use theory::{Counts, Node, Refusal};

#[derive(Clone, Copy)]
pub enum Kind {
    Normal,
    Choice,
}

// What kind of head a node is, and of which atom.
#[derive(Clone, Copy)]
pub struct Head {
    pub atom: usize,
    pub kind: Kind,
}

// One root's producer: its head's atom and kind, its body's node + 1 or 0 without body, its root's node.
#[derive(Clone, Copy)]
pub struct Producer {
    pub head: usize,
    pub body: usize,
    pub root: usize,
    pub kind: Kind,
}

// The greatest of the values that the count operands from start on have.
pub fn maximum_operand(operands: &[u32], values: &[u32], start: usize, count: usize) -> usize
    requires { Indexed operands.now (length values.now) start count }
    ensures value { result ≡ greatest_of values.now operands.now start count }
    ensures upper_bound { result < 4294967296 }
{
    let end = start + count;
    let mut value: usize = 0;
    for i in start..end {
        let child = words::word(operands, i);
        value = value.max(words::word(values, child));
    }
    value
}

// Node k is False.
fn is_false(nodes: &[u32], k: usize) -> bool
    requires { 3 * k + 2 < length nodes.now }
    ensures { result ≡ is_false (node_at nodes.now k) }
{
    matches!(theory::view(nodes, k), Node::False)
}

// The class word of node k, from those of lower nodes.
fn classify_node(
    counts: Counts,
    nodes: &[u32],
    operands: &[u32],
    classes: &[u32],
    k: usize,
) -> usize
    requires { (k < counts.nodes) × (counts.nodes ≤ length classes.now) × NodeTables counts nodes.now operands.now }
    ensures value { result ≡ node_class_word nodes.now operands.now (λ o. get_or classes.now o 0) (node_at nodes.now k) }
    ensures upper_bound { result < 4294967296 }
{
    match theory::view(nodes, k) {
        Node::Atom(_) => 1,
        Node::False => 0,
        Node::Implies(_, right) => { if is_false(nodes, right) { 0 } else { 2 } }
        Node::And(s, c) => maximum_operand(operands, classes, s, c),
        Node::Or(s, c) => maximum_operand(operands, classes, s, c),
        Node::Unknown => 0,
    }
}

// The class words of all nodes, into the front of classes.
pub fn classify(counts: Counts, nodes: &[u32], operands: &[u32], classes: &mut [u32])
    requires { (counts.nodes ≤ length classes.old) × NodeTables counts nodes.now operands.now }
    ensures { classes.new ≡ class_words nodes.now operands.now counts.nodes ++ drop counts.nodes classes.old }
{
    let n = counts.nodes;
    for k in 0..n {
        let class = classify_node(counts, nodes, operands, classes, k);
        classes[k] = class as u32;
    }
}

// The atom of node p, if it is an Atom.
fn atom_at(nodes: &[u32], p: usize) -> Option<usize>
    requires { 3 * p + 2 < length nodes.now }
    ensures { result ≡ as_atom (node_at nodes.now p) }
{
    match theory::view(nodes, p) {
        Node::Atom(a) => Some(a),
        _ => None,
    }
}

// The atom of node p, if node q is an Implies from p to a False node.
fn choice_of(counts: Counts, nodes: &[u32], operands: &[u32], p: usize, q: usize) -> Option<usize>
    requires { (p < counts.nodes) × (q < counts.nodes) × NodeTables counts nodes.now operands.now }
    ensures { result ≡ chosen nodes.now p q }
{
    match theory::view(nodes, q) {
        Node::Implies(left, right) => {
            if left != p {
                return None;
            }
            if is_false(nodes, right) {
                atom_at(nodes, p)
            } else {
                None
            }
        }
        _ => None,
    }
}

// The head that an Or of the two operands p and q makes.
fn choice_head(counts: Counts, nodes: &[u32], operands: &[u32], p: usize, q: usize) -> Option<Head>
    requires { (p < counts.nodes) × (q < counts.nodes) × NodeTables counts nodes.now operands.now }
    ensures { result ≡ seen (either_order (chosen nodes.now p q) (chosen nodes.now q p)) }
{
    let first = choice_of(counts, nodes, operands, p, q);
    if let Some(atom) = first {
        return Some(Head {
            atom,
            kind: Kind::Choice,
        });
    }
    match choice_of(counts, nodes, operands, q, p) {
        Some(atom) => Some(Head {
            atom,
            kind: Kind::Choice,
        }),
        None => None,
    }
}

// The head that node k makes.
fn head_of(counts: Counts, nodes: &[u32], operands: &[u32], k: usize) -> Option<Head>
    requires { (k < counts.nodes) × NodeTables counts nodes.now operands.now }
    ensures { result ≡ seen (head_of nodes.now operands.now (node_at nodes.now k)) }
{
    match theory::view(nodes, k) {
        Node::Atom(atom) => Some(Head {
            atom,
            kind: Kind::Normal,
        }),
        Node::Or(s, c) => {
            if c != 2 {
                return None;
            }
            let p = words::word(operands, s);
            let q = words::word(operands, s + 1);
            choice_head(counts, nodes, operands, p, q)
        }
        _ => None,
    }
}

// A head with a body: an Opaque body is refused.
fn with_body(
    classes: &[u32],
    root: usize,
    body: usize,
    head: Head,
) -> Result<Option<Producer>, Refusal>
    requires { body < length classes.now }
    ensures { result ≡ bodied classes.now root body head }
{
    if words::word(classes, body) == 2 {
        return Err(Refusal::UnsupportedBody(root, body));
    }
    Ok(Some(Producer {
        head: head.atom,
        body: body + 1,
        root,
        kind: head.kind,
    }))
}

fn produce_rule(
    counts: Counts,
    nodes: &[u32],
    operands: &[u32],
    classes: &[u32],
    root: usize,
    body: usize,
    head: usize,
) -> Result<Option<Producer>, Refusal>
    requires { (body < length classes.now) × (head < counts.nodes) × NodeTables counts nodes.now operands.now }
    ensures { result ≡ rule classes.now root body (head_of nodes.now operands.now (node_at nodes.now head)) }
{
    match head_of(counts, nodes, operands, head) {
        Some(h) => with_body(classes, root, body, h),
        None => Err(Refusal::UnsupportedRoot(root)),
    }
}

fn produce_fact(
    counts: Counts,
    nodes: &[u32],
    operands: &[u32],
    root: usize,
) -> Result<Option<Producer>, Refusal>
    requires { (root < counts.nodes) × NodeTables counts nodes.now operands.now }
    ensures { result ≡ fact root (head_of nodes.now operands.now (node_at nodes.now root)) }
{
    match head_of(counts, nodes, operands, root) {
        Some(h) => Ok(Some(Producer {
            head: h.atom,
            body: 0,
            root,
            kind: h.kind,
        })),
        None => Err(Refusal::UnsupportedRoot(root)),
    }
}

// What the root's node makes: nothing, its producer, or refusal 10 or 11.
// Laid into each caller: where a call hands the nested answer out, its copies make planning take up to 1.7 of the time.
#[inline(always)]
pub fn produce(
    counts: Counts,
    nodes: &[u32],
    operands: &[u32],
    classes: &[u32],
    root: usize,
) -> Result<Option<Producer>, Refusal>
    requires { (root < counts.nodes) × (counts.nodes ≤ length classes.now) × NodeTables counts nodes.now operands.now }
    ensures { result ≡ produced nodes.now operands.now classes.now root }
{
    match theory::view(nodes, root) {
        Node::False => Ok(None),
        Node::Implies(left, right) => {
            if is_false(nodes, right) {
                return Ok(None);
            }
            produce_rule(counts, nodes, operands, classes, root, left, right)
        }
        _ => produce_fact(counts, nodes, operands, root),
    }
}

// The refusal of a root, if what it makes is one.
#[tactic(auto, using(crate::specs::ProducersLaws::refused_ok, crate::specs::ProducersLaws::refused_err))]
fn root_supported(made: Result<Option<Producer>, Refusal>) -> Result<(), Refusal>
    ensures { result ≡ refused_by made }
{
    match made {
        Ok(_) => Ok(()),
        Err(r) => Err(r),
    }
}

// Refusals 10 and 11, root by root.
pub fn roots_supported(
    counts: Counts,
    nodes: &[u32],
    operands: &[u32],
    roots: &[u32],
    classes: &[u32],
) -> Result<(), Refusal>
    requires { (counts.nodes ≤ length classes.now) × NodeTables counts nodes.now operands.now × RootTable counts roots.now }
    ensures { result ≡ roots_supported counts nodes.now operands.now classes.now roots.now }
{
    let n = counts.roots;
    for i in 0..n {
        let root = words::word(roots, i);
        root_supported(produce(counts, nodes, operands, classes, root))?;
    }
    Ok(())
}

// The word of a kind.
impl From<Kind> for u32 {
    fn from(kind: Kind) -> u32
        ensures { result ≡ word_of kind }
    {
        match kind {
            Kind::Normal => 0,
            Kind::Choice => 1,
        }
    }
}

// Writes the producer's four words from position at on.
fn store(table: &mut [u32], at: usize, p: Producer)
    requires { (at + 4 ≤ length table.old) × (p.head < 4294967296) × (p.body < 4294967296) × (p.root < 4294967296) }
    ensures { table.new ≡ stored table.old at p }
{
    table[at] = p.head as u32;
    table[at + 1] = p.body as u32;
    table[at + 2] = p.root as u32;
    table[at + 3] = u32::from(p.kind);
}

// Writes what the root makes behind the n producers that stand in the table; answers how many stand there then.
fn append(table: &mut [u32], n: usize, made: Result<Option<Producer>, Refusal>) -> usize
    requires { (4 * n + 4 ≤ length table.old) × MadeSmall made × (n < 4294967296) }
    ensures { (result ≡ n + length (made_by made)) × (table.new ≡ appended table.old n made) }
{
    match made {
        Ok(Some(p)) => {
            store(table, 4 * n, p);
            n + 1
        }
        Ok(None) => n,
        Err(_) => n,
    }
}

// Writes the producers of all roots, in root order; answers their number.
pub fn extract(
    counts: Counts,
    nodes: &[u32],
    operands: &[u32],
    roots: &[u32],
    classes: &[u32],
    table: &mut [u32],
) -> usize
    requires { (counts.nodes ≤ length classes.now) × (4 * counts.roots ≤ length table.old) × Limited counts × NodeTables counts nodes.now operands.now × RootTable counts roots.now }
    ensures value { result ≡ length (producers_before nodes.now operands.now classes.now roots.now counts.roots) }
    ensures table_after { table.new ≡ front (producer_words (producers_before nodes.now operands.now classes.now roots.now counts.roots)) table.old }
{
    let n = counts.roots;
    let mut made = 0;
    for i in 0..n {
        let root = words::word(roots, i);
        let produced = produce(counts, nodes, operands, classes, root);
        made = append(table, made, produced);
    }
    made
}
