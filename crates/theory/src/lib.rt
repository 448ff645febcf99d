// The theory: the view of a node in lent tables, the limits, and the admission of lent tables.
#![tactic(auto)]

ghost use Rattle.std.specs.Prelude.{◌≡◌, ◌+◌, ◌*◌, ◌<◌, ◌≤◌, length};
ghost use Rattle.theory.specs.Node.{node_at, Small, span};
ghost use Rattle.theory.specs.Limits.{limits_of, Limited, Lent};
ghost use Rattle.theory.specs.Admission.{all_below, group_admission, node_admission, nodes_admission, roots_admission, admission, span_end};

// Why a call is refused; specs/Refusal gives each its number and its values.
#[derive(Clone, Copy)]
pub enum Refusal {
    BadKind(usize),
    CutRecord(usize),
    PastLimit(usize),
    BadAtom(usize),
    BadOperand(usize),
    NoOperands(usize),
    BadRoot(usize),
    NotRising(usize),
    ShortBuffer(usize),
    UnsupportedRoot(usize),
    UnsupportedBody(usize, usize),
    PositiveCycle(usize),
    RankShape,
    RankOrder(usize),
    ForeignStamp,
    StrayBit(usize),
    BadEntry(usize),
}

// A theory's stamp and the sizes of its lent tables.
#[derive(Clone, Copy)]
pub struct Counts {
    pub stamp: u32,
    pub atoms: usize,
    pub nodes: usize,
    pub operands: usize,
    pub roots: usize,
}

#[derive(Clone, Copy)]
pub enum Node {
    Atom(usize),
    False,
    Implies(usize, usize),
    // start and count in the operand table
    And(usize, usize),
    Or(usize, usize),
    Unknown,
}

// Refusal 3, by the counts alone.
pub fn limits(counts: Counts) -> Result<(), Refusal>
    ensures { result ≡ limits_of counts }
{
    if counts.atoms > 65536 {
        return Err(Refusal::PastLimit(0));
    }
    if counts.nodes > 262144 {
        return Err(Refusal::PastLimit(1));
    }
    if counts.operands > 1048576 {
        return Err(Refusal::PastLimit(2));
    }
    if counts.roots > 262144 {
        return Err(Refusal::PastLimit(3));
    }
    Ok(())
}

// Node k of the table.
pub fn view(nodes: &[u32], k: usize) -> Node
    requires { 3 * k + 2 < length nodes.now }
    ensures value { result ≡ node_at nodes.now k }
    ensures small { Small result }
{
    let kind = words::word(nodes, 3 * k);
    let a = words::word(nodes, 3 * k + 1);
    let b = words::word(nodes, 3 * k + 2);
    match kind {
        0 => Node::Atom(a),
        1 => Node::False,
        2 => Node::Implies(a, b),
        3 => Node::And(a, b),
        4 => Node::Or(a, b),
        _ => Node::Unknown,
    }
}

// Each of the count entries from start on is a node below k.
pub fn all_below(operands: &[u32], k: usize, start: usize, count: usize) -> bool
    requires { start + count ≤ length operands.now }
    ensures { result ≡ all_below k (span operands.now start count) }
{
    let end = start + count;
    for i in start..end {
        if words::word(operands, i) >= k {
            return false;
        }
    }
    true
}

// And or Or: its span begins at start, within the first size entries.
fn admit_group(
    operands: &[u32],
    size: usize,
    start: usize,
    k: usize,
    s: usize,
    c: usize,
) -> Result<(), Refusal>
    requires { (size ≤ length operands.now) × (s < 4294967296) × (c < 4294967296) }
    ensures { result ≡ group_admission size operands.now start k s c }
{
    if c == 0 {
        return Err(Refusal::NoOperands(k));
    }
    if s != start {
        return Err(Refusal::BadOperand(k));
    }
    if s + c > size {
        return Err(Refusal::BadOperand(k));
    }
    if all_below(operands, k, s, c) {
        Ok(())
    } else {
        Err(Refusal::BadOperand(k))
    }
}

fn admit_node(
    counts: Counts,
    operands: &[u32],
    start: usize,
    k: usize,
    node: Node,
) -> Result<(), Refusal>
    requires { (counts.operands ≤ length operands.now) × Small node }
    ensures { result ≡ node_admission counts operands.now start k node }
{
    match node {
        Node::Atom(a) => {
            if a < counts.atoms {
                Ok(())
            } else {
                Err(Refusal::BadAtom(k))
            }
        }
        Node::False => Ok(()),
        Node::Implies(left, right) => {
            if left >= k {
                return Err(Refusal::BadOperand(k));
            }
            if right >= k {
                return Err(Refusal::BadOperand(k));
            }
            Ok(())
        }
        Node::And(s, c) => admit_group(operands, counts.operands, start, k, s, c),
        Node::Or(s, c) => admit_group(operands, counts.operands, start, k, s, c),
        Node::Unknown => Err(Refusal::BadKind(k)),
    }
}

// Where the next span has to begin.
fn span_end(node: Node, start: usize) -> usize
    requires { span_end node start ≤ 1048576 }
    ensures { result ≡ span_end node start }
{
    match node {
        Node::And(_, c) => start + c,
        Node::Or(_, c) => start + c,
        Node::Atom(_) => start,
        Node::False => start,
        Node::Implies(_, _) => start,
        Node::Unknown => start,
    }
}

fn admit_nodes(counts: Counts, nodes: &[u32], operands: &[u32]) -> Result<(), Refusal>
    requires { (3 * counts.nodes ≤ length nodes.now) × (counts.operands ≤ length operands.now) × (counts.operands ≤ 1048576) }
    ensures { result ≡ nodes_admission counts nodes.now operands.now }
{
    let n = counts.nodes;
    let mut start = 0;
    for k in 0..n {
        let node = view(nodes, k);
        admit_node(counts, operands, start, k, node)?;
        start = span_end(node, start);
    }
    Ok(())
}

fn admit_roots(counts: Counts, roots: &[u32]) -> Result<(), Refusal>
    requires { counts.roots ≤ length roots.now }
    ensures { result ≡ roots_admission counts roots.now }
{
    let n = counts.roots;
    for i in 0..n {
        if words::word(roots, i) >= counts.nodes {
            return Err(Refusal::BadRoot(i));
        }
    }
    Ok(())
}

// Refusals 1, 6, 4, 5 node by node, then 7 root by root, of tables within the limits that are as long as the counts say.
#[tactic(auto, using(base::specs::Raised::raised), unfolding(crate::specs::Admission::admission))]
pub fn admit(counts: Counts, nodes: &[u32], operands: &[u32], roots: &[u32]) -> Result<(), Refusal>
    requires { Limited counts × Lent counts (length nodes.now) (length operands.now) (length roots.now) }
    ensures { result ≡ admission counts nodes.now operands.now roots.now }
{
    admit_nodes(counts, nodes, operands)?;
    admit_roots(counts, roots)
}
