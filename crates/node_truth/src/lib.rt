// The truth of a node as a check reads it, from the words of a kept evaluation: `node_truth!` of tight/evaluate.rs.
#![tactic(auto)]

ghost use Rattle.std.specs.Prelude.{◌≡◌, true, not, ◌+◌, ◌*◌, ◌-◌, ◌<◌, ◌≤◌, length};
ghost use Rattle.theory.specs.Limits.{Limited};
ghost use Rattle.theory.specs.Node.{node_at, span};
ghost use Rattle.kept.specs.Seen.{group_seen, node_seen};
ghost use Rattle.kept_laws.specs.Given.{used_by};
ghost use Rattle.node_truth.specs.InWords.{true_in, present_in, atom_seen, implies_seen, span_seen};
ghost use Rattle.node_truth.specs.Blocks.{AllBelow, AllAre};

use theory::{Counts, Node};

// Whether node o is true.
pub fn holds(kept: &[u32], o: usize) -> bool
    requires { 8 + o < length kept.now }
    ensures { result ≡ true_in kept.now o }
{
    kept[8 + o] != 0
}

// Whether atom a is in the candidate.
pub fn present(counts: Counts, kept: &[u32], a: usize) -> bool
    requires { Limited counts × (a < counts.atoms) × (used_by counts ≤ length kept.now) }
    ensures { result ≡ present_in counts kept.now a }
{
    let at = kept_laws::candidate_at(counts) + a / 32;
    (kept[at] >> (a % 32)) % 2 == 1
}

// And or Or: operands are met up to the first whose truth decides. None, here and below: an entry met is outside its table, or an operand is not below the node.
fn group_truth(
    operands: &[u32],
    kept: &[u32],
    k: usize,
    start: usize,
    count: usize,
    decisive: bool,
) -> Option<bool>
    requires { (start + count ≤ length operands.now) × (8 + k ≤ length kept.now) }
    ensures { result ≡ group_seen k (true_in kept.now) decisive (span operands.now start count) }
{
    let end = start + count;
    for i in start..end {
        let o = words::word(operands, i);
        if o >= k {
            return None;
        }
        if holds(kept, o) == decisive {
            return Some(decisive);
        }
    }
    Some(!decisive)
}

// Whether the 16 operands from `first` on are below k.
fn block_below(operands: &[u32], k: usize, first: usize) -> bool
    requires { first + 16 ≤ length operands.now }
    ensures { result ≡ true → AllBelow operands.now k first (first + 16) }
{
    let end = first + 16;
    // a word, as the operands are, and never more than k
    let most = (k % 4294967296) as u32;
    let mut x = 0u32;
    for i in first..end {
        if operands[i] >= most {
            x = 1;
        }
    }
    x == 0
}

// Whether the 16 operands from `first` on all have the truth `t`.
fn block_are(operands: &[u32], kept: &[u32], first: usize, t: bool) -> bool
    requires { (first + 16 ≤ length operands.now) × AllBelow operands.now (length kept.now - 8) first (first + 16) }
    ensures { result ≡ true → AllAre operands.now kept.now t first (first + 16) }
{
    let end = first + 16;
    let mut x = 0u32;
    for i in first..end {
        if (kept[8 + operands[i] as usize] == 0) == t {
            x = 1;
        }
    }
    x == 0
}

// Whether the 16 operands from `first` on are below k and none decides. No branch goes by a truth, so that several are read at once.
fn undecided(operands: &[u32], kept: &[u32], k: usize, first: usize, decisive: bool) -> bool
    requires { (first + 16 ≤ length operands.now) × (8 + k ≤ length kept.now) }
    ensures { result ≡ true → AllBelow operands.now k first (first + 16) × AllAre operands.now kept.now (not decisive) first (first + 16) }
{
    if !block_below(operands, k, first) {
        return false;
    }
    block_are(operands, kept, first, !decisive)
}

// The first operand that is not passed by blocks in which none decides: the place where the loop ends is the answer, which a `for` would not hand out.
fn skip_blocks(
    operands: &[u32],
    kept: &[u32],
    k: usize,
    start: usize,
    end: usize,
    decisive: bool,
) -> usize
    requires { (start ≤ end) × (end ≤ length operands.now) × (8 + k ≤ length kept.now) }
    ensures { (start ≤ result) × (result ≤ end) × (group_seen k (true_in kept.now) decisive (span operands.now start (end - start)) ≡ group_seen k (true_in kept.now) decisive (span operands.now result (end - result))) }
{
    let mut i = start;
    while end - i >= 16 {
        if !undecided(operands, kept, k, i, decisive) {
            return i;
        }
        i += 16;
    }
    i
}

// And or Or of many operands: by blocks, as far as none decides.
fn large_truth(
    operands: &[u32],
    kept: &[u32],
    k: usize,
    start: usize,
    count: usize,
    decisive: bool,
) -> Option<bool>
    requires { (start + count ≤ length operands.now) × (8 + k ≤ length kept.now) }
    ensures { result ≡ group_seen k (true_in kept.now) decisive (span operands.now start count) }
{
    let i = skip_blocks(operands, kept, k, start, start + count, decisive);
    group_truth(operands, kept, k, i, start + count - i, decisive)
}

// And or Or of two operands: both are read, so that no branch goes by a truth, unless one is not below k.
fn pair_truth(
    operands: &[u32],
    kept: &[u32],
    k: usize,
    start: usize,
    decisive: bool,
) -> Option<bool>
    requires { (start + 2 ≤ length operands.now) × (8 + k ≤ length kept.now) }
    ensures { result ≡ group_seen k (true_in kept.now) decisive (span operands.now start 2) }
{
    let a = words::word(operands, start);
    let b = words::word(operands, start + 1);
    if a.max(b) >= k {
        return group_truth(operands, kept, k, start, 2, decisive);
    }
    let x = holds(kept, a);
    let y = holds(kept, b);
    if decisive {
        return Some(x | y);
    }
    Some(x & y)
}

// The same of a span that may pass the table of `size` entries.
pub fn span_truth(
    operands: &[u32],
    size: usize,
    kept: &[u32],
    k: usize,
    start: usize,
    count: usize,
    decisive: bool,
) -> Option<bool>
    requires { (size ≤ length operands.now) × (start < 4294967296) × (count < 4294967296) × (8 + k ≤ length kept.now) }
    ensures { result ≡ span_seen size k (true_in kept.now) decisive operands.now start count }
{
    // named again, so that the compiler hands them on by value
    let operands = &operands[..];
    let kept = &kept[..];
    if start + count > size {
        return None;
    }
    if count == 2 {
        return pair_truth(operands, kept, k, start, decisive);
    }
    if count >= 16 {
        return large_truth(operands, kept, k, start, count, decisive);
    }
    group_truth(operands, kept, k, start, count, decisive)
}

// Atom a.
pub fn atom_truth(counts: Counts, kept: &[u32], a: usize) -> Option<bool>
    requires { Limited counts × (used_by counts ≤ length kept.now) }
    ensures { result ≡ atom_seen counts kept.now a }
{
    if a >= counts.atoms {
        return None;
    }
    Some(present(counts, kept, a))
}

// Implies of left and right, at node k.
pub fn implies_truth(kept: &[u32], k: usize, left: usize, right: usize) -> Option<bool>
    requires { 8 + k ≤ length kept.now }
    ensures { result ≡ implies_seen k (true_in kept.now) left right }
{
    if left >= k {
        return None;
    }
    if right >= k {
        return None;
    }
    // both are read, so that no branch goes by a truth
    let l = holds(kept, left);
    let r = holds(kept, right);
    Some(!l || r)
}

// Node k.
pub fn node_truth(
    counts: Counts,
    nodes: &[u32],
    operands: &[u32],
    kept: &[u32],
    k: usize,
) -> Option<bool>
    requires { Limited counts × (k < counts.nodes) × (3 * counts.nodes ≤ length nodes.now) × (counts.operands ≤ length operands.now) × (used_by counts ≤ length kept.now) }
    ensures { result ≡ node_seen counts operands.now (present_in counts kept.now) (true_in kept.now) k (node_at nodes.now k) }
{
    // the kind that is met most, by one comparison
    if nodes[3 * k] == 2 {
        let left = words::word(nodes, 3 * k + 1);
        let right = words::word(nodes, 3 * k + 2);
        return implies_truth(kept, k, left, right);
    }
    match theory::view(nodes, k) {
        Node::Atom(a) => atom_truth(counts, kept, a),
        Node::False => Some(false),
        Node::Implies(left, right) => implies_truth(kept, k, left, right),
        Node::And(s, c) => span_truth(operands, counts.operands, kept, k, s, c, false),
        Node::Or(s, c) => span_truth(operands, counts.operands, kept, k, s, c, true),
        Node::Unknown => None,
    }
}
