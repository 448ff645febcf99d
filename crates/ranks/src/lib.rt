// Ranks: the rank check, the dependencies of a theory, and the derivation. A port of the second half of tight/compile.rs.
#![tactic(auto)]

ghost use Rattle.std.specs.Prelude.{◌≡◌, ◌++◌, ◌+◌, ◌<◌, ◌≤◌, eqb, length, get_or, take, drop};
ghost use Rattle.theory.specs.Node.{node_at};
ghost use Rattle.theory.specs.NodeRank.{node_highests};
ghost use Rattle.theory.specs.WellFormed.{NodeTables, RootTable};
ghost use Rattle.ranks.specs.Highest.{highest_by};
ghost use Rattle.ranks.specs.RankCheck.{body_order, produced_order, order_by, rank_check};
ghost use Rattle.ranks.specs.Classed.{Classed};
ghost use Rattle.ranks.specs.MadeIn.{MadeIn};

use compile::Producer;
use theory::{Counts, Node, Refusal};

// The highest rank of node k, whose class word is class, from those of lower nodes.
fn highest_node(
    counts: Counts,
    nodes: &[u32],
    operands: &[u32],
    ranks: &[u32],
    high: &[u32],
    class: usize,
    k: usize,
) -> usize
    requires { (k < counts.nodes) × (counts.nodes ≤ length high.now) × (counts.atoms ≤ length ranks.now) × NodeTables counts nodes.now operands.now }
    ensures value { result ≡ highest_by ranks.now operands.now (eqb class 1) (λ o. get_or high.now o 0) (node_at nodes.now k) }
    ensures upper_bound { result < 4294967296 }
{
    match theory::view(nodes, k) {
        Node::Atom(a) => words::word(ranks, a),
        Node::And(s, c) | Node::Or(s, c) => {
            if class == 1 {
                compile::maximum_operand(operands, high, s, c)
            } else {
                0
            }
        }
        Node::False | Node::Implies(_, _) | Node::Unknown => 0,
    }
}

// The highest rank of every node, behind the first v words of area, at whose front the class words stand.
fn fill_highest(
    counts: Counts,
    nodes: &[u32],
    operands: &[u32],
    ranks: &[u32],
    area: &mut [u32],
    v: usize,
)
    requires { (counts.nodes ≤ v) × (v + counts.nodes ≤ length area.old) × (counts.atoms ≤ length ranks.now) × NodeTables counts nodes.now operands.now × Classed counts nodes.now operands.now (take v area.old) }
    ensures { area.new ≡ take v area.old ++ (node_highests (λ a. get_or ranks.now a 0) nodes.now operands.now counts.nodes ++ drop (v + counts.nodes) area.old) }
{
    for k in 0..counts.nodes {
        let class = words::word(area, k);
        let high = highest_node(counts, nodes, operands, ranks, &area[v..], class, k);
        area[v + k] = high as u32;
    }
}

// Refusal 14 of one producer: its body's highest rank, behind the first v words, is not below its head's.
fn body_order(
    area: &[u32],
    v: usize,
    ranks: &[u32],
    head: usize,
    body: usize,
) -> Result<(), Refusal>
    requires { (body ≤ v) × (v + body ≤ length area.now) × (head < length ranks.now) }
    ensures { result ≡ body_order (take v area.now) (drop v area.now) ranks.now head body }
{
    if body == 0 {
        return Ok(());
    }
    let b = body - 1;
    if words::word(area, b) != 1 {
        return Ok(());
    }
    if words::word(area, v + b) < words::word(ranks, head) {
        Ok(())
    } else {
        Err(Refusal::RankOrder(head))
    }
}

// Refusal 14 of one root, which may make no producer: two arms for that, as the proof of one for both did not close.
fn produced_order(
    counts: Counts,
    area: &[u32],
    v: usize,
    ranks: &[u32],
    made: Result<Option<Producer>, Refusal>,
) -> Result<(), Refusal>
    requires { (counts.nodes ≤ v) × (v + counts.nodes ≤ length area.now) × (counts.atoms ≤ length ranks.now) × MadeIn counts made }
    ensures { result ≡ produced_order (take v area.now) (drop v area.now) ranks.now made }
{
    match made {
        Ok(Some(p)) => body_order(area, v, ranks, p.head, p.body),
        Ok(None) => Ok(()),
        Err(_) => Ok(()),
    }
}

// Refusal 14, root by root.
fn rank_order(
    counts: Counts,
    nodes: &[u32],
    operands: &[u32],
    roots: &[u32],
    ranks: &[u32],
    area: &[u32],
    v: usize,
) -> Result<(), Refusal>
    requires { (counts.nodes ≤ v) × (v + counts.nodes ≤ length area.now) × (counts.atoms ≤ length ranks.now) × NodeTables counts nodes.now operands.now × RootTable counts roots.now }
    ensures { result ≡ order_by counts nodes.now operands.now (take v area.now) roots.now (drop v area.now) ranks.now }
{
    for i in 0..counts.roots {
        let root = words::word(roots, i);
        let made = compile::produce(counts, nodes, operands, &area[..v], root);
        produced_order(counts, area, v, ranks, made)?;
    }
    Ok(())
}

// Refusals 13 and 14 of proposed ranks. The class words stand at the front of area; what is behind its first v words is used.
pub fn rank_check(
    counts: Counts,
    nodes: &[u32],
    operands: &[u32],
    roots: &[u32],
    ranks: &[u32],
    area: &mut [u32],
    v: usize,
) -> Result<(), Refusal>
    requires { (counts.nodes ≤ v) × (v + counts.nodes ≤ length area.old) × NodeTables counts nodes.now operands.now × RootTable counts roots.now × Classed counts nodes.now operands.now (take v area.old) }
    ensures value { result ≡ rank_check counts nodes.now operands.now (take v area.old) roots.now ranks.now }
    ensures area_unchanged { take v area.new ≡ take v area.old }
{
    if ranks.len() != counts.atoms || !theory::all_below(ranks, counts.atoms, 0, counts.atoms) {
        return Err(Refusal::RankShape);
    }
    fill_highest(counts, nodes, operands, ranks, area, v);
    rank_order(counts, nodes, operands, roots, ranks, area, v)
}
