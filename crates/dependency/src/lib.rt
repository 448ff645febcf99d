// The dependencies of a theory one by one, and the derivation of ranks over them: `each_dependency` and `derive_ranks` of tight/compile.rs.
#![tactic(auto)]

ghost use Rattle.std.specs.Prelude.{◌≡◌, ◌+◌, ◌*◌, ◌<◌, ◌≤◌, take, MatchOption};
ghost use Rattle.theory.specs.Node.{node_at};
ghost use Rattle.graph.specs.Derive.{derive};
ghost use Rattle.kahn.specs.Area.{part};
ghost use Rattle.kahn.specs.Answer.{answered};
ghost use Rattle.ranks.specs.Dependency.{dependencies};
ghost use Rattle.ranks.specs.Kinds.{Grouped};
ghost use Rattle.dependency.specs.Lent.{Lent};
ghost use Rattle.dependency.specs.Cursor.{before, InRange, Stepped};
ghost use Rattle.dependency.specs.Laying.{Ready, LaidBefore, LaidNext, Empty, AllLaid};

use kahn::Cycle;
use theory::{Counts, Node};

// Where the next dependency is looked for: a node and one of its operands while node is a node, then a root position.
#[derive(Clone, Copy)]
pub struct Cursor {
    pub node: usize,
    pub slot: usize,
    pub root: usize,
}

// What stands at a cursor, a dependency from its source to its target or none, and where the next one is looked for.
#[derive(Clone, Copy)]
pub struct Step {
    pub edge: Option<(usize, usize)>,
    pub next: Cursor,
}

// At operand c.slot of node c.node, an And or an Or whose span begins at s and has n entries.
fn operand_dependency(
    counts: Counts,
    nodes: &[u32],
    operands: &[u32],
    roots: &[u32],
    classes: &[u32],
    c: Cursor,
    s: usize,
    n: usize,
) -> Step
    requires { (c.node < counts.nodes) × Lent counts nodes.now operands.now roots.now classes.now × InRange counts nodes.now operands.now classes.now roots.now c × Grouped (node_at nodes.now c.node) s n }
    ensures { Stepped counts nodes.now operands.now classes.now roots.now c result.edge result.next }
{
    let past = Cursor {
        node: c.node + 1,
        slot: 0,
        ..c
    };
    if words::word(classes, c.node) != 1 || c.slot >= n {
        return Step {
            edge: None,
            next: past,
        };
    }
    let o = words::word(operands, s + c.slot);
    let next = Cursor {
        slot: c.slot + 1,
        ..c
    };
    if words::word(classes, o) == 1 {
        Step {
            edge: Some((counts.atoms + o, counts.atoms + c.node)),
            next,
        }
    } else {
        Step { edge: None, next }
    }
}

fn node_dependency(
    counts: Counts,
    nodes: &[u32],
    operands: &[u32],
    roots: &[u32],
    classes: &[u32],
    c: Cursor,
) -> Step
    requires { (c.node < counts.nodes) × Lent counts nodes.now operands.now roots.now classes.now × InRange counts nodes.now operands.now classes.now roots.now c }
    ensures { Stepped counts nodes.now operands.now classes.now roots.now c result.edge result.next }
{
    let next = Cursor {
        node: c.node + 1,
        slot: 0,
        ..c
    };
    match theory::view(nodes, c.node) {
        Node::Atom(a) => Step {
            edge: Some((a, counts.atoms + c.node)),
            next,
        },
        Node::And(s, n) | Node::Or(s, n) => {
            operand_dependency(counts, nodes, operands, roots, classes, c, s, n)
        }
        Node::False | Node::Implies(_, _) | Node::Unknown => Step { edge: None, next },
    }
}

// At root position c.root: from its producer's body, if that is Positive, to its head.
fn root_dependency(
    counts: Counts,
    nodes: &[u32],
    operands: &[u32],
    roots: &[u32],
    classes: &[u32],
    c: Cursor,
) -> Step
    requires { (counts.nodes ≤ c.node) × (c.root < counts.roots) × Lent counts nodes.now operands.now roots.now classes.now × InRange counts nodes.now operands.now classes.now roots.now c }
    ensures { Stepped counts nodes.now operands.now classes.now roots.now c result.edge result.next }
{
    let next = Cursor {
        root: c.root + 1,
        ..c
    };
    let root = words::word(roots, c.root);
    match compile::produce(counts, nodes, operands, classes, root) {
        Ok(Some(p)) => {
            if p.body == 0 {
                return Step { edge: None, next };
            }
            let b = p.body - 1;
            if words::word(classes, b) == 1 {
                Step {
                    edge: Some((counts.atoms + b, p.head)),
                    next,
                }
            } else {
                Step { edge: None, next }
            }
        }
        Ok(None) => Step { edge: None, next },
        Err(_) => Step { edge: None, next },
    }
}

// The dependency at the cursor, in order: nodes rising, then producers.
pub fn next_dependency(
    counts: Counts,
    nodes: &[u32],
    operands: &[u32],
    roots: &[u32],
    classes: &[u32],
    c: Cursor,
) -> Option<Step>
    requires { Lent counts nodes.now operands.now roots.now classes.now × InRange counts nodes.now operands.now classes.now roots.now c }
    ensures { MatchOption result (before counts nodes.now operands.now classes.now roots.now c ≡ dependencies counts nodes.now operands.now classes.now roots.now) (λ s. Stepped counts nodes.now operands.now classes.now roots.now c s.edge s.next) }
{
    if c.node < counts.nodes {
        return Some(node_dependency(counts, nodes, operands, roots, classes, c));
    }
    if c.root < counts.roots {
        return Some(root_dependency(counts, nodes, operands, roots, classes, c));
    }
    None
}

// How many dependencies are laid, and where the next one is looked for.
#[derive(Clone, Copy)]
pub struct Laying {
    pub laid: usize,
    pub cursor: Cursor,
}

// Lays the dependency at the cursor, if there is one; None if none is left. The class words of the nodes stand at the front of area; the edges of v vertices are laid behind them.
fn lay_next(
    counts: Counts,
    nodes: &[u32],
    operands: &[u32],
    roots: &[u32],
    area: &mut [u32],
    v: usize,
    l: Laying,
) -> Option<Laying>
    requires { Ready counts nodes.now operands.now roots.now v area.old × LaidBefore counts nodes.now operands.now roots.now v area.old l }
    ensures { LaidNext counts nodes.now operands.now roots.now v area.old area.new l result }
{
    let m = counts.operands + counts.nodes + counts.roots;
    let n = counts.nodes;
    let step = next_dependency(counts, nodes, operands, roots, &area[..n], l.cursor)?;
    let Some((source, target)) = step.edge else {
        return Some(Laying {
            cursor: step.next,
            ..l
        });
    };
    kahn::lay(&mut area[n..], v, m, l.laid, source, target);
    Some(Laying {
        laid: l.laid + 1,
        cursor: step.next,
    })
}

// Lays all dependencies, in order.
fn lay_all(
    counts: Counts,
    nodes: &[u32],
    operands: &[u32],
    roots: &[u32],
    area: &mut [u32],
    v: usize,
)
    requires { Ready counts nodes.now operands.now roots.now v area.old × Empty counts v area.old }
    ensures { AllLaid counts nodes.now operands.now roots.now v area.old area.new }
{
    let mut l = Laying {
        laid: 0,
        cursor: Cursor {
            node: 0,
            slot: 0,
            root: 0,
        },
    };
    while let Some(next) = lay_next(counts, nodes, operands, roots, area, v, l) {
        l = next;
    }
}

// Derives the atoms' ranks, or finds the lowest atom on or behind a positive cycle. The ranks stand 2 v words behind the class words.
pub fn derive_ranks(
    counts: Counts,
    nodes: &[u32],
    operands: &[u32],
    roots: &[u32],
    area: &mut [u32],
    v: usize,
) -> Result<(), Cycle>
    requires { Ready counts nodes.now operands.now roots.now v area.old × Empty counts v area.old }
    ensures area_after { answered result (part (counts.nodes + 2 * v) counts.atoms area.new) ≡ derive counts.atoms v (dependencies counts nodes.now operands.now (take counts.nodes area.old) roots.now) }
    ensures area_unchanged { take counts.nodes area.new ≡ take counts.nodes area.old }
{
    lay_all(counts, nodes, operands, roots, area, v);
    let m = counts.operands + counts.nodes + counts.roots;
    let n = counts.nodes;
    kahn::derive(&mut area[n..], counts.atoms, v, m)
}
