// What a host in C or Rust links (host/tight.h): planning and checking a theory of full size on lent slices. Each call answers one u64, whose fields `answers` defines.
#![tactic(auto)]

ghost use Rattle.std.specs.Prelude.{◌≡◌};
ghost use Rattle.plan.specs.Outcome.{plan_outcome, certify_outcome};
ghost use Rattle.kept.specs.Outcome.{outcome};
ghost use Rattle.evaluate.specs.Checks.{tables_of, candidate_of};
ghost use Rattle.tight.specs.Call.{counts_of, plan_of, Plans, Checks};

use evaluate::Plan;
use theory::Counts;

// The planner; buffers 4, 5, 6 and 8 come as `producers`, `ranks`, `readers` and `work`.
#[unsafe(no_mangle)]
pub extern "C" fn tight_plan(
    stamp: u32,
    atoms: usize,
    node_count: usize,
    operand_count: usize,
    root_count: usize,
    nodes: &[u32],
    operands: &[u32],
    roots: &[u32],
    producers: &mut [u32],
    ranks: &mut [u32],
    readers: &mut [u64],
    work: &mut [u32],
) -> u64
    ensures { Plans (plan_outcome (counts_of stamp atoms node_count operand_count root_count) nodes.now operands.now roots.now producers.old ranks.old readers.old work.old) result producers.new ranks.new readers.new work.new }
{
    let counts = Counts {
        stamp,
        atoms,
        nodes: node_count,
        operands: operand_count,
        roots: root_count,
    };
    answers::pack_planning(plan::plan(
        counts, nodes, operands, roots, producers, ranks, readers, work,
    ))
}

// The same with proposed ranks: a C function of its own, so its parameters stand again.
#[unsafe(no_mangle)]
pub extern "C" fn tight_certify(
    stamp: u32,
    atoms: usize,
    node_count: usize,
    operand_count: usize,
    root_count: usize,
    nodes: &[u32],
    operands: &[u32],
    roots: &[u32],
    proposed: &[u32],
    producers: &mut [u32],
    ranks: &mut [u32],
    readers: &mut [u64],
    work: &mut [u32],
) -> u64
    ensures { Plans (certify_outcome (counts_of stamp atoms node_count operand_count root_count) nodes.now operands.now roots.now proposed.now producers.old ranks.old readers.old work.old) result producers.new ranks.new readers.new work.new }
{
    let counts = Counts {
        stamp,
        atoms,
        nodes: node_count,
        operands: operand_count,
        roots: root_count,
    };
    answers::pack_planning(plan::certify(
        counts, nodes, operands, roots, proposed, producers, ranks, readers, work,
    ))
}

// The check; `kept` is buffer 7.
#[unsafe(no_mangle)]
pub extern "C" fn tight_check(
    stamp: u32,
    atoms: usize,
    node_count: usize,
    operand_count: usize,
    root_count: usize,
    plan_stamp: u32,
    plan_producers: usize,
    candidate_stamp: u32,
    candidate: &[u64],
    nodes: &[u32],
    operands: &[u32],
    roots: &[u32],
    producers: &[u32],
    readers: &[u64],
    kept: &mut [u32],
) -> u64
    ensures { Checks (outcome 64 8 (tables_of (counts_of stamp atoms node_count operand_count root_count) (plan_of plan_stamp plan_producers) nodes.now operands.now roots.now producers.now readers.now) (candidate_of candidate_stamp candidate.now) kept.old) result kept.new }
{
    let counts = Counts {
        stamp,
        atoms,
        nodes: node_count,
        operands: operand_count,
        roots: root_count,
    };
    let plan = Plan {
        stamp: plan_stamp,
        producers: plan_producers,
    };
    answers::pack_checked(evaluate::check(
        counts,
        plan,
        candidate_stamp,
        candidate,
        nodes,
        operands,
        roots,
        producers,
        readers,
        kept,
    ))
}
