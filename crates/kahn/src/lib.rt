// The derivation of ranks by Kahn's removal, over edges linked in a lent work area of n vertices and m edges; specs/Area has its sections.
#![tactic(auto)]

ghost use Rattle.std.specs.Prelude.{◌≡◌, not, List, ◌+◌, ◌*◌, ◌<◌, ◌≤◌, eqb, ltb, length, get_or, position};
ghost use Rattle.graph.specs.Edge.{Edge, edge, one};
ghost use Rattle.graph.specs.Removal as removal;
ghost use Rattle.graph.specs.Derive as graph;
ghost use Rattle.kahn.specs.Area.{Sized, part, state_in, LinksKept};
ghost use Rattle.kahn.specs.Laid.{laying, Laid};
ghost use Rattle.kahn.specs.Seeding.{pushing, pushed, Seeding};
ghost use Rattle.kahn.specs.Draining.{Draining};
ghost use Rattle.kahn.specs.Answer.{answered};

// Why no ranks were derived: the lowest atom on or behind a positive cycle.
#[derive(Clone, Copy)]
pub struct Cycle {
    pub atom: usize,
}

// Lays edge number i.
pub fn lay(area: &mut [u32], n: usize, m: usize, i: usize, source: usize, target: usize)
    requires { Sized n m area.old × (i < m) × (source < n) × (target < n) × (get_or area.old (n + target) 0 ≤ i) }
    ensures { area.new ≡ laying n m i source target area.old }
{
    let next = area[source];
    let degree = words::word(area, n + target);
    area[4 * n + i] = target as u32;
    area[4 * n + m + i] = next;
    area[source] = (i + 1) as u32;
    area[n + target] = (degree + 1) as u32;
}

// Queues v behind q others if its degree is 0.
fn push(area: &mut [u32], n: usize, q: usize, v: usize) -> usize
    requires { (n ≤ 327680) × (4 * n ≤ length area.old) × (q < n) × (v < n) }
    ensures { (area.new ≡ pushing n q v area.old) × (result ≡ pushed n q v area.old) }
{
    if words::word(area, n + v) == 0 {
        area[3 * n + q] = v as u32;
        return q + 1;
    }
    q
}

// Queues the vertices whose degree is 0, rising.
fn seed(area: &mut [u32], n: usize) -> usize
    requires { (n ≤ 327680) × (4 * n ≤ length area.old) }
    ensures { Seeding n n result area.old area.new }
{
    let mut q = 0;
    for v in 0..n {
        q = push(area, n, q, v);
    }
    q
}

fn cost(atoms: usize, target: usize) -> usize
    ensures { (result ≡ one (ltb target atoms)) × (result ≤ 1) }
{
    usize::from(target < atoms)
}

// Goes over one edge: its target's rank and degree, and the queue.
fn relax(area: &mut [u32], atoms: usize, n: usize, q: usize, source: usize, target: usize) -> usize
    requires n_bound { (n ≤ 327680) × (4 * n ≤ length area.old) × (q < n) × (source < n) × (target < n) }
    requires nonzero { (0 < get_or area.old (n + target) 0) × (get_or area.old (2 * n + source) 0 ≤ n) }
    ensures area_after { state_in n result area.new ≡ removal.relax atoms (edge source target) (state_in n q area.old) }
    ensures links_kept { LinksKept n area.old area.new × (result ≤ q + 1) }
{
    let degree = words::word(area, n + target);
    let before = words::word(area, 2 * n + target);
    let above = words::word(area, 2 * n + source) + cost(atoms, target);
    let rank = before.max(above);
    area[n + target] = (degree - 1) as u32;
    area[2 * n + target] = rank as u32;
    push(area, n, q, target)
}

// Goes over the edges of vertex c of the queue.
fn spread(area: &mut [u32], atoms: usize, n: usize, m: usize, c: usize, queued: usize) -> usize
    requires { Sized n m area.old × (c < queued) × ((es : List Edge) × Draining atoms es n m c queued area.old) }
    ensures draining { (es : List Edge) → Draining atoms es n m c queued area.old → Draining atoms es n m (c + 1) result area.new }
    ensures links_kept { LinksKept n area.old area.new }
{
    let source = words::word(area, 3 * n + c);
    let mut q = queued;
    let mut link = words::word(area, source);
    // A walk along links, which counts nothing.
    while link != 0 {
        let i = link - 1;
        let target = words::word(area, 4 * n + i);
        let next = words::word(area, 4 * n + m + i);
        q = relax(area, atoms, n, q, source, target);
        link = next;
    }
    q
}

// Takes out the vertices of the queue and those that they free.
fn drain(area: &mut [u32], atoms: usize, n: usize, m: usize, queued: usize) -> usize
    requires { Sized n m area.old × ((es : List Edge) × Draining atoms es n m 0 queued area.old) }
    ensures draining { (es : List Edge) → Draining atoms es n m 0 queued area.old → Draining atoms es n m result result area.new }
    ensures links_kept { LinksKept n area.old area.new }
{
    let mut q = queued;
    let mut c = 0;
    // The queue grows while it is gone through, so its end is no bound of a counted loop.
    while c < q {
        q = spread(area, atoms, n, m, c, q);
        c += 1;
    }
    q
}

// The lowest atom whose degree is not 0.
fn lowest_left(area: &[u32], atoms: usize, n: usize) -> Option<usize>
    requires { (atoms ≤ n) × (2 * n ≤ length area.now) × (n ≤ 327680) }
    ensures { result ≡ position (λ d. not (eqb d 0)) (part n atoms area.now) }
{
    area[n..n + atoms].iter().position(|degree| *degree != 0)
}

// Derives the ranks of the first `atoms` vertices from the edges laid.
pub fn derive(area: &mut [u32], atoms: usize, n: usize, m: usize) -> Result<(), Cycle>
    requires { Sized n m area.old × (atoms ≤ n) × ((es : List Edge) × Laid n m es area.old) }
    ensures area_after { (es : List Edge) → Laid n m es area.old → answered result (part (2 * n) atoms area.new) ≡ graph.derive atoms n es }
    ensures links_kept { LinksKept n area.old area.new }
{
    let seeded = seed(area, n);
    drain(area, atoms, n, m, seeded);
    match lowest_left(area, atoms, n) {
        Some(atom) => Err(Cycle { atom }),
        None => Ok(()),
    }
}
