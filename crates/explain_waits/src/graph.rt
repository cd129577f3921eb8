//! Graphs of threads, as the wait-for graph, and which threads lead to each other in them.

ghost use Rattle.std.specs.Prelude.{◌<◌, ◌↔◌, ℕ, IsTrue};
ghost use Rattle.semantics.specs.Mask.{has};
ghost use Rattle.explain_waits.specs.{Graph.{Leads, IsIn}, inner.Rows.IsExtendedThrough};

use guest_code::limits::THREADS;
use semantics::mask::Mask;

/// A graph of threads by its adjacency: for each thread, by number, the set of threads to which an
/// edge, or a way of several edges, leads from it.
pub type Rows = [Mask; THREADS];

// One step of Warshall's algorithm: each thread that leads to thread `k` leads also to all threads
// to which `k` leads.
fn extend_through(rows: &mut Rows, k: u8)
    requires { k < THREADS }
    ensures { IsExtendedThrough rows.old rows.new k }
{
    let through = rows[k as usize];
    for t in 0..THREADS {
        if rows[t].has(k) {
            rows[t] = rows[t].union(through);
        }
    }
}

/// For each thread the threads to which it leads through one or more of these edges.
pub fn transitive_closure(edges: Rows) -> Rows
    ensures { (t u : ℕ) → IsIn result t u ↔ Leads (IsIn edges) t u }
{
    let mut rows = edges;
    for k in 0..THREADS as u8 {
        extend_through(&mut rows, k);
    }
    rows
}

/// The circle of a thread, its strongly connected component: the threads to which it leads and that
/// lead to it. Empty where the thread doesn't lead to itself. `rows` is a transitive closure.
pub fn circle_of(rows: &Rows, thread: u8) -> Mask
    requires { thread < THREADS }
    ensures { (u : ℕ) → IsTrue (has result u) ↔ (IsIn rows.now thread u × IsIn rows.now u thread) }
{
    let mut circle = Mask::empty();
    for u in 0..THREADS as u8 {
        circle = circle.with(
            u,
            rows[thread as usize].has(u) && rows[u as usize].has(thread),
        );
    }
    circle
}
