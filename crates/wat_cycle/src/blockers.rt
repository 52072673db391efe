ghost use Rattle.std.specs.Prelude.{◌≡◌, ℕ, List, [], ◌∷◌, ◌↔◌, map, IsTrue, IfOk, OnOk, MatchOption};
ghost use Rattle.wat_cycle.specs.Arcs.{MoreArcs, IsEdgeOf};
ghost use Rattle.wat_cycle.specs.Waits.{Blocks, IsEdge, AreNamedEdges};
ghost use Rattle.wat_cycle.specs.Walk.{IsCycle, IsNamedCycle};

use crate::request::{Edge, Edges, Request, Requests};
use crate::walk::{Arc, Nodes, named_cycle};
use std::alloc::Global;
use wat_list::{Items, NoMemory};
use wat_locks::Locks;

/// The cycle of blockers through the connection that is named, each edge with the lock that is
/// named for its blocker, or None where there is no cycle through it.
pub fn cycle(
    alloc: Global,
    conn: u16,
    locks: &Locks,
    requests: &Requests,
) -> Result<Option<Edges>, NoMemory>
    ensures { IfOk result (λ found. MatchOption found ((cs : List ℕ) → IsCycle (Blocks locks.now requests.now) conn cs → ⊥) (AreNamedEdges locks.now requests.now conn)) }
{
    match others(alloc, conn, locks, requests.as_slice())? {
        None => Ok(None),
        Some(others) => {
            let found = edges(alloc, conn, locks, requests.as_slice(), others.as_slice())?;
            Ok(Some(found))
        }
    }
}

/// The other members of the named cycle.
fn others(
    alloc: Global,
    conn: u16,
    locks: &Locks,
    requests: &[Request],
) -> Result<Option<Nodes>, NoMemory>
    ensures { IfOk result (λ found. MatchOption found ((cs : List ℕ) → IsCycle (Blocks locks.now requests.now) conn cs → ⊥) (IsNamedCycle (Blocks locks.now requests.now) conn)) }
{
    let nodes = waiting(alloc, requests)?;
    let arcs = arcs(alloc, locks, requests, nodes.as_slice())?;
    others_among(
        alloc,
        conn,
        locks,
        requests,
        nodes.as_slice(),
        arcs.as_slice(),
    )
}

/// The other members, where the arcs are those to blockers that wait themselves.
fn others_among(
    alloc: Global,
    conn: u16,
    locks: &Locks,
    requests: &[Request],
    nodes: &[u16],
    arcs: &[Arc],
) -> Result<Option<Nodes>, NoMemory>
    requires nodes { nodes.now ≡ map (λ r. r.conn) requests.now }
    requires arcs { MoreArcs locks.now requests.now nodes.now [] arcs.now }
    ensures { IfOk result (λ found. MatchOption found ((cs : List ℕ) → IsCycle (Blocks locks.now requests.now) conn cs → ⊥) (IsNamedCycle (Blocks locks.now requests.now) conn)) }
{
    named_cycle(alloc, arcs, nodes, conn)
}

/// The connections that wait.
fn waiting(alloc: Global, requests: &[Request]) -> Result<Nodes, NoMemory>
    ensures { IfOk result (λ nodes. nodes ≡ map (λ r. r.conn) requests.now) }
{
    let mut nodes = Items::new(alloc);
    for request in requests {
        nodes.push(request.conn)?;
    }
    Ok(nodes)
}

/// An arc for each request and each of the nodes that blocks it.
fn arcs(
    alloc: Global,
    locks: &Locks,
    requests: &[Request],
    nodes: &[u16],
) -> Result<Vec<Arc>, NoMemory>
    ensures { IfOk result (λ arcs. MoreArcs locks.now requests.now nodes.now [] arcs.items) }
{
    let mut arcs = Vec::new(alloc);
    for request in requests {
        push_arcs(alloc, &mut arcs, locks, request, nodes)?;
    }
    Ok(arcs)
}

/// The arcs of one request.
fn push_arcs(
    alloc: Global,
    arcs: &mut Vec<Arc>,
    locks: &Locks,
    request: &Request,
    nodes: &[u16],
) -> Result<(), NoMemory>
    ensures { OnOk result (MoreArcs locks.now (request.now ∷ []) nodes.now arcs.old.items arcs.new.items) }
{
    for node in nodes {
        push_arc(alloc, arcs, locks, request, *node)?;
    }
    Ok(())
}

/// An arc where the node blocks the request.
fn push_arc(
    alloc: Global,
    arcs: &mut Vec<Arc>,
    locks: &Locks,
    request: &Request,
    node: u16,
) -> Result<(), NoMemory>
    ensures { OnOk result (MoreArcs locks.now (request.now ∷ []) (node ∷ []) arcs.old.items arcs.new.items) }
{
    let blocking = blocks(alloc, locks, request, node)?;
    if !blocking {
        return Ok(());
    }
    arcs.push(Arc {
        from: request.conn,
        to: node,
    })?;
    Ok(())
}

/// Whether the node holds a lock in conflict with the request.
fn blocks(alloc: Global, locks: &Locks, request: &Request, node: u16) -> Result<bool, NoMemory>
    ensures { IfOk result (λ blocks. IsTrue blocks ↔ Blocks locks.now (request.now ∷ []) request.now.conn node) }
{
    let against = locks.against(alloc, node, request.conn, &request.wants)?;
    Ok(against.is_some())
}

/// The edges from one member to the next, and from the last one back to the first.
fn edges(
    alloc: Global,
    conn: u16,
    locks: &Locks,
    requests: &[Request],
    others: &[u16],
) -> Result<Edges, NoMemory>
    requires { IsNamedCycle (Blocks locks.now requests.now) conn others.now }
    ensures { IfOk result (AreNamedEdges locks.now requests.now conn) }
{
    let mut edges = Items::new(alloc);
    let mut at = conn;
    for next in others {
        edges.push(edge(alloc, locks, requests, at, *next)?)?;
        at = *next;
    }
    edges.push(edge(alloc, locks, requests, at, conn)?)?;
    Ok(edges)
}

/// The edge from a connection to a blocker of it.
fn edge(
    alloc: Global,
    locks: &Locks,
    requests: &[Request],
    from: u16,
    to: u16,
) -> Result<Edge, NoMemory>
    requires { Blocks locks.now requests.now from to }
    ensures ends { IfOk result (λ e. (e.from ≡ from) × (e.to ≡ to)) }
    ensures lock { IfOk result (IsEdge locks.now requests.now) }
{
    for request in requests {
        if let Some(edge) = edge_of(alloc, locks, request, from, to)? {
            return Ok(edge);
        }
    }
    unreachable!()
}

/// The edge to a blocker, where the request is the connection's and has it.
fn edge_of(
    alloc: Global,
    locks: &Locks,
    request: &Request,
    from: u16,
    to: u16,
) -> Result<Option<Edge>, NoMemory>
    ensures { IfOk result (λ found. MatchOption found (Blocks locks.now (request.now ∷ []) from to → ⊥) (IsEdgeOf locks.now request.now from to)) }
{
    if request.conn != from {
        return Ok(None);
    }
    match locks.against(alloc, to, from, &request.wants)? {
        None => Ok(None),
        Some(against) => Ok(Some(Edge {
            from,
            to,
            lock: against.lock,
        })),
    }
}
