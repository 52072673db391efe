ghost use Rattle.std.specs.Prelude.{◌≡◌, ◌≢◌, ◌==◌, ◌&&◌, ◌≤◌, ◌<◌, length, ℕ, List, [], true, map, filter, IfOk, IfSome, IsNone, MatchOption, All, Contains, ◌↔◌};
ghost use Rattle.std.specs.List.{list_any};
ghost use Rattle.wat_list.specs.Has.{Has};
ghost use Rattle.wat_cycle.specs.Levels.{HasArc, has, leads, level, level_at, levels, IsFound, IsNext, BeginsIn};
ghost use Rattle.wat_cycle.specs.Walk.{IsCycle, IsNamedCycle};

use std::alloc::Global;
use wat_list::{Items, NoMemory};

/// The first connection waits for the second.
#[derive(Clone, Copy, Debug)]
pub struct Arc {
    pub from: u16,
    pub to: u16,
}

pub type Nodes = Items<u16>;

/// Whether it is one of them.
fn has(xs: &[u16], x: u16) -> bool
    ensures { result ≡ has xs.now x }
{
    xs.iter().any(|y| *y == x)
}

/// Whether an arc leads from the connection to one of these.
fn leads(arcs: &[Arc], ends: &[u16], c: u16) -> bool
    ensures { result ≡ leads arcs.now ends.now c }
{
    arcs.iter().any(|a| a.from == c && has(ends, a.to))
}

/// From which of the nodes an arc leads to one of these.
fn level(alloc: Global, arcs: &[Arc], nodes: &[u16], ends: &[u16]) -> Result<Nodes, NoMemory>
    ensures { IfOk result (λ level_now. level_now ≡ level arcs.now nodes.now ends.now) }
{
    let found: Vec<u16> = nodes
        .iter()
        .copied()
        .filter(|c| leads(arcs, ends, *c))
        .collect(alloc)?;
    Ok(Items::from_vec(found))
}

/// The levels below the first that has the connection.
fn search(
    alloc: Global,
    arcs: &[Arc],
    nodes: &[u16],
    conn: u16,
) -> Result<Option<Items<Nodes>>, NoMemory>
    ensures { IfOk result (λ found. MatchOption found ((n : ℕ) → n < length nodes.now → Has conn (level_at arcs.now nodes.now conn n) → ⊥) (IsFound arcs.now nodes.now conn)) }
{
    let mut below = Items::new(alloc);
    let mut here = level(alloc, arcs, nodes, &[conn])?;
    for _ in 0..nodes.len() {
        if has(here.as_slice(), conn) {
            return Ok(Some(below));
        }
        let next = level(alloc, arcs, nodes, here.as_slice())?;
        below.push(here)?;
        here = next;
    }
    Ok(None)
}

/// The ends of the arcs from the connection to one of these.
fn nexts(alloc: Global, arcs: &[Arc], ends: &[u16], c: u16) -> Result<Vec<u16>, NoMemory>
    ensures { IfOk result (λ v. v.items ≡ map (λ a. a.to) (filter (λ a. a.from == c && has ends.now a.to) arcs.now)) }
{
    arcs.iter()
        .filter(|a| a.from == c && has(ends, a.to))
        .map(|a| a.to)
        .collect(alloc)
}

fn least(xs: &[u16]) -> Option<u16>
    ensures empty { IsNone result ↔ (xs.now ≡ []) }
    ensures one { IfSome result (Contains xs.now) }
    ensures least { IfSome result (λ m. All (λ x. m ≤ x) xs.now) }
{
    xs.iter().copied().min()
}

/// The least next one from which the walk goes on.
fn next(alloc: Global, arcs: &[Arc], ends: &[u16], c: u16) -> Result<u16, NoMemory>
    requires { leads arcs.now ends.now c ≡ true }
    ensures { IfOk result (IsNext arcs.now ends.now c) }
{
    let found = nexts(alloc, arcs, ends, c)?;
    match least(found.as_slice()) {
        Some(d) => Ok(d),
        None => unreachable!(),
    }
}

/// The shortest cycle through the connection, and among these the least list, without the connection itself.
pub fn named_cycle(
    alloc: Global,
    arcs: &[Arc],
    nodes: &[u16],
    conn: u16,
) -> Result<Option<Nodes>, NoMemory>
    requires { BeginsIn arcs.now nodes.now }
    ensures { IfOk result (λ found. MatchOption found ((cs : List ℕ) → IsCycle (HasArc arcs.now) conn cs → ⊥) (IsNamedCycle (HasArc arcs.now) conn)) }
{
    match search(alloc, arcs, nodes, conn)? {
        None => Ok(None),
        Some(levels) => {
            let path = walk_back(alloc, arcs, nodes, levels.as_slice(), conn)?;
            Ok(Some(path))
        }
    }
}

/// The least walk down the levels that were found for these nodes.
fn walk_back(
    alloc: Global,
    arcs: &[Arc],
    nodes: &[u16],
    levels: &[Nodes],
    conn: u16,
) -> Result<Nodes, NoMemory>
    requires begins { BeginsIn arcs.now nodes.now }
    requires found { IsFound arcs.now nodes.now conn levels.now }
    ensures { IfOk result (IsNamedCycle (HasArc arcs.now) conn) }
{
    let mut path = Items::new(alloc);
    let mut at = conn;
    let mut left = levels.len();
    while left > 0 {
        left -= 1;
        at = next(alloc, arcs, levels[left].as_slice(), at)?;
        path.push(at)?;
    }
    Ok(path)
}
