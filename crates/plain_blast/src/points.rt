// The hit literals of points.

ghost use Rattle.std.specs.Prelude.{◌≡◌, ℕ, ◌+◌, ◌<◌, length, All, IfOk, get_or, slice_index_or};
ghost use Rattle.aig_core.specs.Graph.{IsLiteral, Extends};
ghost use Rattle.plain_blast.specs.Plain.{any_of, hits_of};
ghost use Rattle.plain_blast.specs.Exist.{PathsExist};
ghost use Rattle.plain_blast.specs.Chains.{place_from, IsChain};

use crate::bodies::Passed;
use aig_core::{Aig, Memory};
use std::alloc::Global;
use word_blast::bits;

/// A number above each site of the paths.
fn site_bound(paths: &[Passed]) -> usize
    ensures { All (λ p. p.site < result) paths.now }
{
    let mut bound: usize = 0;
    for p in paths {
        bound = bound.max(p.site as usize + 1);
    }
    bound
}

/// For each site the place of its first path, and for each path that of the next one of its site; where there is
/// none, the number of paths.
#[derive(Drop)]
struct Chains {
    first: Vec<usize>,
    next: Vec<usize>,
}

/// The chains of the paths.
fn link(alloc: Global, paths: &[Passed]) -> Result<Chains, Memory>
    ensures first { IfOk result (λ c. (site : ℕ) → get_or c.first.items site (length paths.now) ≡ place_from site paths.now 0) }
    ensures next { IfOk result (λ c. IsChain paths.now c.next.items 0) }
{
    let none = paths.len();
    let mut first = vec![in alloc; none; site_bound(paths)]?;
    let mut next = vec![in alloc; none; none]?;
    for i in 0..paths.len() {
        let k = none - 1 - i;
        let site = paths[k].site as usize;
        next[k] = first[site];
        first[site] = k;
    }
    Ok(Chains { first, next })
}

/// The place of a site's first path.
fn place(first: &[usize], site: u32, none: usize) -> usize
    ensures { result ≡ get_or first.now site none }
{
    let site = site as usize;
    if site < first.len() {
        first[site]
    } else {
        none
    }
}

/// The or over the path literals of a site.
#[tactic(auto, using(crate::proofs::Existing::keeping))]
fn any_path(aig: &mut Aig, paths: &[Passed], chains: &Chains, site: u32) -> Result<u32, Memory>
    requires exist { PathsExist aig.old paths.now }
    requires first { get_or chains.now.first.items site (length paths.now) ≡ place_from site paths.now 0 }
    requires next { IsChain paths.now chains.now.next.items 0 }
    ensures exact { IfOk result (λ x. (aig.new, x) ≡ any_of aig.old 0 paths.now site) }
    ensures exists { IfOk result (IsLiteral aig.new) }
    ensures kept { Extends aig.old aig.new }
{
    let _alloc = aig.allocator();
    let mut any = 0;
    let mut at = place(&chains.first, site, paths.len());
    while at < paths.len() {
        any = bits::or(aig, any, paths[at].path)?;
        at = chains.next[at];
    }
    Ok(any)
}

/// The hit literals of sites.
#[tactic(auto, using(crate::proofs::Existing::keeping))]
pub fn hit_literals(aig: &mut Aig, paths: &[Passed], sites: &[u32]) -> Result<Vec<u32>, Memory>
    requires { PathsExist aig.old paths.now }
    ensures exact { IfOk result (λ r. (aig.new, r.items) ≡ hits_of aig.old paths.now sites.now) }
    ensures exist { IfOk result (λ r. All (IsLiteral aig.new) r.items) }
    ensures kept { Extends aig.old aig.new }
{
    let alloc = aig.allocator();
    let chains = link(alloc, paths)?;
    let mut hits = Vec::with_capacity(alloc, sites.len())?;
    for site in sites {
        let hit = any_path(aig, paths, &chains, *site)?;
        hits.push(hit)?;
    }
    Ok(hits)
}
