// A claim for each point of a design.

ghost use Rattle.std.specs.Prelude.{◌≡◌, ◌<◌, ◌≤◌, ◌^◌, length, IfOk};
ghost use Rattle.point_prover.specs.Proved.{IsProved};
ghost use Rattle.text_prover.specs.Naming.{body_of};
ghost use Rattle.source_check.specs.Judging.{verdict_of};
ghost use Rattle.text_prover.specs.Claims.{used_by, IsClaimFor, AreClaimsFor};
ghost use Rattle.text_prover.specs.Proving.{units_of};

use crate::naming::{named_ladder, stimulus};
use crate::numbers::numbers_fit;
use bit_system::System;
use cert_text::{Body, CertClaim};
use cover_points::Point;
use point_prover::{Proved, prove};
use sqlite_items::Items;
use std::alloc::{AllocError, Global};
use word_core::Name;

/// What is claimed of the k-th point of a system, of which this was found out.
fn body(
    alloc: Global,
    system: &System,
    k: u32,
    effort: u64,
    found: Proved,
) -> Result<Body, AllocError>
    requires { IsProved system.now k effort found }
    ensures { IfOk result (λ b. b ≡ body_of system.now.states found) }
{
    let states = system.states();
    match found {
        Proved::Excluded(ladder) => Ok(Body::Excluded(named_ladder(alloc, states, ladder)?)),
        Proved::Reached(walk) => Ok(Body::Reached {
            cycle: (walk.lines.len() as u64).saturating_sub(1),
            stimulus: stimulus(walk),
        }),
        Proved::Open { cycles, ladder, .. } => Ok(Body::Open {
            cycles,
            ladder: named_ladder(alloc, states, ladder)?,
        }),
    }
}

/// The units that are told of what was found out: where the point is left open, those that its search used.
fn used_by(found: &Proved) -> u64
    ensures { result ≡ used_by found.now }
{
    match found {
        Proved::Excluded(_) => 0,
        Proved::Reached(_) => 0,
        Proved::Open { used, .. } => *used,
    }
}

/// A claim, and the units that are told of it.
#[derive(Drop)]
struct OneClaim {
    claim: CertClaim,
    used: u64,
}

/// Claims, and the units that are told of each.
#[derive(Drop)]
pub struct Found {
    pub claims: Items<CertClaim>,
    pub used: Items<u64>,
}

/// Searches for the k-th point, and claims what is found out. Want of memory stands also for numbers that
/// certificates can't hold.
fn claim(
    alloc: Global,
    system: &System,
    k: u32,
    point: &Point,
    effort: u64,
) -> Result<OneClaim, AllocError>
    requires point { k < length system.now.hits }
    requires effort { 0 < effort }
    ensures claim { IfOk result (λ one. IsClaimFor system.now k effort point.now one.claim) }
    ensures used { IfOk result (λ one. one.used ≡ units_of effort (verdict_of one.claim.body)) }
{
    let found = prove(alloc, system, k, effort)?;
    if !numbers_fit(&found) {
        return Err(AllocError);
    }
    let used = used_by(&found);
    let claim = CertClaim {
        line: 1,
        point: Name::make(alloc, point.name.bytes())?,
        body: body(alloc, system, k, effort, found)?,
    };
    Ok(OneClaim { claim, used })
}

/// A claim for each of the points, in their order. The numbers of their lines are left open.
pub fn claims(
    alloc: Global,
    system: &System,
    points: &[Point],
    effort: u64,
) -> Result<Found, AllocError>
    requires points { length points.now ≡ length system.now.hits }
    requires few { length points.now ≤ 2 ^ 32 }
    requires effort { 0 < effort }
    ensures { IfOk result (λ made. AreClaimsFor system.now effort points.now made.claims made.used) }
{
    let mut claims = Items::new(alloc);
    let mut used = Items::new(alloc);
    for k in 0..points.len() {
        let one = claim(alloc, system, k as u32, &points[k], effort)?;
        claims.push(one.claim)?;
        used.push(one.used)?;
    }
    Ok(Found { claims, used })
}
