// Whether certificates can hold the numbers of what was found out of a point.

ghost use Rattle.std.specs.Prelude.{◌≡◌, ◌<◌, ◌^◌, ◌↔◌, map, sum_by, All, IsTrue};
ghost use Rattle.std.specs.List.{AllByRecursion};
ghost use Rattle.bit_system.specs.ProofLines.{seen};
ghost use Rattle.proof_lines.specs.Spelling.{IsId, IsLiteral, Fits, Addition, Deletion};
ghost use Rattle.cert_text.specs.Spelling.{plain_line, added, all_added, FitsProof};
ghost use Rattle.text_prover.specs.Numbers.{FitsIfAny, LadderFits, NumbersFit};

use bit_system::{Ladder, Proof};
use cnf_core::{Line, Lit};
use point_prover::Proved;

/// Whether a line can name a clause by this number.
fn is_id(id: u64) -> bool
    ensures { IsTrue result ↔ IsId id }
{
    0 < id && id < 1 << 63
}

fn are_ids(ids: &[u64]) -> bool
    ensures { IsTrue result ↔ All IsId ids.now }
{
    for id in ids {
        if !is_id(*id) {
            return false;
        }
    }
    true
}

/// Shows that the literals have variables from 1 to 2^31 - 1.
fn literals_fit(lits: &[Lit])
    ensures { All IsLiteral lits.now }
{
    for lit in lits {
        let _variable = lit.variable();
    }
}

fn addition_fits(id: u64, lits: &[Lit], hints: &[u64]) -> bool
    ensures { IsTrue result ↔ Fits (Addition id lits.now hints.now) }
{
    literals_fit(lits);
    if !is_id(id) {
        return false;
    }
    are_ids(hints)
}

fn deletion_fits(id: u64, ids: &[u64]) -> bool
    ensures { IsTrue result ↔ Fits (Deletion id ids.now) }
{
    if !is_id(id) {
        return false;
    }
    are_ids(ids)
}

fn line_fits(line: &Line) -> bool
    ensures { IsTrue result ↔ Fits (plain_line (seen line.now)) }
{
    match line {
        Line::Add { id, lits, hints } => addition_fits(*id, lits.as_slice(), hints.as_slice()),
        Line::Delete { id, ids } => deletion_fits(*id, ids.as_slice()),
    }
}

fn lines_fit(lines: &[Line]) -> bool
    ensures { IsTrue result ↔ All (λ line. Fits (plain_line (seen line))) lines.now }
{
    for line in lines {
        if !line_fits(line) {
            return false;
        }
    }
    true
}

/// How many literals a line adds.
fn added(line: &Line) -> u64
    ensures { result ≡ added (seen line.now) }
{
    match line {
        Line::Add { lits, .. } => lits.len() as u64,
        Line::Delete { .. } => 0,
    }
}

/// Whether the lines add fewer than 2^63 literals.
fn few_added(lines: &[Line]) -> bool
    ensures { IsTrue result ↔ sum_by (λ line. added (seen line)) lines.now < 2 ^ 63 }
{
    let mut total: u64 = 0;
    for line in lines {
        total = total.saturating_add(added(line));
    }
    total < 1 << 63
}

fn proof_fits(proof: &Proof) -> bool
    ensures { IsTrue result ↔ FitsProof proof.now }
{
    let lines = proof.lines();
    if lines.len() as u64 >= 1 << 63 {
        return false;
    }
    if !lines_fit(lines) {
        return false;
    }
    few_added(lines)
}

fn proofs_fit(proofs: &[Proof]) -> bool
    ensures { IsTrue result ↔ All FitsProof proofs.now }
{
    for proof in proofs {
        if !proof_fits(proof) {
            return false;
        }
    }
    true
}

fn hit_fits(hit: &Option<Proof>) -> bool
    ensures { IsTrue result ↔ FitsIfAny hit.now }
{
    match hit {
        Some(proof) => proof_fits(proof),
        None => true,
    }
}

fn ladder_fits(ladder: &Ladder) -> bool
    ensures { IsTrue result ↔ LadderFits ladder.now }
{
    if ladder.lemmas.len() as u64 >= 1 << 63 {
        return false;
    }
    if !proofs_fit(ladder.steps.as_slice()) {
        return false;
    }
    hit_fits(&ladder.hit)
}

/// Whether a certificate can hold the numbers: there are fewer than 2^63 lemmas, lines, literals and cycles, and
/// lines name clauses by numbers from 1 to 2^63 - 1. The solver makes others only where it ends more conflicts
/// than that, which nothing proves.
pub fn numbers_fit(found: &Proved) -> bool
    ensures { IsTrue result ↔ NumbersFit found.now }
{
    match found {
        Proved::Excluded(ladder) => ladder_fits(ladder),
        Proved::Reached(walk) => (walk.lines.len() as u64) < 1 << 63,
        Proved::Open { ladder, .. } => ladder_fits(ladder),
    }
}
