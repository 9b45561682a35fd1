//! The words of expressions.

ghost use Rattle.std.specs.Prelude.{◌≡◌, ◌==◌, not, length, All, IfOk};
ghost use Rattle.aig_core.specs.Graph.{IsLiteral, Extends, Gives};
ghost use Rattle.word_blast.specs.Words.{spelled, GivesWord};
ghost use Rattle.bit_exprs.specs.Values.{width_of, value_of};
ghost use Rattle.bit_exprs.specs.Formed.{IsFormed};
ghost use Rattle.expr_blast.specs.Circuits.{word_of, test_of};

use crate::literals::{constant, constants, picked, single};
use crate::operators::{any, binary, unary, with_operand};
use crate::selecting::select;
use aig_core::{Aig, Memory};
use bit_exprs::forms::Expr;
use bit_exprs::signs::{both, is_signed};
use word_blast::blast_mux;

// The word of an expression, from the literals of the bits.
#[tactic(auto, using(aig_core::proofs::Values::keeping, word_blast::proofs::Combinators::lasting))]
fn made(aig: &mut Aig, expr: &Expr, bits: &[u32]) -> Result<Vec<u32>, Memory>
    requires formed { IsFormed expr.now (length bits.now) }
    requires bits_exist { All (IsLiteral aig.old) bits.now }
    ensures exact { IfOk result (λ r. (aig.new, r.items) ≡ word_of expr.now aig.old bits.now) }
    ensures exist { IfOk result (λ r. All (IsLiteral aig.new) r.items) }
    ensures width { IfOk result (λ r. length r.items ≡ width_of expr.now) }
    ensures kept { Extends aig.old aig.new }
{
    let alloc = aig.allocator();
    match expr {
        Expr::Const { word, signed: _ } => {
            let literals = constants(alloc, *word)?;
            Ok(literals)
        }
        Expr::Read(from) => {
            let literals = picked(alloc, bits, from.as_slice())?;
            Ok(literals)
        }
        Expr::Select {
            vector,
            window,
            index,
        } => {
            let inner = index.get();
            let at = made(aig, inner, bits)?;
            let from = picked(alloc, bits, vector.as_slice())?;
            let signed = is_signed(inner);
            let literals = select(aig, *window, signed, &at, &from)?;
            Ok(literals)
        }
        Expr::Unary { op, value } => {
            let body = value.get();
            let x = made(aig, body, bits)?;
            let literals = unary(aig, *op, &x)?;
            Ok(literals)
        }
        Expr::Binary { op, left, right } => {
            let l = left.get();
            let r = right.get();
            let x = made(aig, l, bits)?;
            let y = made(aig, r, bits)?;
            let sl = is_signed(l);
            let sr = is_signed(r);
            let signed = both(sl, sr);
            let literals = binary(aig, *op, signed, &x, &y)?;
            Ok(literals)
        }
        Expr::Choose { cond, yes, no } => {
            let t = cond.get();
            let y = yes.get();
            let n = no.get();
            let tested = made(aig, t, bits)?;
            let test = any(aig, &tested)?;
            let one = made(aig, y, bits)?;
            let other = made(aig, n, bits)?;
            let literals = blast_mux(aig, test, &one, &other)?;
            Ok(literals)
        }
        Expr::Logical {
            and,
            chain: _,
            operands,
        } => {
            let every = *and;
            let mut so_far = constant(every);
            for operand in operands.as_slice() {
                let x = made(aig, operand, bits)?;
                so_far = with_operand(aig, every, so_far, &x)?;
            }
            let literals = single(alloc, so_far)?;
            Ok(literals)
        }
    }
}

/// The literals of a formed expression, the least significant first, from those of the bits by number. After want of
/// memory the gates made so far stay.
#[tactic(auto, using(aig_core::proofs::Values::keeping))]
pub fn word(aig: &mut Aig, expr: &Expr, bits: &[u32]) -> Result<Vec<u32>, Memory>
    requires formed { IsFormed expr.now (length bits.now) }
    requires bits_exist { All (IsLiteral aig.old) bits.now }
    ensures exact { IfOk result (λ r. (aig.new, r.items) ≡ word_of expr.now aig.old bits.now) }
    ensures exist { IfOk result (λ r. All (IsLiteral aig.new) r.items) }
    ensures width { IfOk result (λ r. length r.items ≡ width_of expr.now) }
    ensures kept { Extends aig.old aig.new }
    ensures meaning { IfOk result (λ r. GivesWord aig.old aig.new r.items (width_of expr.now) (λ leaves. value_of expr.now (spelled aig.old leaves bits.now))) }
{
    let _alloc = aig.allocator();
    let literals = made(aig, expr, bits)?;
    Ok(literals)
}

/// The literal of a formed expression's not being 0.
#[tactic(auto, using(aig_core::proofs::Values::keeping))]
pub fn test(aig: &mut Aig, expr: &Expr, bits: &[u32]) -> Result<u32, Memory>
    requires formed { IsFormed expr.now (length bits.now) }
    requires bits_exist { All (IsLiteral aig.old) bits.now }
    ensures exact { IfOk result (λ r. (aig.new, r) ≡ test_of expr.now aig.old bits.now) }
    ensures exists { IfOk result (IsLiteral aig.new) }
    ensures kept { Extends aig.old aig.new }
    ensures meaning { IfOk result (λ r. Gives aig.old aig.new r (λ leaves. not (value_of expr.now (spelled aig.old leaves bits.now) == 0))) }
{
    let _alloc = aig.allocator();
    let literals = made(aig, expr, bits)?;
    let literal = any(aig, &literals)?;
    Ok(literal)
}
