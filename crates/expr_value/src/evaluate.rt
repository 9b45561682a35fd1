//! What an expression is worth.

ghost use Rattle.std.specs.Prelude.{◌≡◌, ◌==◌, ◌&&◌, ◌||◌, cond, length};
ghost use Rattle.bit_exprs.specs.Values.{width_of, value_of};
ghost use Rattle.bit_exprs.specs.Formed.{IsFormed};

use crate::operators::{binary, flag, unary};
use crate::selects::{read, select};
use bit_exprs::forms::Expr;
use bit_exprs::signs::{both, is_signed};
use word_core::Word;

fn is_zero(a: Word) -> bool
    ensures { result ≡ (a.bits == 0) }
{
    a.bits == 0
}

// One operand more of a row of `&&` or `||`.
fn combined(and: bool, so_far: bool, next: bool) -> bool
    ensures { result ≡ cond and (so_far && next) (so_far || next) }
{
    if and { so_far && next } else { so_far || next }
}

/// The value of an expression, under the values of the bits by number. It takes no memory.
///
/// It takes a step for each node, and for a select one for each bit of its vector and bit selected.
pub fn value(expr: &Expr, values: &[bool]) -> Word
    requires { IsFormed expr.now (length values.now) }
    ensures width { result.width ≡ width_of expr.now }
    ensures bits { result.bits ≡ value_of expr.now values.now }
{
    match expr {
        Expr::Const { word, signed: _ } => *word,
        Expr::Read(bits) => read(bits.as_slice(), values),
        Expr::Select {
            vector,
            window,
            index,
        } => {
            let inner = index.get();
            let at = value(inner, values);
            let signed = is_signed(inner);
            select(vector.as_slice(), *window, at, signed, values)
        }
        Expr::Unary { op, value: operand } => {
            let body = operand.get();
            let x = value(body, values);
            unary(*op, x)
        }
        Expr::Binary { op, left, right } => {
            let l = left.get();
            let r = right.get();
            let a = value(l, values);
            let b = value(r, values);
            let sl = is_signed(l);
            let sr = is_signed(r);
            let signed = both(sl, sr);
            binary(*op, signed, a, b)
        }
        Expr::Choose { cond, yes, no } => {
            let t = cond.get();
            let y = yes.get();
            let n = no.get();
            let test = value(t, values);
            if is_zero(test) {
                value(n, values)
            } else {
                value(y, values)
            }
        }
        Expr::Logical {
            and,
            chain: _,
            operands,
        } => {
            let every = *and;
            let mut holds = every;
            for operand in operands.as_slice() {
                let next = value(operand, values);
                holds = combined(every, holds, next.bits != 0);
            }
            flag(holds)
        }
    }
}
