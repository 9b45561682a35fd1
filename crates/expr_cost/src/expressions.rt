//! What expressions cost.

ghost use Rattle.std.specs.Prelude.{◌≡◌, ◌+◌, ◌*◌, length};
ghost use Rattle.bit_exprs.specs.Values.{width_of};
ghost use Rattle.bit_exprs.specs.Operators.{unary_width, binary_width};
ghost use Rattle.bit_exprs.specs.Cost.{capped, unary_cost, binary_cost, cost_of};

use crate::operators::{binary_cost, binary_width, unary_cost, unary_width};
use crate::sums::{plus, times};
use bit_exprs::forms::{BinaryOp, Expr, UnaryOp};

/// What an expression costs, and how wide its word is. Either is 2^64 - 1 where it is more.
#[derive(Clone, Copy)]
pub struct Weight {
    pub cost: u64,
    pub width: u64,
}

/// What it costs to choose among so many bits for each of some places by an index, with `gates` for each
/// pair beside the width of the index.
pub fn select_cost(index: Weight, gates: u64, places: u8, bits: usize) -> u64
    ensures { result ≡ capped (index.cost + places * bits * (index.width + gates)) }
{
    let pairs = times(places as u64, bits as u64);
    plus(index.cost, times(pairs, plus(index.width, gates)))
}

fn unary(op: UnaryOp, operand: Weight) -> Weight
    ensures cost { result.cost ≡ capped (operand.cost + unary_cost op operand.width) }
    ensures width { result.width ≡ capped (unary_width op operand.width) }
{
    Weight {
        cost: plus(operand.cost, unary_cost(op, operand.width)),
        width: unary_width(op, operand.width),
    }
}

fn binary(op: BinaryOp, left: Weight, right: Weight) -> Weight
    ensures cost { result.cost ≡ capped (left.cost + right.cost + binary_cost op left.width right.width) }
    ensures width { result.width ≡ capped (binary_width op left.width right.width) }
{
    let operands = plus(left.cost, right.cost);
    Weight {
        cost: plus(operands, binary_cost(op, left.width, right.width)),
        width: binary_width(op, left.width, right.width),
    }
}

fn choice(test: Weight, yes: Weight, no: Weight) -> Weight
    ensures cost { result.cost ≡ capped (test.cost + yes.cost + no.cost + (3 * yes.width + test.width)) }
    ensures width { result.width ≡ yes.width }
{
    let operands = plus(plus(test.cost, yes.cost), no.cost);
    let chosen = plus(times(3, yes.width), test.width);
    Weight {
        cost: plus(operands, chosen),
        width: yes.width,
    }
}

// What an operand of a row costs with the test that it isn't 0.
fn tested(operand: Weight) -> u64
    ensures { result ≡ capped (operand.cost + (operand.width + 1)) }
{
    plus(operand.cost, plus(operand.width, 1))
}

/// What an expression costs, and how wide its word is. It takes no memory, and a step for each node.
pub fn weigh(expr: &Expr) -> Weight
    ensures cost { result.cost ≡ capped (cost_of expr.now) }
    ensures width { result.width ≡ capped (width_of expr.now) }
{
    match expr {
        Expr::Const { word, signed: _ } => Weight {
            cost: 0,
            width: word.width as u64,
        },
        Expr::Read(bits) => Weight {
            cost: 0,
            width: bits.len() as u64,
        },
        Expr::Select {
            vector,
            window,
            index,
        } => {
            let at = weigh(index.get());
            Weight {
                cost: select_cost(at, 2, window.count, vector.len()),
                width: window.count as u64,
            }
        }
        Expr::Unary { op, value } => {
            let operand = weigh(value.get());
            unary(*op, operand)
        }
        Expr::Binary { op, left, right } => {
            let l = weigh(left.get());
            let r = weigh(right.get());
            binary(*op, l, r)
        }
        Expr::Choose { cond, yes, no } => {
            let t = weigh(cond.get());
            let y = weigh(yes.get());
            let n = weigh(no.get());
            choice(t, y, n)
        }
        Expr::Logical {
            and: _,
            chain: _,
            operands,
        } => {
            let mut total = 0;
            for operand in operands.as_slice() {
                let next = weigh(operand);
                total = plus(total, tested(next));
            }
            Weight {
                cost: total,
                width: 1,
            }
        }
    }
}

/// What an expression costs, or 2^64 - 1 where it costs more. It takes no memory, and a step for each node.
pub fn cost(expr: &Expr) -> u64
    ensures { result ≡ capped (cost_of expr.now) }
{
    weigh(expr).cost
}
