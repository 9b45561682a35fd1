// The ports of a module, as inputs and registers of so many bits.

ghost use Rattle.std.specs.Prelude.{◌≡◌, ◌≤◌, ◌<◌, ◌^◌, true, IfOk, IfSome};
ghost use Rattle.elab_flat.specs.Nets.{decimal_in, bound_of, range_between, range_of, leads_in, start_of, net_of, nets_from};

use expr_elab::vectors::{Range, Vector};
use expr_elab::{Scope, assigned, width};
use expr_value::value as evaluate;
use sqlite_items::Items;
use std::alloc::{AllocError, Global};
use vlog_syntax as syntax;
use vlog_syntax::{Direction, NetKind, Port};
use vlog_tokens::{Number, number_of};
use word_core::Name;

/// The greatest number of declared bits.
const BIT_LIMIT: u32 = 65_536;

/// Where plain decimals begin that stand for numbers below zero.
const DECIMAL_LIMIT: u128 = 2_147_483_648;

/// A port of a module: an input, or a register.
#[derive(Drop)]
pub struct Net {
    pub name: Name,
    pub vector: Vector,
    /// Whether it is an input; else it is a register.
    pub input: bool,
    /// The value that it is declared to start with, which is cut to its width.
    pub start: Option<u128>,
}

/// The value of a plain decimal, which has 32 bits. None where it stands for a number below zero.
fn decimal(number: Number) -> Option<u64>
    ensures value { result ≡ decimal_in number }
    ensures small { IfSome result (λ b. b < 2 ^ 31) }
{
    if !number.is_signed {
        return None;
    }
    if number.value >= DECIMAL_LIMIT {
        return None;
    }
    Some(number.value as u64)
}

/// The bound of a range, where it is a plain decimal.
fn bound(expr: &syntax::Expr) -> Option<u64>
    ensures value { result ≡ bound_of expr.now }
    ensures small { IfSome result (λ b. b < 2 ^ 31) }
{
    match expr {
        syntax::Expr::Number(number) => {
            let number = number_of(number.text.bytes())?;
            decimal(number)
        }
        _ => None,
    }
}

/// The range between two bounds, where it has at most 128 indices.
fn range_between(left: u64, right: u64) -> Option<Range>
    requires left { left < 2 ^ 31 }
    requires right { right < 2 ^ 31 }
    ensures { result ≡ range_between left right }
{
    if left < right + 128 && right < left + 128 {
        Some(Range { left, right })
    } else {
        None
    }
}

/// The range of a port. None where it isn't built.
fn range(source: &Option<syntax::Range>) -> Option<Option<Range>>
    ensures { result ≡ range_of source.now }
{
    match source {
        None => Some(None),
        Some(range) => {
            let left = bound(&range.left)?;
            let right = bound(&range.right)?;
            let range = range_between(left, right)?;
            Some(Some(range))
        }
    }
}

/// Whether a port is an input. None where it isn't built.
fn leads_in(
    direction: Direction,
    kind: Option<NetKind>,
    value: &Option<syntax::Expr>,
) -> Option<bool>
    ensures { result ≡ leads_in direction kind value.now }
{
    match direction {
        Direction::Input => {
            if kind.is_none() && value.is_none() {
                Some(true)
            } else {
                None
            }
        }
        Direction::Output => match kind {
            Some(NetKind::Reg) => Some(false),
            _ => None,
        },
    }
}

/// The value that a port of so many bits starts with, if one is written. None where it isn't built.
fn start(
    alloc: Global,
    width: u8,
    value: &Option<syntax::Expr>,
) -> Result<Option<Option<u128>>, AllocError>
    requires { width ≤ 128 }
    ensures { IfOk result (λ s. s ≡ start_of width value.now) }
{
    let Some(expr) = value else {
        return Ok(Some(None));
    };
    let empty = Scope::new(alloc);
    let Some(expr) = assigned(alloc, &empty, width, expr)? else {
        return Ok(None);
    };
    let word = evaluate(&expr, &[]);
    Ok(Some(Some(word.bits)))
}

/// A port as a net whose bits are numbered on from `first`. None where it isn't built, and where there would be too many bits.
fn net_of(alloc: Global, first: u32, port: &Port) -> Result<Option<Net>, AllocError>
    requires { first ≤ 65536 }
    ensures { IfOk result (λ n. n ≡ net_of first port.now) }
{
    let Some(input) = leads_in(port.direction, port.kind, &port.value) else {
        return Ok(None);
    };
    let Some(range) = range(&port.range) else {
        return Ok(None);
    };
    let vector = Vector { range, first };
    let Some(start) = start(alloc, width(vector), &port.value)? else {
        return Ok(None);
    };
    if first + width(vector) as u32 > BIT_LIMIT {
        return Ok(None);
    }
    Ok(Some(Net {
        name: Name::make(alloc, port.name.name.bytes())?,
        vector,
        input,
        start,
    }))
}

/// The ports in order. None where one isn't built.
pub fn nets(alloc: Global, ports: &[Port]) -> Result<Option<Items<Net>>, AllocError>
    ensures { IfOk result (λ ns. ns ≡ nets_from 0 ports.now) }
{
    let mut nets = Items::new(alloc);
    let mut first = 0;
    for port in ports {
        let Some(net) = net_of(alloc, first, port)? else {
            return Ok(None);
        };
        first += width(net.vector) as u32;
        nets.push(net)?;
    }
    Ok(Some(nets))
}
