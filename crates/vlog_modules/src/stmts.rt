ghost use Rattle.std.specs.Prelude.{◌≡◌, ◌≤◌, ◌<◌, ◌+◌, IfOk, length, if◌then◌else◌};
ghost use Rattle.parsing.specs.declared.fault.Fault.TheVariants.{Expected, TooDeep};
ghost use Rattle.parsing.specs.Reading.{Reads, begins};
ghost use Rattle.parsing.specs.Forms.{node};
ghost use Rattle.vlog_rules.specs.declared.level.Sort.TheVariants as sort;
ghost use Rattle.vlog_rules.specs.Grammar as grammar;
ghost use Rattle.vlog_rules.specs.Grammar.{V, firsts};
ghost use Rattle.vlog_expr.specs.Reading.{form_at, rule_at};
ghost use Rattle.vlog_modules.specs.Reading.{stmt_at, nested_at, statements_at};

use crate::targets::{starts, target};
use parsing::{Fault, Tall};
use sqlite_items::{Boxed, Items};
use std::alloc::Global;
use vlog_expr::{Cursor, expr};
use vlog_rules::Level;
use vlog_syntax::{Expr, Stmt};
use vlog_tokens::Word;

/// Whether a statement begins with the next token.
fn is_statement(cursor: &Cursor<'_, '_>) -> bool
    ensures { result ≡ begins V (firsts sort.Stmt) cursor.now }
{
    cursor.stands(Word::Name)
        || cursor.stands(Word::OpenBrace)
        || cursor.stands(Word::If)
        || cursor.stands(Word::Begin)
}

/// Whether an assignment begins with the next token.
fn is_assignment(cursor: &Cursor<'_, '_>) -> bool
    ensures { result ≡ begins V (firsts sort.Target) cursor.now }
{
    cursor.stands(Word::Name) || cursor.stands(Word::OpenBrace)
}

/// Why no statement stands here, where no level is left.
fn no_statement(cursor: &mut Cursor<'_, '_>) -> Fault
    ensures fault { result ≡ (if begins V (firsts sort.Stmt) cursor.old then TooDeep (length cursor.old) else Expected (length cursor.old)) }
    ensures kept { cursor.new ≡ cursor.old }
{
    if is_statement(cursor) {
        Fault::TooDeep(cursor.left())
    } else {
        cursor.refuse(b"statement")
    }
}

/// Why no assignment stands here, where no level is left.
fn no_assignment(cursor: &mut Cursor<'_, '_>) -> Fault
    ensures fault { result ≡ (if begins V (firsts sort.Target) cursor.old then TooDeep (length cursor.old) else Expected (length cursor.old)) }
    ensures kept { cursor.new ≡ cursor.old }
{
    if is_assignment(cursor) {
        Fault::TooDeep(cursor.left())
    } else {
        cursor.refuse(b"statement")
    }
}

// The functions below read what their rules of the grammar say. `below` is how many levels there are below the
// one that they read; the height of what was read counts its own levels.

#[tactic(auto, unfolding(vlog_rules::specs::Grammar::assign))]
fn assign(alloc: Global, cursor: &mut Cursor<'_, '_>, below: usize) -> Result<Tall<Stmt>, Fault>
    requires limit { below < 256 }
    ensures reads { Reads (rule_at below (node grammar.assign) cursor.old) result cursor.new }
    ensures within { IfOk result (λ x. x.height ≤ below + 1) }
{
    if below == 0 {
        return Err(no_assignment(cursor));
    }
    let target = target(alloc, cursor, below)?;
    cursor.expect(Word::AtMost, b"<=")?;
    let value = expr(alloc, cursor, below, Level::Whole)?;
    cursor.expect(Word::Semicolon, b";")?;
    Ok(Tall {
        tree: Stmt::Nonblocking {
            at: starts(&target.tree),
            target: target.tree,
            value: value.tree,
        },
        height: target.height.max(value.height) + 1,
    })
}

/// What is tested, in parentheses.
#[tactic(auto, unfolding(vlog_rules::specs::Grammar::tested))]
fn tested(alloc: Global, cursor: &mut Cursor<'_, '_>, below: usize) -> Result<Tall<Expr>, Fault>
    requires some { 0 < below }
    requires limit { below < 256 }
    ensures reads { Reads (form_at below grammar.tested cursor.old) result cursor.new }
    ensures within { IfOk result (λ x. x.height ≤ below) }
{
    cursor.expect(Word::OpenParen, b"(")?;
    let found = expr(alloc, cursor, below, Level::Whole)?;
    cursor.expect(Word::CloseParen, b")")?;
    Ok(Tall {
        tree: found.tree,
        height: found.height,
    })
}

/// The statement behind `else`.
#[cycle(stmt)]
#[tactic(auto, unfolding(vlog_rules::specs::Grammar::other_branch))]
fn other_branch(
    alloc: Global,
    cursor: &mut Cursor<'_, '_>,
    below: usize,
) -> Result<Tall<Stmt>, Fault>
    requires some { 0 < below }
    requires limit { below < 256 }
    ensures reads { Reads (form_at below grammar.other_branch cursor.old) result cursor.new }
    ensures within { IfOk result (λ x. x.height ≤ below) }
{
    cursor.expect(Word::Else, b"else")?;
    let found = stmt(alloc, cursor, below)?;
    Ok(Tall {
        tree: found.tree,
        height: found.height,
    })
}

/// A statement, and the other one wherever `else` is next.
#[cycle(stmt)]
#[tactic(auto, unfolding(vlog_rules::specs::Grammar::branches))]
fn branches(
    alloc: Global,
    cursor: &mut Cursor<'_, '_>,
    below: usize,
) -> Result<Tall<(Boxed<Stmt>, Option<Boxed<Stmt>>)>, Fault>
    requires some { 0 < below }
    requires limit { below < 256 }
    ensures reads { Reads (form_at below grammar.branches cursor.old) result cursor.new }
    ensures within { IfOk result (λ x. x.height ≤ below) }
{
    let first = stmt(alloc, cursor, below)?;
    let yes = Boxed::new(alloc, first.tree)?;
    if !cursor.stands(Word::Else) {
        return Ok(Tall {
            tree: (yes, None),
            height: first.height,
        });
    }
    let other = other_branch(alloc, cursor, below)?;
    Ok(Tall {
        tree: (yes, Some(Boxed::new(alloc, other.tree)?)),
        height: first.height.max(other.height),
    })
}

#[cycle(stmt)]
#[tactic(auto, unfolding(vlog_rules::specs::Grammar::branch, vlog_rules::specs::Grammar::tested, vlog_rules::specs::Grammar::branches))]
fn branch(alloc: Global, cursor: &mut Cursor<'_, '_>, below: usize) -> Result<Tall<Stmt>, Fault>
    requires limit { below < 256 }
    ensures reads { Reads (rule_at below (node grammar.branch) cursor.old) result cursor.new }
    ensures within { IfOk result (λ x. x.height ≤ below + 1) }
{
    if below == 0 {
        return Err(cursor.no_level(Word::If, b"statement"));
    }
    let at = cursor.place();
    cursor.expect(Word::If, b"statement")?;
    let condition = tested(alloc, cursor, below)?;
    let branches = branches(alloc, cursor, below)?;
    Ok(Tall {
        tree: Stmt::If {
            at,
            condition: condition.tree,
            yes: branches.tree.0,
            no: branches.tree.1,
        },
        height: condition.height.max(branches.height) + 1,
    })
}

/// A statement of a block.
#[cycle(stmt)]
fn nested(alloc: Global, cursor: &mut Cursor<'_, '_>, below: usize) -> Result<Tall<Stmt>, Fault>
    requires limit { below < 256 }
    ensures reads { Reads (nested_at below cursor.old) result cursor.new }
    ensures within { IfOk result (λ x. x.height ≤ below) }
{
    if below == 0 {
        return Err(no_statement(cursor));
    }
    stmt(alloc, cursor, below)
}

/// The statements of a block.
#[cycle(stmt)]
#[tactic(auto, unfolding(parsing::specs::Reading::turns, vlog_rules::specs::Grammar::statements))]
fn statements(
    alloc: Global,
    cursor: &mut Cursor<'_, '_>,
    below: usize,
) -> Result<Tall<Items<Stmt>>, Fault>
    requires limit { below < 256 }
    ensures reads { Reads (form_at below grammar.statements cursor.old) result cursor.new }
    ensures within { IfOk result (λ x. x.height ≤ below) }
{
    let mut found = Tall {
        tree: Items::new(alloc),
        height: 0,
    };
    for _turn in 0..cursor.left() {
        if !is_statement(cursor) {
            return Ok(found);
        }
        let next = nested(alloc, cursor, below)?;
        found.tree.push(next.tree)?;
        found.height = found.height.max(next.height);
    }
    Ok(found)
}

#[cycle(stmt)]
#[tactic(auto, unfolding(vlog_rules::specs::Grammar::block, vlog_rules::specs::Grammar::statements))]
fn block(alloc: Global, cursor: &mut Cursor<'_, '_>, below: usize) -> Result<Tall<Stmt>, Fault>
    requires limit { below < 256 }
    ensures reads { Reads (rule_at below (node grammar.block) cursor.old) result cursor.new }
    ensures within { IfOk result (λ x. x.height ≤ below + 1) }
{
    let at = cursor.place();
    cursor.expect(Word::Begin, b"statement")?;
    let found = statements(alloc, cursor, below)?;
    cursor.expect(Word::End, b"statement")?;
    Ok(Tall {
        tree: Stmt::Block {
            at,
            statements: found.tree,
        },
        height: found.height + 1,
    })
}

#[cycle(stmt)]
#[tactic(auto, unfolding(vlog_rules::specs::Grammar::stmt_rule, vlog_rules::specs::Grammar::assign, vlog_rules::specs::Grammar::branch, vlog_rules::specs::Grammar::block))]
fn one_statement(
    alloc: Global,
    cursor: &mut Cursor<'_, '_>,
    below: usize,
) -> Result<Tall<Stmt>, Fault>
    requires limit { below < 256 }
    ensures reads { Reads (rule_at below grammar.stmt_rule cursor.old) result cursor.new }
    ensures within { IfOk result (λ x. x.height ≤ below + 1) }
{
    if is_assignment(cursor) {
        assign(alloc, cursor, below)
    } else if cursor.stands(Word::If) {
        branch(alloc, cursor, below)
    } else {
        block(alloc, cursor, below)
    }
}

/// A statement of at most `limit` levels, with its height.
#[cycle(stmt)]
#[tactic(auto, unfolding(vlog_expr::specs::Reading::inner, vlog_rules::specs::Grammar::rules, parsing::specs::Reading::read_part))]
pub fn stmt(alloc: Global, cursor: &mut Cursor<'_, '_>, limit: usize) -> Result<Tall<Stmt>, Fault>
    requires some { 0 < limit }
    requires limit { limit ≤ 256 }
    ensures reads { Reads (stmt_at limit cursor.old) result cursor.new }
    ensures within { IfOk result (λ x. x.height ≤ limit) }
{
    one_statement(alloc, cursor, limit - 1)
}
