//! Trees of texts.
use std::test::Fail;
use vlog_modules::parse;
use vlog_syntax::{Item, Stmt, Tree};

fn has_inner_else(tree: &Tree) -> bool {
    let Some(module) = tree.modules.as_slice().first() else {
        return false;
    };
    let Some(Item::Always(always)) = module.items.as_slice().first() else {
        return false;
    };
    match &always.body {
        Stmt::If { yes, no: None, .. } => matches!(yes.get(), Stmt::If { no: Some(_), .. }),
        _ => false,
    }
}

#[test]
fn an_else_belongs_to_the_nearest_if(rt: HostRuntime) -> Result<(), Fail> {
    let text =
        "module t(input c, output reg q); always @(posedge c) if (q) if (q) q <= q; else q <= ~q; endmodule";
    match parse(rt.alloc(), text.as_bytes()) {
        Ok(tree) => assert!(rt; has_inner_else(&tree)),
        Err(_) => assert!(rt; false),
    }
    Ok(())
}
