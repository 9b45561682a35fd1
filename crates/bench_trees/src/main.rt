//! Makes a text by rule, reads its tree, writes it so many times, and prints how long text and tree were: for the times, which a script takes.
#![tactic(auto)]

mod shape;

use shape::Shape;
use std::alloc::{AllocError, Global};
use std::env;
use tree_text::print_tree;
use vlog_modules::parse;
use vlog_syntax::Tree;

/// The text of the shape, with so many units.
fn text_of(alloc: Global, shape: &Shape, units: u32) -> Result<Vec<u8>, AllocError> {
    let mut text = Vec::new(alloc);
    text.extend_from_slice(shape.front)?;
    for _ in 0..units {
        text.extend_from_slice(shape.unit)?;
    }
    text.extend_from_slice(shape.back)?;
    Ok(text)
}

/// How many bytes are written for the tree, the last of so many times that it is written.
fn written(alloc: Global, tree: &Tree, times: u32) -> Result<usize, AllocError> {
    let mut length = 0;
    for _ in 0..times {
        length = print_tree(alloc, tree)?.len();
    }
    Ok(length)
}

/// How many ports and items its first module has.
fn parts(tree: &Tree) -> (usize, usize) {
    match tree.modules.as_slice().first() {
        None => (0, 0),
        Some(unit) => (unit.ports.len(), unit.items.len()),
    }
}

fn main(rt: HostRuntime) -> anyhow::Result<()> {
    let mut words = env::args(&rt)?;
    let _ = words.next();
    let (Some(name), Some(units), Some(times)) = (words.next(), words.next(), words.next()) else {
        anyhow::bail!("the name of a shape, how many units, and how many times it is written");
    };
    let (Some(shape), Ok(units), Ok(times)) = (
        Shape::named(name.as_str()),
        units.as_str().parse::<u32>(),
        times.as_str().parse::<u32>(),
    ) else {
        anyhow::bail!("no such shape, or no number");
    };
    let text = text_of(rt.alloc(), &shape, units)?;
    let Ok(tree) = parse(rt.alloc(), text.as_slice()) else {
        anyhow::bail!("the text is refused");
    };
    let (ports, items) = parts(&tree);
    println!(rt;
        "{} bytes, {ports} ports, {items} items, {} bytes written",
        text.len(),
        written(rt.alloc(), &tree, times)?
    )?;
    Ok(())
}
