//! Makes a text by rule, divides it into tokens, writes these, and prints how many there were: for the times, which a script takes.
#![tactic(auto)]

mod shape;

use shape::Shape;
use std::alloc::{AllocError, Global};
use std::env;
use token_text::print_tokens;
use vlog_tokens::{MAX_BYTES, tokens};

/// The text of the shape, with so many units.
fn text_of(alloc: Global, shape: &Shape, units: u32) -> Result<Vec<u8>, AllocError> {
    let mut text = Vec::new(alloc);
    text.extend_from_slice(shape.front)?;
    for _ in 0..units {
        text.extend_from_slice(shape.unit)?;
    }
    text.extend_from_slice(shape.back)?;
    Ok(text)
}

fn main(rt: HostRuntime) -> anyhow::Result<()> {
    let mut words = env::args(&rt)?;
    let _ = words.next();
    let (Some(name), Some(units)) = (words.next(), words.next()) else {
        anyhow::bail!("the name of a shape, and how many units");
    };
    let (Some(shape), Ok(units)) = (Shape::named(name.as_str()), units.as_str().parse::<u32>())
    else {
        anyhow::bail!("no such shape, or no number");
    };
    let text = text_of(rt.alloc(), &shape, units)?;
    if text.len() > MAX_BYTES {
        anyhow::bail!("more than {MAX_BYTES} bytes");
    }
    let found = tokens(rt.alloc(), text.as_slice())?;
    let written = print_tokens(rt.alloc(), found.as_slice())?;
    println!(rt;
        "{} bytes, {} tokens, {} bytes written",
        text.len(),
        found.len(),
        written.len()
    )?;
    Ok(())
}
