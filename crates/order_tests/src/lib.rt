//! Tests of cycles in the orders that numbers name, by public calls alone. They stand in a crate of their own, so that a
//! change of them proves no other crate anew.
#![tactic(auto)]

#[cfg(test)]
mod design;
#[cfg(test)]
mod tests;
