//! Tests of the designs of texts, by public calls alone. They stand in a crate of their own, so that a change of them proves no other crate anew.
#![tactic(auto)]

#[cfg(test)]
mod tests;
