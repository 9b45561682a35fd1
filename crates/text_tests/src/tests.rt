//! One file for each crate or two that is tried.
mod certificates;
mod claims;
mod desks;
mod names;
mod numbers;
mod trees;
