//! One file for each crate or part of one that is tried.
mod numbers;
mod printing;
mod texts;
