//! One file for each crate that is tried.
mod expressions;
mod printing;
mod texts;
