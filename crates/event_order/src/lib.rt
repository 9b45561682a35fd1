//! The machine that runs the processes of a legal design in any order.
#![tactic(auto)]

mod execute;
mod finish;
pub mod laws;
mod phases;
mod pick;
pub mod sim;
mod steps;
mod wake;
