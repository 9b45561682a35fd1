//! The grammar of Verilog texts with all expressions, as data: `specs/Grammar.antt` has the rules, `proofs/Sound.antt` that they are read with one token of sight.
#![tactic(auto)]

mod level;

pub use level::{Braced, Level, Rows, Sort};
