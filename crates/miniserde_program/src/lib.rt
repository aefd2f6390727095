//! The program `canon` over any reader and any writer. The executable, over standard input and output, is another
//! crate.
#![tactic(auto)]

pub mod canon;
