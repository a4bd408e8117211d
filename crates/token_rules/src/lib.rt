//! The rules of tokens: which bytes are delimiters, where the tokens of a text lie, and which
//! tokens are variables.
#![tactic(auto)]

mod classes;
mod lanes;
mod laws;
mod reader;
mod run;
mod tokens;
mod window;

pub use classes::is_delim;
pub use laws::tokens_partition;
pub use reader::TokenReader;
pub use tokens::{Token, is_var, next_token};
