// Lines of text cut into tokens, and the value of a token: a number, or bytes in hexadecimal.
#![tactic(auto)]

pub mod decimal;
pub mod hexadecimal;
mod parts;

pub use decimal::{figure, figures};
pub use hexadecimal::hex;
pub use parts::{ends, past, token, until};
