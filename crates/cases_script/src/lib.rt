// Cases written as lines: the question of each line, and the bytes of the texts and trees that lines name.
#![tactic(auto)]

mod given_bytes;
mod line_words;
mod name_line;

pub use given_bytes::{fill, make, named};
pub use line_words::{InputKind, Question, input_kind, is_comment, question_of};
pub use name_line::gives_bytes;
