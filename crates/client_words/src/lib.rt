//! The words of a client: what it is asked for and what it answers, the command that a line of a script is, and the text of
//! an answer.
#![tactic(auto)]

mod answer;
mod arguments;
mod command;
mod line;
mod preferences;
mod refusal;
mod refusal_texts;
mod rows;
mod texts;

pub use answer::Answer;
pub use command::Command;
pub use line::{LineFault, MAX_LINE_LEN, bytes_at, read_command};
pub use refusal::Refusal;
pub use texts::{answer_text, hyphenated, line_text};
