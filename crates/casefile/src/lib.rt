//! The text of case files: what a line says, how it is written, and which fault a text has first.
#![tactic(auto)]

mod digits;
pub mod fault;
mod layout;
pub mod line;
pub mod number;
pub mod put;
pub mod refusal;
mod slot;
pub mod summary;
pub mod text;
mod write;

pub use fault::{FieldFault, LineFault, Report, TextFault};
pub use layout::LIMIT;
pub use line::{Field, Line, Record, read_line};
pub use number::Number;
pub use put::TooShort;
pub use refusal::Refusal;
pub use summary::Summary;
pub use text::{check_text, cut_line, first_record};
