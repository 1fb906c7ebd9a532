// Sheets: the record reader and the reader.
#![tactic(auto)]

pub mod head;
pub mod nesting;
pub mod reader;
pub mod refusal;
