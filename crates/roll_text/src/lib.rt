//! What every text of the project shares: numbers, lists and lines, whole inputs and outputs.
//!
//! A reader or writer *tells its bytes* if its type says in clauses what it will give or holds, as a slice and a vector
//! do. What clauses say of bytes that are read or written, here and in the crates above, they say of such a one alone:
//! of a terminal or a file they claim nothing.
#![tactic(auto)]

mod decimal;
mod line;
mod list;
mod streams;

pub use decimal::{leading_number, number, push_number, push_signed};
pub use line::{few_fields, fields, split_line};
pub use list::{numbers, push_list};
pub use streams::{ReadFault, TEXT_LIMIT, WriteFault, read_all, write_all};
