//! What a program is given and what it ends with: the words of its command line, its lines, its marks
//! and its report.

mod line;
mod marks;
mod report;
mod word;

pub use line::{Line, give_line};
pub use marks::Marks;
pub use report::Report;
pub use word::Word;
