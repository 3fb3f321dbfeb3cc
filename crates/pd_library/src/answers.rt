//! What is known of a file.

use pd_canvas::Doc;

/// What was found under an abstraction's name.
#[derive(Debug, Drop)]
pub enum Answer {
    /// Its document.
    Found(Doc),
    /// There is no such file.
    Absent,
    /// The file is refused at the record of this number, counted from 1, or is too long: then it is 0.
    Bad { number: u32 },
}
