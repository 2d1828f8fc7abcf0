//! What no clause says: texts of faults.

mod texts;
