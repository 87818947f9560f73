//! The lines of a control, and what is answered.

mod answers;
mod feeding;
mod lines;
