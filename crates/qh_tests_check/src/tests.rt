//! The tests.

mod check;
mod parts;
mod seams;
