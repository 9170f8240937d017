//! The tests, crate by crate.

mod disk;
mod gatelog;
mod shell;
mod talks;
