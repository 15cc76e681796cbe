//! The shortcut rule, by which an atom becomes part of the outcomes that enter it, and the closing of a diagram that is
//! down to its first and its last atom.
#![tactic(auto)]

mod closing;
mod entering;
mod law;
mod through;

pub use closing::{can_close, close};
pub use entering::{can_shortcut, enters, shortcut};
pub use law::{closing_keeps, shortcuts_keep};
