//! The shape of diagrams: the diagram that a text's value is, or its first fault of shape; whether a diagram is
//! deterministic; and an order of its atoms, or a cycle.
#![tactic(auto)]

mod answer;
mod checks;
mod choices;
mod contents;
mod cycles;
mod edges;
mod fault;
mod finding;
pub mod laws;
mod making;
mod numbering;
mod numbers;
mod ordering;
mod placing;
mod shaping;
mod sizing;

pub use answer::Order;
pub use choices::determined;
pub use contents::{shaped_contents_are_diagrams, spelled_words_are_names};
pub use fault::{Many, ShapeAnswer, ShapeFault, ShapeKind};
pub use ordering::order;
pub use shaping::shape;
pub use sizing::sizes_of;
