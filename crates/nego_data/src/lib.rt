//! Joint data of the agents, the cases of outcomes, and the tables of the relations that they are.
#![tactic(auto)]

mod applied;
mod bit_row;
pub mod cases;
mod counting;
mod covered;
mod covering;
mod data_set;
mod giving;
mod joint_data;
pub mod laws;
mod lender;
mod making;
mod parts;
mod places;
mod rows;
mod table;
mod table_maker;
#[cfg(test)]
mod tests;

pub use data_set::DataSet;
pub use joint_data::{SizeFault, Sizes};
pub use lender::Lender;
pub use making::TableFault;
pub use table::Table;
pub use table_maker::TableMaker;
