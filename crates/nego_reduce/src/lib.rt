//! The strategy: rules are used in one order, until one atom is left, or no rule may be used any more.
#![tactic(auto)]

mod iterations;
mod laws;
mod merges;
mod next;
mod reduced;
mod reducing;
mod shortcuts;

pub use laws::{
    acyclic_is_decided, acyclic_is_never_full, acyclic_nodes_are_counted,
    acyclic_works_stay_ranked, alive_are_of_the_diagram, next_uses_are_one, one_atom_allows_no_use,
    passed_atoms_never_hinder, reduced_tells, reductions_are_one, sound_acyclic_works_go_on,
    uses_are_few, uses_keep,
};
pub use reduced::Reduced;
pub use reducing::reduce;
