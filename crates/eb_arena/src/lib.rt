//! An arena of tree elements with fixed room, and the shape that makes its roots trees.
#![tactic(auto)]

mod arena;
mod element;
mod laws;
mod links;
mod moves;

pub use arena::Arena;
pub use element::Element;
pub use laws::{
    changes_elsewhere_keep, elements_tell, entries_stand_once, lists_are_determined,
    lists_are_ordered, nodes_stand_once, parts_in_trees_hang, parts_move_whole,
    places_have_one_way,
};
pub use links::{Link, Place, Side, Target, Up};
