//! Models: objects of a metamodel's classes, with the values of their features.
#![tactic(auto)]

mod building;
mod change_list;
mod edits;
mod model;
mod refusals;

pub use building::{BuildRefusal, build};
pub use change_list::ChangeList;
pub use edits::{
    Edit, created_objects_have_their_place, edits_change_their_slot, edits_give_new_numbers,
    edits_keep_models_valid, edits_keep_opposites, edits_keep_the_order,
    edits_leave_other_features, edits_may_change_nothing, edits_of_objects_leave_plain_features,
    given_edits_are_edits, moved_objects_have_their_container, removed_objects_are_nowhere,
    trees_are_what_is_within,
};
pub use model::{Model, empty};
pub use refusals::ModelRefusal;
pub use wb_store::{Cell, Part, Place, Scalar, SlotPart};
pub use wb_validity::{contents_are_in_range, trees_are_in_order, validity_is_decided};
