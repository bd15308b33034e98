//! Edits of models, each a function of its own, and what is true of all of them.

mod checks;
mod creations;
mod edit;
mod features;
mod laws;
mod links;
mod models;
mod moves;
mod places;
mod removals;

pub use edit::Edit;
pub use laws::{
    created_objects_have_their_place, edits_change_their_slot, edits_give_new_numbers,
    edits_keep_models_valid, edits_keep_opposites, edits_keep_the_order,
    edits_leave_other_features, edits_may_change_nothing, edits_of_objects_leave_plain_features,
    given_edits_are_edits, moved_objects_have_their_container, removed_objects_are_nowhere,
    trees_are_what_is_within,
};
