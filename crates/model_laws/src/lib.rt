//! Laws of the order and the text: what follows from the definitions of the model, for every list
//! of operations.
//!
//! Each is a call that does nothing, and whose contract is the law, so the gate proves it as it
//! proves code.
#![tactic(auto)]

mod actions;
mod changes;
mod edits;
mod lasting;
mod later;
mod marking_edits;
mod one_more;
mod orderly;
mod same_operations;
mod shape;
mod span_shape;

pub use actions::{
    actions_add_their_size, actions_change_the_text, actions_keep_lists_closed,
    actions_remove_nothing_again, an_action_is_its_edits_in_turn, made_by_actions_fit,
};
pub use changes::{
    changes_are_joined, changes_go_by_the_number_of_operations, changes_go_over_the_text,
    changes_show_what_is_there, changes_since_the_beginning_are_the_spans,
    same_operations_same_changes, steps_are_made_part_by_part, untouched_characters_stay,
    what_was_shown_is_known_now, worked_rows_of_changes,
};
pub use edits::{
    edits_change_the_text, edits_keep_lists_closed, edits_remove_nothing_again,
    ended_marks_dont_grow, made_ids_are_greater, made_operations_fit,
};
pub use lasting::{
    inserts_pass_places, places_keep_their_order, places_stand_beside_their_character,
    places_stand_where_they_were_made, places_stay_there,
};
pub use later::characters_keep_their_order;
pub use marking_edits::{edits_mark_what_they_say, marks_grow_at_their_end};
pub use one_more::{
    closed_lists_grow, ids_are_used_once, orderly_lists_grow, other_documents_stay,
};
pub use orderly::{closed_lists_are_orderly, placing_gives_the_walk};
pub use same_operations::{
    equal_clocks_same_operations, same_operations_same_clock, same_operations_same_spans,
    same_operations_same_text,
};
pub use shape::{
    the_walk_has_each_insert_once, the_walk_has_parents_first, the_walk_is_depth_first,
    the_walk_is_families,
};
pub use span_shape::{
    is_key_decides, is_same_marks_decides, spans_are_greatest_runs, spans_make_up_the_text,
    the_greatest_id_decides,
};
