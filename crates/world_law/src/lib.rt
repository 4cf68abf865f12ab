//! Laws of a world of replicas: no id names two things, anywhere, ever.
//!
//! One replica's proof says nothing of two; here many tell one another, lose and repeat, and crash.
#![tactic(auto)]

mod closed_lists;
mod histories;
mod tokens;
mod witness;

pub use closed_lists::{
    an_operation_has_one_place, fronts_of_closed_lists_are_closed, passed_operations_may_follow,
};
pub use histories::{
    equal_clocks_show_the_same, fronts_of_histories_are_histories, ids_name_one_operation,
    told_ids_are_never_made_again, told_operations_stay_settled,
};
pub use tokens::{
    answered_edits_act_once, known_edits_are_answered_as_they_were,
    settled_tokens_are_answered_forever, tokens_name_one_edit,
};
pub use witness::an_operation_goes_from_one_replica_to_another;
