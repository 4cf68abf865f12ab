//! Operations of replicated rich text: what they are made of, and the definitions of what they
//! mean.
//!
//! It is the one place that says what a document shows; code above is proved to show just that.
#![tactic(auto)]

mod action;
mod anchor;
mod asking;
mod author;
mod bounds;
mod change_step;
mod character;
mod comment_id;
mod comparing;
mod edit;
mod lasting;
mod lengths;
mod mark;
mod marking;
mod numbering;
mod op;
mod rising;
mod span;
mod text;
mod ticks;
mod url;

pub use action::Action;
pub use anchor::{Anchor, End, Start};
pub use author::Author;
pub use change_step::ChangeStep;
pub use character::Character;
pub use comment_id::{CommentId, CommentIds};
pub use edit::{Change, Edit, EditText};
pub use lasting::{Lasting, Neighbour};
pub use lengths::{ID_LENGTH, head_length, insert_length, place_length, token_length};
pub use mark::{Mark, MarkKey, Marks};
pub use marking::Marking;
pub use numbering::{insert_bodies, numbered};
pub use op::{Body, Op};
pub use rising::{place_among, put_among};
pub use span::Span;
pub use text::Text;
pub use ticks::Ticks;
pub use url::Url;
