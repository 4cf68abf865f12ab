//! Markdown, read as spans: CommonMark (0.31.2), as far as it gives strong text, emphasis and links.
//! Other structure becomes plain text, and is counted. Each step goes forward in the text, so that
//! the time is nearly that of its length, whatever the text is.
#![tactic(auto)]

mod addresses;
mod block_starts;
mod blocks;
mod brackets;
mod characters;
mod code_spans;
mod containers;
mod dropped;
mod emphasis;
mod entities;
mod html_blocks;
mod inline;
mod leaf;
mod lines;
mod markdown;
mod page;
mod paragraphs;
mod pieces;
mod runs;
mod scanning;
mod span_writer;
mod tags;
mod targets;

pub use dropped::{Dropped, Kind};
pub use markdown::read_markdown;
pub use page::Page;
