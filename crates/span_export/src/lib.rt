//! A document's spans as a text that other programs read: its characters alone, Markdown, or HTML.
//!
//! It takes spans alone, so what is exported of a file is what a session shows of it.
#![tactic(auto)]

mod before;
mod comment_tags;
mod draft;
mod emphasis;
mod exporting;
mod html_page;
mod html_paragraphs;
mod html_span;
mod html_text;
mod markdown_page;
mod markdown_paragraphs;
mod markdown_span;
mod markdown_text;
mod plain_characters;
mod putting;
mod text_part;
mod web_address;

pub use exporting::{Form, export};
