//! Markdown that is read, to the letter.
use markdown_reading::read_markdown;
use op_model::{Marks, Span};
use std::alloc::{AllocError, Global};
use std::test::Fail;

/// Marks as they are told: S for strong, E for emphasised, and an address.
fn tell_marks(marks: &Marks, out: &mut String) -> Result<(), AllocError> {
    if marks.strong {
        out.push('S')?;
    }
    if marks.em {
        out.push('E')?;
    }
    match &marks.link {
        Some(url) => out.push_str(url.as_str()),
        None => Ok(()),
    }
}

/// A span as it is told: its marks stand in front of the text that they are of.
fn tell_span(span: &Span, out: &mut String) -> Result<(), AllocError> {
    tell_marks(&span.marks, out)?;
    out.push('|')?;
    for character in span.text.as_slice() {
        out.push(*character)?;
    }
    out.push('|')
}

/// A page as it is told: its spans, and the names of what was dropped.
fn told(alloc: Global, text: &str) -> Result<String, AllocError> {
    let characters: Vec<char> = text.chars().collect(alloc)?;
    let page = read_markdown(alloc, &characters)?;
    let mut out = String::new(alloc);
    for span in &page.spans {
        tell_span(span, &mut out)?;
    }
    for (name, count) in page.dropped.named() {
        if count > 0 {
            out.push_str(name)?;
        }
    }
    Ok(out)
}

/// Pages, and how each is told.
static PAGES: [(&str, &str); 3] = [
    // Marks are read.
    (
        "a **b** *c* [d](<e>)\n\nf\\*g",
        "|a |S|b|| |E|c|| |e|d||\nf*g|",
    ),
    // A link goes on after what it has.
    (
        "[a ![b](c) d <http://e> f](g) h",
        "g|a b d |http://e|http://e|g| f|| h|image",
    ),
    // Structure becomes text.
    (
        "# h\n> q\n- i\n\n<!-- -->\n\n`c`  \nd",
        "|h\nq\ni\n\nc\nd|breakcodeheadinglistquote",
    ),
];

#[test]
fn marks_are_read_and_structure_becomes_text(rt: HostRuntime) -> Result<(), Fail> {
    for (text, due) in &PAGES {
        assert!(rt; told(rt.alloc(), text)?.as_str() == *due, "{text}");
    }
    Ok(())
}
