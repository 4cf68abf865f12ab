//! Exports to the byte.
use op_model::{CommentId, CommentIds, Marks, Span, Text, Url};
use span_export::{Form, export};
use std::alloc::Global;
use std::test::Fail;

/// How a span looks.
#[derive(Clone, Copy)]
enum Look {
    Plain,
    Strong,
    Em,
    /// Both strong and em.
    Both,
    /// A link to an address.
    Linked(&'static str),
    /// Em, with a comment.
    Commented,
}

/// A span of this text that looks so.
fn span(alloc: Global, text: &str, look: Look) -> Result<Span, Fail> {
    let characters: Vec<char> = text.chars().collect(alloc)?;
    Ok(Span {
        text: Text::from(characters),
        marks: marks(alloc, look)?,
    })
}

fn marks(alloc: Global, look: Look) -> Result<Marks, Fail> {
    let mut comments = Vec::new(alloc);
    if matches!(look, Look::Commented) {
        comments.push(CommentId::read([0x5a; 16]))?;
    }
    let link = match look {
        Look::Linked(address) => Url::new(String::from_str(alloc, address)?),
        _ => None,
    };
    Ok(Marks {
        strong: matches!(look, Look::Strong | Look::Both),
        em: matches!(look, Look::Em | Look::Both | Look::Commented),
        link,
        comments: CommentIds::from(comments),
    })
}

/// What spans are exported as.
fn exported(alloc: Global, form: Form, parts: &[(&str, Look)]) -> Result<Vec<u8>, Fail> {
    let mut spans = Vec::new(alloc);
    for (text, look) in parts {
        spans.push(span(alloc, text, *look)?)?;
    }
    Ok(export(alloc, form, &spans)?)
}

/// A form, spans, and what they are exported as.
type Row = (Form, &'static [(&'static str, Look)], &'static str);

const ESCAPED: [(&str, Look); 1] = [("# a_b\n 1. <c>\n2. & \\", Look::Plain)];

const EMPHASIS: [(&str, Look); 5] = [
    ("The", Look::Plain),
    (" quick ", Look::Strong),
    ("fox", Look::Em),
    ("!", Look::Both),
    ("es", Look::Plain),
];

const LINKS: [(&str, Look); 3] = [
    ("a", Look::Linked("https://b.c/<d>")),
    ("e", Look::Linked("JavaScript:f")),
    ("g", Look::Linked("/h:i")),
];

/// A paragraph that ends with a space, an empty one, and two with a link over both.
const PARAGRAPHS: [(&str, Look); 3] = [
    ("a ", Look::Plain),
    ("\n\n", Look::Strong),
    ("b\nc", Look::Linked("d")),
];

static EXPORTS: [Row; 14] = [
    // Text is the characters alone.
    (
        Form::Text,
        &[("a*b \n", Look::Plain), ("ü<", Look::Both)],
        "a*b \nü<",
    ),
    // Emphasis has stars, and no white space at its ends.
    (
        Form::Markdown,
        &EMPHASIS,
        "The **quick** *fox*<span></span>***\\!***<span></span>es\n",
    ),
    (
        Form::MarkdownBreaks,
        &EMPHASIS,
        "The **quick** *fox*<span></span>***\\!***<span></span>es\n",
    ),
    // What means something is escaped.
    (
        Form::Markdown,
        &ESCAPED,
        "\\# a\\_b\n\n&#32;1. \\<c\\>\n\n2\\. \\& \\\\\n",
    ),
    (
        Form::MarkdownBreaks,
        &ESCAPED,
        "\\# a\\_b\\\n&#32;1. \\<c\\>\\\n2\\. \\& \\\\\n",
    ),
    // Each line is a paragraph, an empty one too.
    (
        Form::Markdown,
        &PARAGRAPHS,
        "a <span></span>\n\n<!-- -->\n\n[b](<d>)\n\n[c](<d>)\n",
    ),
    (
        Form::Html,
        &PARAGRAPHS,
        "<!doctype html><meta charset=\"utf-8\"><div style=\"white-space: pre-wrap\"><p>a \n</p><p>\n</p><p><a href=\"d\">b</a>\n</p><p><a href=\"d\">c</a></p></div>\n",
    ),
    (
        Form::HtmlBreaks,
        &PARAGRAPHS,
        "<!doctype html><meta charset=\"utf-8\"><div style=\"white-space: pre-wrap\">a <strong>\n\n</strong><a href=\"d\">b\nc</a></div>\n",
    ),
    (Form::Markdown, &[], "<!-- -->\n"),
    (Form::MarkdownBreaks, &[], "\n"),
    // A script is no link.
    (
        Form::Markdown,
        &LINKS,
        "[a](<https://b.c/\\<d\\>>)e[g](</h:i>)\n",
    ),
    (
        Form::Html,
        &LINKS,
        "<!doctype html><meta charset=\"utf-8\"><div style=\"white-space: pre-wrap\"><p><a href=\"https://b.c/&lt;d&gt;\">a</a>e<a href=\"/h:i\">g</a></p></div>\n",
    ),
    // A comment is a tag.
    (
        Form::Markdown,
        &[("a", Look::Commented)],
        "<span data-comment=\"5a5a5a5a-5a5a-5a5a-5a5a-5a5a5a5a5a5a\">*a*</span>\n",
    ),
    (
        Form::Html,
        &[("a", Look::Commented)],
        "<!doctype html><meta charset=\"utf-8\"><div style=\"white-space: pre-wrap\"><p><span data-comment=\"5a5a5a5a-5a5a-5a5a-5a5a-5a5a5a5a5a5a\"><em>a</em></span></p></div>\n",
    ),
];

#[test]
fn spans_are_exported_to_the_byte(rt: HostRuntime) -> Result<(), Fail> {
    for (form, parts, due) in &EXPORTS {
        let found = exported(rt.alloc(), *form, parts)?;
        assert!(rt;
            found.as_slice() == due.as_bytes(),
            "{found:?} in place of {due}"
        );
    }
    Ok(())
}

#[test]
fn a_form_has_its_name(rt: HostRuntime) {
    for breaks in [false, true] {
        assert!(rt; Form::named("text", breaks) == Some(Form::Text));
        assert!(rt; Form::named("HTML", breaks) == None);
    }
    assert!(rt; Form::named("markdown", false) == Some(Form::Markdown));
    assert!(rt; Form::named("markdown", true) == Some(Form::MarkdownBreaks));
    assert!(rt; Form::named("html", false) == Some(Form::Html));
    assert!(rt; Form::named("html", true) == Some(Form::HtmlBreaks));
}
