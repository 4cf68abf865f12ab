//! What characters count as.
use ucd_category::GeneralCategory;

/// Whether a character is a space or a tab.
pub(crate) fn is_blank(character: char) -> bool {
    character == ' ' || character == '\t'
}

/// Whether a character is white space of a paragraph's source.
pub(crate) fn is_space(character: char) -> bool {
    matches!(character, ' ' | '\t' | '\n' | '\x0b' | '\x0c' | '\r')
}

/// Whether a character is white space beside the marks of emphasis.
pub(crate) fn is_wide_space(character: char) -> bool {
    matches!(character, '\t' | '\n' | '\x0c' | '\r')
        || GeneralCategory::for_char(character) == GeneralCategory::SpaceSeparator
}

/// Whether a character is a sign: punctuation or a symbol.
pub(crate) fn is_sign(character: char) -> bool {
    if character.is_ascii() {
        return character.is_ascii_punctuation();
    }
    matches!(
        GeneralCategory::for_char(character),
        GeneralCategory::ConnectorPunctuation
            | GeneralCategory::DashPunctuation
            | GeneralCategory::OpenPunctuation
            | GeneralCategory::ClosePunctuation
            | GeneralCategory::InitialPunctuation
            | GeneralCategory::FinalPunctuation
            | GeneralCategory::OtherPunctuation
            | GeneralCategory::MathSymbol
            | GeneralCategory::CurrencySymbol
            | GeneralCategory::ModifierSymbol
            | GeneralCategory::OtherSymbol
    )
}

/// A character as it is shown: Markdown shows another one in place of 0.
pub(crate) fn shown(character: char) -> char {
    if character == '\0' {
        '\u{fffd}'
    } else {
        character
    }
}
