use crate::argument::{byte, character};
use pcj_case_lines::{Answer, Unanswered};
use pcj_term::{
    Bytes, is_absolute, is_absolute_iri, is_iri, is_label, is_label_character, is_label_start,
    is_language_tag, is_letter, is_lower_case, is_name_base, is_name_character, is_name_start,
    is_utf8,
};

/// Answers whether a text, a character or a byte is of a class.
pub(crate) fn class_case(
    out: &mut Answer,
    call: &str,
    arguments: &[Bytes],
) -> Result<(), Unanswered> {
    match arguments {
        [text] => out.flag(is_of_class(call, text)?),
        _ => Err(Unanswered::NoCase),
    }
}

fn is_of_class(call: &str, text: &Bytes) -> Result<bool, Unanswered> {
    match is_text_of_class(call, text.as_slice()) {
        Some(is_in) => Ok(is_in),
        None if call == "is_letter" => Ok(is_letter(byte(text)?)),
        None => is_character_of_class(call, character(text)?).ok_or(Unanswered::NoCase),
    }
}

fn is_text_of_class(call: &str, text: &[u8]) -> Option<bool> {
    match call {
        "is_absolute" => Some(is_absolute(text)),
        "is_absolute_iri" => Some(is_absolute_iri(text)),
        "is_iri" => Some(is_iri(text)),
        "is_label" => Some(is_label(text)),
        "is_language_tag" => Some(is_language_tag(text)),
        "is_lower_case" => Some(is_lower_case(text)),
        "is_utf8" => Some(is_utf8(text)),
        _ => None,
    }
}

fn is_character_of_class(call: &str, character: char) -> Option<bool> {
    match call {
        "is_label_character" => Some(is_label_character(character)),
        "is_label_start" => Some(is_label_start(character)),
        "is_name_base" => Some(is_name_base(character)),
        "is_name_character" => Some(is_name_character(character)),
        "is_name_start" => Some(is_name_start(character)),
        _ => None,
    }
}
