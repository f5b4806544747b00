ghost use Rattle.std.specs.Prelude.{◌≡◌, chars};
ghost use Rattle.std.specs.List.{list_all};
ghost use Rattle.pcj_term.specs.Label.{is_name_base, is_name_start, is_name_character, is_label_start, is_label_character, begins_label, ends_in_a_dot, is_label_text, is_label};

/// Whether a character is of the class `PN_CHARS_BASE` (RDF 1.1 N-Triples).
pub fn is_name_base(character: char) -> bool
    ensures { result ≡ is_name_base character }
{
    matches!(
        character,
        'A'..='Z'
            | 'a'..='z'
            | '\u{C0}'..='\u{D6}'
            | '\u{D8}'..='\u{F6}'
            | '\u{F8}'..='\u{2FF}'
            | '\u{370}'..='\u{37D}'
            | '\u{37F}'..='\u{1FFF}'
            | '\u{200C}'..='\u{200D}'
            | '\u{2070}'..='\u{218F}'
            | '\u{2C00}'..='\u{2FEF}'
            | '\u{3001}'..='\u{D7FF}'
            | '\u{F900}'..='\u{FDCF}'
            | '\u{FDF0}'..='\u{FFFD}'
            | '\u{10000}'..='\u{EFFFF}'
    )
}

/// Whether a character is of the class `PN_CHARS_U` (RDF 1.1 N-Triples).
pub fn is_name_start(character: char) -> bool
    ensures { result ≡ is_name_start character }
{
    is_name_base(character) || character == '_' || character == ':'
}

/// Whether a character is of the class `PN_CHARS` (RDF 1.1 N-Triples).
pub fn is_name_character(character: char) -> bool
    ensures { result ≡ is_name_character character }
{
    is_name_start(character)
        || matches!(
            character,
            '-' | '0'..='9' | '\u{B7}' | '\u{300}'..='\u{36F}' | '\u{203F}'..='\u{2040}'
        )
}

/// Whether a blank node's label may begin with a character.
pub fn is_label_start(character: char) -> bool
    ensures { result ≡ is_label_start character }
{
    is_name_start(character) || character.is_ascii_digit()
}

/// Whether a character may stand in a blank node's label.
pub fn is_label_character(character: char) -> bool
    ensures { result ≡ is_label_character character }
{
    is_name_character(character) || character == '.'
}

/// Whether these are the bytes of a blank node's label, in UTF-8 and without the `_:`
/// (RDF 1.1 N-Triples, `BLANK_NODE_LABEL`).
pub fn is_label(bytes: &[u8]) -> bool
    ensures { result ≡ is_label bytes.now }
{
    match str::from_utf8(bytes) {
        Ok(text) => is_label_text(text),
        Err(_) => false,
    }
}

fn is_label_text(text: &str) -> bool
    ensures { result ≡ is_label_text text.now }
{
    begins_label(text) && has_label_characters_alone(text) && !ends_in_a_dot(text.as_bytes())
}

fn begins_label(text: &str) -> bool
    ensures { result ≡ begins_label (chars text.now) }
{
    match text.chars().next() {
        Some(character) => is_label_start(character),
        None => false,
    }
}

fn has_label_characters_alone(text: &str) -> bool
    ensures { result ≡ list_all is_label_character (chars text.now) }
{
    text.chars().all(is_label_character)
}

fn ends_in_a_dot(bytes: &[u8]) -> bool
    ensures { result ≡ ends_in_a_dot bytes.now }
{
    bytes.ends_with(b".")
}
