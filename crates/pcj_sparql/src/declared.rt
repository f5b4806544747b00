use pcj_grammar::Lexeme;

/// The tokens of a declaration of a prefix (SPARQL 1.1 Query, section 4.1.1).
#[derive(Clone, Copy)]
pub(crate) struct Declared {
    /// The prefix with its colon.
    pub(crate) namespace: Lexeme,
    /// What it stands for.
    pub(crate) iri: Lexeme,
}
