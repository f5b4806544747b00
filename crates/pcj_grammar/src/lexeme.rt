use crate::terminal::Terminal;

/// A token of a query text, as the grammar sees it.
#[derive(Clone, Copy)]
pub struct Lexeme {
    /// What it is in the grammar.
    pub terminal: Terminal,
    /// The place of its first byte in the text.
    pub at: usize,
    /// The place behind its last byte.
    pub end: usize,
}
