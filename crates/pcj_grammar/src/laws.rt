ghost use Rattle.pcj_grammar.specs.Grammar.{IsUnambiguous};
ghost use Rattle.pcj_grammar.specs.Text.{HasOneReading, IsRead};

/// Each text is read in one way: it is of the grammar, by one list of tokens, or it has one fault.
pub fn one_reading()
    ensures one { HasOneReading }
    ensures some { IsRead }
{}

/// The tokens of a query derive in one way, so that what is said of a derivation is said of its tokens.
pub fn one_derivation()
    ensures { IsUnambiguous }
{}
