ghost use Rattle.pcj_session.specs.Language.{IsOneLanguage, IsThere};

use pcj_answers::{lines_are_one_list, lines_exist};

/// There is a language that is SPARQL's (`some`), and what commands ask of two such languages is the same (`one`).
pub fn sparql_is_a_language()
    ensures some { IsThere }
    ensures one { IsOneLanguage }
{
    lines_exist();
    lines_are_one_list();
}
