ghost use Rattle.std.specs.Prelude.{◌≡◌};
ghost use Rattle.pcj_term.specs.Integer.{integer_value, integer_text};

use crate::{Kind, Term};

/// The value of an xsd:integer: of a literal of that datatype whose text is an optional sign and digits.
/// `None` where the term is no such literal, or where the value isn't an `i64`. Takes no memory.
pub fn integer_of(term: &Term) -> Option<i64>
    ensures { result ≡ integer_value term.now }
{
    match term {
        Term::Literal {
            text,
            kind: Kind::Typed(datatype),
        } if datatype.as_slice() == b"http://www.w3.org/2001/XMLSchema#integer".as_slice() => {
            integer_text(text.as_slice())
        }
        _ => None,
    }
}

/// The value that an optional sign and digits write, where it is an `i64`.
fn integer_text(text: &[u8]) -> Option<i64>
    ensures { result ≡ integer_text text.now }
{
    match str::from_utf8(text) {
        Ok(text) => text.parse().ok(),
        Err(_) => None,
    }
}
