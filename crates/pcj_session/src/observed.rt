ghost use Rattle.std.specs.Prelude.{◌≡◌};
ghost use Rattle.pcj_session.specs.Language.{is_distinct, is_observed, is_triple};

use pcj_algebra::{Pattern, Query, Shape};

/// Whether there are observers for a query: it asks for some variables of one triple pattern.
pub(crate) fn is_observed(query: &Query) -> bool
    ensures { result ≡ is_observed query.now }
{
    is_triple(&query.pattern) && is_distinct(&query.shape)
}

fn is_triple(pattern: &Pattern) -> bool
    ensures { result ≡ is_triple pattern.now }
{
    match pattern {
        Pattern::Triple(_) => true,
        Pattern::Join(..) | Pattern::Filter(..) | Pattern::Union(..) => false,
    }
}

fn is_distinct(shape: &Shape) -> bool
    ensures { result ≡ is_distinct shape.now }
{
    match shape {
        Shape::Distinct(_) => true,
        Shape::Group { .. } => false,
    }
}
