ghost use Rattle.std.specs.Prelude.{◌≡◌};
ghost use Rattle.pcj_sparql.specs.Kind.{number_of};

/// Why a text isn't read as a query.
#[derive(Clone, Copy, PartialEq, Eq)]
pub enum QueryKind {
    /// It is no text of the grammar, nor UTF-8.
    Syntax,
    /// It is a text of the standard that the profile leaves out.
    OutOfProfile,
    /// A prefix isn't declared.
    UnknownPrefix,
    /// A variable doesn't occur where its value would come from.
    UnknownVariable,
    /// The sides of a UNION have different variables.
    UnionVariables,
    /// It passes a limit.
    TooLarge,
}

/// The number by which reports name a kind: 1 to 6, in the order of the variants.
pub fn query_number(kind: QueryKind) -> u8
    ensures { result ≡ number_of kind }
{
    match kind {
        QueryKind::Syntax => 1,
        QueryKind::OutOfProfile => 2,
        QueryKind::UnknownPrefix => 3,
        QueryKind::UnknownVariable => 4,
        QueryKind::UnionVariables => 5,
        QueryKind::TooLarge => 6,
    }
}
