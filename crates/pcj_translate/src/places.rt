ghost use Rattle.std.specs.Prelude.{◌≡◌};
ghost use Rattle.pcj_translate.specs.Places.{lower, lower_of};

/// The lower of a place and another one, if there is one.
pub fn lower(place: usize, other: Option<usize>) -> Option<usize>
    ensures { result ≡ lower place other }
{
    match other {
        None => Some(place),
        Some(other) => Some(place.min(other)),
    }
}

/// The lower of two places, where there are some.
pub fn lower_of(first: Option<usize>, other: Option<usize>) -> Option<usize>
    ensures { result ≡ lower_of first other }
{
    match first {
        None => other,
        Some(place) => lower(place, other),
    }
}
