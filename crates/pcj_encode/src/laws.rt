ghost use Rattle.pcj_encode.specs.Laws.{NamesOneRow, ReadsBack, KindsAreApart, KeepsOrder};
ghost use Rattle.pcj_encode.specs.Range.{RangesHoldNames, RangesHoldBytes};

/// No two valid names have one key, and the key of a valid name is read as that name.
pub fn one_key_for_each_name()
    ensures name { NamesOneRow }
    ensures back { ReadsBack }
{}

/// Rows of two kinds have different keys, and keys compare as their lists of parts.
pub fn keys_keep_kinds_and_order()
    ensures kinds { KindsAreApart }
    ensures order { KeepsOrder }
{}

/// Of all keys of valid names, a range holds exactly those of its kind, and of all bytes exactly those that
/// begin as these keys do.
pub fn ranges_hold_their_kind()
    ensures names { RangesHoldNames }
    ensures bytes { RangesHoldBytes }
{}
