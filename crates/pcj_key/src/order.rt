ghost use Rattle.pcj_key.specs.Key.{IsInjective};
ghost use Rattle.pcj_key.specs.Order.{KeepsOrder, RangeHoldsBytes, RangeHoldsKeys};

/// No two lists of parts have one key.
pub fn keys_are_injective()
    ensures { IsInjective }
{}

/// Keys compare as their lists of parts compare.
pub fn keys_keep_order()
    ensures { KeepsOrder }
{}

/// What begins with the key of one part or more lies between that key less its last byte and its end, and
/// nothing else does: of all bytes, and of keys by their parts.
pub fn prefixes_are_ranges()
    ensures bytes { RangeHoldsBytes }
    ensures keys { RangeHoldsKeys }
{}
