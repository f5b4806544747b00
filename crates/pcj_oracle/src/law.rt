ghost use Rattle.pcj_oracle.specs.Law.{NumbersRise, OtherRowsStay, ClockKeepsTheRest};

/// Oracles that share a table grant rising numbers, whichever of them draws, fails or crashes in turn, as long as
/// each that draws fits the table: it isn't attached, or its limit is the stored number.
pub fn numbers_rise()
    ensures { NumbersRise }
{}

/// A draw changes nothing of a table but the plain value of the clock's row.
pub fn draws_change_the_clock_alone()
    ensures rows { OtherRowsStay }
    ensures clock { ClockKeepsTheRest }
{}
