//! Reports: the timestamp that a table's report is of.
ghost use Rattle.law_texts.specs.LastReport.{ReportsAreOfTheLastGiven};

use pb_history::clock_is_last_given;

/// A text is a table's report exactly where it is that of the snapshot at the greatest timestamp that the table's journal gave
/// out, or at the clock as opened where it gave out none.
pub fn reports_are_of_the_last_given()
    ensures { ReportsAreOfTheLastGiven }
{
    clock_is_last_given();
}
