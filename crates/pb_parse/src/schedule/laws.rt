//! What a schedule is read as, and where it is at fault, in the words of its format. Reader and
//! definition go from left to right alike, so that a looseness could stand in both; these laws
//! state the same without an order of reading.
ghost use Rattle.std.specs.Prelude.{◌≡◌, ◌⊎◌, ◌↔◌, ℕ, List, [], Ok, Err};
ghost use Rattle.pb_reading.specs.Reading.{words_of};
ghost use Rattle.pb_reading.specs.Faults.{StopsAt};
ghost use Rattle.pb_parse.specs.ScheduleCodes.{schedule_code};
ghost use Rattle.pb_accepted.specs.Observers.{ObserverOf};
ghost use Rattle.pb_parse.specs.declared.event.Event.{Event};
ghost use Rattle.pb_parse.specs.declared.schedule.words.Order.{Order};
ghost use Rattle.pb_parse.specs.declared.schedule.code.ScheduleCode.{ScheduleCode};
ghost use Rattle.pb_parse.specs.declared.schedule.code.ScheduleCode.TheVariants as code;
ghost use Rattle.pb_parse.specs.ScheduleWords.{order_of};
ghost use Rattle.pb_parse.specs.Schedules.{with_event_line, schedule_of};
ghost use Rattle.pb_parse.specs.EventLines.{IsLineOf, IsSchedule};
ghost use Rattle.pb_parse.specs.ScheduleFaults.{StopsAtField, GoesPast};

/// A line is read as an event, so many times, exactly where it is the event's words with one blank
/// between them, character for character; a step's may have one more, which states how often. What
/// the words name may stand there: actors from 1 to 63, changes from 1 to 10,000, 1 to 1,000,000
/// times, rows of 64 bits, columns below 16, and observers by the name that they have first.
pub fn event_lines_are_read_as_written()
    ensures { (observers : List ObserverOf) (line : List ℕ) (order : Order)
        → (order_of observers line ≡ Ok order)
        ↔ IsLineOf observers order line }
{}

/// A text is read as events exactly where each of its lines that are neither empty nor remarks is read, the events are
/// theirs in order, and they are at most 1,000,000.
pub fn schedules_are_their_lines()
    ensures { (observers : List ObserverOf) (text : List ℕ) (events : List Event)
        → (schedule_of observers text ≡ Ok events) ↔ IsSchedule observers text events }
{}

/// The fault of a schedule is that of its first line at fault: the lines before it are a schedule of their own.
pub fn schedule_fault_is_first()
    ensures { (observers : List ObserverOf) (text : List ℕ) (line code : ℕ)
        → schedule_of observers text ≡ Err (line, code)
        → StopsAt schedule_code (with_event_line observers) [] text line code }
{}

/// A line that isn't read, and isn't at fault for its form, stops at its first field at fault: up to there its words are
/// those of a line, and there stands a number beyond its range, or a name that no observer has. Each line that stops so
/// has that fault, with any words after it. Too many events are the fault exactly where a line is
/// read, and goes past.
pub fn schedule_faults_are_told_where_they_are()
    ensures field { (observers : List ObserverOf) (line : List ℕ) (cause : ScheduleCode)
        → order_of observers line ≡ Err cause
        → (cause ≡ code.Form) ⊎ StopsAtField observers (words_of line) cause }
    ensures told { (observers : List ObserverOf) (line : List ℕ) (cause : ScheduleCode)
        → StopsAtField observers (words_of line) cause → order_of observers line ≡ Err cause }
    ensures too_many { (observers : List ObserverOf) (before : List Event) (line : List ℕ)
        → (with_event_line observers before line ≡ Err code.TooMany)
        ↔ GoesPast observers before line }
{}
