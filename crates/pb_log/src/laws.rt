//! What holds of all logs.
ghost use Rattle.pb_log.specs.Laws.{FilesHaveOneReading, ShutLogsOpen, TurnedGatesShow};

/// Any bytes of a file stand for one list of records.
pub fn files_have_one_reading()
    ensures { FilesHaveOneReading }
{}

/// A log in which the gate of any record but the last is closed isn't readable, so that `Log::open` reports damage.
pub fn turned_gates_show()
    ensures { TurnedGatesShow }
{}

/// What a put leaves whenever the machine stops, a closed gate after its records, isn't reported as damage by `Log::open`, unless the bytes
/// after that gate hide a record.
pub fn shut_logs_open()
    ensures { ShutLogsOpen }
{}
