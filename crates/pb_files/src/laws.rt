//! Laws on faults of files: what the command's contract comes to if it is known what each reading
//! answers. They state it without the command, so that nobody has to unfold its definition to see
//! which file is reported.
ghost use Rattle.pb_files.specs.FirstFaults.{FirstUnreadIsTold, FirstNoTextIsTold, TextsAreNoFault};
ghost use Rattle.pb_files.specs.ProgramFaults.{FaultyTextIsTold, KnownBytesAreAnswered};

/// If it is known of files what reading them answers, the first that isn't read is reported, with
/// its own fault. If all are read, the first that isn't text is reported. If all are text, none is.
/// Want of memory may be reported at any time.
pub fn first_file_fault_is_told()
    ensures unread { FirstUnreadIsTold }
    ensures no_text { FirstNoTextIsTold }
    ensures texts { TextsAreNoFault }
{}

/// If the text of a program is known and faulty, the place of its fault is reported. If the bytes
/// of a program are known, no fault of their file is reported. Want of memory may be reported at
/// any time.
pub fn known_programs_are_judged()
    ensures text { FaultyTextIsTold }
    ensures bytes { KnownBytesAreAnswered }
{}
