//! What follows from the history of a port that was written to, and from files that were checked.

ghost use Rattle.mmt_send.specs.Laws.{CheckedFilesAreWhole, FrontsAreBytes, StreamsAreBytes};

/// A port to which packets were written has their bytes and no other, and nothing was noted or read; and where only
/// the first of them were written, a prefix of their bytes.
pub fn what_is_written()
    ensures all { StreamsAreBytes }
    ensures front { FrontsAreBytes }
{}

/// Where the files of a right programme were found to be there and long enough, no unit is short, so a stream never
/// ends for that.
pub fn checked_files_are_whole()
    ensures { CheckedFilesAreWhole }
{}
