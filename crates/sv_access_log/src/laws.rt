//! The laws of the lines of an access log.

ghost use Rattle.sv_access_log.specs.LineLaws.{CombinedLinesAreWhole, JsonLinesAreWhole};

/// The law that a line in the combined format is printable ASCII with one line feed, at its end, and has six quotation
/// marks, whatever the client sent.
pub fn combined_lines_are_whole()
    ensures { CombinedLinesAreWhole }
{}

/// The law that a line in JSON has one line feed, at its end, whatever the client sent.
pub fn json_lines_are_whole()
    ensures { JsonLinesAreWhole }
{}
