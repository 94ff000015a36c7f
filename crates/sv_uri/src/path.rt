//! The canonical form of a request target.

use sv_text::Text;

/// A canonical path with its query. Contracts see plain data: the bytes of both.
#[derive(Drop)]
pub struct Canon {
    /// The path. It begins with `/`, and its segments are decoded. Only the last may be empty, and none is `.` or `..`
    /// (Jakarta Servlet 6.0, section 3.5.2). It ends in `/` if the last segment of the target was empty, `.` or `..`.
    pub path: Text,
    /// The bytes after the first `?`, if there is one, with each byte outside 33 to 126 as an escape in upper case. The
    /// query may be empty, and is not decoded.
    pub query: Option<Text>,
}
