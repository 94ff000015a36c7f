//! Common field names and values.

ghost use Rattle.std.specs.Prelude.{◌≡◌, IfSome, IsTrue};
ghost use Rattle.std.specs.List.{list_all};
ghost use Rattle.http_header.specs.FieldName.{is_field_name};
ghost use Rattle.http_header.specs.FieldValue.{plain_value};
ghost use Rattle.http_header.specs.Token.{is_value_byte, lowercase};

use http_header::{
    ACCEPT, ACCEPT_ENCODING, ACCEPT_LANGUAGE, CONNECTION, CONTENT_TYPE, COOKIE, HOST, HeaderName,
    HeaderValue, USER_AGENT,
};

/// Returns the name if the bytes are one of a few common names, in the usual spelling of clients or responses. This
/// avoids a search among all standard names.
pub(crate) fn common_name(bytes: &[u8]) -> Option<HeaderName>
    ensures same { IfSome result (λ name. name ≡ lowercase bytes.now) }
    ensures valid { IfSome result (λ name. IsTrue (is_field_name bytes.now)) }
{
    if bytes == b"Host".as_slice() {
        return Some(HOST);
    }
    if bytes == b"content-type".as_slice() {
        return Some(CONTENT_TYPE);
    }
    if bytes == b"Accept".as_slice() {
        return Some(ACCEPT);
    }
    if bytes == b"Connection".as_slice() {
        return Some(CONNECTION);
    }
    if bytes == b"User-Agent".as_slice() {
        return Some(USER_AGENT);
    }
    if bytes == b"Accept-Encoding".as_slice() {
        return Some(ACCEPT_ENCODING);
    }
    if bytes == b"Accept-Language".as_slice() {
        return Some(ACCEPT_LANGUAGE);
    }
    if bytes == b"Cookie".as_slice() {
        return Some(COOKIE);
    }
    None
}

/// Returns the value if the bytes are one of a few common values. It takes no memory.
pub(crate) fn common_value(bytes: &[u8]) -> Option<HeaderValue>
    ensures same { IfSome result (λ value. value ≡ plain_value bytes.now) }
    ensures valid { IfSome result (λ value. IsTrue (list_all is_value_byte bytes.now)) }
{
    if bytes == b"text/plain".as_slice() {
        return Some(HeaderValue::from_static("text/plain"));
    }
    if bytes == b"text/html".as_slice() {
        return Some(HeaderValue::from_static("text/html"));
    }
    if bytes == b"text/css".as_slice() {
        return Some(HeaderValue::from_static("text/css"));
    }
    if bytes == b"text/javascript".as_slice() {
        return Some(HeaderValue::from_static("text/javascript"));
    }
    if bytes == b"application/json".as_slice() {
        return Some(HeaderValue::from_static("application/json"));
    }
    if bytes == b"text/plain; charset=utf-8".as_slice() {
        return Some(HeaderValue::from_static("text/plain; charset=utf-8"));
    }
    if bytes == b"text/html; charset=utf-8".as_slice() {
        return Some(HeaderValue::from_static("text/html; charset=utf-8"));
    }
    if bytes == b"no-store".as_slice() {
        return Some(HeaderValue::from_static("no-store"));
    }
    if bytes == b"no-cache".as_slice() {
        return Some(HeaderValue::from_static("no-cache"));
    }
    if bytes == b"nosniff".as_slice() {
        return Some(HeaderValue::from_static("nosniff"));
    }
    None
}
