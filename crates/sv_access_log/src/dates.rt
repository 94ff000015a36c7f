//! Dates of a log.

ghost use Rattle.std.specs.Prelude.{◌≡◌, ◌≤◌, true};
ghost use Rattle.std.specs.List.{list_all};
ghost use Rattle.sv_access_log.specs.Dates as spec;
ghost use Rattle.sv_access_log.specs.Escaping.{is_printable};
ghost use Rattle.sv_wire.specs.ResponseText.{IsDateAt};

use httpdate::HttpDate;
use sv_run::LAST_MOMENT;

/// Returns the date at a time in seconds since 1970, or the last second of the year 9999 if the time is later.
pub(crate) fn date_at(moment: u64) -> HttpDate
    ensures { IsDateAt moment result }
{
    HttpDate::from_unix_secs(moment.min(LAST_MOMENT)).unwrap()
}

/// Returns a date as in `01/Dec/2026:03:13:03 +0000`.
pub(crate) fn log_date(date: &HttpDate) -> [u8; 26]
    ensures value { result ≡ spec.log_date date.now }
    ensures printable { list_all is_printable result ≡ true }
{
    let [
        _,
        _,
        _,
        _,
        _,
        d,
        e,
        _,
        m,
        n,
        o,
        _,
        y,
        z,
        v,
        w,
        _,
        h,
        i,
        _,
        p,
        q,
        _,
        s,
        t,
        _,
        _,
        _,
        _,
    ] = date.to_bytes();
    [
        d, e, b'/', m, n, o, b'/', y, z, v, w, b':', h, i, b':', p, q, b':', s, t, b' ', b'+',
        b'0', b'0', b'0', b'0',
    ]
}

/// Returns a date as in `2026-12-01T03:13:03Z`.
pub(crate) fn internet_date(date: &HttpDate) -> [u8; 20]
    ensures value { result ≡ spec.internet_date date.now }
    ensures printable { list_all is_printable result ≡ true }
{
    let [
        _,
        _,
        _,
        _,
        _,
        d,
        e,
        _,
        _,
        n,
        o,
        _,
        y,
        z,
        v,
        w,
        _,
        h,
        i,
        _,
        p,
        q,
        _,
        s,
        t,
        _,
        _,
        _,
        _,
    ] = date.to_bytes();
    let month = month_number(n, o);
    [
        y,
        z,
        v,
        w,
        b'-',
        b'0' + month / 10,
        b'0' + month % 10,
        b'-',
        d,
        e,
        b'T',
        h,
        i,
        b':',
        p,
        q,
        b':',
        s,
        t,
        b'Z',
    ]
}

// Returns the number of the month whose name has these second and third letters.
fn month_number(second: u8, third: u8) -> u8
    ensures value { result ≡ spec.month_number second third }
    ensures within { result ≤ 12 }
{
    match third {
        b'n' => if second == b'a' { 1 } else { 6 },
        b'b' => 2,
        b'r' => if second == b'a' { 3 } else { 4 },
        b'y' => 5,
        b'l' => 7,
        b'g' => 8,
        b'p' => 9,
        b't' => 10,
        b'v' => 11,
        _ => 12,
    }
}
