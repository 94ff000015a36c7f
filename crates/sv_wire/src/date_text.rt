//! The text of a date.

ghost use Rattle.std.specs.Prelude.{◌≡◌};
ghost use Rattle.httpdate.specs.Date.{date_text};
ghost use Rattle.httpdate.specs.declared.date.HttpDate.{HttpDate as Date};
ghost use Rattle.sv_wire.specs.ResponseText.{IsDateAt};

use httpdate::HttpDate;
use std::marker::Model;

/// The last second that a date can show: `Fri, 31 Dec 9999 23:59:59 GMT`.
const LAST_SECOND: u64 = 253_402_300_799;

/// The text of a date (RFC 9110, section 5.6.7), shared by all responses of one second. Contracts see the time in
/// seconds since 1970. A time after the year 9999 is shown as the last second of that year.
#[derive(Drop)]
pub struct DateText {
    moment: u64,
    text: [u8; 29],
}

impl Model for DateText {
    ghost use Rattle.std.specs.Prelude.{ℕ, ◌≡◌};
    ghost use Rattle.httpdate.specs.Date.{date_text};
    ghost use Rattle.httpdate.specs.declared.date.HttpDate.{HttpDate};
    ghost use Rattle.sv_wire.specs.ResponseText.{IsDateAt};

    ghost Value = { ℕ };

    ghost view = { λ shown. shown.moment };

    ghost invariant = { λ shown. (date : HttpDate) × IsDateAt shown.moment date × (shown.text ≡ date_text date) };
}

impl DateText {
    /// Returns the text of the date at this time.
    pub fn at(moment: u64) -> DateText
        ensures { result ≡ moment }
    {
        DateText {
            moment,
            text: date_at(moment).to_bytes(),
        }
    }

    /// Returns the time.
    #[inline(always)]
    pub fn moment(&self) -> u64
        ensures { result ≡ self.now }
    {
        self.moment
    }

    /// Changes the text to the date at this time. Computes nothing if the time is the same.
    #[inline(always)]
    pub fn set(&mut self, moment: u64)
        ensures { self.new ≡ moment }
    {
        if self.moment != moment {
            *self = DateText::at(moment);
        }
    }

    /// Returns the text.
    pub(crate) fn as_bytes(&self) -> &[u8]
        ensures { (date : Date) × IsDateAt self.now date × (result.now ≡ date_text date) }
    {
        self.text.as_slice()
    }
}

fn date_at(moment: u64) -> HttpDate
    ensures { IsDateAt moment result }
{
    HttpDate::from_unix_secs(moment.min(LAST_SECOND)).unwrap()
}
