// The zone of a time, as text.
ghost use Rattle.std.specs.Prelude.{◌≡◌, ◌+◌, ◌<◌, IsAscii};
ghost use Rattle.reql_datum.specs.Zone.{IsZone, zone_text};

use std::str;

/// The text of a zone, as `+05:30` (RFC 3339, section 5.6).
#[derive(Drop)]
pub struct ZoneText {
    bytes: [u8; 6],
}

impl ZoneText {
    /// The text of a zone of so many minutes.
    pub fn of(zone: i16) -> ZoneText
        requires { IsZone zone }
        ensures text { result.bytes ≡ zone_text zone }
        ensures ascii { IsAscii result.bytes }
    {
        let minutes = zone.unsigned_abs();
        let sign = if zone < 0 { b'-' } else { b'+' };
        let bytes = [
            sign,
            digit(minutes / 600),
            digit(minutes / 60 % 10),
            b':',
            digit(minutes % 60 / 10),
            digit(minutes % 10),
        ];
        ZoneText { bytes }
    }

    /// The text.
    pub fn as_str(&self) -> &str
        requires { IsAscii self.now.bytes }
        ensures { result.now ≡ self.now.bytes }
    {
        match str::from_utf8(&self.bytes) {
            Ok(text) => text,
            Err(_) => unreachable!(),
        }
    }
}

fn digit(n: u16) -> u8
    requires { n < 10 }
    ensures { result ≡ 48 + n }
{
    b'0' + n as u8
}
