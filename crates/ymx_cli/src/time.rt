//! The time in UTC as a text that stands before a line.

use arrayvec::ArrayString;
use jiff_core::civil::DateTime;
use std::fmt::Write;
use std::time::Duration;

/// How many bytes a time has as a text, with the space after it.
pub(crate) const TIME: usize = 25;

/// The time so long after the beginning of 1970, in UTC, as `2026-11-27T18:55:00.123Z` and a space. None from the year
/// 10000 on.
pub(crate) fn time_text(since_1970: Duration) -> Option<ArrayString<TIME>> {
    let nanoseconds = i128::try_from(since_1970.as_nanos()).ok()?;
    let DateTime { date, time } = DateTime::from_nanosecond(nanoseconds).ok()?;
    let (month, day, hour, minute) = (date.month, date.day, time.hour, time.minute);
    let milliseconds = time.subsec_nanosecond / 1_000_000;
    let mut text = ArrayString::new();
    write!(
        text,
        "{:04}-{month:02}-{day:02}T{hour:02}:{minute:02}:",
        date.year
    )
    .ok()?;
    write!(text, "{:02}.{milliseconds:03}Z ", time.second).ok()?;
    Some(text)
}
