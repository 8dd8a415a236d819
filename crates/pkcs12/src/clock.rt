//! The time, as the times of certificates are written.
use jiff::{Error, SignedDuration, Timestamp};
use pkcs12_arguments::Days;
use std::alloc::{AllocError, Global};
use std::rt::Clock;

/// How they are written.
const FORMAT: &str = "%Y-%m-%d %H:%M:%S UTC";

/// The seconds of a day.
const DAY: i64 = 86_400;

/// A time in the form `YYYY-MM-DD HH:MM:SS UTC`.
fn written(alloc: Global, time: Timestamp) -> Result<Option<String>, AllocError> {
    match time.strftime(alloc, FORMAT) {
        Ok(text) => Ok(Some(text)),
        Err(Error::OutOfMemory) => Err(AllocError),
        Err(_) => Ok(None),
    }
}

/// The time by this machine's clock in the form `YYYY-MM-DD HH:MM:SS UTC`; none where the clock does not tell it.
pub fn now_text<R: Clock + AllocGlobal>(rt: &R) -> Result<Option<String>, AllocError> {
    match Timestamp::now(rt) {
        Ok(now) => written(rt.alloc(), now),
        Err(_) => Ok(None),
    }
}

/// The same of the time so many days later; none after the year 9999 too.
pub fn text_after<R: Clock + AllocGlobal>(
    rt: &R,
    days: Days,
) -> Result<Option<String>, AllocError> {
    let Ok(now) = Timestamp::now(rt) else {
        return Ok(None);
    };
    match now.checked_add(SignedDuration::from_secs(i64::from(days.count) * DAY)) {
        Ok(time) => written(rt.alloc(), time),
        Err(_) => Ok(None),
    }
}
