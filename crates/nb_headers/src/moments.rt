//! Moments as text, in the form that the NServiceBus documentation gives for times in headers.
ghost use Rattle.std.specs.Prelude.{◌≡◌, ◌≤◌, ◌<◌, ◌+◌, ◌-◌, ◌*◌, ◌++◌, ◌/◌, ◌%◌, ◌^◌, ◌≤ℤ◌, length, zip, pos, OnOk, IfOk, IfSome, string_bytes};
ghost use Rattle.std.specs.List.{list_all};
ghost use Rattle.jiff.specs.Words.{epoch_day};
ghost use Rattle.jiff_core.specs.Calendar.{day_count};
ghost use Rattle.nb_headers.specs.Moments.{civil_of, two, day_text, time_text, moment_text, has_form, fits, form, two_at, day_start, read_moment};

use jiff::ToSpan;
use jiff::civil::{Date, date};
use nb_base::{Moment, NoMemory, Text};
use std::alloc::Global;

/// The day so many days after 1970-01-01.
fn day_at(days: u32) -> Date
    requires { days ≤ 2932896 }
    ensures { epoch_day result ≡ pos days }
{
    date(1970, 1, 1).checked_add((days as i64).days()).unwrap()
}

/// The year, month and day so many days after 1970-01-01.
fn civil_at(days: u32) -> (u16, u8, u8)
    requires { days ≤ 2932896 }
    ensures date { result ≡ civil_of days }
    ensures year { result.0 < 10000 }
    ensures month { result.1 < 100 }
    ensures day { result.2 < 100 }
{
    let day = day_at(days);
    (
        day.year().unsigned_abs(),
        day.month().unsigned_abs(),
        day.day().unsigned_abs(),
    )
}

/// Two digits at the end.
fn push_two(text: &mut String, n: u8) -> Result<(), NoMemory>
    requires { n < 100 }
    ensures { OnOk result (string_bytes text.new ≡ string_bytes text.old ++ two n) }
{
    text.push(char::from(b'0' + n / 10))?;
    text.push(char::from(b'0' + n % 10))?;
    Ok(())
}

/// The day of a moment, as text.
fn push_day(text: &mut String, days: u32) -> Result<(), NoMemory>
    requires { days ≤ 2932896 }
    ensures { OnOk result (string_bytes text.new
        ≡ string_bytes text.old ++ day_text (civil_of days)) }
{
    let (year, month, day) = civil_at(days);
    push_two(text, (year / 100) as u8)?;
    push_two(text, (year % 100) as u8)?;
    text.push('-')?;
    push_two(text, month)?;
    text.push('-')?;
    push_two(text, day)
}

/// The time of day, as text.
fn push_time(text: &mut String, second: u32) -> Result<(), NoMemory>
    requires { second < 86400 }
    ensures { OnOk result (string_bytes text.new ≡ string_bytes text.old ++ time_text second) }
{
    push_two(text, (second / 3600) as u8)?;
    text.push(':')?;
    push_two(text, (second / 60 % 60) as u8)?;
    text.push(':')?;
    push_two(text, (second % 60) as u8)
}

/// The moment as `yyyy-MM-dd HH:mm:ss:000000 Z`, in UTC.
#[tactic(auto, unfolding(crate::specs::Moments::moment_text))]
pub fn moment_text(alloc: Global, moment: Moment) -> Result<Text, NoMemory>
    ensures { IfOk result (λ t. t ≡ moment_text moment) }
{
    let seconds = moment.seconds();
    let mut text = String::new(alloc);
    push_day(&mut text, (seconds / 86400) as u32)?;
    text.push(' ')?;
    push_time(&mut text, (seconds % 86400) as u32)?;
    text.push_str(":000000 Z")?;
    Text::of_string(text)
}

/// Letters `d` stand for digits.
const FORM: [u8; 28] = *b"dddd-dd-dd dd:dd:dd:dddddd Z";

/// Whether each byte fits the form.
fn all_fit(t: &[u8]) -> bool
    ensures { result ≡ list_all (λ p. fits p.0 p.1) (zip form t.now) }
{
    FORM.iter().zip(t).all(|(p, c)| if *p == b'd' {
        c.is_ascii_digit()
    } else {
        *p == *c
    })
}

/// Whether the text has the form of a moment.
fn has_form(t: &[u8]) -> bool
    ensures { result ≡ has_form t.now }
{
    if t.len() != 28 {
        return false;
    }
    all_fit(t)
}

/// The number of the two digits from a place on.
fn two_at(t: &[u8], i: usize) -> u32
    requires { i + 1 < length t.now }
    ensures value { result ≡ two_at t.now i }
    ensures small { result < 3000 }
{
    t[i].saturating_sub(48) as u32 * 10 + t[i + 1].saturating_sub(48) as u32
}

/// The seconds up to the day's start.
fn start_of(day: Date) -> u64
    requires { pos 1970 ≤ℤ day.year }
    ensures value { result ≡ (day_count day.year day.month day.day - 4371953) * 86400 }
    ensures small { result ≤ 253402214400 }
{
    date(1970, 1, 1)
        .duration_until(day)
        .as_secs()
        .unsigned_abs()
}

/// The seconds up to a day's start, where the calendar has the day.
fn day_start(year: u32, month: u32, day: u32) -> Option<u64>
    requires from { 1970 ≤ year }
    requires to { year ≤ 9999 }
    ensures value { result ≡ day_start year month day }
    ensures small { IfSome result (λ n. n ≤ 253402214400) }
{
    if month > 12 || day > 31 {
        return None;
    }
    match Date::new(year as i16, month as i8, day as i8) {
        Ok(day) => Some(start_of(day)),
        Err(_) => None,
    }
}

/// The seconds that a text shows, a fraction cut off.
#[tactic(auto, unfolding(crate::specs::Moments::read_moment))]
fn seconds_of(text: &str) -> Option<u64>
    ensures value { result ≡ read_moment text.now }
    ensures range { IfSome result (λ n. n ≤ 253402300799) }
{
    let t = text.as_bytes();
    if !has_form(t) {
        return None;
    }
    let year = two_at(t, 0) * 100 + two_at(t, 2);
    let month = two_at(t, 5);
    let day = two_at(t, 8);
    let hour = two_at(t, 11);
    let minute = two_at(t, 14);
    let second = two_at(t, 17);
    if year < 1970 || year > 9999 || hour > 23 || minute > 59 || second > 59 {
        return None;
    }
    let start = day_start(year, month, day)?;
    Some(start + u64::from(hour * 3600 + minute * 60 + second))
}

/// The moment that a text of the form `yyyy-MM-dd HH:mm:ss:ffffff Z` shows, cut to seconds. None where the text hasn't
/// that form, shows no day and time, or shows one before 1970. There are no leap seconds.
pub fn read_moment(text: &str) -> Option<Moment>
    ensures { result ≡ read_moment text.now }
{
    Moment::new(seconds_of(text)?)
}
