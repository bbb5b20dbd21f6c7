ghost use Rattle.std.specs.Prelude.{◌≡◌, ◌<◌, ◌+◌, ◌*◌, ◌%◌, true, pos, ◌≤ℤ◌};
ghost use Rattle.time_rules.specs.CivilTime as model;
ghost use Rattle.time_rules.specs.CivilTime.{day_number, is_time_packet, IsTimeAfter, packet_time, second_number, time_packet};
ghost use Rattle.os9_clock.specs.JiffTime.{civil_of};
ghost use Rattle.jiff.specs.Words.{IsYmd, IsHms};

use jiff::SignedDuration;
use jiff::civil::DateTime;
use os9_base::registers::TimePacket;

/// The year from which packets count.
const FIRST_YEAR: i16 = 1900;

/// The seconds of a day.
const SECONDS_PER_DAY: u64 = 86_400;

/// Is the packet a civil date and time of a year from 1900 to 2155?
pub fn is_time(t: TimePacket) -> bool
    ensures { result ≡ is_time_packet t }
{
    1 <= t.month
        && t.month <= 12
        && 1 <= t.day
        && t.day <= month_days(1900 + u16::from(t.year), t.month)
        && t.hour <= 23
        && t.minute <= 59
        && t.second <= 59
}

/// The packet of the civil time `seconds` seconds after another packet's (System Programmer's
/// Manual, F$Time). Its year counts from 1900 and wraps around after 2155 (this project's own).
pub fn time_at(base: TimePacket, seconds: u32) -> TimePacket
    requires { is_time_packet base ≡ true }
    ensures { IsTimeAfter base seconds result }
{
    let second = second_of_day(base) + u64::from(seconds);
    if second < SECONDS_PER_DAY {
        return on_day(base, second);
    }
    on_later_day(base, seconds)
}

// The number of seconds from the beginning of its day to a packet's time.
fn second_of_day(t: TimePacket) -> u64
    ensures { result ≡ t.hour * 3600 + t.minute * 60 + t.second }
{
    3600 * u64::from(t.hour) + 60 * u64::from(t.minute) + u64::from(t.second)
}

// The packet of this second of the day of another packet.
fn on_day(base: TimePacket, second: u64) -> TimePacket
    requires civil { is_time_packet base ≡ true }
    requires within { second < 86400 }
    ensures civil { is_time_packet result ≡ true }
    ensures second { second_number (packet_time result)
        ≡ day_number (packet_time base) * 86400 + second }
{
    TimePacket {
        hour: (second / 3600) as u8,
        minute: (second / 60 % 60) as u8,
        second: (second % 60) as u8,
        ..base
    }
}

// `time_at` for a time of a later day.
fn on_later_day(base: TimePacket, seconds: u32) -> TimePacket
    requires { is_time_packet base ≡ true }
    ensures { IsTimeAfter base seconds result }
{
    let later = civil_time(base)
        .checked_add(SignedDuration::from_secs(i64::from(seconds)))
        .unwrap();
    packet_of(later)
}

// The civil time that a packet gives.
fn civil_time(t: TimePacket) -> DateTime
    requires { is_time_packet t ≡ true }
    ensures date { IsYmd (pos (1900 + t.year)) (pos t.month) (pos t.day) result.date }
    ensures time { IsHms (pos t.hour) (pos t.minute) (pos t.second) (pos 0) result.time }
{
    let year = full_year(t.year);
    let month = signed(t.month);
    let day = signed(t.day);
    let hour = signed(t.hour);
    let minute = signed(t.minute);
    let second = signed(t.second);
    DateTime::new(year, month, day, hour, minute, second, 0).unwrap()
}

// The year for a packet's year.
fn full_year(year: u8) -> i16
    ensures { result ≡ pos (1900 + year) }
{
    FIRST_YEAR + i16::from(year)
}

// The same number as a signed one.
fn signed(part: u8) -> i8
    requires { part < 128 }
    ensures { result ≡ pos part }
{
    part as i8
}

// The packet of a civil time from 1900 on.
fn packet_of(time: DateTime) -> TimePacket
    requires { pos 1900 ≤ℤ time.date.year }
    ensures { result ≡ time_packet (civil_of time) }
{
    TimePacket {
        year: ((time.year() - FIRST_YEAR) % 256) as u8,
        month: time.month() as u8,
        day: time.day() as u8,
        hour: time.hour() as u8,
        minute: time.minute() as u8,
        second: time.second() as u8,
    }
}

// The number of days of the month.
fn month_days(year: u16, month: u8) -> u8
    ensures { result ≡ model.month_days year month }
{
    match month {
        2 if is_leap(year) => 29,
        2 => 28,
        4 | 6 | 9 | 11 => 30,
        _ => 31,
    }
}

// Is the year a leap year?
fn is_leap(year: u16) -> bool
    ensures { result ≡ model.is_leap year }
{
    year % 4 == 0 && (year % 100 != 0 || year % 400 == 0)
}
