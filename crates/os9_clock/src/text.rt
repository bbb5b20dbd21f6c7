ghost use Rattle.std.specs.Prelude.{◌≡◌, ◌≤◌, ◌+◌, IfSome, length, true};
ghost use Rattle.time_rules.specs.CivilTime.{is_time_packet};
ghost use Rattle.os9_clock.specs.TimeText as model;
ghost use Rattle.os9_clock.specs.TimeText.{time_in};

use crate::time::is_time;
use os9_base::registers::TimePacket;
use text_values::read_number;

/// The number of characters of a date and time.
const TEXT_BYTES: usize = 19;

/// The first year that a packet can give, and the last.
const FIRST_YEAR: u32 = 1900;

const LAST_YEAR: u32 = 2155;

/// The greatest number of two digits.
const TWO_DIGITS: u32 = 99;

/// The date and time that a text spells as `YYYY-MM-DDThh:mm:ss`; None if it does not spell one
/// in the years 1900 to 2155 (this project's own). Each number has all its digits.
pub fn read_time(text: &[u8]) -> Option<TimePacket>
    ensures spelled { result ≡ time_in text.now }
    ensures civil { IfSome result (λ t. is_time_packet t ≡ true) }
{
    if !has_marks(text) {
        return None;
    }
    match packet_in(text) {
        Some(packet) if is_time(packet) => Some(packet),
        _ => None,
    }
}

/// Does the text have nineteen characters, with the marks between the numbers in their places?
fn has_marks(text: &[u8]) -> bool
    ensures { result ≡ model.has_marks text.now }
{
    text.len() == TEXT_BYTES
        && text[4] == b'-'
        && text[7] == b'-'
        && text[10] == b'T'
        && text[13] == b':'
        && text[16] == b':'
}

/// The packet of the numbers in their places.
fn packet_in(text: &[u8]) -> Option<TimePacket>
    requires { length text.now ≡ 19 }
    ensures { result ≡ model.packet_in text.now }
{
    let year = year_in(text);
    let month = number_at(text, 5);
    let day = number_at(text, 8);
    let hour = number_at(text, 11);
    let minute = number_at(text, 14);
    let second = number_at(text, 17);
    let (Some(year), Some(month), Some(day), Some(hour), Some(minute), Some(second)) = (
        year, month, day, hour, minute, second,
    ) else {
        return None;
    };
    Some(TimePacket {
        year,
        month,
        day,
        hour,
        minute,
        second,
    })
}

/// The year that the first four characters spell, less 1900, if it is from 1900 to 2155.
fn year_in(text: &[u8]) -> Option<u8>
    requires { length text.now ≡ 19 }
    ensures { result ≡ model.year_in text.now }
{
    match read_number(&text[0..4], FIRST_YEAR, LAST_YEAR) {
        None => None,
        Some(year) => Some((year - FIRST_YEAR) as u8),
    }
}

/// The number that two characters from this place on spell.
fn number_at(text: &[u8], at: usize) -> Option<u8>
    requires { at + 2 ≤ length text.now }
    ensures { result ≡ model.number_at text.now at 2 }
{
    match read_number(&text[at..at + 2], 0, TWO_DIGITS) {
        None => None,
        Some(number) => Some(number as u8),
    }
}
