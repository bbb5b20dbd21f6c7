ghost use Rattle.std.specs.Prelude.{◌≡◌, ◌+◌, true, false};
ghost use Rattle.time_rules.specs.CivilTime.{is_leap, is_time_packet, packet_time, second_number, time_packet};
ghost use Rattle.time_rules.specs.CivilRows.{at, civil_at};

/// Of the years that end a century, every fourth is a leap year.
pub fn leap_years()
    ensures fourth { is_leap 1992 ≡ true }
    ensures third { is_leap 1991 ≡ false }
    ensures century { is_leap 1900 ≡ false }
    ensures fourth_century { is_leap 2000 ≡ true }
{}

/// A packet is a date and time if the calendar and a clock have it. A leap second is not one, and
/// neither is the end of a day as its hour 24.
pub fn packets_that_are_times()
    ensures leap_day { is_time_packet (at 92 2 29 0 0 0) ≡ true }
    ensures no_leap_day { is_time_packet (at 0 2 29 0 0 0) ≡ false }
    ensures last { is_time_packet (at 255 12 31 23 59 59) ≡ true }
    ensures month { is_time_packet (at 90 0 1 0 0 0) ≡ false }
    ensures day { is_time_packet (at 90 4 31 0 0 0) ≡ false }
    ensures hour { is_time_packet (at 90 1 1 24 0 0) ≡ false }
    ensures second { is_time_packet (at 90 1 1 23 59 60) ≡ false }
{}

/// 1 January 1970 is 25,567 days after 1 January 1900, and second 1,000,000,000 from then on is
/// 01:46:40 of 9 September 2001.
pub fn seconds_are_counted()
    ensures first { second_number (civil_at 0 1 1 0 0 0) ≡ 0 }
    ensures unix { second_number (civil_at 70 1 1 0 0 0) ≡ 2_208_988_800 }
    ensures later { second_number (civil_at 101 9 9 1 46 40) ≡ 2_208_988_800 + 1_000_000_000 }
{}

/// A packet has the year of its civil time up to 2155, and that of 256 years before from then on.
pub fn years_of_packets()
    ensures last { time_packet (civil_at 255 12 31 23 59 59) ≡ at 255 12 31 23 59 59 }
    ensures round { time_packet (civil_at 256 2 29 0 0 0) ≡ at 0 2 29 0 0 0 }
    ensures same { packet_time (at 90 1 2 3 4 5) ≡ civil_at 90 1 2 3 4 5 }
{}
