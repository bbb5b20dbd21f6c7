use os9_base::registers::TimePacket;
use os9_clock::time::{is_time, time_at};

/// A year as it is written, with month, day, hour, minute and second.
type Written = (u16, [u8; 5]);

fn packet((year, [month, day, hour, minute, second]): Written) -> TimePacket {
    TimePacket {
        year: (year.saturating_sub(1900) % 256) as u8,
        month,
        day,
        hour,
        minute,
        second,
    }
}

// The seconds between two of these times are those of their Unix times.
#[test]
fn times_after(rt: HostRuntime) {
    let rows: [(Written, u32, Written); 8] = [
        ((1990, [1, 1, 0, 0, 0]), 0, (1990, [1, 1, 0, 0, 0])),
        (
            (1990, [1, 1, 0, 0, 0]),
            368_848_000,
            (2001, [9, 9, 1, 46, 40]),
        ),
        (
            (1990, [1, 1, 0, 0, 0]),
            1_516_331_647,
            (2038, [1, 19, 3, 14, 7]),
        ),
        ((1970, [1, 1, 0, 0, 0]), u32::MAX, (2106, [2, 7, 6, 28, 15])),
        ((1992, [2, 28, 23, 59, 59]), 1, (1992, [2, 29, 0, 0, 0])),
        ((1900, [2, 28, 23, 59, 59]), 1, (1900, [3, 1, 0, 0, 0])),
        ((2155, [12, 31, 23, 59, 59]), 1, (2156, [1, 1, 0, 0, 0])),
        (
            (2155, [12, 31, 0, 0, 0]),
            5_184_000,
            (2156, [2, 29, 0, 0, 0]),
        ),
    ];
    for (from, seconds, to) in rows {
        let base = packet(from);
        let later = if is_time(base) {
            Some(time_at(base, seconds))
        } else {
            None
        };
        assert_eq!(rt; later, Some(packet(to)), "{from:?}");
    }
}
