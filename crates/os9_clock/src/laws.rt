ghost use Rattle.std.specs.Prelude.{◌≡◌, ◌<◌, ℕ, true, Some, List};
ghost use Rattle.os9_base.specs.declared.registers.TimePacket.{TimePacket};
ghost use Rattle.time_rules.specs.CivilTime.{is_time_packet};
ghost use Rattle.os9_clock.specs.Spelled.{spelled};
ghost use Rattle.os9_clock.specs.TimeText.{time_in};

/// Each date and time in the years 1900 to 2155 has exactly one text, and it is read from that
/// text. No other text is read.
pub fn each_time_has_one_text()
    ensures read { (t : TimePacket) → t.year < 256 → is_time_packet t ≡ true
        → time_in (spelled t) ≡ Some t }
    ensures time { (text : List ℕ) (t : TimePacket) → time_in text ≡ Some t
        → is_time_packet t ≡ true }
    ensures text { (text : List ℕ) (t : TimePacket) → time_in text ≡ Some t → text ≡ spelled t }
{}
