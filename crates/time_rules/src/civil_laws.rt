ghost use Rattle.std.specs.Prelude.{◌≡◌, ℕ, true};
ghost use Rattle.os9_base.specs.declared.registers.TimePacket.{TimePacket};
ghost use Rattle.time_rules.specs.CivilTime.{CivilTime, IsTimeAfter, is_civil, is_time_packet, second_number};

/// Each second has one date and time. So for any number of seconds after a packet there is exactly
/// one packet.
pub fn each_second_has_one_time()
    ensures there { (base : TimePacket) (seconds : ℕ) → is_time_packet base ≡ true
        → (packet : TimePacket) × IsTimeAfter base seconds packet }
    ensures time { (one other : CivilTime) → is_civil one ≡ true → is_civil other ≡ true
        → second_number one ≡ second_number other → one ≡ other }
    ensures packet { (base : TimePacket) (seconds : ℕ) (one other : TimePacket)
        → IsTimeAfter base seconds one → IsTimeAfter base seconds other → one ≡ other }
{}
