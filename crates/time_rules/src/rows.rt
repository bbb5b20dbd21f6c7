ghost use Rattle.std.specs.Prelude.{◌≡◌, [], ◌∷◌, replicate};
ghost use Rattle.os9_base.specs.declared.errors.TheConstants.{E_BADTIME, E_BPADDR};
ghost use Rattle.time_rules.specs.Clock.{IsNow, seconds_since};
ghost use Rattle.time_rules.specs.Packet.{packet_bytes, packet_of};
ghost use Rattle.time_rules.specs.Rows.{asking, first_of_march, leap_clock, leap_day};
ghost use Rattle.time_rules.specs.STime.{f_stime};
ghost use Rattle.time_rules.specs.Step.{refused, sets, tells};
ghost use Rattle.time_rules.specs.Time.{f_time};

/// A clock that is set to a second before 1 March 1992 shows that second for 60 ticks, and 1 March
/// in the next one.
pub fn a_second_is_sixty_ticks()
    ensures first { seconds_since leap_clock 69 ≡ 0 }
    ensures next { seconds_since leap_clock 70 ≡ 1 }
    ensures before { IsNow leap_clock 69 leap_day }
    ensures after { IsNow leap_clock 70 first_of_march }
{}

/// F$Time stores the packet at X, and is refused if its last byte is past the named slots.
pub fn the_time_is_told()
    ensures told { f_time (asking 8 (replicate 14 0)) leap_day 2 ≡ tells 8 leap_day }
    ensures last { f_time (asking 8186 (replicate 8192 0)) leap_day 2 ≡ tells 8186 leap_day }
    ensures short { f_time (asking 8187 (replicate 8192 0)) leap_day 2 ≡ refused E_BPADDR }
    ensures bytes { packet_bytes leap_day ≡ 92 ∷ 2 ∷ 29 ∷ 23 ∷ 59 ∷ 59 ∷ [] }
{}

/// F$STime sets the clock to the packet at X and to this tick, and is refused if the packet is not
/// a civil date and time.
pub fn the_time_is_set()
    ensures set { f_stime (asking 1 (7 ∷ 92 ∷ 2 ∷ 29 ∷ 23 ∷ 59 ∷ 59 ∷ [])) 2 ≡ sets leap_clock }
    ensures no_day { f_stime (asking 0 (93 ∷ 2 ∷ 29 ∷ 23 ∷ 59 ∷ 59 ∷ [])) 2 ≡ refused E_BADTIME }
    ensures unnamed { f_stime (asking 8187 (replicate 8192 0)) 2 ≡ refused E_BPADDR }
    ensures same { packet_of (packet_bytes leap_day) ≡ leap_day }
{}
