ghost use Rattle.std.specs.Prelude.{◌≡◌, [], ◌∷◌, ◌++◌, codes};
ghost use Rattle.os9_base.specs.declared.errors.TheConstants.{E_BPNUM, E_PNNF, E_WRITE};
ghost use Rattle.proc_model.specs.Records.{zero_regs};
ghost use Rattle.io_model.specs.Terminal.{new_terminal, used_by, driver_with};
ghost use Rattle.io_model.specs.Io.{first_io, with_terminal};
ghost use Rattle.io_model.specs.Rows.{after, calling, failing, abc, used};
ghost use Rattle.io_model.specs.Step.{refused, writes, leaves, fails};
ghost use Rattle.io_model.specs.Terminals.{WritesTerminal};
ghost use Rattle.io_model.specs.Write.{f_perr, i_write};
ghost use Rattle.io_model.specs.declared.io_call.IoCall.TheVariants as Call;

/// F$PErr writes the number of an error, and is refused if standard error is closed.
pub fn errors_are_written()
    ensures line { f_perr (calling 2 (record zero_regs { b = E_PNNF }) []) first_io
        ≡ writes (record {
          terminal = 0;
          put = codes "ERROR #216" ++ 13 ∷ 10 ∷ [];
          count = 11;
          regs = record zero_regs { b = E_PNNF };
        }) }
    ensures closed { f_perr (calling 2 (record zero_regs { b = E_PNNF }) [])
        (after Call.Close 2 (record zero_regs { a = 2 }) [] first_io) ≡ refused E_BPNUM }
{}

/// A terminal that fails at the second of three bytes has put one, and the write is refused.
pub fn a_write_breaks_off()
    ensures step { i_write (calling 2 failing (codes "abc")) first_io ≡ writes abc }
    ensures refusal { WritesTerminal (calling 2 failing (codes "abc")) first_io abc
        (leaves (fails E_WRITE) used)
        (driver_with [] [] 0 ∷ []) (driver_with [] (codes "a") 1 ∷ []) }
{}
