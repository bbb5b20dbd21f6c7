//! The calls that codes ask for, as laws that the check computes.

ghost use Rattle.std.specs.Prelude.{◌≡◌};
ghost use Rattle.os9_base.specs.declared.calls.TheConstants.{F_FORK, F_LOAD, F_STIME, F_TIME, I_DUP, I_READ, F_PERR};
ghost use Rattle.proc_model.specs.declared.proc_call.ProcCall.TheVariants as ProcCall;
ghost use Rattle.file_rules.specs.declared.path_call.PathCall.TheVariants as PathCall;
ghost use Rattle.time_rules.specs.declared.time_call.TimeCall.TheVariants as TimeCall;
ghost use Rattle.machine_model.specs.Services.{loads, no_call, on_paths, on_processes, on_time, service_of};

/// Each code is that of one call (System Programmer's Manual, "System calls"); `7F` and `FF` ask
/// for none.
pub fn codes_of_calls()
    ensures load { service_of F_LOAD ≡ loads }
    ensures fork { service_of F_FORK ≡ on_processes ProcCall.Fork }
    ensures time { service_of F_TIME ≡ on_time TimeCall.Time }
    ensures set_time { service_of F_STIME ≡ on_time TimeCall.STime }
    ensures error_line { service_of F_PERR ≡ on_paths PathCall.PErr }
    ensures dup { service_of I_DUP ≡ on_paths PathCall.Dup }
    ensures read { service_of I_READ ≡ on_paths PathCall.Read }
    ensures unused { service_of 0x7F ≡ no_call }
    ensures last { service_of 0xFF ≡ no_call }
{}
