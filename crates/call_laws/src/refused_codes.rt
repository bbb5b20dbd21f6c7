//! What each code of a call asks for, as laws that the check computes.

ghost use Rattle.std.specs.Prelude.{◌≡◌, ◌++◌, map, true};
ghost use Rattle.std.specs.List.{list_all, range_with_len};
ghost use Rattle.machine_model.specs.Services.{no_call, service_of};
ghost use Rattle.call_laws.specs.RefusedCodes.{f_calls, i_calls, is_told, other_codes};

/// Each of the 36 codes of calls asks for its call, and each of the other 220 codes of a byte for
/// none (System Programmer's Manual, "System calls").
pub fn each_code_is_that_of_its_call()
    ensures calls { map (λ row. service_of row.code) (f_calls ++ i_calls)
        ≡ map (λ row. row.service) (f_calls ++ i_calls) }
    ensures others { map service_of other_codes ≡ map (λ code. no_call) other_codes }
    ensures every { list_all is_told (range_with_len 0 256) ≡ true }
{}
