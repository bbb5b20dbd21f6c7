ghost use Rattle.std.specs.Prelude.{◌≡◌, codes};
ghost use Rattle.os9_base.specs.declared.errors.TheConstants.{E_PTHFUL};
ghost use Rattle.io_model.specs.Path.{free_number};
ghost use Rattle.io_model.specs.Rows.{opened_times, opening_ends, many_paths, many_pipes};
ghost use Rattle.io_model.specs.Io.{first_io};
ghost use Rattle.io_model.specs.Step.{fails};
ghost use Rattle.std.specs.Prelude.{Some};

/// A process has sixteen path numbers, and there are 64 paths and sixteen pipes.
pub fn paths_and_pipes_end_at_a_limit()
    ensures numbers { opening_ends 2 (codes "/T1 ") (opened_times 13 2 (codes "/T1 ") first_io)
        ≡ fails E_PTHFUL }
    ensures paths { opening_ends 6 (codes "/T1 ") many_paths ≡ fails E_PTHFUL }
    ensures free { free_number many_paths.paths 6 ≡ Some 2 }
    ensures pipes { opening_ends 3 (codes "/PIPE ") many_pipes ≡ fails E_PTHFUL }
    ensures left { free_number many_pipes.paths 3 ≡ Some 3 }
{}
