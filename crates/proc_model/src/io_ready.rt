ghost use Rattle.std.specs.Prelude.{◌≡◌, ◌≢◌, ◌<◌, ℕ, Bool, true};
ghost use Rattle.proc_model.specs.Records.{IsLiving};
ghost use Rattle.proc_model.specs.Choice.{choice_of};
ghost use Rattle.proc_model.specs.Processes.{Processes};
ghost use Rattle.proc_model.specs.IoReady.{has_io};
ghost use Rattle.proc_model.specs.Ready.{no_io};

use os9_base::registers::Pid;

/// The number of places for processes, by number from 0.
const PLACES: usize = 33;

/// The processes, by number, whose pending call on input or output may go on.
#[derive(Clone, Copy, Debug, PartialEq, Eq)]
pub struct IoReady {
    places: [bool; PLACES],
}

impl IoReady {
    /// No process.
    pub fn none() -> IoReady
        ensures { has_io result ≡ no_io }
    {
        IoReady {
            places: [false; PLACES],
        }
    }

    /// The call of this process may go on too.
    pub fn allow(&mut self, p: Pid)
        requires { p.0 < 33 }
        ensures allowed { has_io self.new p.0 ≡ true }
        ensures others { (q : ℕ) → q ≢ p.0 → has_io self.new q ≡ has_io self.old q }
    {
        self.places[p.0 as usize] = true;
    }

    /// May the call of this process go on?
    pub fn allows(&self, p: Pid) -> bool
        requires { p.0 < 33 }
        ensures { result ≡ has_io self.now p.0 }
    {
        self.places[p.0 as usize]
    }
}

/// A choice asks input and output only about living processes.
pub fn a_choice_asks_for_the_living()
    ensures { (io other : ℕ → Bool) (s : Processes)
        → ((p : ℕ) → IsLiving s.records p → io p ≡ other p)
        → choice_of io s ≡ choice_of other s }
{}
