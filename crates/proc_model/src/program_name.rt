ghost use Rattle.std.specs.Prelude.{◌≡◌};
ghost use Rattle.proc_model.specs.Program as model;

use os9_base::name::Name;

/// What the bytes at an address name for F$Fork and F$Chain (System Programmer's Manual, F$Fork and
/// F$Chain).
#[derive(Clone, Copy, Debug)]
pub enum ProgramName {
    /// A byte that has to be read is in no named slot or past `FFFF`.
    Unreadable,
    /// One name: it means the entered module of that name, if there is one.
    OneName(Name),
    /// Not one name: a path list, or bytes that name nothing.
    PathList,
}

impl ProgramName {
    /// Is a byte missing that has to be read?
    pub fn is_unreadable(&self) -> bool
        ensures { result ≡ model.is_unreadable self.now }
    {
        matches!(self, ProgramName::Unreadable)
    }

    /// The name of the entered module that is meant, if the bytes are one name.
    pub fn module_name(self) -> Option<Name>
        ensures { result ≡ model.module_name self }
    {
        match self {
            ProgramName::OneName(name) => Some(name),
            ProgramName::Unreadable | ProgramName::PathList => None,
        }
    }
}
