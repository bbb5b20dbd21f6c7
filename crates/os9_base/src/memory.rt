ghost use Rattle.std.specs.Prelude.{◌≡◌, IsSome, IsTrue, ◌+◌, ◌≤◌, ◌↔◌, length};
ghost use Rattle.std.specs.Bool.{OnTrue, OnFalse};
ghost use Rattle.os9_base.specs.Cells.{Cells, put_cell, store_cells, FitsIn, HoldsBytes};

/// The bus of a processor: bytes at addresses, some of which are named.
///
/// `cells` is all that a program can see of it: the byte at an address, or nothing if the address
/// is not named. `same_beside` says that everything else in the value is unchanged.
pub trait Bus {
    ghost cells: { Self → Cells };

    ghost same_beside: { Self → Self → Type 0 };

    /// Bytes from an address on that lie together: those that the bus has at hand there, none past
    /// `FFFF`. There may always be none, so their number says nothing about what is named.
    fn slice_from(&self, at: u16) -> &[u8]
        ensures fits { at + length result.now ≤ 65536 }
        ensures bytes { HoldsBytes (cells self.now) at result.now };

    /// The byte at an address, or None if the address is not named.
    fn read(&self, at: u16) -> Option<u8>
        ensures { result ≡ cells self.now at };

    /// Sets the byte at a named address to this one. Leaves every other byte, and which addresses
    /// are named, unchanged.
    fn put(&mut self, at: u16, byte: u8)
        requires { IsSome (cells self.old at) }
        ensures changed { cells self.new ≡ put_cell (cells self.old) at byte }
        ensures beside { same_beside self.old self.new };

    /// Sets the bytes from an address on to these, if they lie together there, and returns whether
    /// it did. It may always return false, and has then left every byte unchanged.
    fn store_slice(&mut self, at: u16, from: &[u8]) -> bool
        ensures fits { OnTrue result (FitsIn (cells self.old) at (length from.now)) }
        ensures stored { OnTrue result (cells self.new ≡ store_cells (cells self.old) at from.now) }
        ensures left { OnFalse result (cells self.new ≡ cells self.old) }
        ensures beside { same_beside self.old self.new };

    ghost same_beside_self: { (bus : Self) → same_beside bus bus };

    ghost same_beside_then: { (first then last : Self) →
        same_beside first then → same_beside then last → same_beside first last };
}

/// The memory of a process as a system call uses it: ranges of addresses that never wrap.
///
/// The ghost members are those of [`Bus`].
pub trait UserMem {
    ghost cells: { Self → Cells };

    ghost same_beside: { Self → Self → Type 0 };

    /// Do the `len` bytes from `at` on lie at named addresses up to `FFFF`?
    fn fits(&self, at: u16, len: u16) -> bool
        ensures { IsTrue result ↔ FitsIn (cells self.now) at len };

    /// Fills `into` with the bytes from `at` on.
    fn load(&self, at: u16, into: &mut [u8])
        requires { FitsIn (cells self.now) at (length into.old) }
        ensures { HoldsBytes (cells self.now) at into.new };

    /// Sets the bytes from `at` on to those of `from`. Leaves every other byte, and which addresses
    /// are named, unchanged.
    fn store(&mut self, at: u16, from: &[u8])
        requires { FitsIn (cells self.old) at (length from.now) }
        ensures changed { cells self.new ≡ store_cells (cells self.old) at from.now }
        ensures beside { same_beside self.old self.new };

    ghost same_beside_self: { (memory : Self) → same_beside memory memory };

    ghost same_beside_then: { (first then last : Self) →
        same_beside first then → same_beside then last → same_beside first last };
}
