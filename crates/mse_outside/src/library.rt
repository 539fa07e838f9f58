//! A library of files, by its told table and its count of failures.

ghost use Rattle.std.specs.Prelude.{◌≡◌, ◌≢◌, ◌≤◌, ℕ, List, Option, IfSome};
ghost use Rattle.mse_outside.specs.declared.library.Loaded.{Loaded};
ghost use Rattle.mse_outside.specs.Outside.{HasRisen, HasBytesAppended, Table, IsLoadEffect};

/// What a load answers. With `Failed` the count of failures (`faults`) has risen, or stands at 2^64 - 1.
#[derive(Clone, Copy, Debug, PartialEq, Eq)]
pub enum Loaded {
    /// The bytes of the file were appended.
    Done,
    /// There is no file of this name.
    NoFile,
    /// The file was not read. The library has counted this failure.
    Failed,
    /// There was no memory for the bytes.
    OutOfMemory,
}

/// Files by name.
pub trait Library {
    /// The bytes of each file by its name, where the library tells them.
    ghost table: { Self → Option Table };

    /// How often a load has failed; each failed load is told. The count stands still at 2^64 - 1.
    ghost faults: { Self → ℕ };

    /// What the library tells of a load: the library before it, the name, the answer, and the library behind it. A library
    /// that does not define it tells nothing.
    ghost load_gives: { Self → List ℕ → Loaded → Self → Type 0 } = { λ _ _ _ _. Unit {0} };

    /// Appends the bytes of the file to `into`. After any answer but `Done`, `into` is as before.
    fn load(&mut self, name: &str, into: &mut Vec<u8>) -> Loaded
        ensures same_table { table self.new ≡ table self.old }
        ensures told { IfSome (table self.old)
            (λ files. IsLoadEffect (files name.now) into.old.items into.new.items result) }
        ensures appends { HasBytesAppended into.old.items into.new.items }
        ensures unchanged { result ≢ Loaded.Done → into.new.items ≡ into.old.items }
        ensures no_fewer_faults { faults self.old ≤ faults self.new }
        ensures cause { result ≡ Loaded.Failed → HasRisen (faults self.old) (faults self.new) }
        ensures failures_told { result ≢ Loaded.Failed → faults self.new ≡ faults self.old }
        ensures gives { load_gives self.old name.now result self.new };
}
