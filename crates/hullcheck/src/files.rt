//! The files that a command line names.
ghost use Rattle.std.specs.Prelude.{◌≡◌, ◌<◌, ℕ, Bool, true, List, Option, Some, IfOk, IfSome, OnErr, OnOk};
ghost use Rattle.std.specs.Option.{option_map};

use qh_read::Source;
use std::alloc::Global;
use std::io::ErrorKind;

/// Files by their names, and the standard input.
pub trait Files {
    /// An open file.
    type File: Source + Drop;

    // The bytes of the named file, or of the standard input if there is no name; `None` if the system does not specify
    // them.
    ghost contents: { Self → Option (List ℕ) → Option (List ℕ) };

    // True for the named file, or for the standard input if there is no name, once a call for it has failed.
    ghost failed: { Self → Option (List ℕ) → Bool };

    /// Opens the file with this name. The opened file has not failed yet.
    fn open(&mut self, name: &str) -> Result<Self::File, ErrorKind>
        ensures same { contents self.new ≡ contents self.old }
        ensures bytes { IfOk result (λ f. IfSome (contents self.old (Some name.now)) (λ known. Self.File.remaining f ≡ Some known)) }
        ensures begins { IfOk result (λ f. Self.File.failure_count f ≡ 0) }
        ensures kept { OnOk result (failed self.new ≡ failed self.old) }
        ensures failed { OnErr result (failed self.new (Some name.now) ≡ true) };

    /// Closes the file with this name.
    fn close(&mut self, file: Self::File, name: &str)
        ensures same { contents self.new ≡ contents self.old }
        ensures kept { (other : Option (List ℕ)) → failed self.old other ≡ true → failed self.new other ≡ true }
        ensures failed { 0 < Self.File.failure_count file → failed self.new (Some name.now) ≡ true };

    /// Returns all bytes of the named file, or of the standard input if there is no name.
    fn text(&mut self, alloc: Global, name: Option<&str>) -> Result<Vec<u8>, ErrorKind>
        ensures same { contents self.new ≡ contents self.old }
        ensures bytes { IfOk result (λ v. IfSome (contents self.old (option_map (λ w. w.now) name.entry)) (λ known. known ≡ v.items)) }
        ensures kept { OnOk result (failed self.new ≡ failed self.old) }
        ensures failed { OnErr result (failed self.new (option_map (λ w. w.now) name.entry) ≡ true) };
}
