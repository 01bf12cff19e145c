//! A file of a database that passes each call on to another.
ghost use Rattle.std.specs.Prelude.{◌≡◌, ◌↔◌, List, ℕ};

use crate::watch::Watch;
use sqlite_disk::Disk;

/// A file that passes each call on to another one, and is what that one is: it reads the same, a crash leaves the same,
/// and it is clean, fair, damaged, stopped and usable exactly when that one is.
pub(crate) trait Passing: Disk {
    type Inner: Disk;

    /// The file that it passes calls on to.
    ghost inner: { Self → Self.Inner };

    /// A file, and who looks on.
    fn of(file: Self::Inner, watch: Watch) -> Self
        ensures inner { inner result ≡ file }
        ensures seen { (f : Self) → Self.Disk.seen f ≡ Self.Inner.Disk.seen (inner f) }
        ensures crash { (f : Self) → (bytes : List ℕ)
            → Self.Disk.may_leave f bytes ↔ Self.Inner.Disk.may_leave (inner f) bytes }
        ensures clean { (f : Self) → Self.Disk.is_clean f ≡ Self.Inner.Disk.is_clean (inner f) }
        ensures usable { (f : Self) → Self.Disk.is_usable f ≡ Self.Inner.Disk.is_usable (inner f) }
        ensures fair { (f : Self) → Self.Disk.is_fair f ≡ Self.Inner.Disk.is_fair (inner f) }
        ensures rotten { (f : Self) → Self.Disk.is_rotten f ≡ Self.Inner.Disk.is_rotten (inner f) }
        ensures frozen { (f : Self) → Self.Disk.is_frozen f ≡ Self.Inner.Disk.is_frozen (inner f) }
        ensures mixing { (f : Self) → Self.Disk.is_mixing f ≡ Self.Inner.Disk.is_mixing (inner f) }
        ensures key { (f : Self) → Self.Disk.key_of f ≡ Self.Inner.Disk.key_of (inner f) }
        ensures faults { (f : Self) → Self.Disk.faults f ≡ Self.Inner.Disk.faults (inner f) }
        ensures tally { (f : Self) → Self.Disk.tally_of f ≡ Self.Inner.Disk.tally_of (inner f) };
}
