//! Single calls of a file system.

ghost use Rattle.std.specs.{Prelude.{◌≡◌, ◌≢◌, ℕ, ◌<◌, ◌≤◌, ◌^◌, Bool, false, None, Some, length, take, IfOk, IsTrue, OnErr, OnOk}, IoError.error_kind};
ghost use Rattle.outer_ports.specs.{Disks.{Counts, Disk, Looks, MakesFile, MakesFolder, Removes, Renames, Writes}, Port.Tells, Shelf.HoldsBytes};

use std::fs::Metadata;
use std::io;
use std::io::ErrorKind;

/// Single calls of a file system, each of which can fail.
///
/// Its contracts speak of whether it tells its files, and where it does, of these: the number of
/// the file of each path, the bytes of the file of each number, and how many calls failed. Two
/// paths of one number are two names of one file. An error changes nothing.
pub trait FileCalls {
    /// An open file. It is given up by [`FileCalls::close`] alone.
    type File;

    ghost tells: { Self → Bool };
    // Read these only where the calls tell their files.
    ghost disk: { Self → Disk };

    ghost failed: { Self → ℕ };

    ghost number: { Self.File → ℕ };

    /// What stands under the path: a link is told as a link. [`ErrorKind::NotFound`] says that
    /// nothing does, and is no fault.
    fn look(&mut self, path: &str) -> io::Result<Metadata>
        ensures told { Tells (tells self.old) (tells self.new) }
        ensures looked { IsTrue (tells self.new) → Looks (λ error. error_kind error ≡ ErrorKind.NotFound) (disk self.old) path.now result }
        ensures stays { IsTrue (tells self.new) → disk self.new ≡ disk self.old }
        ensures counted { IsTrue (tells self.new) → Counts (λ error. error_kind error ≡ ErrorKind.NotFound) (failed self.old) (failed self.new) result };

    /// Makes a folder where nothing stands. [`ErrorKind::AlreadyExists`] says that something does,
    /// and is no fault.
    fn make_folder(&mut self, path: &str) -> io::Result<()>
        ensures told { Tells (tells self.old) (tells self.new) }
        ensures made { IsTrue (tells self.new) → OnOk result (MakesFolder path.now (disk self.old) (disk self.new)) }
        ensures fault { IsTrue (tells self.new) → OnErr result (disk self.new ≡ disk self.old) }
        ensures counted { IsTrue (tells self.new) → Counts (λ error. error_kind error ≡ ErrorKind.AlreadyExists) (failed self.old) (failed self.new) result };

    /// Makes an empty file where nothing stands, not even a link, and opens it for appending.
    /// [`ErrorKind::AlreadyExists`] says that something does, and is no fault.
    fn make_file(&mut self, path: &str) -> io::Result<Self::File>
        ensures told { Tells (tells self.old) (tells self.new) }
        ensures made { IsTrue (tells self.new) → IfOk result (λ file. MakesFile path.now (number file) (disk self.old) (disk self.new)) }
        ensures fault { IsTrue (tells self.new) → OnErr result (disk self.new ≡ disk self.old) }
        ensures counted { IsTrue (tells self.new) → Counts (λ error. error_kind error ≡ ErrorKind.AlreadyExists) (failed self.old) (failed self.new) result };

    /// Takes a name away: a link's, and not that of what it leads to.
    fn remove_file(&mut self, path: &str) -> io::Result<()>
        ensures told { Tells (tells self.old) (tells self.new) }
        ensures removed { IsTrue (tells self.new) → OnOk result (Removes path.now (disk self.old) (disk self.new)) }
        ensures fault { IsTrue (tells self.new) → OnErr result (disk self.new ≡ disk self.old) }
        ensures counted { IsTrue (tells self.new) → Counts (λ _. ⊥) (failed self.old) (failed self.new) result };

    /// Gives what stands under `from` the name `to`, in place of the file or the link that has it.
    fn rename(&mut self, from: &str, to: &str) -> io::Result<()>
        ensures told { Tells (tells self.old) (tells self.new) }
        ensures renamed { IsTrue (tells self.new) → (disk self.old).odd to.now ≡ false →
            (disk self.old).number from.now ≢ (disk self.old).number to.now → OnOk result (Renames from.now to.now (disk self.old) (disk self.new)) }
        ensures fault { IsTrue (tells self.new) → OnErr result (disk self.new ≡ disk self.old) }
        ensures counted { IsTrue (tells self.new) → Counts (λ _. ⊥) (failed self.old) (failed self.new) result };

    /// Opens the file of the path for reading.
    fn open_file(&mut self, path: &str) -> io::Result<Self::File>
        ensures told { Tells (tells self.old) (tells self.new) }
        ensures opened { IsTrue (tells self.new) → IfOk result (λ file.
            (disk self.old).number path.now ≢ None → (disk self.old).number path.now ≡ Some (number file)) }
        ensures stays { IsTrue (tells self.new) → disk self.new ≡ disk self.old }
        ensures counted { IsTrue (tells self.new) → Counts (λ _. ⊥) (failed self.old) (failed self.new) result };

    /// Copies bytes of the file from `place` on into the front of `buf`, and answers how many: none
    /// for a nonempty `buf` exactly at or past the end. [`ErrorKind::Interrupted`] is no fault.
    fn read_at(&mut self, file: &Self::File, place: u64, buf: &mut [u8]) -> io::Result<usize>
        requires place { place < 2 ^ 63 }
        ensures within { IfOk result (λ n. n ≤ length buf.new) }
        ensures told { Tells (tells self.old) (tells self.new) }
        ensures read { IsTrue (tells self.new) → IfOk result (HoldsBytes ((disk self.old).bytes (number file.now)) place buf.new) }
        ensures stays { IsTrue (tells self.new) → disk self.new ≡ disk self.old }
        ensures counted { IsTrue (tells self.new) → Counts (λ error. error_kind error ≡ ErrorKind.Interrupted) (failed self.old) (failed self.new) result };

    /// Appends bytes from the front of `piece` to the file, and answers how many.
    /// [`ErrorKind::Interrupted`] is no fault.
    fn write(&mut self, file: &Self::File, piece: &[u8]) -> io::Result<usize>
        ensures within { IfOk result (λ n. n ≤ length piece.now) }
        ensures told { Tells (tells self.old) (tells self.new) }
        ensures written { IsTrue (tells self.new) → IfOk result (λ n. Writes (number file.now) (take n piece.now) (disk self.old) (disk self.new)) }
        ensures fault { IsTrue (tells self.new) → OnErr result (disk self.new ≡ disk self.old) }
        ensures counted { IsTrue (tells self.new) → Counts (λ error. error_kind error ≡ ErrorKind.Interrupted) (failed self.old) (failed self.new) result };

    /// Closes the file, also where it answers an error.
    fn close(&mut self, file: Self::File) -> io::Result<()>
        ensures told { Tells (tells self.old) (tells self.new) }
        ensures stays { IsTrue (tells self.new) → disk self.new ≡ disk self.old }
        ensures counted { IsTrue (tells self.new) → Counts (λ _. ⊥) (failed self.old) (failed self.new) result };
}
