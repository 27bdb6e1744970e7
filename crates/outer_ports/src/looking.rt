//! What stands under a path.

ghost use Rattle.std.specs.Prelude.{◌≡◌, ◌≢◌, None, Some, Ok, true, false, IfOk, IfSome, IsTrue, OnOk};
ghost use Rattle.outer_ports.specs.Port.{Tells};

use crate::failed::Failed;
use crate::file_calls::FileCalls;
use crate::moving::close_held;
use crate::proof_name::ProofName;
use std::io::ErrorKind;

// Whether a file stands there. A link and a thing of another kind are faults.
fn find_file<C: FileCalls>(calls: &mut C, path: &str) -> Result<bool, Failed>
    ensures told { Tells (C.tells calls.old) (C.tells calls.new) }
    ensures there { IsTrue (C.tells calls.new) → result ≡ Ok true → (C.disk calls.old).number path.now ≢ None }
    ensures missing { IsTrue (C.tells calls.new) → result ≡ Ok false → (C.disk calls.old).number path.now ≡ None }
    ensures stays { IsTrue (C.tells calls.new) → C.disk calls.new ≡ C.disk calls.old }
    ensures counted { IsTrue (C.tells calls.new) → OnOk result (C.failed calls.new ≡ C.failed calls.old) }
{
    match calls.look(path) {
        Ok(found) if found.is_file() => Ok(true),
        Err(error) if error.kind() == ErrorKind::NotFound => Ok(false),
        _ => Err(Failed),
    }
}

// Opens the file for reading, if one stands there, after the held one was closed.
pub(crate) fn open_to_read<C: FileCalls>(
    calls: &mut C,
    held: Option<(ProofName, C::File)>,
    path: &str,
) -> Result<Option<C::File>, Failed>
    ensures told { Tells (C.tells calls.old) (C.tells calls.new) }
    ensures there { IsTrue (C.tells calls.new) →
        IfOk result (λ found. IfSome found (λ file. (C.disk calls.old).number path.now ≡ Some (C.number file))) }
    ensures missing { IsTrue (C.tells calls.new) → result ≡ Ok None → (C.disk calls.old).number path.now ≡ None }
    ensures stays { IsTrue (C.tells calls.new) → C.disk calls.new ≡ C.disk calls.old }
    ensures counted { IsTrue (C.tells calls.new) → OnOk result (C.failed calls.new ≡ C.failed calls.old) }
{
    close_held(calls, held)?;
    if !find_file(calls, path)? {
        return Ok(None);
    }
    let file = calls.open_file(path).map_err(|_| Failed)?;
    Ok(Some(file))
}

// A file, a link or nothing may stand there. A thing of another kind is a fault.
pub(crate) fn find_no_odd<C: FileCalls>(calls: &mut C, path: &str) -> Result<(), Failed>
    ensures told { Tells (C.tells calls.old) (C.tells calls.new) }
    ensures plain { IsTrue (C.tells calls.new) → OnOk result ((C.disk calls.old).odd path.now ≡ false) }
    ensures stays { IsTrue (C.tells calls.new) → C.disk calls.new ≡ C.disk calls.old }
    ensures counted { IsTrue (C.tells calls.new) → OnOk result (C.failed calls.new ≡ C.failed calls.old) }
{
    match calls.look(path) {
        Ok(found) if found.is_file() || found.is_symlink() => Ok(()),
        Err(error) if error.kind() == ErrorKind::NotFound => Ok(()),
        _ => Err(Failed),
    }
}
