//! Files that are made anew.

ghost use Rattle.std.specs.Prelude.{◌≡◌, ◌≢◌, ℕ, false, List, [], Err, IfOk, IsTrue, OnErr, OnOk, string_bytes};
ghost use Rattle.outer_ports.specs.{Folders.{fresh_in, in_range, path_in}, Port.Tells, inner.Keeping.{IsNeither, IsOther, IsOwn, Spares}};

use crate::failed::Failed;
use crate::file_calls::FileCalls;
use crate::looking::find_no_odd;
use crate::proof_name::{ProofName, know_range};
use crate::shelf_fault::ShelfFault;
use std::alloc::Global;
use std::io::ErrorKind;

// Makes an empty file and gives it the name, in place of the file or the link that has it, so that
// what the name led to stays as it was under each other name. A thing of another kind is a fault.
pub(crate) fn make_anew<C: FileCalls>(
    calls: &mut C,
    alloc: Global,
    folder: &str,
    name: ProofName,
) -> Result<C::File, ShelfFault>
    ensures range { IsTrue (in_range name) }
    ensures told { Tells (C.tells calls.old) (C.tells calls.new) }
    ensures own { IsTrue (C.tells calls.new) → IfOk result (λ file. IsOwn (C.disk calls.new) (path_in folder.now name) (C.number file)) }
    ensures empty { IsTrue (C.tells calls.new) → IfOk result (λ file. (C.disk calls.new).bytes (C.number file) ≡ []) }
    ensures others { IsTrue (C.tells calls.new) →
        OnOk result (Spares (IsNeither (fresh_in folder.now) (path_in folder.now name)) (C.disk calls.old) (C.disk calls.new)) }
    ensures fault { IsTrue (C.tells calls.new) →
        OnErr result (Spares (IsOther (fresh_in folder.now)) (C.disk calls.old) (C.disk calls.new)) }
    ensures counted { IsTrue (C.tells calls.new) → result ≢ Err ShelfFault.Failed → C.failed calls.new ≡ C.failed calls.old }
{
    let path = path_of(alloc, folder, name)?;
    let fresh = fresh_of(alloc, folder)?;
    find_no_odd(calls, &path)?;
    let file = make_renamed(calls, &fresh, &path)?;
    Ok(file)
}

// The path of the file, in the folder.
#[tactic(auto, using(crate::proofs::FileNames::path_not_fresh))]
pub(crate) fn path_of(alloc: Global, folder: &str, name: ProofName) -> Result<String, ShelfFault>
    ensures path { IfOk result (λ path. string_bytes path ≡ path_in folder.now name) }
    ensures memory { result ≢ Err ShelfFault.Failed }
    ensures range { IsTrue (in_range name) }
    ensures apart { fresh_in folder.now ≢ path_in folder.now name }
{
    know_range(name);
    let path = format!(in alloc; "{folder}/{name}")?;
    Ok(path)
}

// The path of a file of the folder that has no name of its own yet.
fn fresh_of(alloc: Global, folder: &str) -> Result<String, ShelfFault>
    ensures path { IfOk result (λ fresh. string_bytes fresh ≡ fresh_in folder.now) }
    ensures memory { result ≢ Err ShelfFault.Failed }
{
    let fresh = format!(in alloc; "{folder}/new")?;
    Ok(fresh)
}

// Makes an empty file under `fresh`, and gives it the name `path`.
fn make_renamed<C: FileCalls>(calls: &mut C, fresh: &str, path: &str) -> Result<C::File, Failed>
    requires apart { fresh.now ≢ path.now }
    requires plain { IsTrue (C.tells calls.old) → (C.disk calls.old).odd path.now ≡ false }
    ensures told { Tells (C.tells calls.old) (C.tells calls.new) }
    ensures own { IsTrue (C.tells calls.new) → IfOk result (λ file. IsOwn (C.disk calls.new) path.now (C.number file)) }
    ensures empty { IsTrue (C.tells calls.new) → IfOk result (λ file. (C.disk calls.new).bytes (C.number file) ≡ []) }
    ensures others { IsTrue (C.tells calls.new) →
        OnOk result (Spares (IsNeither fresh.now path.now) (C.disk calls.old) (C.disk calls.new)) }
    ensures fault { IsTrue (C.tells calls.new) → OnErr result (Spares (IsOther fresh.now) (C.disk calls.old) (C.disk calls.new)) }
    ensures counted { IsTrue (C.tells calls.new) → OnOk result (C.failed calls.new ≡ C.failed calls.old) }
{
    let file = make_fresh(calls, fresh)?;
    match calls.rename(fresh, path) {
        Ok(()) => Ok(file),
        Err(_) => {
            let _closed = calls.close(file);
            Err(Failed)
        }
    }
}

// Makes an empty file, in place of the file or the link that has the name.
fn make_fresh<C: FileCalls>(calls: &mut C, fresh: &str) -> Result<C::File, Failed>
    ensures told { Tells (C.tells calls.old) (C.tells calls.new) }
    ensures own { IsTrue (C.tells calls.new) → IfOk result (λ file. IsOwn (C.disk calls.new) fresh.now (C.number file)) }
    ensures empty { IsTrue (C.tells calls.new) → IfOk result (λ file. (C.disk calls.new).bytes (C.number file) ≡ []) }
    ensures others { IsTrue (C.tells calls.new) → Spares (IsOther fresh.now) (C.disk calls.old) (C.disk calls.new) }
    ensures odd { IsTrue (C.tells calls.new) → (other : List ℕ) → other ≢ fresh.now → (C.disk calls.new).odd other ≡ (C.disk calls.old).odd other }
    ensures counted { IsTrue (C.tells calls.new) → OnOk result (C.failed calls.new ≡ C.failed calls.old) }
{
    match calls.make_file(fresh) {
        Ok(file) => return Ok(file),
        Err(error) if error.kind() == ErrorKind::AlreadyExists => {}
        Err(_) => return Err(Failed),
    }
    calls.remove_file(fresh).map_err(|_| Failed)?;
    calls.make_file(fresh).map_err(|_| Failed)
}

// Makes the folder if nothing has its name.
pub(crate) fn make_folder<C: FileCalls>(calls: &mut C, path: &str) -> Result<(), Failed>
    ensures told { Tells (C.tells calls.old) (C.tells calls.new) }
    ensures number { IsTrue (C.tells calls.new) → (C.disk calls.new).number ≡ (C.disk calls.old).number }
    ensures bytes { IsTrue (C.tells calls.new) → (C.disk calls.new).bytes ≡ (C.disk calls.old).bytes }
    ensures counted { IsTrue (C.tells calls.new) → OnOk result (C.failed calls.new ≡ C.failed calls.old) }
{
    match calls.make_folder(path) {
        Err(error) if error.kind() != ErrorKind::AlreadyExists => Err(Failed),
        _ => Ok(()),
    }
}
