//! Files that stay open.

ghost use Rattle.std.specs.Prelude.{◌≡◌, ◌≢◌, None, IfSome};
ghost use Rattle.outer_ports.specs.inner.OpenFiles.{open_of, Holds};

use crate::proof_name::{FileKind, ProofName};
use std::mem;

// Of each kind of file the one that was begun last, so that the lines of a formula, of its
// refutation and of its log are one write each, in whatever order they come.
pub(crate) struct OpenFiles<F> {
    cnf: Option<(ProofName, F)>,
    lrat: Option<(ProofName, F)>,
    partial: Option<(ProofName, F)>,
}

impl<F> OpenFiles<F> {
    // No file.
    pub(crate) fn new() -> OpenFiles<F>
        ensures { (kind : FileKind) → open_of result kind ≡ None }
    {
        OpenFiles {
            cnf: None,
            lrat: None,
            partial: None,
        }
    }

    // The open file of that name.
    pub(crate) fn get(&self, name: ProofName) -> Option<&F>
        ensures held { IfSome result (λ file. Holds self.now name file.now) }
    {
        let open = match name.kind {
            FileKind::Cnf => &self.cnf,
            FileKind::Lrat => &self.lrat,
            FileKind::Partial => &self.partial,
        };
        match open {
            Some((held, file)) if *held == name => Some(file),
            _ => None,
        }
    }

    // Puts a file in place of the open one of that kind, which is given back.
    pub(crate) fn replace(
        &mut self,
        kind: FileKind,
        file: Option<(ProofName, F)>,
    ) -> Option<(ProofName, F)>
        ensures old { result ≡ open_of self.old kind }
        ensures new { open_of self.new kind ≡ file }
        ensures others { (other : FileKind) → other ≢ kind → open_of self.new other ≡ open_of self.old other }
    {
        match kind {
            FileKind::Cnf => mem::replace(&mut self.cnf, file),
            FileKind::Lrat => mem::replace(&mut self.lrat, file),
            FileKind::Partial => mem::replace(&mut self.partial, file),
        }
    }

    // The open files of each kind, with their names.
    pub(crate) fn into_parts(
        self,
    ) -> (
        Option<(ProofName, F)>,
        Option<(ProofName, F)>,
        Option<(ProofName, F)>,
    ) {
        let OpenFiles { cnf, lrat, partial } = self;
        (cnf, lrat, partial)
    }
}
