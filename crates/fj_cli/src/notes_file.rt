//! The file of notes that a recorded job writes.
ghost use Rattle.std.specs.Prelude.{◌≡◌, IfOk, OnErr, is_some, true};

use fj_notebook::{Notebook, WriteFault, write_notes};
use fj_run::{Serial, Turnstile, WorkerId};
use fj_streams::{Sink, flush_whole};
use std::alloc::Global;
use std::rt::{Clock, Files};
use std::{fs, io};

/// Opens a new file of this name, if one is named.
pub fn create_file<F: Files>(files: &F, name: Option<&str>) -> io::Result<Option<F::File>>
    ensures named { IfOk result (λ file. is_some file ≡ is_some name.entry) }
    ensures err { OnErr result (is_some name.entry ≡ true) }
{
    match name {
        Some(name) => Ok(Some(fs::create(files, name)?)),
        None => Ok(None),
    }
}

/// What a run is watched by: a notebook, or nobody.
#[derive(Drop)]
pub struct Watch<C> {
    notebook: Option<Notebook<C>>,
}

impl<C: Clock> Watch<C> {
    /// A notebook for so many tasks, if one is wanted. An error if out of memory, or if the clock cannot be read.
    pub fn new(alloc: Global, clock: C, is_wanted: bool, tasks: u64) -> io::Result<Watch<C>>
    where
        C: Drop,
        ensures { OnErr result (is_wanted ≡ true) }
    {
        if !is_wanted {
            return Ok(Watch { notebook: None });
        }
        let tasks = u32::try_from(tasks).unwrap_or(u32::MAX);
        Ok(Watch {
            notebook: Some(Notebook::new(alloc, clock, tasks)?),
        })
    }

    /// Writes what was noted to the file, and flushes it.
    pub fn write<F: Sink>(&self, alloc: Global, file: &mut Option<F>) -> Result<(), WriteFault>
        ensures named { OnErr result (is_some file.old ≡ true) }
        ensures file { is_some file.new ≡ is_some file.old }
    {
        let (Some(notebook), Some(file)) = (&self.notebook, file) else {
            return Ok(());
        };
        write_notes(notebook, alloc, file)?;
        match flush_whole(file) {
            Ok(()) => Ok(()),
            Err(_) => Err(WriteFault::Write),
        }
    }
}

impl<C: Clock> Turnstile for Watch<C> {
    fn before(&self, w: WorkerId, t: Serial) {
        if let Some(notebook) = &self.notebook {
            notebook.before(w, t);
        }
    }

    fn after(&self, w: WorkerId, t: Serial) {
        if let Some(notebook) = &self.notebook {
            notebook.after(w, t);
        }
    }
}
