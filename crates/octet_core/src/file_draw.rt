//! A draw over a file that its first call opens.
ghost use Rattle.std.specs.Prelude.{◌≡◌, ℕ, None, OnOk, OnErr};
ghost use Rattle.octet_core.specs.Draw.{FailsShort, Fills};
ghost use Rattle.octet_core.specs.Faults.{HasCause, one_more};

use crate::draw::Draw;
use crate::failed::Failed;
use crate::read_draw::ReadDraw;
use std::fs;
use std::marker::Model;
use std::rt::Files;

/// The octets of a file, as the system's source of random octets, which a contract sees as the number of its faults. The
/// first call of `fill` opens the file: a program that draws nothing needs none, and the file cannot take the place of a
/// standard stream that is read before. It does not tell its octets.
#[derive(Drop)]
pub struct FileDraw<'r, R: Files> {
    files: &'r R,
    path: &'r str,
    opened: Option<ReadDraw<R::File>>,
    faults: u64,
}

impl<'r, R: Files> Model for FileDraw<'r, R> {
    ghost Value = { ℕ };

    ghost view = { λ d. d.faults };
}

impl<'r, R: Files> FileDraw<'r, R> {
    /// A draw over the file at this path. Nothing is opened yet.
    pub fn new(files: &'r R, path: &'r str) -> FileDraw<'r, R>
        ensures { result ≡ 0 }
    {
        FileDraw {
            files,
            path,
            opened: None,
            faults: 0,
        }
    }

    /// Fills `out` from the file, which is opened where it is not yet. `Failed` where that or a read fails.
    fn fill_opened(&mut self, out: &mut [u8]) -> Result<(), Failed>
        ensures { self.new ≡ self.old }
    {
        if self.opened.is_none() {
            match fs::open(self.files, self.path) {
                Ok(file) => self.opened = Some(ReadDraw::new(file)),
                Err(_) => return Err(Failed),
            }
        }
        match &mut self.opened {
            Some(draw) => draw.fill(out),
            None => Err(Failed),
        }
    }
}

impl<'r, R: Files> Draw for FileDraw<'r, R> {
    ghost left = { λ _. None };

    ghost faults = { λ d. d };

    /// Fills `out` with the file's next octets. `Failed` where the file cannot be opened, a read fails, also one that was
    /// only interrupted, or the file ends before `out` is full.
    fn fill(&mut self, out: &mut [u8]) -> Result<(), Failed>
        ensures drawn { Fills None None result out.new }
        ensures short { FailsShort None result out.old }
        ensures cause { HasCause self.old self.new result }
        ensures no_fault { OnOk result (self.new ≡ self.old) }
        ensures fault { OnErr result (self.new ≡ one_more self.old) }
    {
        match self.fill_opened(out) {
            Ok(()) => Ok(()),
            Err(Failed) => {
                self.faults = self.faults.saturating_add(1);
                Err(Failed)
            }
        }
    }
}
