// Standard output, written once a page has come together.
ghost use Rattle.std.specs.Prelude.{◌≡◌, [], ℕ, ◌<◌, OnOk, string_bytes};
ghost use Rattle.command.specs.Pages.{Written};

use report::stops::Stop;
use std::{fmt, io};

const PAGE: usize = 65536;

// The library's BufWriter makes a run that writes its records a fifth slower: it is handed each line piece by piece.
#[derive(Drop)]
pub struct Page<'a> {
    rt: &'a HostRuntime,
    text: String,
}

impl<'a> Page<'a> {
    pub fn new(rt: &'a HostRuntime) -> Page<'a>
        ensures { string_bytes result.text ≡ [] }
    {
        Page {
            rt,
            text: String::new(rt.alloc()),
        }
    }

    pub fn write<T: fmt::Display + Drop>(&mut self, item: T) -> Result<(), Stop>
        ensures { OnOk result (Written (T.output item) (string_bytes self.old.text) (string_bytes self.new.text)) }
    {
        write!(self.text, "{item}")?;
        if self.text.len() >= PAGE {
            self.flush()?;
        }
        Ok(())
    }

    pub fn flush(&mut self) -> io::Result<()>
        ensures { OnOk result (string_bytes self.new.text ≡ []) }
    {
        self.rt.stdout().write_all(self.text.as_bytes())?;
        self.text.clear();
        Ok(())
    }
}
