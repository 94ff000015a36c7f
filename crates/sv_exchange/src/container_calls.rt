//! The operations on an exchange that only the container uses.

ghost use Rattle.std.specs.Prelude.{◌≡◌, ◌<◌, [], length, OnOk, OnErr, Some};
ghost use Rattle.std.specs.Option.{option_copied};
ghost use Rattle.sv_text.specs.Gives.{GivesAnswer};

use crate::dispatch::{PathTexts, copied};
use crate::error::{KeptError, KeptField, ToldError};
use crate::exchange::Exchange;
use sv_mapping::Kind;
use sv_message::Rare;
use sv_text::{NoMemory, Text};

impl Exchange {
    ghost use Rattle.sv_exchange.specs.Dispatches.{Leaves, entered, error_in};
    ghost use Rattle.sv_exchange.specs.Keeping.{broken_off, counted, with_kept};
    ghost use Rattle.sv_exchange.specs.Paths.{paths_at};

    /// Begins a dispatch of a kind to a path in the context. Its kind, paths and attributes are visible until
    /// [`leave`](Exchange::leave) ends it (Jakarta Servlet 6.0, sections 9.3.1, 9.4.2 and 10.9.1). In an include, the
    /// paths of the includer stay visible, and changes of the status and the fields are ignored. An error page gets the
    /// error that is kept when it begins. After [`NoMemory`] nothing has changed.
    pub fn enter<'p>(
        &mut self,
        kind: Kind,
        path: &'p str,
        servlet_path: &'p str,
        path_info: Option<&'p str>,
        query: Option<&'p str>,
    ) -> Result<(), NoMemory>
        ensures entered { OnOk result (self.new ≡ entered kind
            (paths_at self.old.context_path path.now (Some servlet_path.now) (option_copied path_info.entry) (option_copied query.entry)) self.old) }
        ensures refused { OnErr result (self.new ≡ self.old) }
    {
        let error = self.error_in(kind)?;
        let servlet_path_of_client = copied(self.alloc, Some(servlet_path))?;
        let path_info_of_client = copied(self.alloc, path_info)?;
        let paths = PathTexts {
            context_path: self.context_path.as_str(),
            path,
            servlet_path: Some(servlet_path),
            path_info,
            query,
        };
        self.dispatches.push(self.alloc, kind, &paths, error)?;
        match kind {
            Kind::Request => {
                self.client.servlet_path = servlet_path_of_client;
                self.client.path_info = path_info_of_client;
            }
            Kind::Forward | Kind::Include | Kind::Error => {}
        }
        Ok(())
    }

    /// Ends the innermost dispatch, without taking memory. The dispatch around it, if any, becomes the innermost.
    pub fn leave(&mut self)
        requires { 0 < length self.old.dispatches }
        ensures { Leaves self.old self.new }
    {
        self.dispatches.pop();
    }

    /// Drops the bytes written since the last flush, without taking memory.
    pub fn clear(&mut self)
        ensures { self.new ≡ record self.old { buffer = [] } }
    {
        self.buffer.clear();
    }

    /// Drops the bytes written since the last flush, and the fields, without taking memory. The status stays.
    pub fn reset(&mut self)
        ensures { self.new ≡ record self.old { buffer = []; fields = [] } }
    {
        self.clear();
        self.fields.clear();
    }

    /// Keeps an error for the response: its status and text, the servlet that caused it if one was chosen, and a field
    /// to send with it (Jakarta Servlet 6.0, section 10.9). It replaces an earlier error, but an active error page
    /// still reports the error that it began with. After [`NoMemory`] nothing has changed.
    pub fn keep_error(
        &mut self,
        status: u16,
        text: &str,
        servlet: Option<&str>,
        field: Option<KeptField>,
    ) -> Result<(), NoMemory>
        ensures kept { OnOk result (self.new ≡ with_kept
            (record { status = status; text = text.now; servlet = option_copied servlet.entry; field = field }) self.old) }
        ensures refused { OnErr result (self.new ≡ self.old) }
    {
        let kept = KeptError {
            status,
            text: Text::copy_of(self.alloc, text)?,
            servlet: copied(self.alloc, servlet)?,
            field,
        };
        self.kept = Rare::some(self.alloc, kept)?;
        Ok(())
    }

    /// Truncates the response, without taking memory. If the response is committed, neither the bytes written since the
    /// last flush nor the end of the body are sent.
    pub fn break_off(&mut self)
        ensures { self.new ≡ broken_off self.old }
    {
        self.broken = true;
    }

    /// Returns the last kept error; `None` if there is none.
    pub fn kept(&self) -> Option<&KeptError>
        ensures { option_copied result ≡ self.now.kept }
    {
        self.kept.get()
    }

    /// Returns the number of calls of `before` and `service` for the request.
    pub fn calls(&self) -> u32
        ensures { result ≡ self.now.calls }
    {
        self.calls
    }

    /// Counts one more call. There must be fewer than 4,294,967,295 calls so far.
    pub fn count_call(&mut self)
        requires { self.old.calls < 4294967295 }
        ensures { self.new ≡ counted self.old }
    {
        self.calls += 1;
    }

    // Returns the error for an error page that begins now; none for other kinds.
    fn error_in(&self, kind: Kind) -> Result<Rare<ToldError>, NoMemory>
        ensures { GivesAnswer result (error_in kind self.now.kept) }
    {
        match (kind, self.kept.get()) {
            (Kind::Error, Some(kept)) => {
                let told = ToldError::of(self.alloc, kept)?;
                Rare::some(self.alloc, told)
            }
            _ => Ok(Rare::none()),
        }
    }
}
