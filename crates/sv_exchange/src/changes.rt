//! Calls of components that change an exchange.

ghost use Rattle.std.specs.Prelude.{◌≡◌};
ghost use Rattle.sv_exchange.specs.Changing.{is_settable};

use crate::attributes::{is_reserved_attribute, set_value};
use crate::exchange::Exchange;
use crate::exchange_fault::ExchangeFault;
use crate::fields::{add_field, is_reserved_field, set_field};
use crate::limits::{
    FIRST_ROOM, LEAST_STATUS, MAX_RESPONSE_BODY_LEN, MAX_STATUS, NOT_MODIFIED, RESET_CONTENT,
};
use bytes::Bytes;

impl Exchange {
    ghost use Rattle.sv_exchange.specs.Dispatches.{is_within_include};
    ghost use Rattle.sv_exchange.specs.Changing.{AddHeader, Reaches, Does, Flush, SetAttribute, SetHeader, SetStatus, Write, answer, has_room, is_free, is_open};

    /// Sets the status. Returns `Ok(false)` if the call is ignored: the response is committed, an include is active, or
    /// the status is outside 200 to 599 or is 205 or 304. The call never fails.
    pub fn set_status(&mut self, status: u16) -> Result<bool, ExchangeFault>
        ensures does { Does (SetStatus status) result self.old self.new }
        ensures answered { result ≡ answer (SetStatus status) self.old }
        ensures reached { Reaches self.old self.new }
    {
        self.do_set_status(status)
    }

    /// Sets the first field with the name, in any case, to the value as given, and removes the others with the name.
    /// Adds a field if there is none (Jakarta Servlet 6.0, section 5.2). Returns `Ok(false)` if the call is ignored:
    /// the response is committed, an include is active, or only the server writes fields with the name. The faults are
    /// `BadHeader`, then `NoMemory`; nothing changes on a fault.
    pub fn set_header(&mut self, name: &str, value: &str) -> Result<bool, ExchangeFault>
        ensures does { Does (SetHeader name.now value.now) result self.old self.new }
        ensures reached { Reaches self.old self.new }
    {
        self.do_set_header(name, value)
    }

    /// Adds a field after the others, whatever their names. The call is ignored and fails like
    /// [`set_header`](Exchange::set_header).
    pub fn add_header(&mut self, name: &str, value: &str) -> Result<bool, ExchangeFault>
        ensures does { Does (AddHeader name.now value.now) result self.old self.new }
        ensures reached { Reaches self.old self.new }
    {
        self.do_add_header(name, value)
    }

    /// Appends bytes to the body. The call is never ignored. The faults are `TooLarge` if the body would exceed
    /// [`MAX_RESPONSE_BODY_LEN`], then `NoMemory`; nothing is written on a fault.
    pub fn write(&mut self, bytes: &[u8]) -> Result<bool, ExchangeFault>
        ensures does { Does (Write bytes.now) result self.old self.new }
        ensures reached { Reaches self.old self.new }
    {
        self.do_write(bytes)
    }

    /// Appends bytes to the body as [`write`](Exchange::write) does, but shares them with their other owners instead of
    /// copying them, if they are at least [`MIN_SHARED_BYTES`](sv_message::MIN_SHARED_BYTES) and the body has no shared
    /// bytes yet.
    pub fn write_shared(&mut self, bytes: &Bytes) -> Result<bool, ExchangeFault>
        ensures does { Does (Write bytes.now) result self.old self.new }
        ensures reached { Reaches self.old self.new }
    {
        self.do_write_shared(bytes)
    }

    /// Sets the value of the attribute with the name, which is case-sensitive, or adds one (Jakarta Servlet 6.0,
    /// section 3.3). Returns `Ok(false)` if the call is ignored: only dispatches set names that begin with
    /// `jakarta.servlet.`. The fault is `NoMemory`; nothing changes on a fault.
    pub fn set_attribute(&mut self, name: &str, value: &str) -> Result<bool, ExchangeFault>
        ensures does { Does (SetAttribute name.now value.now) result self.old self.new }
        ensures reached { Reaches self.old self.new }
    {
        self.do_set_attribute(name, value)
    }

    /// Commits the response: its status, its fields and its cookie are fixed. The bytes written since the last flush,
    /// if any, are sent as a piece (Jakarta Servlet 6.0, section 5.1). The call is never ignored. The fault is
    /// `NoMemory`; nothing changes on a fault.
    pub fn flush(&mut self) -> Result<bool, ExchangeFault>
        ensures does { Does Flush result self.old self.new }
        ensures reached { Reaches self.old self.new }
    {
        self.do_flush()
    }

    // Returns whether the status and the fields can be changed.
    fn is_open(&self) -> bool
        ensures { result ≡ is_open self.now }
    {
        !self.committed && !self.is_within_include()
    }

    /// Returns whether an include is active, at any depth, so that the status and the fields are fixed (Jakarta Servlet
    /// 6.0, section 9.3).
    pub fn is_within_include(&self) -> bool
        ensures { result ≡ is_within_include self.now }
    {
        self.dispatches
            .as_slice()
            .iter()
            .any(|dispatch| dispatch.is_include())
    }

    // Returns whether a field with the name can be set.
    #[inline(always)]
    fn is_free(&self, name: &str) -> bool
        ensures { result ≡ is_free name.now self.now }
    {
        self.is_open() && !is_reserved_field(name)
    }

    // Returns whether the body can take `count` more bytes.
    fn has_room(&self, count: usize) -> bool
        ensures { result ≡ has_room count self.now }
    {
        let length = self.flushed.total().saturating_add(self.buffer.len());
        length <= MAX_RESPONSE_BODY_LEN && count <= MAX_RESPONSE_BODY_LEN - length
    }

    fn do_set_status(&mut self, status: u16) -> Result<bool, ExchangeFault>
        ensures does { Does (SetStatus status) result self.old self.new }
        ensures answered { result ≡ answer (SetStatus status) self.old }
    {
        if self.is_open() && is_settable(status) {
            self.status = status;
            Ok(true)
        } else {
            Ok(false)
        }
    }

    fn do_set_header(&mut self, name: &str, value: &str) -> Result<bool, ExchangeFault>
        ensures { Does (SetHeader name.now value.now) result self.old self.new }
    {
        if !self.is_free(name) {
            return Ok(false);
        }
        if !set_field(self.alloc, name, value, &mut self.fields)? {
            return Err(ExchangeFault::BadHeader);
        }
        Ok(true)
    }

    fn do_add_header(&mut self, name: &str, value: &str) -> Result<bool, ExchangeFault>
        ensures { Does (AddHeader name.now value.now) result self.old self.new }
    {
        if !self.is_free(name) {
            return Ok(false);
        }
        if !add_field(self.alloc, name, value, &mut self.fields)? {
            return Err(ExchangeFault::BadHeader);
        }
        Ok(true)
    }

    #[inline(always)]
    fn do_write(&mut self, bytes: &[u8]) -> Result<bool, ExchangeFault>
        ensures { Does (Write bytes.now) result self.old self.new }
    {
        if !self.has_room(bytes.len()) {
            return Err(ExchangeFault::TooLarge);
        }
        if !self.committed {
            self.buffer.reserve_first(bytes.len().max(FIRST_ROOM))?;
        }
        self.buffer.extend_from_slice(bytes)?;
        Ok(true)
    }

    fn do_write_shared(&mut self, bytes: &Bytes) -> Result<bool, ExchangeFault>
        ensures { Does (Write bytes.now) result self.old self.new }
    {
        if !self.has_room(bytes.len()) {
            return Err(ExchangeFault::TooLarge);
        }
        self.buffer.push_shared(self.alloc, bytes)?;
        Ok(true)
    }

    fn do_set_attribute(&mut self, name: &str, value: &str) -> Result<bool, ExchangeFault>
        ensures { Does (SetAttribute name.now value.now) result self.old self.new }
    {
        if is_reserved_attribute(name) {
            return Ok(false);
        }
        set_value(self.alloc, name, value, &mut self.attributes)?;
        Ok(true)
    }

    fn do_flush(&mut self) -> Result<bool, ExchangeFault>
        ensures { Does Flush result self.old self.new }
    {
        self.flushed.take_piece(self.alloc, &mut self.buffer)?;
        self.committed = true;
        Ok(true)
    }
}

// Returns whether a component may set the status.
fn is_settable(status: u16) -> bool
    ensures { result ≡ is_settable status }
{
    LEAST_STATUS <= status
        && status <= MAX_STATUS
        && status != RESET_CONTENT
        && status != NOT_MODIFIED
}
