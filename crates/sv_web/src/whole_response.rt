//! Responses sent as a whole.

ghost use Rattle.std.specs.Prelude.{◌≡◌, OnOk, codes};
ghost use Rattle.sv_exchange.specs.Changing.{Reaches};
ghost use Rattle.sv_text.specs.Gives.{Gives};
ghost use Rattle.sv_web.specs.Answering.{call_fault};
ghost use Rattle.sv_web.specs.Sending.{sent, sent_answer};

use sv_component::{Exchange, ExchangeFault};

/// Writes a text as plain text in UTF-8. See [`send`].
pub fn send_text(exchange: &mut Exchange, text: &str) -> Result<(), ExchangeFault>
    ensures sent { OnOk result (exchange.new ≡ sent (codes "text/plain; charset=utf-8") text.now exchange.old) }
    ensures answered { Gives call_fault result (sent_answer (codes "text/plain; charset=utf-8") text.now exchange.old) }
    ensures reached { Reaches exchange.old exchange.new }
{
    send(exchange, "text/plain; charset=utf-8", text.as_bytes())
}

/// Writes a page as HTML in UTF-8. Texts of a client must be escaped by [`escape_html`](crate::escape_html). See
/// [`send`].
pub fn send_html(exchange: &mut Exchange, page: &str) -> Result<(), ExchangeFault>
    ensures sent { OnOk result (exchange.new ≡ sent (codes "text/html; charset=utf-8") page.now exchange.old) }
    ensures answered { Gives call_fault result (sent_answer (codes "text/html; charset=utf-8") page.now exchange.old) }
    ensures reached { Reaches exchange.old exchange.new }
{
    send(exchange, "text/html; charset=utf-8", page.as_bytes())
}

/// Sets the field `content-type` and writes the bytes, as [`Exchange::set_header`] and [`Exchange::write`] do (Jakarta
/// Servlet 6.0, sections 5.1 and 5.2). The field is unchanged if the response is committed or an include is active.
///
/// # Errors
/// Those of the two calls: `BadHeader` and `NoMemory`, after which nothing has changed, and then `TooLarge` and
/// `NoMemory`, after which only the field may have changed.
pub fn send(exchange: &mut Exchange, content_type: &str, bytes: &[u8]) -> Result<(), ExchangeFault>
    ensures sent { OnOk result (exchange.new ≡ sent content_type.now bytes.now exchange.old) }
    ensures answered { Gives call_fault result (sent_answer content_type.now bytes.now exchange.old) }
    ensures reached { Reaches exchange.old exchange.new }
{
    exchange.set_header("content-type", content_type)?;
    exchange.write(bytes)?;
    Ok(())
}
