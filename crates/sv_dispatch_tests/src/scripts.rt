//! Components that do what their parameters say.

ghost use Rattle.sv_exchange.specs.Changing.{Reaches};

use std::alloc::Global;
use sv_component::{Config, Exchange, ExchangeFault, Filter, Gate, Init, Servlet, Step};
use sv_mapping::Kind;
use sv_text::{NoMemory, Text};

/// A servlet or a filter that acts as its parameters say. `does` is for a servlet's first turn and a filter's `before`.
/// Within an include, `inside` replaces it in a servlet's first turn, if set. `then` is for later turns and `after`. A
/// parameter lists acts, separated by commas. The last one is the answer, if it names one.
#[derive(Drop)]
pub struct Script {
    does: Text,
    inside: Text,
    then: Text,
}

impl Script {
    /// Returns a component that is not initialized.
    pub fn new(alloc: Global) -> Script {
        Script {
            does: Text::from_string(String::new(alloc)),
            inside: Text::from_string(String::new(alloc)),
            then: Text::from_string(String::new(alloc)),
        }
    }

    fn acts(&self, kind: Kind, turn: u32) -> &str {
        match (turn, kind) {
            (0, Kind::Include) => self.inside.as_str(),
            (0, _) => self.does.as_str(),
            _ => self.then.as_str(),
        }
    }

    fn keep(&mut self, alloc: Global, config: &Config) -> Result<(), NoMemory> {
        let does = config.param("does").unwrap_or("");
        self.does = Text::copy_of(alloc, does)?;
        self.inside = Text::copy_of(alloc, config.param("inside").unwrap_or(does))?;
        self.then = Text::copy_of(alloc, config.param("then").unwrap_or(""))?;
        Ok(())
    }
}

impl Servlet for Script {
    fn init(&mut self, alloc: Global, config: &Config) -> Init {
        match self.keep(alloc, config) {
            Ok(()) => Init::Ready,
            Err(_) => Init::NoMemory,
        }
    }

    fn service(&mut self, alloc: Global, exchange: &mut Exchange, turn: u32) -> Step {
        let acts = self.acts(exchange.kind(), turn);
        play(alloc, exchange, acts);
        match step_of(alloc, last_of(acts)) {
            Ok(step) => step,
            Err(_) => Step::NoMemory,
        }
    }

    fn destroy(&mut self) {}
}

impl Filter for Script {
    fn init(&mut self, alloc: Global, config: &Config) -> Init {
        match self.keep(alloc, config) {
            Ok(()) => Init::Ready,
            Err(_) => Init::NoMemory,
        }
    }

    fn before(&mut self, alloc: Global, exchange: &mut Exchange) -> Gate {
        play(alloc, exchange, self.does.as_str());
        match gate_of(alloc, last_of(self.does.as_str())) {
            Ok(gate) => gate,
            Err(_) => Gate::NoMemory,
        }
    }

    fn after(&mut self, alloc: Global, exchange: &mut Exchange) -> Result<(), NoMemory> {
        play(alloc, exchange, self.then.as_str());
        Ok(())
    }

    fn destroy(&mut self) {}
}

/// Makes the calls that the acts name. Calls that the exchange refuses are ignored.
fn play(alloc: Global, exchange: &mut Exchange, acts: &str)
    ensures { Reaches exchange.old exchange.new }
{
    for act in acts.split(',') {
        let (name, rest) = act.split_once(':').unwrap_or((act, ""));
        let _made = make(alloc, exchange, name, rest);
    }
}

fn make(
    alloc: Global,
    exchange: &mut Exchange,
    name: &str,
    rest: &str,
) -> Result<bool, ExchangeFault>
    ensures { Reaches exchange.old exchange.new }
{
    match name {
        "write" => exchange.write(rest.as_bytes()),
        "flush" => exchange.flush(),
        "status" => exchange.set_status(status_of(rest)),
        "set" | "attribute" | "put" => make_named(exchange, name, rest),
        "tell" => tell(alloc, exchange, rest),
        "fill" => fill(alloc, exchange, rest.parse::<usize>().unwrap_or(0)),
        _ => make_in_session(exchange, name, rest),
    }
}

fn make_named(exchange: &mut Exchange, name: &str, rest: &str) -> Result<bool, ExchangeFault>
    ensures { Reaches exchange.old exchange.new }
{
    let (key, value) = rest.split_once('=').unwrap_or((rest, ""));
    match name {
        "set" => exchange.set_header(key, value),
        "attribute" => exchange.set_attribute(key, value),
        _ => exchange.session_set(key, value),
    }
}

fn make_in_session(exchange: &mut Exchange, name: &str, rest: &str) -> Result<bool, ExchangeFault>
    ensures { Reaches exchange.old exchange.new }
{
    match name {
        "open" => exchange.session_open(),
        "take" => exchange.session_remove(rest),
        "end" => exchange.session_end(),
        _ => Ok(false),
    }
}

/// Writes this number of bytes.
fn fill(alloc: Global, exchange: &mut Exchange, count: usize) -> Result<bool, ExchangeFault>
    ensures { Reaches exchange.old exchange.new }
{
    let bytes = Vec::from_elem(alloc, b'x', count)?;
    exchange.write(bytes.as_slice())
}

/// Writes a value of the exchange, followed by a blank.
fn tell(alloc: Global, exchange: &mut Exchange, what: &str) -> Result<bool, ExchangeFault>
    ensures { Reaches exchange.old exchange.new }
{
    let line = format!(in alloc; "{} ", told(alloc, exchange, what)?)?;
    exchange.write(line.as_bytes())
}

/// Returns a value of the exchange, or `-` if it is missing: the parameter after `?`, the attribute after `@`, or the
/// value of this name.
fn told(alloc: Global, exchange: &Exchange, what: &str) -> Result<Text, NoMemory> {
    if let Some(name) = what.strip_prefix("?") {
        return told_parameter(alloc, exchange, name);
    }
    if let Some(name) = what.strip_prefix("@") {
        return Text::copy_of(alloc, exchange.attribute(name).unwrap_or("-"));
    }
    Text::copy_of(alloc, told_request(exchange, what))
}

fn told_parameter(alloc: Global, exchange: &Exchange, name: &str) -> Result<Text, NoMemory> {
    match exchange.parameter(name)? {
        Some(value) => Ok(value),
        None => Text::copy_of(alloc, "-"),
    }
}

fn told_request<'a>(exchange: &'a Exchange, what: &str) -> &'a str {
    match what {
        "path" => exchange.path(),
        "servlet" => exchange.servlet_path(),
        "info" => exchange.path_info().unwrap_or("-"),
        "query" => exchange.query().unwrap_or("-"),
        "kind" => kind_name(exchange.kind()),
        _ => exchange.session_get(what).unwrap_or("-"),
    }
}

fn kind_name(kind: Kind) -> &'static str {
    match kind {
        Kind::Request => "REQUEST",
        Kind::Forward => "FORWARD",
        Kind::Include => "INCLUDE",
        Kind::Error => "ERROR",
    }
}

fn status_of(text: &str) -> u16 {
    text.parse::<u16>().unwrap_or(0)
}

fn last_of(acts: &str) -> &str {
    match acts.rsplit_once(',') {
        Some((_, last)) => last,
        None => acts,
    }
}

fn step_of(alloc: Global, act: &str) -> Result<Step, NoMemory> {
    let (name, rest) = act.split_once(':').unwrap_or((act, ""));
    match name {
        "forward" => Ok(Step::Forward(Text::copy_of(alloc, rest)?)),
        "include" => Ok(Step::Include(Text::copy_of(alloc, rest)?)),
        "error" => Ok(Step::Error(status_of(rest), Text::copy_of(alloc, "e")?)),
        "fail" => failed(alloc, rest),
        "away" => Ok(Step::Unavailable(rest.parse::<u32>().ok())),
        _ => Ok(Step::Done),
    }
}

fn failed(alloc: Global, kind: &str) -> Result<Step, NoMemory> {
    let kind = Text::copy_of(alloc, kind)?;
    Ok(Step::Failed(kind, Text::copy_of(alloc, "f")?))
}

fn gate_of(alloc: Global, act: &str) -> Result<Gate, NoMemory> {
    let (name, rest) = act.split_once(':').unwrap_or((act, ""));
    match name {
        "stop" => Ok(Gate::Stop),
        "fail" => gate_failed(alloc, rest),
        _ => Ok(Gate::Pass),
    }
}

fn gate_failed(alloc: Global, kind: &str) -> Result<Gate, NoMemory> {
    let kind = Text::copy_of(alloc, kind)?;
    Ok(Gate::Failed(kind, Text::copy_of(alloc, "f")?))
}
