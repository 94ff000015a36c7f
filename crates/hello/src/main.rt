//! A complete application: a servlet, a filter and a listener in one context. Runs as `./hello PORT`.
#![tactic(auto)]

ghost use Rattle.sv_servlet.specs.Changing.{Reaches};

use std::alloc::Global;
use std::process::ExitCode;
use sv_servlet::{
    Config, Deployment, Event, Exchange, Fault, Filter, Gate, Init, Listener, NoMemory, Options,
    Servlet, Step, Text, exit_code, gate_of, run_application, send_text, step_of,
};

/// Greets each caller by the parameter `name`, and reports how many callers it has greeted.
#[derive(Drop)]
struct Greet {
    greeted: u64,
}

impl Servlet for Greet {
    ghost use Rattle.hello.specs.Counting.{Counts};

    ghost servlet_step = { λ before call after. Counts before.greeted call after.greeted };

    fn init(&mut self, _alloc: Global, _config: &Config) -> Init {
        Init::Ready
    }

    fn service(&mut self, alloc: Global, exchange: &mut Exchange, _turn: u32) -> Step {
        self.greeted = self.greeted.saturating_add(1);
        step_of(alloc, greeting(alloc, exchange, self.greeted))
    }

    fn destroy(&mut self) {}
}

// Sends the greeting for the caller of this number.
fn greeting(alloc: Global, exchange: &mut Exchange, number: u64) -> Result<Step, Fault>
    ensures { Reaches exchange.old exchange.new }
{
    let name = exchange.parameter("name")?;
    let name = name.as_ref().map_or("world", Text::as_str);
    let line = format!(in alloc; "Hello {name}, you are caller {number}.\n")?;
    send_text(exchange, line.as_str())?;
    Ok(Step::Done)
}

/// Prevents browsers from guessing the content type of a response.
#[derive(Drop)]
struct NoSniff {}

impl Filter for NoSniff {
    fn init(&mut self, _alloc: Global, _config: &Config) -> Init {
        Init::Ready
    }

    fn before(&mut self, alloc: Global, exchange: &mut Exchange) -> Gate {
        match exchange.set_header("x-content-type-options", "nosniff") {
            Ok(_) => Gate::Pass,
            Err(fault) => gate_of(alloc, Err(Fault::from(fault))),
        }
    }

    fn after(&mut self, _alloc: Global, _exchange: &mut Exchange) -> Result<(), NoMemory> {
        Ok(())
    }

    fn destroy(&mut self) {}
}

/// Counts the requests.
#[derive(Drop)]
struct Requests {
    heard: u64,
}

impl Listener for Requests {
    fn hear(&mut self, event: &Event) {
        if let Event::RequestInitialized = event {
            self.heard = self.heard.saturating_add(1);
        }
    }
}

fn main(rt: HostRuntime) -> anyhow::Result<ExitCode> {
    let Some(options) = Options::of_arguments(&rt) else {
        eprintln!(rt; "usage: hello PORT")?;
        return Ok(ExitCode::from(2));
    };
    let contexts = Deployment::at(rt.alloc(), "/")?
        .servlet("greet", &["/hello"], Greet { greeted: 0 })?
        .filter("no-sniff", &["/*"], NoSniff {})?
        .listener(Requests { heard: 0 })?
        .alone()?;
    Ok(exit_code(&rt, run_application(&rt, contexts, options)))
}
