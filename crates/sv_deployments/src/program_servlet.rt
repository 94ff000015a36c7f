//! The program's servlets as one type.

ghost use Rattle.std.specs.Prelude.{◌≡◌};
ghost use Rattle.sv_deployments.specs.ServletClasses.{new_servlet};

use crate::bye::Bye;
use crate::error::ErrorCode;
use crate::fail::Fail;
use crate::go::Go;
use crate::gone::Gone;
use crate::keep::Keep;
use crate::nest::Nest;
use crate::out::Out;
use crate::paths::Paths;
use crate::stream::Stream;
use crate::who::Who;
use std::alloc::Global;
use sv_application::Application;
use sv_component::{Config, Exchange, Init, Servlet, Step};

/// A servlet of one of the program's classes.
#[derive(Drop)]
pub enum ProgramServlet {
    /// Writes the caller's name: the class `Who`.
    Who(Who),
    /// Writes its paths: the class `Paths`.
    Paths(Paths),
    /// Includes a path: the class `Nest`.
    Nest(Nest),
    /// Forwards to a path: the class `Go`.
    Go(Go),
    /// Fails: the class `Fail`.
    Fail(Fail),
    /// Responds with an error: the class `Err`.
    ErrorCode(ErrorCode),
    /// Is out of service: the class `Gone`.
    Gone(Gone),
    /// Counts in the session: the class `Keep`.
    Keep(Keep),
    /// Ends the session: the class `Bye`.
    Bye(Bye),
    /// Logs the caller out: the class `Out`.
    Out(Out),
    /// Sends its response in pieces: the class `Stream`.
    Stream(Stream),
    /// Hands its requests over to an application behind a proxy: the class `Application`.
    Application(Application),
}

impl ProgramServlet {
    /// Creates a servlet of the class of this name, which is not yet initialized. Returns none if no servlet class has
    /// this name.
    pub fn of_class(alloc: Global, class: &str) -> Option<ProgramServlet>
        ensures { result ≡ new_servlet class.now }
    {
        Some(match class {
            "Who" => ProgramServlet::Who(Who::new()),
            "Paths" => ProgramServlet::Paths(Paths::new()),
            "Nest" => ProgramServlet::Nest(Nest::new(alloc)),
            "Go" => ProgramServlet::Go(Go::new(alloc)),
            "Fail" => ProgramServlet::Fail(Fail::new(alloc)),
            "Err" => ProgramServlet::ErrorCode(ErrorCode::new()),
            "Gone" => ProgramServlet::Gone(Gone::new()),
            "Keep" => ProgramServlet::Keep(Keep::new()),
            "Bye" => ProgramServlet::Bye(Bye::new()),
            "Out" => ProgramServlet::Out(Out::new()),
            "Stream" => ProgramServlet::Stream(Stream::new(alloc)),
            "Application" => ProgramServlet::Application(Application::new(alloc)),
            _ => return None,
        })
    }
}

impl Servlet for ProgramServlet {
    ghost use Rattle.sv_deployments.specs.ServletClasses.{ServletSteps};

    ghost servlet_step = { ServletSteps };

    fn init(&mut self, alloc: Global, config: &Config) -> Init {
        match self {
            ProgramServlet::Who(servlet) => servlet.init(alloc, config),
            ProgramServlet::Paths(servlet) => servlet.init(alloc, config),
            ProgramServlet::Nest(servlet) => servlet.init(alloc, config),
            ProgramServlet::Go(servlet) => servlet.init(alloc, config),
            ProgramServlet::Fail(servlet) => servlet.init(alloc, config),
            ProgramServlet::ErrorCode(servlet) => servlet.init(alloc, config),
            ProgramServlet::Gone(servlet) => servlet.init(alloc, config),
            ProgramServlet::Keep(servlet) => servlet.init(alloc, config),
            ProgramServlet::Bye(servlet) => servlet.init(alloc, config),
            ProgramServlet::Out(servlet) => servlet.init(alloc, config),
            ProgramServlet::Stream(servlet) => servlet.init(alloc, config),
            ProgramServlet::Application(servlet) => servlet.init(alloc, config),
        }
    }

    fn service(&mut self, alloc: Global, exchange: &mut Exchange, turn: u32) -> Step {
        match self {
            ProgramServlet::Who(servlet) => servlet.service(alloc, exchange, turn),
            ProgramServlet::Paths(servlet) => servlet.service(alloc, exchange, turn),
            ProgramServlet::Nest(servlet) => servlet.service(alloc, exchange, turn),
            ProgramServlet::Go(servlet) => servlet.service(alloc, exchange, turn),
            ProgramServlet::Fail(servlet) => servlet.service(alloc, exchange, turn),
            ProgramServlet::ErrorCode(servlet) => servlet.service(alloc, exchange, turn),
            ProgramServlet::Gone(servlet) => servlet.service(alloc, exchange, turn),
            ProgramServlet::Keep(servlet) => servlet.service(alloc, exchange, turn),
            ProgramServlet::Bye(servlet) => servlet.service(alloc, exchange, turn),
            ProgramServlet::Out(servlet) => servlet.service(alloc, exchange, turn),
            ProgramServlet::Stream(servlet) => servlet.service(alloc, exchange, turn),
            ProgramServlet::Application(servlet) => servlet.service(alloc, exchange, turn),
        }
    }

    fn destroy(&mut self) {
        match self {
            ProgramServlet::Who(servlet) => servlet.destroy(),
            ProgramServlet::Paths(servlet) => servlet.destroy(),
            ProgramServlet::Nest(servlet) => servlet.destroy(),
            ProgramServlet::Go(servlet) => servlet.destroy(),
            ProgramServlet::Fail(servlet) => servlet.destroy(),
            ProgramServlet::ErrorCode(servlet) => servlet.destroy(),
            ProgramServlet::Gone(servlet) => servlet.destroy(),
            ProgramServlet::Keep(servlet) => servlet.destroy(),
            ProgramServlet::Bye(servlet) => servlet.destroy(),
            ProgramServlet::Out(servlet) => servlet.destroy(),
            ProgramServlet::Stream(servlet) => servlet.destroy(),
            ProgramServlet::Application(servlet) => servlet.destroy(),
        }
    }
}
