//! The program's component classes. One servlet and one filter are boxed.

use crate::changes::add_fields_and_body;
use crate::runs::{Sees, add_seen};
use std::alloc::Global;
use sv_component::{
    Config, Event, Exchange, Filter, Init, Listener, Param, Servlet, gate_answer, init_answer,
    step_answer,
};
use sv_deployments::{
    Bad, Bye, ErrorCode, Fail, Go, Gone, Halt, Keep, Log, Mark, Nest, Out, Paths, Stream, Who,
};
use sv_journal::Answer;
use sv_message::Response;
use sv_rows::{Asks, Draft, Strays, cell, hold, unescaped_text};
use sv_text::{Listed, NoMemory, Text};

/// The columns: class; name of the component and its parameters; calls made before its own; answers to `init` and to
/// `service` or `before`; fields and body of the response.
const CLASSES: &str = r#"
-- the component classes of the program
Who  | who  | flush                 | Ready  | Done | ""                       | 9\r\ncaller -\n\r\n0\r\n\r\n
Who  | who  | status 404            | Ready  | Done | content-type: text/plain | caller -\n
Who  | who  | enter INCLUDE         | Ready  | Done | ""                       | caller -\n
Who  | who  | write x               | Ready  | Done | content-type: text/plain | xcaller -\n
Who  | who  | set Content-Type=a    | Ready  | Done | content-type: text/plain | caller -\n
Who  | who  | fill 4194304          | Ready  | Done | content-type: text/plain | 4194304 bytes
Halt | h    | status 404            | Ready  | Stop | content-type: text/plain | halt\n
Halt | h    | enter INCLUDE         | Ready  | Stop | ""                       | halt\n
Mark | f1   | status 404            | Ready  | Pass | x-mark: f1               | ""
Mark | f1   | add X-Mark=f0         | Ready  | Pass | x-mark: f0, x-mark: f1   | ""
Mark | f1   | flush                 | Ready  | Pass | ""                       | 0\r\n\r\n
Mark | f\n1 | status 404            | Ready  | Pass | ""                       | ""
Bad  | b    | status 404            | Failed | Pass | ""                       | ""
-- Jakarta Servlet 6.0, section 3.5: the paths of the request, in an include those of the includer
Paths | p | enter REQUEST                | Ready | Done | content-type: text/plain | servlet=/a info=/b\n
Paths | p | enter ERROR                  | Ready | Done | content-type: text/plain | servlet=/e info=-\n
Paths | p | enter REQUEST; enter FORWARD | Ready | Done | content-type: text/plain | servlet=/f info=/x\n
Paths | p | enter REQUEST; enter INFO    | Ready | Done | ""                       | servlet=/a info=/b\n
-- the first call of each kind; a path is that of the first parameter of its name
Nest | n path=/n path=/m | enter REQUEST | Ready | Include /n     | content-type: text/plain | a1\n
Nest | n path=/n         | enter FORWARD | Ready | Include /n     | content-type: text/plain | a1\n
Nest | n path=/n         | enter INCLUDE | Ready | Done           | ""                       | b1\n
Nest | n                 | enter ERROR   | Ready | Include\x20    | content-type: text/plain | a1\n
Go   | g path=/p?q=1     | write x       | Ready | Forward /p?q=1 | ""                       | x
Go   | g Path=/p         | write x       | Ready | Forward\x20    | ""                       | x
-- errors and failures: nothing is written
Fail | f kind=K          | write x       | Ready | Failed K       | ""                       | x
Fail | f                 | write x       | Ready | Failed\x20     | ""                       | x
Err  | e code=404        | write x       | Ready | Error 404      | ""                       | x
Err  | e code=200        | status 404    | Ready | Error 200      | ""                       | ""
Gone | g                 | write x       | Ready | Unavailable    | ""                       | x
Gone | g seconds=10      | write x       | Ready | Unavailable    | ""                       | x
-- numbers are decimal digits; another text, and a number that does not fit, count as 0
Err  | e code=0404       | status 404    | Ready | Error 404      | ""                       | ""
Err  | e code=65535      | status 404    | Ready | Error 65535    | ""                       | ""
Err  | e code=65536      | status 404    | Ready | Error 0        | ""                       | ""
Err  | e code=18446744073709552020 | status 404 | Ready | Error 0 | ""                       | ""
Err  | e code=+404       | status 404    | Ready | Error 0        | ""                       | ""
Err  | e code=-1         | status 404    | Ready | Error 0        | ""                       | ""
Err  | e code=404x       | status 404    | Ready | Error 0        | ""                       | ""
Err  | e code=٤          | status 404    | Ready | Error 0        | ""                       | ""
Err  | e code=           | status 404    | Ready | Error 0        | ""                       | ""
Err  | e                 | status 404    | Ready | Error 0        | ""                       | ""
-- without a session, and without room for one
Keep | k                 | write x       | Ready | Error 503      | ""                       | x
Keep | k                 | flush         | Ready | Error 503      | ""                       | 0\r\n\r\n
Bye  | b                 | write x       | Ready | Done | content-type: text/plain | xbye\n
Bye  | b                 | flush         | Ready | Done | ""                       | 4\r\nbye\n\r\n0\r\n\r\n
Out  | o                 | write x       | Ready | Done | content-type: text/plain | xout\n
Out  | o                 | enter INCLUDE | Ready | Done | ""                       | out\n
-- section 5.1: what was written is flushed, and what follows leaves behind it
Stream | s               | status 404    | Ready | Done | content-type: text/plain | 4\r\none\n\r\n4\r\ntwo\n\r\n0\r\n\r\n
Stream | s kind=         | write x       | Ready | Done | content-type: text/plain | 5\r\nxone\n\r\n4\r\ntwo\n\r\n0\r\n\r\n
Stream | s               | flush         | Ready | Done | ""                       | 4\r\none\n\r\n4\r\ntwo\n\r\n0\r\n\r\n
Stream | s               | enter INCLUDE | Ready | Done | ""                       | 4\r\none\n\r\n4\r\ntwo\n\r\n0\r\n\r\n
Stream | s kind=K kind=L | status 404    | Ready | Failed K | content-type: text/plain | 4\r\none\n\r\n4\r\ntwo\n\r\n0\r\n\r\n
"#;

#[test]
fn a_class_answers_as_documented(rt: HostRuntime) -> Result<(), Strays> {
    hold(&rt, &[CLASSES], &Classes)
}

/// Answers with the results of a component's calls, and its response.
struct Classes;

impl Asks for Classes {
    const QUESTION: usize = 3;

    fn answer(&self, alloc: Global, row: &str, answer: &mut Vec<u8>) -> Result<(), NoMemory> {
        add_seen(alloc, row, cell(row, 2), self, answer)
    }
}

impl Sees for Classes {
    fn add_exchange(
        &self,
        alloc: Global,
        row: &str,
        _said: &str,
        exchange: &mut Exchange,
        seen: &mut Draft,
    ) {
        match config(alloc, cell(row, 1)) {
            Ok(config) => add_calls(alloc, cell(row, 0), &config, exchange, seen),
            Err(_) => seen.fail(),
        }
    }

    fn add_response(&self, alloc: Global, response: &Response, seen: &mut Draft) {
        add_fields_and_body(alloc, seen, response);
    }
}

/// Makes the calls of a component of this class, and adds their answers.
fn add_calls(
    alloc: Global,
    class: &str,
    config: &Config,
    exchange: &mut Exchange,
    told: &mut Draft,
) {
    match class {
        "Halt" => halted(alloc, config, exchange, told),
        "Mark" => filtered(alloc, Mark::new(alloc), config, exchange, told),
        "Bad" => filtered(alloc, Bad::new(), config, exchange, told),
        _ => add_calls_of_servlet(alloc, class, config, exchange, told),
    }
}

fn add_calls_of_servlet(
    alloc: Global,
    class: &str,
    config: &Config,
    exchange: &mut Exchange,
    told: &mut Draft,
) {
    match class {
        "Who" => asked_who(alloc, config, exchange, told),
        "Paths" => served(alloc, Paths::new(), config, exchange, told),
        "Nest" => served(alloc, Nest::new(alloc), config, exchange, told),
        "Go" => served(alloc, Go::new(alloc), config, exchange, told),
        "Fail" => served(alloc, Fail::new(alloc), config, exchange, told),
        _ => add_calls_of_other(alloc, class, config, exchange, told),
    }
}

fn add_calls_of_other(
    alloc: Global,
    class: &str,
    config: &Config,
    exchange: &mut Exchange,
    told: &mut Draft,
) {
    match class {
        "Err" => served(alloc, ErrorCode::new(), config, exchange, told),
        "Gone" => served(alloc, Gone::new(), config, exchange, told),
        "Keep" => served(alloc, Keep::new(), config, exchange, told),
        "Bye" => served(alloc, Bye::new(), config, exchange, told),
        "Stream" => served(alloc, Stream::new(alloc), config, exchange, told),
        _ => served(alloc, Out::new(), config, exchange, told),
    }
}

/// Makes the calls of a boxed filter.
fn halted(alloc: Global, config: &Config, exchange: &mut Exchange, told: &mut Draft) {
    match Box::new(alloc, Halt::new()) {
        Ok(halt) => {
            let filter: Box<dyn Filter> = halt;
            filtered(alloc, filter, config, exchange, told);
        }
        Err(_) => told.fail(),
    }
}

/// Makes the calls of a boxed servlet.
fn asked_who(alloc: Global, config: &Config, exchange: &mut Exchange, told: &mut Draft) {
    match Box::new(alloc, Who::new()) {
        Ok(who) => {
            let servlet: Box<dyn Servlet> = who;
            served(alloc, servlet, config, exchange, told);
        }
        Err(_) => told.fail(),
    }
}

/// Makes the calls of a servlet.
fn served<S: Servlet>(
    alloc: Global,
    mut servlet: S,
    config: &Config,
    exchange: &mut Exchange,
    told: &mut Draft,
) {
    let ready = servlet.init(alloc, config);
    let step = servlet.service(alloc, exchange, 0);
    servlet.destroy();
    add_both(told, ready, step_answer(alloc, &step));
}

/// Makes the calls of a filter.
fn filtered<F: Filter>(
    alloc: Global,
    mut filter: F,
    config: &Config,
    exchange: &mut Exchange,
    told: &mut Draft,
) {
    let ready = filter.init(alloc, config);
    let gate = filter.before(alloc, exchange);
    if filter.after(alloc, exchange).is_err() {
        told.fail();
    }
    filter.destroy();
    add_both(told, ready, gate_answer(alloc, &gate));
}

fn add_both(told: &mut Draft, ready: Init, called: Result<Answer, NoMemory>) {
    told.add_shown(&init_answer(ready));
    told.add(" | ");
    match called {
        Ok(called) => told.add_shown(&called),
        Err(_) => told.fail(),
    }
    told.add(" | ");
}

/// Returns the configuration of a component: its name, followed by its parameters.
fn config(alloc: Global, words: &str) -> Result<Config, NoMemory> {
    let (name, rest) = words.split_once(' ').unwrap_or((words, ""));
    let name = unescaped_text(alloc, name)?;
    Ok(Config {
        name: Text::from_string(name),
        params: Listed::from_vec(params(alloc, rest)?),
    })
}

fn params(alloc: Global, words: &str) -> Result<Vec<Param>, NoMemory> {
    let mut params = Vec::new(alloc);
    for word in words.split_ascii_whitespace() {
        params.push(param(alloc, word)?)?;
    }
    Ok(params)
}

fn param(alloc: Global, word: &str) -> Result<Param, NoMemory> {
    let (name, value) = word.split_once('=').unwrap_or((word, ""));
    let name = Text::copy_of(alloc, name)?;
    let value = Text::copy_of(alloc, value)?;
    Ok(Param { name, value })
}

/// The columns: name of a parameter; its value, or `-` for none.
const PARAMETERS: &str = r#"
-- Jakarta Servlet 6.0, section 2.3.2: a parameter is found by its name with case, and is the first of its name
path  | /p
empty | ""
PATH  | -
""    | -
"#;

#[test]
fn the_first_parameter_of_a_name_wins(rt: HostRuntime) -> Result<(), Strays> {
    hold(&rt, &[PARAMETERS], &Parameters)
}

/// Answers with the value of a parameter.
struct Parameters;

impl Asks for Parameters {
    const QUESTION: usize = 1;

    fn answer(&self, alloc: Global, row: &str, answer: &mut Vec<u8>) -> Result<(), NoMemory> {
        let config = config(alloc, "f1 path=/p path=/q empty=")?;
        answer.extend_from_slice(config.param(cell(row, 0)).unwrap_or("-").as_bytes())?;
        Ok(())
    }
}

#[test]
fn log_counts_its_events(rt: HostRuntime) {
    let mut log = Log::new();
    log.hear(&Event::ContextInitialized);
    log.hear(&Event::SessionCreated(1));
    assert!(rt; log.heard() == 2);
}
