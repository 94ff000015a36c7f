//! The commands of the program and their options.

/// A command: its name, its arguments as its usage shows them, and what it does. A command with options takes them after
/// its other arguments.
pub type CommandRow = (&'static str, &'static str, &'static str);

/// An option: the name of its command, its word, the argument after it (empty if there is none), and what it does, in
/// lines.
pub type OptionRow = (&'static str, &'static str, &'static str, &'static str);

/// The commands, in the order in which `help` lists them.
pub const COMMANDS: [CommandRow; 12] = [
    (
        "first",
        "[deny]",
        "decides by an example policy on the first request on standard input",
    ),
    (
        "policy",
        "CONFIG METHOD TARGET [USER]",
        "explains what the server does with a request, and which constraint decides",
    ),
    (
        "uncovered",
        "CONFIG",
        "lists the methods that the constraints of the server leave uncovered",
    ),
    (
        "audit",
        "CONFIG [OPTION ..]",
        "shows who may enter where, by URL pattern and method; options, in any order:",
    ),
    (
        "check",
        "CONFIG",
        "reads everything that run reads, starts nothing, and counts it or lists its faults",
    ),
    (
        "replay",
        "CONFIG",
        "runs the script of events on standard input, without a socket, and prints the results",
    ),
    (
        "serve",
        "CONFIG N",
        "serves N connections, one after another, at the port of the server file",
    ),
    (
        "run",
        "CONFIG [OPTION ..]",
        "serves many connections at once, at the port of the server file; options, in any order:",
    ),
    (
        "ctl",
        "SOCKET WORD ..",
        "sends a line to the control socket of run, and prints the reply; words as for --control",
    ),
    (
        "selftest",
        "CONFIG",
        "asks the server once over a connection of its own, and prints the answer's first line",
    ),
    (
        "help",
        "[COMMAND | [config] [--format FORMAT]]",
        "lists the commands, or shows the usage of one, or with config the keys of the files",
    ),
    (
        "version",
        "",
        "prints the version, and the toolchain that proved it",
    ),
];

/// The options, by their commands.
pub const OPTIONS: [OptionRow; 25] = [
    (
        "audit",
        "--secure",
        "",
        "as over a connection whose transport is guaranteed",
    ),
    (
        "audit",
        "--format",
        "FORMAT",
        "text, json, html or keys of findings; text without it",
    ),
    ("audit", "--as", "USER", "marks what that user may enter"),
    (
        "audit",
        "--role",
        "ROLE",
        "marks what a caller with that role may enter; not with --as",
    ),
    (
        "audit",
        "--fail-on",
        "KINDS",
        "exits with status 4 if there are findings of these kinds, joined by commas, or any:
open, uncovered, read-otherwise, head-differs, dead, dead-pattern, overruled,
unreached, unserved, escaped, login-needs, unknown-role, unheld-role, unused-role",
    ),
    (
        "audit",
        "--accept",
        "FILE",
        "does not count findings whose keys are lines of that file",
    ),
    (
        "audit",
        "--lines",
        "FILE",
        "takes the lines of constraints from that file",
    ),
    (
        "audit",
        "--unknown-files",
        "",
        "contexts that name no folder may have files that are not here",
    ),
    (
        "audit",
        "--path",
        "TARGET",
        "explains one request to that target, in sentences;
not with --format, --fail-on, --accept or --diff",
    ),
    (
        "audit",
        "--method",
        "METHOD",
        "the method of that request; GET without it; needs --path",
    ),
    (
        "audit",
        "--diff",
        "OTHER",
        "shows what the server file OTHER decides differently; text or json;
not with --as, --role, --accept, --lines, --unknown-files, --path or --method",
    ),
    (
        "run",
        "--control",
        "SOCKET",
        "takes lines at that socket file: status, constraints, uncovered, explain, append,
withdraw, stop",
    ),
    (
        "run",
        "--journal",
        "FILE",
        "appends the outcome of each request to that file",
    ),
    (
        "run",
        "--access-log",
        "FILE",
        "appends a line for each request to that file: who asked for what,
and what became of it",
    ),
    (
        "run",
        "--access-log-format",
        "combined|json",
        "the form of these lines: combined, as other servers write it, or json",
    ),
    (
        "run",
        "--sessions",
        "FOLDER",
        "keeps sessions in that folder from an orderly end to the next start",
    ),
    (
        "run",
        "--sessions-every",
        "SECONDS",
        "writes them there that often while it runs, for a kill; 1 to 86400;
needs --sessions",
    ),
    (
        "run",
        "--end-all-sessions",
        "",
        "ends the sessions in that folder unread; needs --sessions",
    ),
    ("run", "--listen", "ADDRESS:PORT", "listens there"),
    (
        "run",
        "--same-seed",
        "",
        "gives the same session ids at each start, for tests",
    ),
    (
        "run",
        "--connections",
        "N",
        "connections at once, 1 to 1024; 1024 without it",
    ),
    (
        "run",
        "--idle-seconds",
        "N",
        "seconds between requests, 1 to 86400; 60 without it",
    ),
    (
        "run",
        "--held-mebibytes",
        "N",
        "MiB that all connections hold, 1 to 1048576; 64 without it",
    ),
    (
        "run",
        "--signal-descriptor",
        "N",
        "reads signals there; fitskhela-launch opens it, and gives this option",
    ),
    (
        "help",
        "--format",
        "FORMAT",
        "man, md or bash, for all commands; man or md after config",
    ),
];
