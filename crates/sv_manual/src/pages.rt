//! The fixed texts of the pages.

/// The beginning of the help.
pub const HELP_HEAD: &str = "usage: sv COMMAND [ARGUMENTS]\n\n";

/// The beginning of the manual page of the program.
pub const MAN_HEAD: &str = "\
.TH SV 1
.SH NAME
sv \\- a servlet container whose code is proved
.SH SYNOPSIS
\\fBsv\\fR \\fICOMMAND\\fR [\\fIARGUMENTS\\fR]
.SH DESCRIPTION
CONFIG is the name of a server file, which
.BR sv\\-config (5)
describes.
.SH COMMANDS
";

/// The end of the manual page of the program.
pub const MAN_END: &str = "\
.SH EXIT STATUS
.TP
0
The command succeeded.
.TP
1
The configuration or the system has a fault, or a running server refused a request of ctl.
.TP
2
The arguments or a script are wrong.
.TP
3
Memory ran out.
.TP
4
An audit has findings that must not be there.
.SH SEE ALSO
.BR sv\\-config (5)
";

/// The beginning of a command in the manual page.
pub const ROFF_COMMAND: &str = ".TP\n\\fBsv\\fR ";

/// The beginning of the page in Markdown.
pub const MARKDOWN_HEAD: &str = "\
# Usage

`sv help --format md` prints this page. [KEYS.md](KEYS.md) lists the keys of the configuration
files.
";

/// The end of the page in Markdown.
pub const MARKDOWN_END: &str = "
The exit status is 0 if the command succeeded, 1 if the configuration or the system has a fault or a
running server refused a request of `ctl`, 2 if the arguments or a script are wrong, 3 if memory ran
out, and 4 if an audit has findings that must not be there.
";

/// The beginning of the completion of bash, up to the names of the commands.
pub const COMPLETION_HEAD: &str = "\
# The completion of bash for sv, as `sv help --format bash` prints it.
_sv() {
    local word=${COMP_WORDS[COMP_CWORD]} before=${COMP_WORDS[COMP_CWORD - 1]} names=
    local commands=\"";

/// The completion of bash between the names of the commands and the options.
pub const COMPLETION_CASES: &str = "\"
    COMPREPLY=()
    case $COMP_CWORD:${COMP_WORDS[1]}:$before:$word in
    1:*) names=$commands;;
    2:help:*) names=\"$commands config\";;
    3:ctl:*) names=\"status constraints uncovered explain append withdraw stop\";;
    *:audit:--format:*) names=\"text json html keys\";;
    *:run:--access-log-format:*) names=\"combined json\";;
    *:help:--format:*) names=\"man md bash\";;
";

/// The case of a word that begins like an option, between the name of the command and the options.
pub const OPTION_CASE: &str = ":*:-*) names=\"";

/// The end of the completion of bash.
pub const COMPLETION_END: &str = "    \
    esac
    if [ -n \"$names\" ]; then
        mapfile -t COMPREPLY < <(compgen -W \"$names\" -- \"$word\")
    else
        mapfile -t COMPREPLY < <(compgen -f -- \"$word\")
    fi
}
complete -o filenames -F _sv sv
";

/// The beginning of the manual page of the configuration files.
pub const CONFIG_MAN_HEAD: &str = "\
.TH SV\\-CONFIG 5
.SH NAME
sv\\-config \\- the configuration files of sv
.SH DESCRIPTION
The files are TOML.
A server file names the files of its contexts, relative to its own folder.
Each table of a deployment descriptor except init\\-param may also have the keys description and display\\-name, which are ignored.
";

/// The text before the values of a key in the help.
pub const KEY_TAKES: &str = "\n        takes ";

/// The text before the meaning of a key in the help.
pub const KEY_MEANS: &str = "\n        ";

/// The end of the manual page of the configuration files.
pub const CONFIG_MAN_END: &str = "\
.SH SEE ALSO
.BR sv (1)
";

/// The beginning of the page of keys in Markdown.
pub const CONFIG_MARKDOWN_HEAD: &str = "\
# Keys

`sv help config --format md` prints this page. The files are TOML. A server file names the files of
its contexts, relative to its own folder. Each table of a deployment descriptor except `init-param`
may also have the keys `description` and `display-name`, which are ignored.
";

/// The head of a table of keys in Markdown, after the name of a format.
pub(crate) const KEY_TABLE_HEAD: &str = "\n\n| Key | Takes | Meaning |\n|---|---|---|\n";
