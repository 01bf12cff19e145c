//! The command line.
use clap::{Arg, ArgAction, Command};
use std::alloc::{AllocError, Global};

/// The flag by which a command that fails says why.
pub(crate) const VERBOSE: &str = "verbose";

/// The flag by which an order is given without a question.
pub(crate) const YES: &str = "yes";

/// The flag by which a line is written for each event that is served.
pub(crate) const LOG: &str = "log";

/// The forms of its lines.
const LOG_FORMS: &[&str] = &["words", "json"];

/// An option that a subcommand has.
struct Wanted {
    /// Its name.
    name: &'static str,

    /// The name of its value.
    value: &'static str,

    /// What its value is, or what a flag asks for.
    help: &'static str,

    /// How it is given.
    form: Form,
}

/// How an option is given.
#[derive(Clone, Copy)]
enum Form {
    /// With a value, always.
    Needed,

    /// With a value, or not at all.
    Optional,

    /// With one of the log's forms, with none for words, or not at all.
    Log,

    /// Without a value, or not at all.
    Flag,
}

/// A subcommand.
struct Subcommand {
    /// Its name.
    name: &'static str,

    /// What it does.
    about: &'static str,

    /// An example of it.
    example: &'static str,

    /// The options that it has, beside the flag that all have.
    options: &'static [Wanted],
}

const DB_OPTION: Wanted = Wanted {
    name: "db",
    value: "FILE",
    help: "The file of the records, such as laboratory.db",
    form: Form::Needed,
};

const KEYS_OPTION: Wanted = Wanted {
    name: "keys",
    value: "FILE",
    help: "The file of the token keys and of the seeds, such as keys.txt",
    form: Form::Needed,
};

const ACCOUNT_OPTION: Wanted = Wanted {
    name: "account",
    value: "N",
    help: "The account's number, 1 to 9999",
    form: Form::Needed,
};

const REQUEST_OPTION: Wanted = Wanted {
    name: "request",
    value: "N",
    help: "The request's number, 1 to 9999999999",
    form: Form::Needed,
};

const SECRET_OPTION: Wanted = Wanted {
    name: "secret",
    value: "FILE",
    help: "The file of the account's secret, such as secret-7.txt: a line of 64 hex digits",
    form: Form::Needed,
};

const PORT_OPTION: Wanted = Wanted {
    name: "port",
    value: "P",
    help: "The port of 127.0.0.1, 1 to 65535",
    form: Form::Needed,
};

const COUNT_OPTION: Wanted = Wanted {
    name: "count",
    value: "C",
    help: "Ends after C connections, 1 to 1000000; without it, goes on",
    form: Form::Optional,
};

const PATIENCE_OPTION: Wanted = Wanted {
    name: "patience",
    value: "SECONDS",
    help: "Closes a client's connection after so many seconds in all, 1 to 3600; 30 without it",
    form: Form::Optional,
};

const GRADES_OPTION: Wanted = Wanted {
    name: "grades",
    value: "yes|no",
    help: "Whether to recompute and compare each kept verdict; default yes",
    form: Form::Optional,
};

const TO_OPTION: Wanted = Wanted {
    name: "to",
    value: "FILE",
    help: "The file that is made, such as backup.db; it mustn't exist",
    form: Form::Needed,
};

const FROM_OPTION: Wanted = Wanted {
    name: "from",
    value: "FILE",
    help: "The backup, such as backup.db",
    form: Form::Needed,
};

const NEW_KEYS_OPTION: Wanted = Wanted {
    name: "new",
    value: "FILE",
    help: "Makes a new keys file with a token key and a seed; it mustn't exist",
    form: Form::Optional,
};

const ADD_TOKEN_OPTION: Wanted = Wanted {
    name: "add-token",
    value: "FILE",
    help: "Takes the lines of this keys file, and adds a token key, which signs from then on",
    form: Form::Optional,
};

const RETIRE_OPTION: Wanted = Wanted {
    name: "retire",
    value: "FILE",
    help: "Takes the lines of this keys file, and retires its oldest token key: its tokens are refused",
    form: Form::Optional,
};

const ADD_SEED_OPTION: Wanted = Wanted {
    name: "add-seed",
    value: "FILE",
    help: "Takes the lines of this keys file, and adds a seed, from which new vector sets come",
    form: Form::Optional,
};

const NEW_LINES_OPTION: Wanted = Wanted {
    name: "to",
    value: "FILE",
    help: "The keys file that is made by --add-token, --retire or --add-seed; it mustn't exist",
    form: Form::Optional,
};

const NEW_SECRET_OPTION: Wanted = Wanted {
    name: "new",
    value: "FILE",
    help: "The file that is made, such as secret-7.txt; it mustn't exist",
    form: Form::Needed,
};

const ALL_FLAG: Wanted = Wanted {
    name: "all",
    value: "",
    help: "Shows the requests that were decided, too",
    form: Form::Flag,
};

const VERBOSE_FLAG: Wanted = Wanted {
    name: VERBOSE,
    value: "",
    help: "If the command fails, says why on a second line, as it does on a terminal",
    form: Form::Flag,
};

const JSON_FLAG: Wanted = Wanted {
    name: "json",
    value: "",
    help: "Prints one JSON document, for programs",
    form: Form::Flag,
};

const HTML_FLAG: Wanted = Wanted {
    name: "html",
    value: "",
    help: "Prints a page to print or file, in place of the JSON document",
    form: Form::Flag,
};

const YES_FLAG: Wanted = Wanted {
    name: YES,
    value: "",
    help: "Doesn't ask; without it, on a terminal, shows what is to be changed and asks",
    form: Form::Flag,
};

const LOG_OPTION: Wanted = Wanted {
    name: LOG,
    value: "words|json",
    help: "Writes a line to standard error for each request and order, in words (the default) or as a JSON object",
    form: Form::Log,
};

/// The program's subcommands.
static SUBCOMMANDS: [Subcommand; 17] = [
    Subcommand {
        name: "init",
        about: "Makes an empty laboratory in a new or empty file",
        example: "Example: acvp_server init --db laboratory.db",
        options: &[DB_OPTION],
    },
    Subcommand {
        name: "migrate",
        about: "Moves the tables in a file of an earlier version to the current schema, with all records",
        example: "Example: acvp_server migrate --db laboratory.db",
        options: &[DB_OPTION, YES_FLAG],
    },
    Subcommand {
        name: "keys",
        about: "Makes a keys file: by --new alone, or by one of the other options and --to",
        example: "Example: acvp_server keys --add-seed keys.txt --to keys-2.txt",
        options: &[
            NEW_KEYS_OPTION,
            ADD_TOKEN_OPTION,
            RETIRE_OPTION,
            ADD_SEED_OPTION,
            NEW_LINES_OPTION,
        ],
    },
    Subcommand {
        name: "secret",
        about: "Makes the file of an account's secret",
        example: "Example: acvp_server secret --new secret-7.txt",
        options: &[NEW_SECRET_OPTION],
    },
    Subcommand {
        name: "account-add",
        about: "Adds an account, whose one-time codes come from its secret",
        example: "Example: acvp_server account-add --db laboratory.db --account 7 --secret secret-7.txt",
        options: &[DB_OPTION, ACCOUNT_OPTION, SECRET_OPTION],
    },
    Subcommand {
        name: "account-disable",
        about: "Disables an account for good: its logins and its tokens are refused",
        example: "Example: acvp_server account-disable --db laboratory.db --account 7",
        options: &[DB_OPTION, ACCOUNT_OPTION, YES_FLAG],
    },
    Subcommand {
        name: "request-approve",
        about: "Approves a request, and prints the URL of what it asked for",
        example: "Example: acvp_server request-approve --db laboratory.db --request 7000001",
        options: &[DB_OPTION, REQUEST_OPTION, YES_FLAG],
    },
    Subcommand {
        name: "request-reject",
        about: "Rejects a request",
        example: "Example: acvp_server request-reject --db laboratory.db --request 7000001",
        options: &[DB_OPTION, REQUEST_OPTION, YES_FLAG],
    },
    Subcommand {
        name: "accounts",
        about: "Shows each account and how many sessions, requests and objects it has, also while served",
        example: "Example: acvp_server accounts --db laboratory.db",
        options: &[DB_OPTION, JSON_FLAG],
    },
    Subcommand {
        name: "requests",
        about: "Shows the requests that wait for a decision, also while the records are served",
        example: "Example: acvp_server requests --db laboratory.db --all",
        options: &[DB_OPTION, ALL_FLAG, JSON_FLAG],
    },
    Subcommand {
        name: "request-show",
        about: "Shows what a decision on a request needs, also while the records are served",
        example: "Example: acvp_server request-show --db laboratory.db --keys keys.txt --request 7000001",
        options: &[DB_OPTION, KEYS_OPTION, REQUEST_OPTION, JSON_FLAG],
    },
    Subcommand {
        name: "certificate",
        about: "Prints the document of an approved certification, also while the records are served",
        example: "Example: acvp_server certificate --db laboratory.db --keys keys.txt --request 7000004",
        options: &[DB_OPTION, KEYS_OPTION, REQUEST_OPTION, HTML_FLAG],
    },
    Subcommand {
        name: "check",
        about: "Says whether the records are whole, or what is wrong with them, also while they are served",
        example: "Example: acvp_server check --db laboratory.db --keys keys.txt",
        options: &[DB_OPTION, KEYS_OPTION, GRADES_OPTION, JSON_FLAG],
    },
    Subcommand {
        name: "serve",
        about: "Serves clients of this machine from the records, and carries out orders meanwhile",
        example: "Example: acvp_server serve --db laboratory.db --keys keys.txt --port 8080",
        options: &[
            DB_OPTION,
            KEYS_OPTION,
            PORT_OPTION,
            COUNT_OPTION,
            PATIENCE_OPTION,
            LOG_OPTION,
        ],
    },
    Subcommand {
        name: "backup",
        about: "Copies the records to a new file, whole, also while they are served",
        example: "Example: acvp_server backup --db laboratory.db --to backup.db",
        options: &[DB_OPTION, TO_OPTION],
    },
    Subcommand {
        name: "restore",
        about: "Puts a backup in the place of the records, whole or not at all, while nobody serves them",
        example: "Example: acvp_server restore --from backup.db --db laboratory.db",
        options: &[FROM_OPTION, DB_OPTION],
    },
    Subcommand {
        name: "script",
        about: "Runs a script from standard input over records in memory",
        example: "Example: acvp_server script --keys keys.txt < events",
        options: &[KEYS_OPTION],
    },
];

/// An option of the command line.
fn option<'a>(alloc: Global, wanted: &Wanted) -> Arg<'a> {
    let option = Arg::new(alloc, wanted.name)
        .long(wanted.name)
        .help(wanted.help);
    match wanted.form {
        Form::Needed => option
            .value_name(wanted.value)
            .required(true)
            .action(ArgAction::Set),
        Form::Optional => option.value_name(wanted.value).action(ArgAction::Set),
        Form::Log => option
            .value_name(wanted.value)
            .num_args(0..=1)
            .default_missing_value("words")
            .value_parser(LOG_FORMS)
            .hide_possible_values(true)
            .action(ArgAction::Set),
        Form::Flag => option.action(ArgAction::SetTrue),
    }
}

/// A subcommand of the command line, with its options, and last the flag that all have.
fn with_options<'a>(alloc: Global, which: &Subcommand) -> Result<Command<'a>, AllocError> {
    let mut command = Command::new(alloc, which.name)
        .about(which.about)
        .after_help(which.example);
    for wanted in which.options {
        command = command.arg(option(alloc, wanted))?;
    }
    command.arg(option(alloc, &VERBOSE_FLAG))
}

/// The program's command line, with its subcommands. `--version` prints this.
pub(crate) fn command<'a>(alloc: Global, version: &'static str) -> Result<Command<'a>, AllocError> {
    let mut command = Command::new(alloc, "acvp_server")
        .about("A validation server for SHA-2 and HMAC")
        .version(version)
        .after_help("Example: acvp_server init --db laboratory.db")
        .subcommand_required(true);
    for which in &SUBCOMMANDS {
        let added = with_options(alloc, which)?;
        command = command.subcommand(added)?;
    }
    Ok(command)
}
