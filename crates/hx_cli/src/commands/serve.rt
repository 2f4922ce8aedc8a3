//! The command that serves a day.

use crate::commands::argument::{Argument, FLAG, Form, OPTION};
use crate::commands::subcommand::Subcommand;
use crate::commands::tapes::SETUP_FILE;
use clap::builder::ValueParser;

/// The addresses at which a day listens and sends, its limits, the operator's socket and schedule,
/// and its journal.
pub const SERVE: Subcommand = Subcommand {
    name: "serve",
    about: "Serves a day to members by TCP and to vendors by UDP, at 127.0.0.1 unless it is said",
    arguments: &[
        PORT,
        LISTEN,
        FEED,
        REQUESTS,
        TTL,
        SESSIONS,
        SETUP_FILE,
        CAPACITY,
        TURNS,
        HISTORY,
        ANSWERS,
        SHARE,
        OPEN,
        LOGIN_LIMIT,
        END,
        CONNECTIONS,
        JSON,
        OPERATOR,
        SCHEDULE,
        TICK,
        GRACE,
        METRICS,
        DROP_COPY,
        JOURNAL,
        SYNC,
        DAY,
        AHEAD,
        LOG,
        WRITER,
        STANDBY,
        PATIENCE,
        FROM,
    ],
    choice: None,
};

// Where a day listens and sends.

const PORT: Argument = Argument {
    name: "port",
    value: "P",
    takes: ValueParser::Signed(1, 65_535),
    unless: Some("listen"),
    help: "The TCP port of members' sessions",
    ..OPTION
};

const LISTEN: Argument = Argument {
    name: "listen",
    value: "ADDR:PORT",
    with: Some("open"),
    without: Some("port"),
    help: "With --open, the TCP address of members' sessions, in place of --port",
    ..OPTION
};

const FEED: Argument = Argument {
    name: "feed",
    form: Form::Options,
    value: "P",
    is_required: true,
    help: "The UDP port that the feed goes to, with --open or an address, several times if need be",
    ..OPTION
};

const REQUESTS: Argument = Argument {
    name: "requests",
    value: "P",
    is_required: true,
    help: "The UDP port of requests, with --open or an address",
    ..OPTION
};

const TTL: Argument = Argument {
    name: "ttl",
    value: "N",
    takes: ValueParser::Signed(0, 255),
    usual: Some("1"),
    help: "With --open, how many networks a packet to an IPv4 multicast group passes",
    ..OPTION
};

// How large a day is.

const SESSIONS: Argument = Argument {
    name: "sessions",
    value: "N",
    takes: ValueParser::Signed(1, 1_000),
    is_required: true,
    help: "How many sessions of members there are, 1 to 63, with --open 1 to 1,000 at a time",
    ..OPTION
};

const CAPACITY: Argument = Argument {
    name: "capacity",
    value: "C",
    takes: ValueParser::Unsigned(1, 1_000_000),
    usual: Some("100000"),
    help: "How many messages the feed has room for",
    ..OPTION
};

const TURNS: Argument = Argument {
    name: "turns",
    value: "T",
    takes: ValueParser::Unsigned(1, 1_000_000_000),
    usual: Some("1000000000"),
    help: "How many reads each session and the operator's input have",
    ..OPTION
};

const HISTORY: Argument = Argument {
    name: "history",
    value: "FILE",
    help: "The new file to which the history of the day goes, as a tape",
    ..OPTION
};

const ANSWERS: Argument = Argument {
    name: "answers",
    value: "N",
    takes: ValueParser::Signed(1, 1_000_000),
    usual: Some("1000"),
    help: "How many requests of one source are answered a second; in all it is eight times as many",
    ..OPTION
};

const SHARE: Argument = Argument {
    name: "share",
    value: "PERCENT",
    takes: ValueParser::Signed(1, 100),
    usual: Some("10"),
    help: "For how much of the time the market may pass over orders for one session's minimums",
    ..OPTION
};

// What an open day has besides.

const OPEN: Argument = Argument {
    name: "open",
    help: "Takes connections all day, and reads on behind a bad line of the operator",
    ..FLAG
};

// A number of seconds, up to an hour.
const SECONDS: Argument = Argument {
    value: "SECONDS",
    takes: ValueParser::Signed(0, 3_600),
    ..OPTION
};

const LOGIN_LIMIT: Argument = Argument {
    name: "login-limit",
    usual: Some("15"),
    help: "With --open, how long a connection has for its login",
    ..SECONDS
};

const END: Argument = Argument {
    name: "end",
    usual: Some("5"),
    help: "With --open, for how long the end of the feed's session is told",
    ..SECONDS
};

const CONNECTIONS: Argument = Argument {
    name: "connections-per-address",
    value: "N",
    takes: ValueParser::Signed(1, 1_000),
    usual: Some("8"),
    help: "With --open, how many connections of one address there may be",
    ..OPTION
};

const JSON: Argument = Argument {
    name: "json",
    help: "With --open, writes each notice as an object of JSON",
    ..FLAG
};

// The direction of an open day by an operator's socket and a schedule, and its metrics.

const OPERATOR: Argument = Argument {
    name: "operator",
    value: "PATH",
    with: Some("open"),
    help: "With --open, the socket on which the operator's words are heard",
    ..OPTION
};

const SCHEDULE: Argument = Argument {
    name: "schedule",
    value: "FILE",
    with: Some("open"),
    help: "With --open, the codes of the hours with their times",
    ..OPTION
};

const TICK: Argument = Argument {
    name: "tick",
    value: "MILLISECONDS",
    takes: ValueParser::Signed(0, 60_000),
    usual: Some("1000"),
    help: "With --open, how often orders whose seconds have run out end; 0 for never",
    ..OPTION
};

const GRACE: Argument = Argument {
    name: "grace",
    usual: Some("30"),
    help: "With --open, how long behind the day's end sessions have for what is theirs",
    ..SECONDS
};

const METRICS: Argument = Argument {
    name: "metrics",
    value: "ADDR:PORT",
    with: Some("open"),
    help: "With --open, where the venue's figures are shown, for its operator",
    ..OPTION
};

const DROP_COPY: Argument = Argument {
    name: "drop-copy",
    form: Form::Options,
    value: "MEMBER=USER",
    with: Some("open"),
    help: "With --open, whose login gets the replies to a member and may send nothing",
    ..OPTION
};

// What a day with a journal has besides.

const JOURNAL: Argument = Argument {
    name: "journal",
    value: "FILE",
    help: "The file that keeps the day: nobody is told what is not in it, and it is gone on with",
    ..OPTION
};

const SYNC: Argument = Argument {
    name: "sync",
    value: "WHEN",
    takes: ValueParser::Names(&["group", "never"]),
    usual: Some("group"),
    help: "When the journal is brought to the disk: each group of events, or as the system likes",
    ..OPTION
};

const DAY: Argument = Argument {
    name: "day",
    value: "YYYYMMDD",
    help: "The day of the journal and of an open day's times, in place of today, UTC",
    ..OPTION
};

const AHEAD: Argument = Argument {
    name: "ahead",
    value: "N",
    takes: ValueParser::Unsigned(1, 1_000_000_000),
    usual: Some("65536"),
    help: "How many events may wait for the journal: where more would, no message is taken",
    ..OPTION
};

// What a day with a log of several machines has besides.

const LOG: Argument = Argument {
    name: "log",
    value: "ADDR:PORT,..",
    with: Some("writer"),
    help: "The nodes of an etcd whose log keeps the day; with --journal the file keeps it too",
    ..OPTION
};

const WRITER: Argument = Argument {
    name: "writer",
    value: "N",
    takes: ValueParser::Unsigned(1, 999_999_999),
    with: Some("log"),
    help: "With --log, the number of this process, which no other has or had",
    ..OPTION
};

const STANDBY: Argument = Argument {
    name: "standby",
    with: Some("log"),
    help: "With --log, waits until the server that is in office is gone",
    ..FLAG
};

const PATIENCE: Argument = Argument {
    name: "patience",
    value: "MS",
    takes: ValueParser::Unsigned(100, 3_600_000),
    usual: Some("1200"),
    help: "With --standby, for how many milliseconds nothing comes from who is in office",
    ..OPTION
};

const FROM: Argument = Argument {
    name: "from",
    value: "FILE",
    with: Some("log"),
    help: "With --log, a copy of the log, with which it is begun",
    ..OPTION
};
