// What the program says of itself.
use std::io;

/// What `--version` says.
pub const VERSION: &str = "reqld 0.1.0";

// What `--help` says, a line each: a script prints them too, from the text of this file.
const HELP: [&str; 62] = [
    // help begins
    "reqld: a document database server that speaks RethinkDB's client protocol\n",
    "\n",
    "usage:\n",
    "  reqld stdio [--key KEY] [--password WORD] [--table DB.NAME]..\n",
    "      serves one session over standard input and output\n",
    "  reqld listen [--port PORT] [--workers N] [--clients N] [--sessions N] [--quiet]\n",
    "      [--key KEY] [--password WORD] [--table DB.NAME]..\n",
    "      serves clients that connect to a port of 127.0.0.1\n",
    "  reqld query [--port PORT] [--key KEY | --password WORD] [BODY..]\n",
    "  reqld dump --table DB.NAME, reqld restore --table DB.NAME\n",
    "      asks a server, and prints what it answers; prints the documents of a table; inserts those on the\n",
    "      standard input. reqld query --help says how. This is a program of its own, which ./reqld starts\n",
    "  reqld load SEED SIZE\n",
    "      serves four sessions of its own at once, which write SIZE documents, 1 to 20000, and follow them\n",
    "      with feeds, and prints how many documents and changes there were, how many feeds, and how many\n",
    "      of these fold to what their queries give; SEED, 0 to 1000000, varies the documents\n",
    "  reqld --help, -h  says this\n",
    "  reqld --version   says which version this is\n",
    "\n",
    "options, in any order; the word after an option is its value, or what stands behind a = in the same\n",
    "word, as in --table=test.docs:\n",
    "  --key KEY        a client that greets by V0_4 has to bring this authorization key, of at most 1024\n",
    "                   bytes; without it the key is empty\n",
    "  --password WORD  a client that logs in by V1_0, as the user admin, has to know this password, of at\n",
    "                   most 256 printable ASCII characters; without it the password is empty\n",
    "  --password-file FILE\n",
    "                   the password is the first line of this file, and so stands in no list of processes\n",
    "  --table DB.NAME  this table is there from the start, empty and with the key field id, and its\n",
    "                   database; up to 256 times, each table once. DB and NAME are 1 to 127 characters\n",
    "                   of A-Z, a-z, 0-9, _ and -. The database test is there from the start.\n",
    "\n",
    "options of listen alone:\n",
    "  --port PORT      1 to 65535, and 28015 where it isn't said, as drivers have it\n",
    "  --workers N      so many threads serve the clients, 1 to 64, and 4 where it isn't said\n",
    "  --clients N      so many clients at once, 1 to 4096, and 1024 where it isn't said; the connection\n",
    "                   of a further one is closed\n",
    "  --sessions N     the server ends when it has served so many, 1 to 4294967295, and this many where\n",
    "                   it isn't said; each of its places for a client serves an equal part of them\n",
    "  --quiet          nothing is said of clients on standard error; without it there is a line when\n",
    "                   clients can connect, and one for each that is refused or ends by a fault\n",
    "\n",
    "A session is a greeting and then requests, each a token of 8 bytes, a length of 4 and a body in\n",
    "JSON, numbers little endian. An example to paste, which adds two numbers:\n",
    "\n",
    "  { printf '\\x20\\x2d\\x0c\\x40\\0\\0\\0\\0\\xc7\\x70\\x69\\x7e'\n",
    "    printf '\\1\\0\\0\\0\\0\\0\\0\\0\\x0e\\0\\0\\0[1,[24,[1,2]]]'; } | reqld stdio\n",
    "\n",
    "A server for drivers, which connect by the handshake of RethinkDB 2.3 and later (V1_0) or by that of\n",
    "2.0 to 2.2 (V0_4), with JSON:\n",
    "\n",
    "  reqld listen --table test.docs\n",
    "\n",
    "limits: a request of 67108864 bytes, an answer of 268435456, 256 tables over the life of the\n",
    "server, 1024 open feeds of a table, 1024 open cursors and feeds of a session.\n",
    "\n",
    "status of stdio: 0 the input ended between two requests, 2 the words are wrong, 4 reading failed,\n",
    "5 writing failed, 6 the input ended within a greeting or a request, 7 the greeting or the login was\n",
    "refused, 8 out of memory, 9 a request was too long.\n",
    "status of load: 0 it printed its four lines, 2 the words are wrong, 5 writing failed, 8 out of memory,\n",
    "or a session of its own was not served whole.\n",
    "status of listen: 0 it served as many sessions as it was told, however they ended, 2 the words are\n",
    "wrong, 3 the port can't be opened, or no more clients can be taken from it, 8 out of memory.\n",
    // help ends
];

/// How words would be right.
pub const RIGHT: &str = "reqld stdio [--key KEY] [--password WORD] [--table DB.NAME].., \
    reqld listen [--port PORT] [--workers N] [--clients N] [--sessions N] [--quiet] [--key KEY] [--password WORD] [--table DB.NAME].., \
    reqld query [--port PORT] [--key KEY | --password WORD] [BODY..], \
    reqld dump or restore --table DB.NAME, reqld load SEED SIZE, --help or --version";

/// Prints how to use the program.
pub fn print_help(rt: &HostRuntime) -> io::Result<()> {
    for line in HELP {
        print!(rt; "{line}")?;
    }
    Ok(())
}
