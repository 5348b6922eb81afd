// What the program says of itself.
use std::io;

// What `--help` says, a line each.
const HELP: [&str; 59] = [
    // help begins
    "reqld query, reqld dump, reqld restore: ask a server, print what it answers, and fill a table\n",
    "\n",
    "usage:\n",
    "  reqld query [--port PORT] [--key KEY | --password WORD] [BODY..]\n",
    "      asks the server at a port of 127.0.0.1 by each body, one after another; where there is none, by\n",
    "      those on the standard input, a line each\n",
    "  reqld dump --table DB.NAME [--port PORT] [--key KEY | --password WORD]\n",
    "      prints each document of a table, as it is at one moment, as a line of JSON\n",
    "  reqld restore --table DB.NAME [--port PORT] [--key KEY | --password WORD]\n",
    "      inserts the documents on the standard input, a line each, as dump prints them, and prints how\n",
    "      many were inserted; one with the key of a document that is there is not\n",
    "  reqld query --help, -h  says this, and so do the others\n",
    "\n",
    "options, in any order and before the bodies; the word after an option is its value, or what stands\n",
    "behind a = in the same word. Behind the word -- each word is a body.\n",
    "  --port PORT      1 to 65535, and 28015 where it isn't said\n",
    "  --key KEY        the authorization key, of at most 1024 bytes, and empty where it isn't said. It greets\n",
    "                   by V0_4, which wants the key of the server and no password: a server with --password\n",
    "                   and without --key lets it in\n",
    "  --password WORD  logs in by V1_0, as the user admin, in place of a key\n",
    "  --password-file FILE\n",
    "                   the same by the first line of this file, which so stands in no list of processes\n",
    "  --table DB.NAME  the table of dump and restore. DB and NAME are 1 to 127 characters of A-Z, a-z, 0-9,\n",
    "                   _ and -\n",
    "\n",
    "A body is one of these, by how it begins; a line that is empty or begins with # is passed over.\n",
    "  [1,[15,[\"docs\"]]]     a body of the protocol, which is sent as it stands\n",
    "  r.table(\"docs\")       the text of RethinkDB's JavaScript driver: calls behind dots, literals, arrays,\n",
    "                        objects, r.row, and functions of one expression, x => TERM\n",
    "\n",
    "  reqld query 'r.tableCreate(\"docs\")'\n",
    "  reqld query 'r.table(\"docs\").insert([{id: 1, n: 5}, {id: 2, n: 7}])'\n",
    "  reqld query 'r.table(\"docs\").filter({n: 5}).limit(3)'\n",
    "  reqld query 'r.table(\"docs\").filter(doc => doc(\"n\").gt(5)).count()'\n",
    "  reqld query 'r.table(\"docs\").orderBy({index: \"n\"}).limit(3).changes({includeInitial: true})'\n",
    "  reqld dump --table test.docs > docs.jsonl\n",
    "  reqld restore --table test.docs < docs.jsonl\n",
    "\n",
    "Each result is printed as a line of JSON: one value as one line, a sequence as a line for each of its\n",
    "elements. A changefeed is followed, a line for each change, until the server or an interrupt ends it.\n",
    "An object as the last argument of a call holds its options, where its names are all among them.\n",
    "\n",
    "A fault goes to standard error, and the next body is asked by: the kind of the fault, its text, and\n",
    "the path to the term that it is of, where the server tells one. In chained text a fault that is seen\n",
    "before anything is sent points at its column. restore inserts up to 200 documents at a time, passes\n",
    "over a line that is no object of JSON, and says that and the first error of an insertion.\n",
    "\n",
    "status:\n",
    "  0  each body was answered, the table was printed, each document was inserted\n",
    "  1  a body or the table was answered by a fault, or a body is none; not each line was inserted\n",
    "  2  the words are wrong, or the file gives no password\n",
    "  3  there is no server at the port\n",
    "  4  receiving failed, or the standard input or random bytes can't be read\n",
    "  5  sending failed, or the standard output can't be written\n",
    "  6  the server ended the connection\n",
    "  7  the server refused the greeting or the login, or what it sent is no answer\n",
    "  8  out of memory\n",
    "  9  so many receives as one call may take brought no answer\n",
    "With 3 to 9 no further body is asked by.\n",
    // help ends
];

/// How words would be right.
pub const RIGHT: &str = "reqld query [--port PORT] [--key KEY | --password WORD] [BODY..], \
    reqld dump or restore --table DB.NAME [--port PORT] [--key KEY | --password WORD], or reqld query --help";

/// Prints how to use the program.
pub fn print_help(rt: &HostRuntime) -> io::Result<()> {
    for line in HELP {
        print!(rt; "{line}")?;
    }
    Ok(())
}
