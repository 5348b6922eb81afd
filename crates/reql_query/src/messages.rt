// What the program says on standard error. A message that can't be written is let go.
use crate::help::RIGHT;
use crate::line::Unasked;
use crate::password::Unread;
use crate::status::Loss;
use reql_chain::What;
use reql_client::ClientFault;
use std::io::ErrorKind;

/// Says what there is to say for one of the commands.
#[derive(Clone, Copy)]
pub struct Voice {
    pub rt: HostRuntime,
    /// The name of the command.
    pub command: &'static str,
}

/// Says that the words are wrong, since this one can't stand where it does.
pub fn say_wrong(voice: Voice, word: &str) {
    let Voice { rt, command } = voice;
    let _ = eprintln!(rt; "reqld {command}: unexpected word `{word}`; right would be: {RIGHT}");
}

/// Says that this word is no port.
pub fn say_no_port(voice: Voice, word: &str) {
    let Voice { rt, command } = voice;
    let _ = eprintln!(rt;
        "reqld {command}: unexpected word `{word}`; right would be: a number from 1 to 65535, \
         in digits without a sign or a zero before them"
    );
}

/// Says that this word names no table.
pub fn say_no_table(voice: Voice, word: &str) {
    let Voice { rt, command } = voice;
    let _ = eprintln!(rt;
        "reqld {command}: unexpected word `{word}`; right would be: DB.NAME, each 1 to 127 characters of A-Z, a-z, 0-9, _ and -"
    );
}

/// Says that the words end too soon.
pub fn say_untold(voice: Voice, wanted: &str) {
    let Voice { rt, command } = voice;
    let _ = eprintln!(rt; "reqld {command}: {wanted} is missing; right would be: {RIGHT}");
}

/// Says that a file gives no password, and nothing of what stands in it.
pub fn say_no_password(voice: Voice, path: &str, why: Unread) {
    let Voice { rt, command } = voice;
    let _ = match why {
        Unread::Memory => return say_memory(voice),
        Unread::File => eprintln!(rt;
            "reqld {command}: the file of --password-file, {path}, can't be read"
        ),
        Unread::Line => eprintln!(rt;
            "reqld {command}: the first line of {path} is no password: it is empty, or no UTF-8"
        ),
    };
}

/// Says that the system gives no random bytes for a login.
pub fn say_no_dice(voice: Voice) {
    let Voice { rt, command } = voice;
    let _ = eprintln!(rt; "reqld {command}: the random source of the system failed");
}

/// Says that the key is too long.
pub fn say_long_key(voice: Voice) {
    let Voice { rt, command } = voice;
    let _ = eprintln!(rt; "reqld {command}: what --key says has more than 1024 bytes");
}

/// Says that an option has no value.
pub fn say_missing(voice: Voice, option: &str) {
    let Voice { rt, command } = voice;
    let _ = eprintln!(rt;
        "reqld {command}: a value after {option} is missing; right would be: {RIGHT}"
    );
}

/// Says that the words can't be read.
pub fn say_unread_words(voice: Voice) {
    let Voice { rt, command } = voice;
    let _ = eprintln!(rt;
        "reqld {command}: a word is not UTF-8; reqld query --help says how to use it"
    );
}

/// Says that the standard input can't be read.
pub fn say_unread(voice: Voice, number: u64) {
    let Voice { rt, command } = voice;
    let _ = eprintln!(rt;
        "reqld {command}: line {number} of the standard input can't be read: is it UTF-8?"
    );
}

/// Says that there is no server.
pub fn say_unconnected(voice: Voice, port: u16, kind: ErrorKind) {
    let Voice { rt, command } = voice;
    let _ = if kind == ErrorKind::ConnectionRefused {
        eprintln!(rt;
            "reqld {command}: no server listens on port {port} of 127.0.0.1; `reqld listen` starts one, \
             and --port names another port"
        )
    } else {
        eprintln!(rt; "reqld {command}: port {port} of 127.0.0.1 can't be reached")
    };
}

/// Says that there is no memory.
pub fn say_memory(voice: Voice) {
    let Voice { rt, command } = voice;
    let _ = eprintln!(rt; "reqld {command}: out of memory");
}

/// Says why a client is there no more.
pub fn say_loss(voice: Voice, loss: &Loss) {
    let Voice { rt, command } = voice;
    let _ = match loss {
        Loss::Client(fault) => return say_client_fault(voice, fault),
        Loss::Strange => eprintln!(rt; "reqld {command}: what the server sent is no answer"),
        Loss::Unprinted => eprintln!(rt; "reqld {command}: the standard output can't be written"),
        Loss::Memory => return say_memory(voice),
    };
}

fn say_client_fault(voice: Voice, fault: &ClientFault) {
    let Voice { rt, command } = voice;
    let _ = match fault {
        ClientFault::Refused(text) => {
            let text = text.as_str();
            eprintln!(rt; "reqld {command}: the server refused the greeting: {text}")
        }
        ClientFault::BadAnswer => eprintln!(rt;
            "reqld {command}: what the server sent is no answer"
        ),
        ClientFault::TooLong { len } => {
            eprintln!(rt; "reqld {command}: the server announced an answer of {len} bytes")
        }
        ClientFault::Ended => eprintln!(rt; "reqld {command}: the server ended the connection"),
        ClientFault::ReadFault => eprintln!(rt;
            "reqld {command}: receiving from the server failed"
        ),
        ClientFault::WriteFault => eprintln!(rt; "reqld {command}: sending to the server failed"),
        ClientFault::Worn => eprintln!(rt;
            "reqld {command}: no answer came in as many receives as may be"
        ),
        ClientFault::Memory => return say_memory(voice),
    };
}

/// Says by which fault a body was answered.
pub fn say_fault(voice: Voice, number: u64, fault: &str) {
    let rt = voice.rt;
    let _ = eprintln!(rt; "reqld query: body {number}: {fault}");
}

/// Says by which fault a command on a table was answered.
pub fn say_table_fault(voice: Voice, fault: &str) {
    let Voice { rt, command } = voice;
    let _ = eprintln!(rt; "reqld {command}: {fault}");
}

/// Says that a line is no document.
pub fn say_no_document(voice: Voice, number: u64) {
    let rt = voice.rt;
    let _ = eprintln!(rt; "reqld restore: line {number}: it is no object of JSON");
}

/// Says that documents are too long for one request.
pub fn say_too_long(voice: Voice, number: u64) {
    let rt = voice.rt;
    let _ = eprintln!(rt;
        "reqld restore: line {number}: with it a request has more than 67108864 bytes"
    );
}

/// Says the first error of documents that were not inserted.
pub fn say_first_error(voice: Voice, error: &str) {
    let rt = voice.rt;
    let _ = eprintln!(rt; "reqld restore: not all were inserted; the first error: {error}");
}

/// Says why a line is no body.
pub fn say_unasked(voice: Voice, number: u64, line: &str, why: Unasked) {
    let rt = voice.rt;
    let _ = match why {
        Unasked::Other => eprintln!(rt;
            "reqld query: body {number}: it begins with neither `[`, as a body of the protocol, nor `r`, as chained text"
        ),
        Unasked::Chain { column, what } => {
            let _ = say_what(voice, number, column, what);
            return say_place(voice, line, column);
        }
        Unasked::TooLong => eprintln!(rt;
            "reqld query: body {number}: it has more than 67108864 bytes"
        ),
        Unasked::Silent => eprintln!(rt;
            "reqld query: body {number}: it says `noreply`, and an answer to it would be waited for in vain"
        ),
        Unasked::Memory => return say_memory(voice),
    };
}

// What is wrong with chained text.
fn say_what(voice: Voice, number: u64, column: usize, what: What) -> std::io::Result<()> {
    let rt = voice.rt;
    let text = match what {
        What::Character => "nothing begins with this character",
        What::Number => "this is no number",
        What::Text =>
            "this text has no end, or an escape or a control character that JSON doesn't have",
        What::Term => "a term is wanted here",
        What::Operator => "there is no operator of this name",
        What::Variable =>
            "this is no name of a parameter: chained text begins with `r`, texts stand in quotes",
        What::Name => "a name is wanted here",
        What::Return => "`return` is wanted here: a function has one expression",
        What::Rest => "the query is whole before this",
        What::Depth => "it nests too deep here",
        What::Mark(mark) => {
            return eprintln!(rt;
                "reqld query: body {number}, column {column}: `{mark}` is wanted here"
            );
        }
        What::CommaOr(mark) => {
            return eprintln!(rt;
                "reqld query: body {number}, column {column}: `,` or `{mark}` is wanted here"
            );
        }
    };
    eprintln!(rt; "reqld query: body {number}, column {column}: {text}")
}

// Shows a line, and a mark below a column, where that is near enough.
fn say_place(voice: Voice, line: &str, column: usize) {
    let rt = voice.rt;
    let _ = eprintln!(rt; "  {line}");
    if column <= 1000 {
        for _ in 0..column {
            let _ = eprint!(rt; " ");
        }
        let _ = eprintln!(rt; " ^");
    }
}
