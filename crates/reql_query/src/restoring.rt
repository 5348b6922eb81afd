// `restore`: documents, a line each, into a table.
use crate::inserting::{Document, Inserted, document_in, insert};
use crate::messages::{
    Voice, say_first_error, say_loss, say_memory, say_no_document, say_table_fault, say_too_long,
    say_unread,
};
use crate::status::{ANSWERED, FAULTED, Loss, UNREAD, status_of};
use crate::tally::Tally;
use crate::words::Table;
use reql_client::Client;
use reql_dial::DialedLink;

// The most documents of one request, and the most bytes of them but for the last.
const MOST_DOCUMENTS: usize = 200;

const MOST_BYTES: usize = 16_777_216;

// What came of the requests so far.
#[derive(Clone, Copy)]
struct Sum {
    inserted: u64,
    status: u8,
    /// Whether an error of an insertion was told.
    is_told: bool,
}

// Documents that are still to be inserted.
#[derive(Drop)]
struct Batch {
    documents: Vec<String>,
    bytes: usize,
}

// What a line came to.
#[derive(Drop)]
enum Step {
    /// The client is there for the next, with what is still to be inserted.
    Next(Client<DialedLink>, Batch, Sum),
    /// The program ends.
    Ended(Sum),
}

impl Sum {
    fn ended_by(self, status: u8) -> Sum {
        Sum {
            inserted: self.inserted,
            status,
            is_told: self.is_told,
        }
    }
}

fn empty_batch(voice: Voice) -> Batch {
    Batch {
        documents: Vec::new(voice.rt.alloc()),
        bytes: 0,
    }
}

// With what came of one request more.
fn added(voice: Voice, sum: Sum, tally: Tally) -> Sum {
    let inserted = sum.inserted.saturating_add(tally.inserted);
    let Some(error) = tally.first_error else {
        return Sum {
            inserted,
            status: sum.status,
            is_told: sum.is_told,
        };
    };
    if !sum.is_told {
        say_first_error(voice, error.as_str());
    }
    Sum {
        inserted,
        status: FAULTED,
        is_told: true,
    }
}

// Inserts a batch, which ends with the line of this number.
fn send(
    voice: Voice,
    client: Client<DialedLink>,
    number: u64,
    table: Table<'_>,
    batch: Batch,
    sum: Sum,
) -> Step {
    match insert(
        voice.rt.alloc(),
        client,
        number,
        table,
        batch.documents.as_slice(),
    ) {
        Inserted::Told(client, tally) => {
            Step::Next(client, empty_batch(voice), added(voice, sum, tally))
        }
        Inserted::Faulted(fault) => {
            say_table_fault(voice, fault.as_str());
            Step::Ended(sum.ended_by(FAULTED))
        }
        Inserted::TooLong => {
            say_too_long(voice, number);
            Step::Ended(sum.ended_by(FAULTED))
        }
        Inserted::Lost(loss) => {
            say_loss(voice, &loss);
            Step::Ended(sum.ended_by(status_of(&loss)))
        }
    }
}

// A batch with one document more, or none where there is no memory for it.
fn with_document(batch: Batch, document: String) -> Option<Batch> {
    let Batch {
        mut documents,
        bytes,
    } = batch;
    let bytes = bytes.saturating_add(document.len());
    documents.push(document).ok()?;
    Some(Batch { documents, bytes })
}

fn is_full(batch: &Batch) -> bool {
    batch.documents.len() >= MOST_DOCUMENTS || batch.bytes >= MOST_BYTES
}

fn out_of_memory(voice: Voice, sum: Sum) -> Step {
    say_memory(voice);
    Step::Ended(sum.ended_by(status_of(&Loss::Memory)))
}

// Takes a document, and inserts the batch where it is full then.
fn take_document(
    voice: Voice,
    client: Client<DialedLink>,
    number: u64,
    table: Table<'_>,
    batch: Batch,
    sum: Sum,
    document: String,
) -> Step {
    let Some(batch) = with_document(batch, document) else {
        return out_of_memory(voice, sum);
    };
    if is_full(&batch) {
        return send(voice, client, number, table, batch, sum);
    }
    Step::Next(client, batch, sum)
}

// Takes a line, the one of this number.
fn take_line(
    voice: Voice,
    client: Client<DialedLink>,
    number: u64,
    table: Table<'_>,
    batch: Batch,
    sum: Sum,
    line: String,
) -> Step {
    match document_in(voice.rt.alloc(), line.as_str()) {
        Document::Whole => take_document(voice, client, number, table, batch, sum, line),
        Document::Nothing => Step::Next(client, batch, sum),
        Document::Other => {
            say_no_document(voice, number);
            Step::Next(client, batch, sum.ended_by(FAULTED))
        }
        Document::Memory => out_of_memory(voice, sum),
    }
}

// Takes the lines of the standard input, as they come.
fn take_lines(voice: Voice, client: Client<DialedLink>, table: Table<'_>) -> Sum {
    let mut client = client;
    let mut batch = empty_batch(voice);
    let mut sum = Sum {
        inserted: 0,
        status: ANSWERED,
        is_told: false,
    };
    let mut number = 0u64;
    for line in voice.rt.lines(voice.rt.alloc()) {
        number = number.saturating_add(1);
        let Ok(line) = line else {
            say_unread(voice, number);
            return sum.ended_by(UNREAD);
        };
        match take_line(voice, client, number, table, batch, sum, line) {
            Step::Next(next, more, now) => {
                client = next;
                batch = more;
                sum = now;
            }
            Step::Ended(sum) => return sum,
        }
    }
    take_rest(voice, client, number.saturating_add(1), table, batch, sum)
}

// Inserts what is left at the end of the lines.
fn take_rest(
    voice: Voice,
    client: Client<DialedLink>,
    number: u64,
    table: Table<'_>,
    batch: Batch,
    sum: Sum,
) -> Sum {
    if batch.documents.is_empty() {
        return sum;
    }
    match send(voice, client, number, table, batch, sum) {
        Step::Next(_client, _batch, sum) => sum,
        Step::Ended(sum) => sum,
    }
}

/// Inserts the documents on the standard input, a line each, into a table, says how many were inserted, and gives the status.
pub fn restore(voice: Voice, client: Client<DialedLink>, table: Table<'_>) -> u8 {
    let rt = voice.rt;
    let sum = take_lines(voice, client, table);
    let inserted = sum.inserted;
    match println!(rt; "{{\"inserted\":{inserted}}}") {
        Ok(()) => sum.status,
        Err(_) => status_of(&Loss::Unprinted),
    }
}
