// `dump`: the documents of a table.
ghost use Rattle.reql_query.specs.Words.{FitsTable};

use crate::asking::{Ran, ask_all};
use crate::messages::{Voice, say_loss, say_memory, say_table_fault};
use crate::requests::dump_body;
use crate::status::{ANSWERED, FAULTED, Loss, status_of};
use crate::words::Table;
use reql_client::Client;
use reql_dial::DialedLink;
use reql_outside::StdSink;

/// Prints each document of a table as a line of JSON, and gives the status.
pub fn dump(voice: Voice, client: Client<DialedLink>, table: Table<'_>) -> u8
    requires { FitsTable table }
{
    let Ok(body) = dump_body(voice.rt.alloc(), table) else {
        say_memory(voice);
        return status_of(&Loss::Memory);
    };
    match ask_all(
        voice.rt.alloc(),
        client,
        1,
        body.as_slice(),
        &mut StdSink::new(voice.rt),
    ) {
        Ran::Answered(_client) => ANSWERED,
        Ran::Faulted(_client, fault) => {
            say_table_fault(voice, fault.as_str());
            FAULTED
        }
        Ran::Lost(loss) => {
            say_loss(voice, &loss);
            status_of(&loss)
        }
    }
}
