//! Runs worked rows on the calls by which clients log in, and says which differ and how many passed.
//!
//! A line of the input is a row: the name of a call, a space, its arguments, separated by ` | `, ` => `,
//! and its result. Empty lines and those that begin with `#` are passed over. Bytes are written in base64,
//! but in `hmac`, where key, message and result are written in hexadecimal digits, as that of `salted` is.
//! What is refused is named by its fault.
//!
//! Of SCRAM are `hmac`; `salted` of a password, a salt and a number of rounds; `asked` of a user, a
//! password, a salt, the server's nonce and a client-first text; and `proved`, which has a client-final
//! text too. Of the messages of a login are `cut`, of which the numbers say how many bytes aren't zero, how
//! many are, and so on; `read` of a client's first message; `hello`; `refused` of a fault; and `login` of a
//! password, a salt, a roll for the nonce and the two messages of a client, who logs in as `admin`.
//!
//! The results are those of RFC 4231, RFC 5802 and RFC 7677, and of an implementation by Python's `hashlib`
//! and `hmac`.
#![tactic(auto)]

mod calls;
mod messages;
mod scram;
mod texts;

use calls::Calls;
use rows_reader::run_rows;
use std::io;

fn main(rt: HostRuntime) -> io::Result<()> {
    run_rows(&rt, rt.alloc(), &Calls)
}
