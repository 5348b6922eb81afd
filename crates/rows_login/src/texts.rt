// What rows write: arguments, bytes, and faults.
use base64::engine::general_purpose::STANDARD;
use reql_scram::LoginFault;
use rows_reader::word;
use std::alloc::Global;

/// The first argument, and those behind it.
pub(crate) fn next(arguments: &str) -> Option<(&str, &str)> {
    arguments.split_once(" | ")
}

/// The bytes of a text in base64.
pub(crate) fn bytes_of(alloc: Global, text: &str) -> Option<Vec<u8>> {
    STANDARD.decode(alloc, text.as_bytes()).ok()
}

/// Bytes in hexadecimal digits.
pub(crate) fn digits(alloc: Global, bytes: &[u8]) -> Option<String> {
    hex::encode(alloc, bytes).ok()
}

fn name_of(fault: LoginFault) -> &'static str {
    match fault {
        LoginFault::Oversize => "Oversize",
        LoginFault::BadMessage => "BadMessage",
        LoginFault::BadProtocolVersion => "BadProtocolVersion",
        LoginFault::BadMethod => "BadMethod",
        LoginFault::WrongProof => "WrongProof",
        LoginFault::DiceFailed => "DiceFailed",
        LoginFault::Memory => "Memory",
    }
}

/// A text, or the fault by which it is refused.
pub(crate) fn told(alloc: Global, outcome: Result<Vec<u8>, LoginFault>) -> Option<String> {
    match outcome {
        Ok(text) => String::from_utf8(text).ok(),
        Err(fault) => word(alloc, name_of(fault)),
    }
}
