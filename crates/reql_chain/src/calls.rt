// Terms as JSON.
use crate::fault::Fault;
use reql_term::Op;
use std::alloc::Global;

/// What a term is made of: an operator, its arguments and its options, each in JSON.
#[derive(Drop)]
pub(crate) struct Call {
    pub op: Op,
    pub arguments: Vec<Vec<u8>>,
    pub options: Option<Vec<u8>>,
}

fn put_list(out: &mut Vec<u8>, items: &[Vec<u8>]) -> Result<(), Fault> {
    let mut is_first = true;
    for item in items {
        if !is_first {
            out.push(b',')?;
        }
        out.extend_from_slice(item)?;
        is_first = false;
    }
    Ok(())
}

// The arguments in the order of the wire: `do` has its function last, and FUNCALL first.
fn put_arguments(out: &mut Vec<u8>, op: Op, arguments: &[Vec<u8>]) -> Result<(), Fault> {
    if op.number() != Op::Funcall.number() {
        return put_list(out, arguments);
    }
    let Some((function, others)) = arguments.split_last() else {
        return Ok(());
    };
    out.extend_from_slice(function)?;
    if !others.is_empty() {
        out.push(b',')?;
    }
    put_list(out, others)
}

/// A term.
pub(crate) fn term_of(alloc: Global, call: Call) -> Result<Vec<u8>, Fault> {
    let Call {
        op,
        arguments,
        options,
    } = call;
    let number = op.number();
    let head = format!(in alloc; "[{number},[")?;
    let mut out = Vec::new(alloc);
    out.extend_from_slice(head.as_bytes())?;
    put_arguments(&mut out, op, &arguments)?;
    out.push(b']')?;
    if let Some(options) = options {
        out.push(b',')?;
        out.extend_from_slice(&options)?;
    }
    out.push(b']')?;
    Ok(out)
}

/// An array of terms.
pub(crate) fn array_of(alloc: Global, items: &[Vec<u8>]) -> Result<Vec<u8>, Fault> {
    let mut out = Vec::new(alloc);
    out.extend_from_slice(b"[2,[")?;
    put_list(&mut out, items)?;
    out.extend_from_slice(b"]]")?;
    Ok(out)
}

/// A function of parameters with these numbers, the first of them and how many there are.
pub(crate) fn function_of(alloc: Global, numbers: &[u64], body: &[u8]) -> Result<Vec<u8>, Fault> {
    let mut out = Vec::new(alloc);
    out.extend_from_slice(b"[69,[[2,[")?;
    let mut mark = "";
    for number in numbers {
        let piece = format!(in alloc; "{mark}{number}")?;
        out.extend_from_slice(piece.as_bytes())?;
        mark = ",";
    }
    out.extend_from_slice(b"]],")?;
    out.extend_from_slice(body)?;
    out.extend_from_slice(b"]]")?;
    Ok(out)
}

/// A variable.
pub(crate) fn variable_of(alloc: Global, number: u64) -> Result<Vec<u8>, Fault> {
    let text = format!(in alloc; "[10,[{number}]]")?;
    copied(alloc, text.as_bytes())
}

/// These bytes.
pub(crate) fn copied(alloc: Global, bytes: &[u8]) -> Result<Vec<u8>, Fault> {
    let mut out = Vec::new(alloc);
    out.extend_from_slice(bytes)?;
    Ok(out)
}
