// Answers of requests as rows write them.
use crate::words::{put, put_document, put_if, put_items, put_name, put_number};
use reql_datum::Fault;
use reql_operand::Group;
use reql_plan::{Answered, Arm, Item};
use std::alloc::Global;

/// Adds an answer.
pub(crate) fn put_answer(alloc: Global, out: &mut String, answered: &Answered) -> Option<()> {
    match answered {
        Answered::Unsent => put(out, "unsent"),
        Answered::Atom(document) => {
            put(out, "atom ")?;
            put_document(alloc, out, document)
        }
        Answered::Grouped(groups) => put_groups(alloc, out, groups.as_slice()),
        Answered::Sequence(items) => put_items(alloc, out, "sequence ", items),
        Answered::Feed { arms, notes, items } => {
            put(out, "feed")?;
            put_arms(alloc, out, arms.as_slice())?;
            put_notes(alloc, out, notes.as_slice())?;
            put_first(alloc, out, items.as_slice())
        }
        Answered::Fault(fault) => put_fault(out, fault),
    }
}

fn put_groups(alloc: Global, out: &mut String, groups: &[Group]) -> Option<()> {
    put(out, "grouped")?;
    for group in groups {
        put(out, " ")?;
        put_document(alloc, out, &group.group)?;
        put(out, ":")?;
        put_document(alloc, out, &group.value)?;
    }
    Some(())
}

fn put_arms(alloc: Global, out: &mut String, arms: &[Arm]) -> Option<()> {
    for arm in arms {
        put_number(alloc, out, " ", u64::from(arm.slot))?;
        put_number(alloc, out, "/", arm.feed)?;
        put_name(out, " ", &arm.dropped)?;
    }
    Some(())
}

fn put_notes(alloc: Global, out: &mut String, notes: &[u8]) -> Option<()> {
    put(out, " notes")?;
    for note in notes {
        put_number(alloc, out, " ", u64::from(*note))?;
    }
    Some(())
}

fn put_first(alloc: Global, out: &mut String, items: &[Item]) -> Option<()> {
    put_if(out, !items.is_empty(), " items")?;
    for item in items {
        put_number(alloc, out, " ", item.arm)?;
        put_number(alloc, out, "@", item.stamp)?;
        put_if(out, item.is_state, " state")?;
        put(out, " ")?;
        put_document(alloc, out, &item.shown)?;
    }
    Some(())
}

fn put_fault(out: &mut String, fault: &Fault) -> Option<()> {
    match fault {
        Fault::QueryLogic(text) => put_name(out, "fault QUERY_LOGIC ", text),
        Fault::NonExistence(text) => put_name(out, "fault NON_EXISTENCE ", text),
        Fault::ResourceLimit(text) => put_name(out, "fault RESOURCE_LIMIT ", text),
        Fault::OpFailed(text) => put_name(out, "fault OP_FAILED ", text),
        Fault::User(text) => put_name(out, "fault USER ", text),
        Fault::Empty => put(out, "fault empty"),
        Fault::Memory => put(out, "fault memory"),
    }
}
