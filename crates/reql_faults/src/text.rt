// What a client is told of a fault of planning.
ghost use Rattle.std.specs.Prelude.{◌≡◌, IfOk};
ghost use Rattle.reql_faults.specs.Texts.{unbound_text, fault_text};

use crate::fault::CompileFault;
use reql_datum::{Memory, Name};
use std::alloc::Global;

fn unbound(alloc: Global, id: u64) -> Result<Name, Memory>
    ensures { IfOk result (λ s. s ≡ unbound_text id) }
{
    let text = format!(in alloc; "Unbound variable {}.", id)?;
    Name::of(alloc, text.as_str())
}

impl CompileFault {
    /// The text that a client is told.
    pub fn text(&self, alloc: Global) -> Result<Name, Memory>
        ensures { IfOk result (λ s. s ≡ fault_text self.now) }
    {
        match self {
            CompileFault::Unbound(id) => unbound(alloc, *id),
            CompileFault::WriteNested => Name::of(alloc, "Write or command inside another term."),
            CompileFault::TableNotLiteral => Name::of(alloc, "Name is not a literal text."),
            CompileFault::FeedShape => Name::of(alloc, "Changes cannot follow this term."),
            CompileFault::OffsetsNeedLimit => Name::of(
                alloc,
                "include_offsets needs order_by with an index and limit.",
            ),
            CompileFault::Memory => Name::of(alloc, "Out of memory."),
        }
    }
}
