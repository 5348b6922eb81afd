// The engine of a table.
ghost use Rattle.std.specs.Prelude.{◌≡◌, ℕ, Option, List, [], map};
ghost use Rattle.reql_datum.specs.Plain.{Plain};
ghost use Rattle.reql_table_spec.specs.Engines.{TellsAll, ShowsTables, HoldsEntries, FaultsStay, FailsByFaults, KeepsChanges, LeavesChanges, kept_of};
ghost use Rattle.reql_table_spec.specs.Machine as law;

use crate::command::Order;
use crate::reply::{Heard, Reply, Told};
use reql_datum::Datum;
use reql_shared::{Engine, Snap};
use reql_table_machine_spec::Look;
use reql_term::TableView;
use std::marker::Model;

/// What contracts see of the engine of a table: its table, how many feeds may be open, how many
/// entries of its history are kept, and, fixed when it is made, whether its disk never fails and
/// whether it has one. No value of it is made.
pub struct MachineState {
    nothing: (),
}

impl Model for MachineState {
    ghost use Rattle.std.specs.Coded.{codes};
    ghost use Rattle.reql_datum.specs.Code.{plain_code, list_code, pairs_code};
    ghost use Rattle.reql_term.specs.FormCode.{form_code};
    ghost use Rattle.reql_table_spec.specs.Machine.{State, unused};

    ghost Value = { State };

    ghost coded = { Prim.hlevel (codes, plain_code, list_code, pairs_code, form_code) };

    ghost view = { λ s. unused 0 0 };
}

/// The engine of a table: its replies and answers are those of the table machine.
///
/// `faults` counts how often its disk failed, and never falls. `saved` of a reply is Failed only
/// where this count rose in that command (a count that stands at 2^64 - 1 counts as risen), and never
/// in an engine that is `sound`.
pub trait TableEngine: Engine<
    Cmd = Order,
    Reply = Reply,
    Question = Snap,
    Answer = Look<<Self as TableEngine>::View>,
    State = MachineState,
    Told = Told,
    Heard = Heard,
> {
    /// The table as it can be read at one place.
    type View: TableView;

    ghost faults: { Self → ℕ };

    // Its machine is the table machine; a reply tells what the machine says, and beside it whether it
    // was saved; and a look tells the documents and the indexes of its view, which holds their entries.
    ghost is_machine: { Self.machine ≡ law.machine };

    ghost tells_all: { TellsAll Self.told };

    ghost shows: { ShowsTables Self.View.documents Self.View.indexes Self.heard };

    ghost holds: { HoldsEntries Self.View.documents Self.View.indexes Self.View.entries };

    ghost faults_stay: { FaultsStay Self.tells faults };

    ghost fails: { FailsByFaults Self.tells Self.state faults };
}

/// One change of a command: a key, and the document that is there after it.
#[derive(Drop)]
pub struct Kept {
    pub key: Datum,
    pub new: Option<Datum>,
}

/// An engine of a table that hands over what its last command changed.
pub trait Keeping: TableEngine {
    ghost kept: { Self → List (Plain × Option Plain) };

    /// The single-document changes of the last command, in order; then there are none until the next
    /// command. It takes no memory.
    fn take_kept(&mut self) -> Vec<Kept>
        ensures gives { map kept_of result.items ≡ kept self.old }
        ensures empty { kept self.new ≡ [] }
        ensures state { Self.state self.new ≡ Self.state self.old }
        ensures faults { Self.faults self.new ≡ Self.faults self.old };

    ghost keeps: { KeepsChanges Self.tells Self.state kept };

    // A command that memory was wanted for leaves them.
    ghost keeps_refused: { LeavesChanges Self.tells kept };
}
