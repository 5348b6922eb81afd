// What a load prints.
ghost use Rattle.std.specs.Prelude.{◌≡◌, string_bytes, IfOk};
ghost use Rattle.reql_loading.specs.Loading.{lines};

use reql_memory::Memory;
use reql_tally::Tally;
use std::alloc::Global;

/// Its four lines.
pub(crate) fn lines(alloc: Global, tally: &Tally) -> Result<String, Memory>
    ensures { IfOk result (λ text. string_bytes text ≡ lines tally.now) }
{
    let Tally {
        documents,
        changes,
        feeds,
        folds,
    } = tally;
    let text = format!(in alloc;
        "documents {documents}\nchanges {changes}\nfeeds {feeds}\nfolds {folds}\n"
    )?;
    Ok(text)
}
