// The tokens that wait, in order.
ghost use Rattle.std.specs.Prelude.{◌≡◌};
ghost use Rattle.reql_session_spec.specs.Books.{has_token, without};

/// Whether a token waits.
pub(crate) fn waits(waiting: &[u64], token: u64) -> bool
    ensures { result ≡ has_token token waiting.now }
{
    let mut place = 0;
    while let Some(other) = waiting.get(place) {
        if *other == token {
            return true;
        }
        place += 1;
    }
    false
}

/// Leaves out a token.
pub(crate) fn forget(waiting: &mut Vec<u64>, token: u64)
    ensures { waiting.new.items ≡ without token waiting.old.items }
{
    waiting.retain(|other| *other != token);
}
