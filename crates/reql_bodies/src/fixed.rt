// The bodies that are always the same.
ghost use Rattle.std.specs.Prelude.{◌≡◌};
ghost use Rattle.reql_session_spec.specs.Requests.{Waited, Info, Internal};
ghost use Rattle.reql_session_spec.specs.Bodies.{body};

/// The body of the answer to NOREPLY_WAIT.
pub const WAITED: &[u8] = b"{\"n\":[],\"r\":[],\"t\":4}";

/// The body of the answer to SERVER_INFO.
pub const INFO: &[u8] =
    b"{\"n\":[],\"r\":[{\"id\":\"00000000-0000-0000-0000-000000000000\",\"name\":\"reqld\",\"proxy\":false}],\"t\":5}";

/// The answer to NOREPLY_WAIT, which takes no memory.
pub fn waited() -> &'static [u8]
    ensures { result.now ≡ body Waited }
{
    WAITED
}

/// The answer to SERVER_INFO, which takes no memory.
pub fn info() -> &'static [u8]
    ensures { result.now ≡ body Info }
{
    INFO
}

/// The answer where memory is wanted, which takes none.
#[tactic(auto, unfolding(reql_session_spec::specs::Bodies::body))]
pub fn internal() -> &'static [u8]
    ensures { result.now ≡ body Internal }
{
    reql_answer::internal()
}
