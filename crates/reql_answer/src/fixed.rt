// The body of an answer that is always the same.
ghost use Rattle.std.specs.Prelude.{◌≡◌, ◌<◌, ◌^◌, length};
ghost use Rattle.reql_answer.specs.Body.{body};
ghost use Rattle.reql_answer.specs.Body.{internal as internal_answer};

/// The body of the answer for want of memory.
pub const INTERNAL: &[u8] = b"{\"b\":[],\"e\":1000000,\"r\":[\"Out of memory.\"],\"t\":18}";

/// The answer for want of memory, type 18, which takes none.
pub fn internal() -> &'static [u8]
    ensures body { result.now ≡ body internal_answer }
    ensures short { length result.now < 2 ^ 32 }
{
    INTERNAL
}
