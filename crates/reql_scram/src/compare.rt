// Secret bytes, compared.
ghost use Rattle.std.specs.Prelude.{◌≡◌, ◌↔◌, bytes_eq, length};

/// The bits in which two lists of one length differ, somewhere: zero where they are the same. Each byte of them
/// is looked at, whatever those before it were.
fn differences(first: &[u8], second: &[u8]) -> u8
    requires { length first.now ≡ length second.now }
    ensures { (result ≡ 0) ↔ (second.now ≡ first.now) }
{
    let mut differences = 0;
    for i in 0..first.len() {
        differences |= first[i] ^ second[i];
    }
    differences
}

/// Whether these are the secret's bytes. The time tells nothing of where they differ: only a wrong length is
/// told at once.
pub(crate) fn is_same(secret: &[u8; 32], bytes: &[u8]) -> bool
    ensures { result ≡ bytes_eq bytes.now secret.now }
{
    if bytes.len() != secret.len() {
        return false;
    }
    differences(secret, bytes) == 0
}
