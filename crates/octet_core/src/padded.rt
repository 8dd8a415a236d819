//! Arrays that hold octets in front and zeros after them.
ghost use Rattle.std.specs.Prelude.{◌≡◌, ◌≤◌, length};
ghost use Rattle.octet_core.specs.Padded.{padded};

/// An array of `N` octets: the given ones in front, and zeros after them. Caller: there are at most `N` octets.
pub fn pad<const N: usize>(octets: &[u8]) -> [u8; N]
    requires { length octets.now ≤ N }
    ensures { result ≡ padded N octets.now }
{
    let mut all = [0; N];
    all[..octets.len()].copy_from_slice(octets);
    all
}
