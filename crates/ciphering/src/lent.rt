// Lent bytes as a value, where a call needs a fixed number of them.
ghost use Rattle.std.specs.Prelude.{◌≡◌, length};

pub fn bytes_of<const N: usize>(s: &[u8]) -> [u8; N]
    requires { length s.now ≡ N }
    ensures { result ≡ s.now }
{
    let mut bytes = [0u8; N];
    bytes.copy_from_slice(s);
    bytes
}
