//! A caller's buffer: how much of it a store uses, and its clearing.

ghost use Rattle.std.specs.Prelude.{◌≡◌, ℕ, ◌≤◌, ◌++◌, length, drop};
ghost use Rattle.stores.specs.Reach.{reach};
ghost use Rattle.stores.specs.Pages.{zeros};

/// No store uses more bytes of its buffer than these.
const MOST: usize = 1_048_576;

pub fn reach_of(buffer: &[u8]) -> usize
    ensures { result ≡ reach buffer.now }
{
    buffer.len().min(MOST)
}

/// Clears the first `count` bytes and no other.
pub fn clear(buffer: &mut [u8], count: usize)
    requires { count ≤ length buffer.old }
    ensures { buffer.new ≡ zeros count ++ drop count buffer.old }
{
    buffer[..count].fill(0);
}
