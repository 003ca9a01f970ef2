// Copies between lent buffers.
ghost use Rattle.std.specs.Prelude.{◌≡◌, ◌+◌, ◌≤◌, length};
ghost use Rattle.memory.specs.Bytes.{stored};

// Stores `bytes` in `held` from `at` on.
pub fn put(bytes: &[u8], held: &mut [u8], at: usize)
    requires { at + length bytes.now ≤ length held.old }
    ensures { held.new ≡ stored held.old at bytes.now }
{
    // `copy_from_slice` compares addresses as numbers, which no other processor's archive may (tools/module)
    for (i, byte) in bytes.iter().enumerate() {
        held[at + i] = *byte;
    }
}
