//! The kernel's half of each root.
ghost use Rattle.std.specs.Prelude.{◌≡◌, ℕ, ◌+◌, ◌*◌, ◌<◌, ◌≤◌, ◌↔◌, IsTrue, length};
ghost use Rattle.shadow_tables.specs.LongWords.{long_at};
ghost use Rattle.shadow_tables.specs.Kernel.{IsKernelWord, AreKernelWords};

use crate::walk::long_at;

/// Whether a word is as those of a kernel's half are to be.
fn is_kernel_word(word: u64) -> bool
    ensures { IsTrue result ↔ IsKernelWord word }
{
    word % 2 == 0 || ((word >> 5) & 1 == 1 && (word >> 2) & 1 == 0)
}

/// Whether each of the 256 words of a half that is present is accessed, and isn't one of user mode. Then no processor
/// writes any of them, and no process reaches anything through them.
pub fn is_kernel_half(half: &[u8]) -> bool
    requires { length half.now ≡ 2048 }
    ensures { IsTrue result ↔ AreKernelWords half.now }
{
    for k in 0..256usize {
        if !is_kernel_word(long_at(half, 8 * k)) {
            return false;
        }
    }
    true
}
