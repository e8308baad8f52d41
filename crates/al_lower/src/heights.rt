ghost use Rattle.std.specs.Prelude.{◌≡◌, suc, ◌+◌, IfOk};

use std::alloc::AllocError;

/// One value more on the stack. A height past 32 bits is want of memory.
pub fn above(height: u32) -> Result<u32, AllocError>
    ensures { IfOk result (λ h. h ≡ suc height) }
{
    height.checked_add(1).ok_or(AllocError)
}

/// So many values more on the stack.
pub fn raised(height: u32, by: usize) -> Result<u32, AllocError>
    ensures { IfOk result (λ h. h ≡ height + by) }
{
    match u32::try_from(by) {
        Ok(by) => height.checked_add(by).ok_or(AllocError),
        Err(_) => Err(AllocError),
    }
}
