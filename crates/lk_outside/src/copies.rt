//! Copies that take no memory.

ghost use Rattle.std.specs.Prelude.{◌≡◌, ◌≤◌, length};

use arrayvec::ArrayVec;

// The same items once more.
pub(crate) fn copied<T: Copy + Default, const CAP: usize>(items: &[T]) -> ArrayVec<T, CAP>
    requires { length items.now ≤ CAP }
    ensures { result.items ≡ items.now }
{
    let mut copy = ArrayVec::new();
    let _appended = copy.try_extend_from_slice(items);
    copy
}
