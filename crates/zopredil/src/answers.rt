// What a call leaves in the slices that it was lent, and the number that it answers: C has no Result, so a refusal is its number
// beside zeros.
ghost use Rattle.std.specs.Prelude.{◌≡◌, length};
ghost use Rattle.lists.specs.Lists.{◌beside◌};
ghost use Rattle.macroblock.specs.Reply.{reply_of};
ghost use Rattle.zopredil.specs.Told.{told};

use macroblock::{Refusal, reply};

// The elements that a call made into `out`; zeros where it is refused.
pub(crate) fn answer<T: Copy, const N: usize>(
    out: &mut [T],
    made: &Result<[T; N], Refusal>,
    zero: T,
) -> u32
    requires { length out.old ≡ N }
    ensures { (result beside out.new) ≡ told zero N made.now }
{
    match made {
        Ok(elements) => {
            slices::put(out, elements);
            reply::DONE
        }
        Err(refusal) => {
            slices::put(out, &[zero; N]);
            refusal.number()
        }
    }
}

// Of a call that tells nothing but whether it is refused.
pub(crate) fn number(made: Result<(), Refusal>) -> u32
    ensures { result ≡ reply_of made }
{
    match made {
        Ok(()) => reply::DONE,
        Err(refusal) => refusal.number(),
    }
}
