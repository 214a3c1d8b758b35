ghost use Rattle.std.specs.Prelude.{◌≡◌};

use crate::calls::{head, put};
use crate::printed::{print_answer, print_count};
use std::alloc::{AllocError, Global};
use std::sync::Wait;
use store_trait::Bucket;

/// Two passes of an empty bucket on one thread: what the one has seen, the other sees once they meet.
pub fn play_alone<B: Bucket, R: Wait>(
    rt: &R,
    alloc: Global,
    bucket: &B,
    first: B::Pass,
    second: &mut B::Pass,
    printed: &mut Vec<u8>,
) -> Result<(), AllocError>
where
    B::Pass: Drop,
    requires first { B.name_of first ≡ B.name bucket.now }
    requires second { B.name_of second.old ≡ B.name bucket.now }
    ensures { B.name_of second.new ≡ B.name_of second.old }
{
    let mut first = first;
    let put = put(alloc, "a", b"hello")?;
    let head = head(alloc, "a")?;
    let (position, answer) = bucket.call(rt, &mut first, put);
    print_answer(printed, b"put a", position, &answer)?;
    print_count(printed, b"the other has seen", bucket.mark(second))?;
    bucket.meet(second, first);
    print_count(printed, b"the other has seen", bucket.mark(second))?;
    let (position, answer) = bucket.call(rt, second, head);
    print_answer(printed, b"head a", position, &answer)
}
