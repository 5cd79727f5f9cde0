ghost use Rattle.std.specs.Prelude.{◌≡◌, IfOk, None, Some};
ghost use Rattle.std.specs.FinMap as finite;
ghost use Rattle.nb_ready.specs.Seats.{fresh};

use nb_base::{Count, Moment, NoMemory, Waiting};
use nb_ready::Ready;
use std::alloc::Global;
use std::test::Fail;

/// The numbers 5 and 3, and 4 that waits.
fn three(alloc: Global, due: Moment) -> Result<Ready, NoMemory>
    ensures { IfOk result (λ r. r ≡ finite.insert (finite.insert (finite.insert finite.empty 5 (fresh None)) 3 (fresh None)) 4 (fresh (Some due))) }
{
    let mut ready = Ready::new(alloc);
    ready.add(alloc, 5, None)?;
    ready.add(alloc, 3, None)?;
    ready.add(alloc, 4, Some(due))?;
    Ok(ready)
}

#[test]
fn numbers_are_leased_and_come_due_in_order(rt: HostRuntime) -> Result<(), Fail> {
    let due = Moment::new(10).ok_or("in range")?;
    let mut ready = three(rt.alloc(), due)?;
    ready.hold(3);
    assert_eq!(rt; ready.next_ready(), Some(5));
    assert_eq!(rt; ready.next_due(), Some(Waiting { number: 4, due }));
    ready.release(4);
    assert_eq!(rt; ready.next_ready(), Some(4));
    assert!(rt; ready.next_due().is_none());
    ready.free(3);
    assert_eq!(rt; ready.next_ready(), Some(3));
    assert_eq!(rt; ready.count_fail(3), 1);
    assert_eq!(rt; ready.count_fail(3), 2);
    let counts = ready.counts();
    assert_eq!(rt;
        counts.as_slice(),
        [Count {
            number: 3,
            count: 2
        }]
        .as_slice()
    );
    Ok(())
}
