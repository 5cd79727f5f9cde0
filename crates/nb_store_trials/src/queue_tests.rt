use nb_base::{Entries, Envelope, Items, Moment, NoMemory, Numbers, Text};
use nb_cells::{Cells, FaultPlan, MemCells, Stop};
use nb_queue::{Post, PostClosed, PostFault, PostRefusal};
use std::alloc::Global;
use std::test::Fail;

fn started(alloc: Global, cells: MemCells) -> Result<Post<MemCells>, PostFault> {
    match Post::start(alloc, cells) {
        Ok(post) => Ok(post),
        Err(refusal) => {
            let PostRefusal { fault, .. } = refusal;
            Err(fault)
        }
    }
}

fn numbers(alloc: Global, calls: &[u64]) -> Result<Numbers, NoMemory> {
    let mut list = Items::new(alloc);
    for call in calls {
        list.push(*call)?;
    }
    Ok(list)
}

/// A post without entries, whose cells fail at these applies, or from a stop on.
fn faulty(alloc: Global, applies: &[u64], stop: Option<Stop>) -> Result<Post<MemCells>, PostFault> {
    let plan = FaultPlan {
        reads: Items::new(alloc),
        applies: numbers(alloc, applies)?,
        stop,
    };
    started(alloc, MemCells::new(alloc, Items::new(alloc), plan)?)
}

fn moment(seconds: u64) -> Result<Moment, NoMemory> {
    Moment::new(seconds).ok_or(NoMemory)
}

/// Puts a message into the queue `q`, or has it wait.
fn put(alloc: Global, post: &mut Post<MemCells>, due: Option<Moment>) -> Result<u64, PostFault> {
    let queue = Text::new(alloc, "q")?;
    let id = Text::new(alloc, "a")?;
    let body = Text::new(alloc, "b")?;
    let envelope = Envelope::new(alloc, &id, body)?;
    post.put(alloc, &queue, due, &envelope)
}

/// Takes an entry out, where it is there.
fn remove(alloc: Global, post: &mut Post<MemCells>, number: u64) -> Result<bool, PostFault> {
    if post.entry(number).is_none() {
        return Ok(false);
    }
    post.remove(alloc, number)?;
    Ok(true)
}

/// Takes the due of an entry away, where it is there.
fn release(alloc: Global, post: &mut Post<MemCells>, number: u64) -> Result<bool, PostFault> {
    if post.entry(number).is_none() {
        return Ok(false);
    }
    post.release(alloc, number)?;
    Ok(true)
}

fn are(entries: &Entries, numbers: &[u64]) -> bool {
    entries.len() == numbers.len()
        && entries
            .as_slice()
            .iter()
            .zip(numbers)
            .all(|(entry, number)| entry.number == *number)
}

/// Whether these entries stand in the queue `q`, and these wait.
fn has(
    alloc: Global,
    post: &Post<MemCells>,
    standing: &[u64],
    waiting: &[u64],
) -> Result<bool, NoMemory> {
    let queue = Text::new(alloc, "q")?;
    Ok(are(&post.list(alloc, &queue)?, standing) && are(&post.delayed(alloc)?, waiting))
}

/// The number of the entry that comes due first, or 0.
fn first_due(post: &Post<MemCells>) -> u64 {
    match post.next_due() {
        Some(waiting) => waiting.number,
        None => 0,
    }
}

/// The post that is found when the cells are opened again after a stop.
fn reopened(alloc: Global, post: Post<MemCells>) -> Result<Post<MemCells>, PostFault> {
    let PostClosed { cells, .. } = post.close();
    let left = cells.left(alloc)?;
    started(alloc, MemCells::new(alloc, left, FaultPlan::none(alloc))?)
}

/// Puts an entry into the queue, and one that waits.
fn put_two(alloc: Global, post: &mut Post<MemCells>) -> Result<(), PostFault> {
    put(alloc, post, None)?;
    put(alloc, post, Some(moment(10)?))?;
    Ok(())
}

/// An entry in the queue, and one that waits, before the apply of a stop.
fn two(alloc: Global, stop: Stop) -> Result<Post<MemCells>, PostFault> {
    let mut post = faulty(alloc, &[], Some(stop))?;
    put_two(alloc, &mut post)?;
    Ok(post)
}

/// Puts both, and tells whether they stand and wait under the first numbers.
fn stand_or_wait(alloc: Global, post: &mut Post<MemCells>) -> Result<bool, PostFault> {
    let first = put(alloc, post, None)?;
    let second = put(alloc, post, Some(moment(10)?))?;
    Ok(first == 1 && second == 2 && has(alloc, post, &[1], &[2])?)
}

#[test]
fn entries_stand_or_wait(rt: HostRuntime) -> Result<(), Fail> {
    let alloc = rt.alloc();
    let mut post = started(alloc, MemCells::empty(alloc))?;
    assert!(rt; stand_or_wait(alloc, &mut post)?);
    Ok(())
}

/// The next number of a post and of its copy, after a put.
fn put_and_copy(alloc: Global, post: &mut Post<MemCells>) -> Result<(u64, u64), PostFault> {
    put(alloc, post, None)?;
    Ok((post.next(), post.all()?.next))
}

#[test]
fn all_of_a_post_is_copied(rt: HostRuntime) -> Result<(), Fail> {
    let alloc = rt.alloc();
    let mut post = started(alloc, MemCells::empty(alloc))?;
    assert_eq!(rt; put_and_copy(alloc, &mut post)?, (2, 2));
    Ok(())
}

/// The next number that is handed out after a put.
fn put_and_close(alloc: Global) -> Result<u64, PostFault> {
    let mut post = started(alloc, MemCells::empty(alloc))?;
    put(alloc, &mut post, None)?;
    let PostClosed { post, .. } = post.close();
    Ok(post.next)
}

#[test]
fn all_of_a_post_is_handed_out(rt: HostRuntime) -> Result<(), Fail> {
    assert_eq!(rt; put_and_close(rt.alloc())?, 2);
    Ok(())
}

/// Puts three entries that wait, and tells whether they come due by their moments and numbers.
fn come_due(alloc: Global, post: &mut Post<MemCells>) -> Result<bool, PostFault> {
    let due = moment(10)?;
    put(alloc, post, Some(moment(20)?))?;
    put(alloc, post, Some(due))?;
    put(alloc, post, Some(due))?;
    Ok(has(alloc, post, &[], &[2, 3, 1])? && first_due(post) == 2)
}

#[test]
fn what_is_due_first_comes_first(rt: HostRuntime) -> Result<(), Fail> {
    let alloc = rt.alloc();
    let mut post = started(alloc, MemCells::empty(alloc))?;
    assert!(rt; come_due(alloc, &mut post)?);
    Ok(())
}

/// Releases one of two entries that wait and removes the other one, and tells whether that is seen.
fn release_and_remove(alloc: Global, post: &mut Post<MemCells>) -> Result<bool, PostFault> {
    put(alloc, post, Some(moment(10)?))?;
    put(alloc, post, Some(moment(20)?))?;
    let released = release(alloc, post, 1)? && has(alloc, post, &[1], &[2])?;
    let removed = remove(alloc, post, 2)? && has(alloc, post, &[1], &[])?;
    Ok(released && removed && first_due(post) == 0)
}

/// Whether these entries stand when the cells are opened again, and these wait.
fn has_again(
    alloc: Global,
    post: Post<MemCells>,
    standing: &[u64],
    waiting: &[u64],
) -> Result<bool, PostFault> {
    let again = reopened(alloc, post)?;
    Ok(has(alloc, &again, standing, waiting)?)
}

#[test]
fn released_and_removed_entries_dont_wait(rt: HostRuntime) -> Result<(), Fail> {
    let alloc = rt.alloc();
    let mut post = started(alloc, MemCells::empty(alloc))?;
    assert!(rt; release_and_remove(alloc, &mut post)?);
    assert!(rt; has_again(alloc, post, &[1], &[])?);
    Ok(())
}

/// Whether a put fails, leaves nothing and gives its number to the next one.
fn put_again(alloc: Global, post: &mut Post<MemCells>) -> Result<bool, PostFault> {
    let failed = matches!(&put(alloc, post, Some(moment(10)?)), Err(PostFault::Failed));
    let counted = post.cells().faults() == 1;
    Ok(failed && counted && has(alloc, post, &[], &[])? && put(alloc, post, None)? == 1)
}

#[test]
fn a_failed_put_leaves_everything(rt: HostRuntime) -> Result<(), Fail> {
    let alloc = rt.alloc();
    let mut post = faulty(alloc, &[1], None)?;
    assert!(rt; put_again(alloc, &mut post)?);
    Ok(())
}

/// Whether a release and a removal fail, and leave the entry that waits.
fn keep_waiting(alloc: Global, post: &mut Post<MemCells>) -> Result<bool, PostFault> {
    put(alloc, post, Some(moment(10)?))?;
    let kept = matches!(&release(alloc, post, 1), Err(PostFault::Failed));
    let left = matches!(&remove(alloc, post, 1), Err(PostFault::Failed));
    Ok(kept && left && has(alloc, post, &[], &[1])?)
}

#[test]
fn failed_changes_leave_everything(rt: HostRuntime) -> Result<(), Fail> {
    let alloc = rt.alloc();
    let mut post = faulty(alloc, &[2, 3], None)?;
    assert!(rt; keep_waiting(alloc, &mut post)?);
    Ok(())
}

/// Stops of the third apply, after and before its effect.
const AFTER: Stop = Stop {
    apply: 3,
    after: true,
};

const BEFORE: Stop = Stop {
    apply: 3,
    after: false,
};

/// Whether a put fails, and isn't told.
fn loses_put(alloc: Global, post: &mut Post<MemCells>) -> Result<bool, NoMemory> {
    Ok(put(alloc, post, None).is_err() && has(alloc, post, &[1], &[2])?)
}

#[test]
fn a_stop_leaves_the_entry_that_was_put(rt: HostRuntime) -> Result<(), Fail> {
    let alloc = rt.alloc();
    let mut post = two(alloc, AFTER)?;
    assert!(rt; loses_put(alloc, &mut post)?);
    assert!(rt; has_again(alloc, post, &[1, 3], &[2])?);
    Ok(())
}

/// Whether a release fails, and isn't told.
fn loses_release(alloc: Global, post: &mut Post<MemCells>) -> Result<bool, NoMemory> {
    Ok(release(alloc, post, 2).is_err() && has(alloc, post, &[1], &[2])?)
}

#[test]
fn a_stop_leaves_the_release(rt: HostRuntime) -> Result<(), Fail> {
    let alloc = rt.alloc();
    let mut post = two(alloc, AFTER)?;
    assert!(rt; loses_release(alloc, &mut post)?);
    assert!(rt; has_again(alloc, post, &[1, 2], &[])?);
    Ok(())
}

#[test]
fn a_stop_before_its_effect_leaves_everything(rt: HostRuntime) -> Result<(), Fail> {
    let alloc = rt.alloc();
    let mut post = two(alloc, BEFORE)?;
    assert!(rt; remove(alloc, &mut post, 1).is_err());
    assert!(rt; has_again(alloc, post, &[1], &[2])?);
    Ok(())
}
