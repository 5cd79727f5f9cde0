//! What was read, against what stands there now.
ghost use Rattle.std.specs.Prelude.{◌≡◌, ◌<◌, ◌+◌, length, map, true, Some, IfOk};
ghost use Rattle.nb_base.specs.Shown.{Stored, seen, version_of};
ghost use Rattle.nb_base.specs.declared.saga_row.Read.{Read};
ghost use Rattle.nb_core.specs.Conflicts.{Best, Conflicts, IsAt, IsBelow};

use nb_base::{Copied, NoMemory, Reads, Seen};
use nb_recover::Fail;
use std::cmp::Ordering;

/// The version of what stands at a key, 0 where nothing does.
pub fn version(seen: &Seen) -> u64
    ensures { result ≡ version_of seen.now }
{
    match seen {
        Seen::Absent => 0,
        Seen::Saga(row) => row.version,
        Seen::Row { version, value: _ } => *version,
    }
}

/// Whether another version stands now where the read at a place was.
fn has_changed(reads: &Reads, shown: &Reads, i: usize) -> bool
    requires within { i < length reads.now }
    requires same { length shown.now ≡ length reads.now }
    ensures { (t : Stored) → shown.now ≡ seen t (map (λ (r : Read). r.key) reads.now) → IsAt t reads.now i result }
{
    version(&reads.at(i).seen) != version(&shown.at(i).seen)
}

/// The place of the lesser of two keys, of which the one at `i` has changed and the one at `j` is the least before it.
fn lesser_of(reads: &Reads, j: usize, i: usize) -> usize
    requires within { i < length reads.now }
    requires below { j < i }
    ensures below { result < i + 1 }
    ensures best { (t : Stored) → IsAt t reads.now i true → Best t reads.now i (Some j) → Best t reads.now (i + 1) (Some result) }
{
    match reads.at(i).key.cmp(&reads.at(j).key) {
        Ordering::Less => i,
        Ordering::Equal => j,
        Ordering::Greater => j,
    }
}

/// The place of the least key, of the one found so far and the one at `i`, which has changed.
fn lesser(reads: &Reads, least: Option<usize>, i: usize) -> Option<usize>
    requires within { i < length reads.now }
    requires below { IsBelow i least }
    ensures below { IsBelow (i + 1) result }
    ensures best { (t : Stored) → IsAt t reads.now i true → Best t reads.now i least → Best t reads.now (i + 1) result }
{
    match least {
        None => Some(i),
        Some(j) => Some(lesser_of(reads, j, i)),
    }
}

/// The place of the least key of those that have changed.
fn least_changed(reads: &Reads, shown: &Reads) -> Option<usize>
    requires { length shown.now ≡ length reads.now }
    ensures below { IsBelow (length reads.now) result }
    ensures best { (t : Stored) → shown.now ≡ seen t (map (λ (r : Read). r.key) reads.now) → Best t reads.now (length reads.now) result }
{
    let mut least = None;
    for i in 0..reads.len() {
        if has_changed(reads, shown, i) {
            least = lesser(reads, least, i);
        }
    }
    least
}

/// The conflict between what was read and what stands at the same keys now: on the least key whose version differs. None
/// where none does.
pub fn conflict(reads: &Reads, shown: &Reads) -> Result<Option<Fail>, NoMemory>
    requires { length shown.now ≡ length reads.now }
    ensures { (t : Stored) → shown.now ≡ seen t (map (λ (r : Read). r.key) reads.now) → IfOk result (λ f. Conflicts t reads.now f) }
{
    match least_changed(reads, shown) {
        None => Ok(None),
        Some(i) => Ok(Some(Fail::Conflict {
            key: reads.at(i).key.copy()?,
            seen: version(&reads.at(i).seen),
            now: version(&shown.at(i).seen),
        })),
    }
}
