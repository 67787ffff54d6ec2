//! A flag for each page of a memory, which says whether it is free: the lowest run of free pages, and what becomes of flags.

ghost use Rattle.std.specs.Prelude.{◌≡◌, ◌+◌, ◌≤◌, ◌++◌, false, length, replicate};
ghost use Rattle.std.specs.Vec.{vec_capacity};
ghost use Rattle.qw_map.specs.Free.{lowest_run, marked};
ghost use Rattle.qw_bench.specs.Inner.Pools.{IsChanged, free_among};

/// The lowest place of so many neighbouring flags that are true. It looks at each flag once.
pub(crate) fn lowest_free(flags: &[bool], pages: usize) -> Option<usize>
    requires { 1 ≤ pages }
    ensures { result ≡ lowest_run 0 pages flags.now }
{
    let mut count = 0;
    for at in 0..flags.len() {
        count = if flags[at] { count + 1 } else { 0 };
        if count == pages {
            return Some(at + 1 - pages);
        }
    }
    None
}

/// Marks so many flags from one on. Answers how many of them it changed.
pub(crate) fn mark(flags: &mut [bool], first: usize, pages: usize, flag: bool) -> usize
    requires { first + pages ≤ length flags.old }
    ensures marked { flags.new ≡ marked flag first pages flags.old }
    ensures changed { IsChanged flag result (free_among flags.old) (free_among flags.new) }
{
    let mut at = first;
    let mut left = pages;
    let mut changed = 0;
    while left > 0 {
        changed += usize::from(flags[at] != flag);
        flags[at] = flag;
        at += 1;
        left -= 1;
    }
    changed
}

/// Adds the flags of so many pages, which are taken.
pub(crate) fn add_taken(flags: &mut Vec<bool>, pages: u32)
    requires { length flags.old.items + pages ≤ vec_capacity flags.old }
    ensures added { flags.new.items ≡ flags.old.items ++ replicate pages false }
    ensures capacity { vec_capacity flags.new ≡ vec_capacity flags.old }
{
    let mut left = pages;
    while left > 0 {
        flags.push_reserved(false);
        left -= 1;
    }
}
