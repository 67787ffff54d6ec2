//! The memory that instances share, whose pages are given to them and taken back.

ghost use Rattle.std.specs.Prelude.{◌≡◌, ◌+◌, ◌*◌, ◌<◌, ◌≤◌, ◌++◌, [], Some, false, true, IfSome, length, replicate, unwrap_or};
ghost use Rattle.std.specs.Vec.{vec_capacity};
ghost use Rattle.qw_linear.specs.Memory.{cleared, most_pages, page, pages_of};
ghost use Rattle.qw_module.specs.Execution.{AsksHost};
ghost use Rattle.qw_module.specs.Step.{can_place};
ghost use Rattle.qw_map.specs.Free.{marked};
ghost use Rattle.qw_map.specs.Turns.{flags_after, placing};
ghost use Rattle.qw_bench.specs.Inner.Pools.{IsPool, common_of, free_among};

use crate::free::{add_taken, lowest_free, mark};
use qw_linear::linear::Linear;

/// A linear memory, and which of its pages are free.
#[derive(Drop)]
pub(crate) struct Pool {
    pub(crate) memory: Linear,
    /// A flag for each page of the memory. There is room for one of each page that the memory may ever have.
    pub(crate) free: Vec<bool>,
    /// How many pages are free, so that a request for more isn't looked for.
    pub(crate) free_count: usize,
}

impl Pool {
    /// A memory of which no page is free, with room for the flags of all pages that it may have.
    pub(crate) fn new(memory: Linear, room: Vec<bool>) -> Self
        requires empty { room.items ≡ [] }
        requires room { memory.reserved ≤ vec_capacity room }
        ensures memory { result.memory ≡ memory }
        ensures free { result.free.items ≡ replicate (pages_of memory.octets) false }
        ensures kept { IsPool result }
    {
        let mut free = room;
        let _limit = memory.reserved();
        add_taken(&mut free, memory.size());
        Pool {
            memory,
            free,
            free_count: 0,
        }
    }

    /// Notes that the memory grew by so many pages, which are taken.
    pub(crate) fn note_growth(&mut self, pages: u32)
        requires flags { length self.old.free.items + pages ≡ pages_of self.old.memory.octets }
        requires counted { self.old.free_count ≡ free_among self.old.free.items }
        requires whole { length self.old.memory.octets ≡ pages_of self.old.memory.octets * page }
        requires room { self.old.memory.reserved ≤ vec_capacity self.old.free }
        requires within { length self.old.memory.octets ≤ self.old.memory.reserved * page }
        requires limit { self.old.memory.reserved ≤ most_pages }
        ensures memory { self.new.memory ≡ self.old.memory }
        ensures free { self.new.free.items ≡ self.old.free.items ++ replicate pages false }
        ensures kept { IsPool self.new }
    {
        add_taken(&mut self.free, pages);
    }

    /// Gives so many pages, whose octets are 0 then: the lowest neighbouring ones that are free, and where there are none the
    /// memory's next ones. Answers the number of the first.
    pub(crate) fn grant(&mut self, pages: u32) -> u32
        requires kept { IsPool self.old }
        requires room { length self.old.memory.octets + pages * page ≤ self.old.memory.reserved * page }
        ensures place { result ≡ placing (common_of self.old) pages }
        ensures common { common_of self.new ≡ record {
          memory = cleared result pages self.old.memory.octets;
          free = flags_after (common_of self.old) (AsksHost pages (Some result));
        } }
        ensures kept { IsPool self.new }
        ensures inside { result + pages ≤ length self.new.free.items }
        ensures longer { length self.old.free.items ≤ length self.new.free.items }
        ensures size { length self.new.memory.octets ≤ length self.old.memory.octets + pages * page }
        ensures can { can_place result pages self.old.memory.octets ≡ true }
        ensures reserved { self.new.memory.reserved ≡ self.old.memory.reserved }
    {
        let Some(first) = self.lowest(pages) else {
            let first = self.memory.size();
            self.memory.grow(pages).unwrap();
            add_taken(&mut self.free, pages);
            return first;
        };
        self.memory.clear(first, pages);
        let at = first as usize;
        let taken = mark(self.free.as_mut_slice(), at, pages as usize, false);
        self.free_count -= taken;
        first
    }

    /// The first of the lowest so many neighbouring pages that are free, if there are such; none of no pages. It looks at no flag
    /// where fewer pages are free.
    fn lowest(&self, pages: u32) -> Option<u32>
        requires kept { IsPool self.now }
        ensures place { placing (common_of self.now) pages ≡ unwrap_or result (pages_of self.now.memory.octets) }
        ensures within { IfSome result (λ first. first + pages ≤ length self.now.free.items) }
        ensures some { IfSome result (λ first. 1 ≤ pages) }
    {
        if pages == 0 || self.free_count < pages as usize {
            return None;
        }
        let first = lowest_free(self.free.as_slice(), pages as usize)?;
        Some(first as u32)
    }

    /// Makes so many pages from one on free.
    pub(crate) fn take_back(&mut self, first: u32, pages: u32)
        requires kept { IsPool self.old }
        requires within { first + pages ≤ length self.old.free.items }
        ensures memory { self.new.memory ≡ self.old.memory }
        ensures free { self.new.free.items ≡ marked true first pages self.old.free.items }
        ensures kept { IsPool self.new }
    {
        let at = first as usize;
        let freed = mark(self.free.as_mut_slice(), at, pages as usize, true);
        self.free_count += freed;
    }
}
