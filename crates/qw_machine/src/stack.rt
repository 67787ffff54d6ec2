ghost use Rattle.std.specs.Prelude.{◌≡◌, ◌+◌, ◌-◌, ◌<◌, ◌≤◌, [], ◌∷◌, ◌++◌, length, take, drop, reverse, vec_capacity, IfOk};

use qw_base::NoMemory;
use std::alloc::Global;
use std::marker::Model;
use std::mem;

/// A stack with a room that is reserved once, so that a push takes no memory.
#[derive(Drop)]
pub(crate) struct Stack<T> {
    items: Vec<T>,
}

impl<T> Model for Stack<T> {
    ghost use Rattle.std.specs.Prelude.{reverse, vec_capacity};
    ghost use Rattle.qw_machine.specs.Inner.Stacked.{Stacked};

    ghost Value = { Stacked T };

    ghost view = { λ s. record { values = reverse s.items.items; room = vec_capacity s.items } };
}

impl<T: Drop> Stack<T> {
    /// An empty stack with room for so many values. The error is want of memory.
    pub(crate) fn with_room(alloc: Global, room: usize) -> Result<Self, NoMemory>
        ensures { IfOk result (λ stack. stack ≡ record { values = []; room = room }) }
    {
        Ok(Stack {
            items: Vec::with_capacity(alloc, room)?,
        })
    }

    /// Takes the stack out of its place, where an empty one without room is left.
    pub(crate) fn take(&mut self) -> Self
        ensures taken { result ≡ self.old }
        ensures left { self.new ≡ record { values = []; room = 0 } }
    {
        let empty = Stack {
            items: Vec::new(*self.items.allocator()),
        };
        mem::replace(self, empty)
    }

    pub(crate) fn len(&self) -> usize
        ensures { result ≡ length self.now.values }
    {
        self.items.len()
    }

    pub(crate) fn push(&mut self, value: T)
        requires { length self.old.values < self.old.room }
        ensures { self.new ≡ record { values = value ∷ self.old.values; room = self.old.room } }
    {
        self.items.push_reserved(value);
    }

    // `pop` of the vector would test again whether there is one.
    #[tactic(auto, using(crate::proofs::StackFacts::last_removed))]
    pub(crate) fn pop(&mut self) -> T
        requires { 0 < length self.old.values }
        ensures popped { self.old.values ≡ result ∷ self.new.values }
        ensures room { self.new.room ≡ self.old.room }
    {
        self.items.swap_remove(self.items.len() - 1)
    }

    /// The value that was pushed last. It stays.
    #[tactic(auto, using(crate::proofs::StackFacts::first_is_last))]
    pub(crate) fn top(&self) -> T
    where
        T: Copy,
        requires { 0 < length self.now.values }
        ensures { self.now.values ≡ result ∷ drop 1 self.now.values }
    {
        self.items[self.items.len() - 1]
    }

    /// Keeps the values that were pushed first, so many of them.
    pub(crate) fn truncate(&mut self, kept: usize)
        ensures { self.new ≡ record { values = drop (length self.old.values - kept) self.old.values; room = self.old.room } }
    {
        self.items.truncate(kept);
    }
}

impl Stack<u64> {
    /// Moves the values that were pushed last, so many of them, to the end of a list, in the order in which they were pushed.
    pub(crate) fn pass(&mut self, count: usize, to: &mut Vec<u64>)
        requires there { count ≤ length self.old.values }
        requires room { length to.old.items + count ≤ vec_capacity to.old }
        ensures values { self.new ≡ record { values = drop count self.old.values; room = self.old.room } }
        ensures passed { to.new.items ≡ to.old.items ++ reverse (take count self.old.values) }
        ensures room { vec_capacity to.new ≡ vec_capacity to.old }
    {
        let kept = self.items.len() - count;
        for value in self.items[kept..].iter() {
            to.push_reserved(*value);
        }
        self.items.truncate(kept);
    }
}
