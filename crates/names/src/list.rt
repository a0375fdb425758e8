//! Name lists over provided memory: a name's place in the list is its code.
ghost use Rattle.std.specs.Prelude.{◌≡◌, ◌+◌, ◌<◌, ◌≤◌, ◌==◌, position, length, cond, nat_lt, slice_set, Ok, Err, MatchOption, slice_index_or};
ghost use Rattle.names.specs.Lists.{LookUp, held, in_list, limit_of, listed, looked_count, looked_memory, looked_up};

use crate::name::Name;
use paging::refusal::Refusal;

/// A list of different names in provided memory. It holds as many as the memory has places, at most 256.
#[derive(Drop)]
pub struct NameList<'m, N: Name> {
    // The memory that the caller lends and how many places of it are taken, since nothing here is allocated.
    memory: &'m mut [N],
    count: usize,
    ghost most: { count ≤ 256 },
    ghost within: { count ≤ length memory.now },
}

impl<'m, N: Name + Copy> NameList<'m, N> {
    /// An empty list over the memory.
    pub fn over(memory: &'m mut [N]) -> NameList<'m, N>
        ensures count { result.count ≡ 0 }
        ensures memory { result.memory.now ≡ memory.old }
        ensures lender { result.memory.ghost_name ≡ memory.entry.ghost_name }
    {
        NameList { memory, count: 0 }
    }

    /// How many names the list has.
    pub fn len(&self) -> usize
        ensures { result ≡ held (length self.now.memory.now) self.now.count }
    {
        self.names().len()
    }

    /// Empties the list. The memory stays as it was.
    pub fn clear(&mut self)
        ensures count { self.new.count ≡ 0 }
        ensures memory { self.new.memory.now ≡ self.old.memory.now }
        ensures lender { self.new.memory.ghost_name ≡ self.old.memory.ghost_name }
    {
        self.count = 0;
    }

    /// The names of the list, in their order.
    pub fn names(&self) -> &[N]
        ensures { result.now ≡ in_list self.now.memory.now self.now.count }
    {
        // There are never more than 256. Where the compiler is told so and sees the memory, it compares several bare pages at once.
        &self.memory[..self.count.min(256)]
    }

    /// The name that has a code, if there is one.
    pub fn name_of(&self, code: u8) -> Option<N>
        ensures { MatchOption result (length (in_list self.now.memory.now self.now.count) ≤ code) (λ x. (code < length (in_list self.now.memory.now self.now.count)) × (x ≡ slice_index_or (in_list self.now.memory.now self.now.count) code x)) }
    {
        self.names().get(code as usize).copied()
    }

    /// The code of a name, which is its place in the list, counted from 0. A new name is added at the end.
    pub fn look_up(&mut self, n: N) -> Result<u8, Refusal>
        ensures means { LookUp (limit_of (length self.old.memory.now)) (listed N.bits self.old.memory.now self.old.count) (N.bits n) (listed N.bits self.new.memory.now self.new.count) result }
        ensures answer { result ≡ looked_up N.bits self.old.memory.now self.old.count n }
        ensures count { self.new.count ≡ looked_count N.bits self.old.memory.now self.old.count n }
        ensures memory { self.new.memory.now ≡ looked_memory N.bits self.old.memory.now self.old.count n }
        ensures lender { self.new.memory.ghost_name ≡ self.old.memory.ghost_name }
    {
        if let Some(place) = place_of(self.names(), &n) {
            return Ok(place as u8);
        }
        let code = put_behind(self.memory, self.count, n)?;
        self.count += 1;
        Ok(code)
    }
}

// The place of the first name that is equal to the given one, if there is one.
fn place_of<N: Name>(names: &[N], sought: &N) -> Option<usize>
    ensures { result ≡ position (λ x. N.bits x == N.bits sought.now) names.now }
{
    names.iter().position(|n| n.same(sought))
}

// Writes a new name behind the names that the memory holds: its code.
fn put_behind<N: Name + Copy>(memory: &mut [N], held: usize, n: N) -> Result<u8, Refusal>
    ensures answer { result ≡ cond (nat_lt held (limit_of (length memory.old))) (Ok held) (Err Refusal.NoPlaceForName) }
    ensures memory { memory.new ≡ cond (nat_lt held (limit_of (length memory.old))) (slice_set memory.old held n) memory.old }
{
    if held >= memory.len().min(256) {
        return Err(Refusal::NoPlaceForName);
    }
    memory[held] = n;
    Ok(held as u8)
}
