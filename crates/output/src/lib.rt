//! Items that are written, one after another, into memory that a caller provides.
//!
//! A caller measures first, and writes then: what does not fit is not asked for, so no call here can fail.
#![tactic(auto)]

ghost use Rattle.std.specs.Prelude.{◌≡◌, ◌≤◌, [], ◌∷◌, length};

#[cfg(test)]
mod tests;

/// Memory that a caller lent, and how many items have been written into it, from its front on.
#[derive(Drop)]
pub struct Output<'m, T> {
    // What is lent and how much of it is written, since nothing here is allocated.
    memory: &'m mut [T],
    count: usize,
    ghost inside: { count ≤ length memory.now },
}

impl<'m, T: Copy> Output<'m, T> {
    ghost use Rattle.output.specs.Outputs.{HasRoom, Writes};

    /// The memory, with nothing written into it yet.
    pub fn over(memory: &'m mut [T]) -> Output<'m, T>
        ensures count { result.count ≡ 0 }
        ensures memory { result.memory.now ≡ memory.old }
        ensures lender { result.memory.ghost_name ≡ memory.entry.ghost_name }
    {
        Output { memory, count: 0 }
    }

    /// How many items have been written.
    pub fn len(&self) -> usize
        ensures { result ≡ self.now.count }
    {
        self.count
    }

    /// Writes an item behind what was written.
    pub fn push(&mut self, item: T)
        requires { HasRoom self.old 1 }
        ensures { Writes self.old (item ∷ []) self.new }
    {
        self.memory[self.count] = item;
        self.count += 1;
    }

    /// Writes items behind what was written.
    pub fn extend_from_slice(&mut self, items: &[T])
        requires { HasRoom self.old (length items.now) }
        ensures { Writes self.old items.now self.new }
    {
        let end = self.count + items.len();
        let memory = &mut *self.memory;
        memory[self.count..end].copy_from_slice(items);
        self.count = end;
    }
}
