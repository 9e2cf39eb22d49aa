//! Memory for the rows of scrypt that are kept while one of its parts is computed (V in RFC 7914): a
//! vector, or memory that the caller passes in.

ghost use Rattle.std.specs.Prelude.{◌≡◌, ℕ, ◌+◌, ◌≤◌, ◌++◌, List, [], length, take, vec_capacity};

/// A buffer for rows, which are appended one after another.
pub(crate) trait RowMemory {
    // The words of the rows in the buffer, and the number of words that the buffer can hold.
    ghost words: { Self → List ℕ };

    ghost room: { Self → ℕ };

    // Removes all rows. The memory is not overwritten.
    fn clear(&mut self)
        ensures words { words self.new ≡ [] }
        ensures len { length (words self.new) ≡ 0 }
        ensures room_not_reduced { room self.old ≤ room self.new };

    // Appends a row. The buffer must have space for it.
    fn push(&mut self, row: &[u32])
        requires { length (words self.old) + length row.now ≤ room self.old }
        ensures words { words self.new ≡ words self.old ++ row.now }
        ensures len { length (words self.new) ≡ length (words self.old) + length row.now }
        ensures room_not_reduced { room self.old ≤ room self.new };

    // Returns the words of the rows.
    fn words(&self) -> &[u32]
        ensures value { result.now ≡ words self.now }
        ensures len { length result.now ≡ length (words self.now) };
}

impl RowMemory for Vec<u32> {
    ghost words = { λ v. v.items };

    ghost room = { λ v. vec_capacity v };

    fn clear(&mut self) {
        self.clear();
    }

    #[inline(always)]
    fn push(&mut self, row: &[u32]) {
        let _ = self.extend_from_slice(row);
    }

    fn words(&self) -> &[u32] {
        self.as_slice()
    }
}

/// The caller's memory. Its first `used` words hold rows.
#[derive(Drop)]
pub(crate) struct Passed<'a> {
    memory: &'a mut [u32],
    used: usize,
}

impl<'a> Passed<'a> {
    // Returns an empty buffer in this memory.
    pub(crate) fn new(memory: &'a mut [u32]) -> Passed<'a>
        ensures room { ⟦<Passed<'a> as RowMemory>⟧.room result ≡ length memory.old }
    {
        Passed { memory, used: 0 }
    }
}

impl<'a> RowMemory for Passed<'a> {
    ghost words = { λ s. take s.used s.memory.now };

    ghost room = { λ s. length s.memory.now };

    fn clear(&mut self) {
        self.used = 0;
    }

    #[inline(always)]
    fn push(&mut self, row: &[u32]) {
        let at = self.used.min(self.memory.len());
        let end = at + row.len();
        self.memory[at..end].copy_from_slice(row);
        self.used = end;
    }

    fn words(&self) -> &[u32] {
        &self.memory[..self.used.min(self.memory.len())]
    }
}
