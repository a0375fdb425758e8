//! Recordings: loading them into a trial, and storing them.
ghost use Rattle.evaluator.specs.Histories.{after_call, load};
ghost use Rattle.evaluator.specs.Stored.{LoadsAs};
ghost use Rattle.evaluator.specs.Strings.{page_count, string};
ghost use Rattle.recording.specs.Coding.{decoded, names_of, names_recorded, with_records};
ghost use Rattle.names.specs.Lists.{limit_of, listed};
ghost use Rattle.recording.specs.Writing.{all_named, encoded, named_by, recording, written};
ghost use Rattle.std.specs.Prelude.{◌≡◌, true, length, take, is_ok, IfOk, if◌then◌else◌, OnOk};

use crate::Trial;
use names::list::NameList;
use names::name::Name;
use paging::refusal::Refusal;
use recording::decode::decode;
use recording::encode::encode;
use recording::fault::LoadFault;

impl Trial {
    /// Empties the trial and the list, looks up each name of the recording, and puts its code. Returns the number of references,
    /// which is the string's length. The list then has as many names as the string has different pages.
    ///
    /// After a refusal trial and list are empty; the names added before it remain in the list's memory. What was loaded is what
    /// `store` then writes: the same bytes.
    pub fn load<N: Name + Copy>(
        &mut self,
        list: &mut NameList<N>,
        bytes: &[u8],
    ) -> Result<usize, LoadFault>
        ensures answer { result ≡ decoded N.kind N.width (length list.old.memory.now) bytes.now }
        ensures string { string self.new ≡ after_call (string self.old) (load N.kind N.width (length list.old.memory.now) bytes.now) }
        ensures counts { IfOk result (λ n. (n ≡ length (string self.new)) × (list.new.count ≡ page_count (string self.new))) }
        ensures count { list.new.count ≡ (if is_ok result then length (names_of (limit_of (length list.old.memory.now)) (names_recorded N.kind N.width bytes.now)) else 0) }
        ensures memory { list.new.memory.now ≡ with_records N.named (names_of (limit_of (length list.old.memory.now)) (names_recorded N.kind N.width bytes.now)) list.old.memory.now }
        ensures lender { list.new.memory.ghost_name ≡ list.old.memory.ghost_name }
        ensures stores { OnOk result ((recording N.kind N.width (named_by (listed N.bits list.new.memory.now list.new.count) (string self.new)) ≡ bytes.now) × (all_named (length (listed N.bits list.new.memory.now list.new.count)) (string self.new) ≡ true)) }
    {
        self.len = 0;
        let count = decode(bytes, list, &mut self.codes)?;
        self.len = count;
        Ok(count)
    }

    /// Writes the recording of the string with the names of the list. Returns the number of bytes. They load as the same row of
    /// names.
    pub fn store<N: Name + Copy>(
        &self,
        list: &NameList<N>,
        out: &mut [u8],
    ) -> Result<usize, Refusal>
        ensures answer { result ≡ encoded N.width (listed N.bits list.now.memory.now list.now.count) (string self.now) (length out.old) }
        ensures out { out.new ≡ written result (recording N.kind N.width (named_by (listed N.bits list.now.memory.now list.now.count) (string self.now))) out.old }
        ensures loads { IfOk result (λ n. LoadsAs N.kind N.width (named_by (listed N.bits list.now.memory.now list.now.count) (string self.now)) (take n out.new)) }
    {
        encode(list, &self.references(), out)
    }
}
