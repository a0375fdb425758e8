//! Recordings against bits that are written one by one.
use crate::comparisons::Comparisons;
use crate::tally::holds_then;
use evaluator::Trial;
use names::list::NameList;
use names::name::{Name, Page, TaskPage};
use recording::fault::{Layer, LoadFault};
use std::alloc::{AllocError, Global};
use std::collections::BTreeMap;

/// What stands in memory before a recording is written.
const FILL: u8 = 0xC3;

/// How names of a kind stand in a recording.
pub trait Recorded: Name + Copy {
    /// The kind's number.
    const KIND: usize;
    /// How many bits a name has.
    const WIDTH: u32;
}

impl Recorded for Page {
    const KIND: usize = 0;

    const WIDTH: u32 = 12;
}

impl Recorded for TaskPage {
    const KIND: usize = 1;

    const WIDTH: u32 = 16;
}

/// Adds the low bits of a number, the highest first.
fn add_bits(bits: &mut Vec<bool>, number: usize, width: u32) -> Result<(), AllocError> {
    let places = (0..width.min(64)).rev();
    bits.extend(places.map(|k| number >> k & 1 == 1))
}

/// At most eight bits as a byte, filled up with zero bits.
fn byte_of(bits: &[bool]) -> u8 {
    let values = [128, 64, 32, 16, 8, 4, 2, 1];
    let set = bits.iter().zip(values).filter(|(bit, _)| **bit);
    set.fold(0, |byte, (_, value)| byte | value)
}

/// A recording of names.
fn recording_of<N: Recorded>(heap: Global, names: &[usize]) -> Result<Vec<u8>, AllocError> {
    let mut bits = Vec::new(heap);
    add_bits(&mut bits, 1, 4)?;
    add_bits(&mut bits, N::KIND, 2)?;
    add_bits(&mut bits, 0, 2)?;
    add_bits(&mut bits, names.len(), 16)?;
    for name in names {
        add_bits(&mut bits, *name, N::WIDTH)?;
    }
    bits.chunks(8).map(byte_of).collect(heap)
}

/// The names that codes stand for, all different.
fn names_for<N: Recorded>(heap: Global, string: &[u8]) -> Result<Vec<usize>, AllocError> {
    let limit = 1usize.checked_shl(N::WIDTH).unwrap_or(usize::MAX);
    string
        .iter()
        .map(|code| (*code as usize * 1001 + 77) % limit)
        .collect(heap)
}

/// For each name how many different names stand before its first place, and how many different names there are.
fn codes_for(heap: Global, names: &[usize]) -> Result<(Vec<usize>, usize), AllocError> {
    let mut known = BTreeMap::new(heap);
    let mut codes = Vec::new(heap);
    for name in names {
        let next = known.len();
        codes.push(*known.entry(*name)?.or_insert(next))?;
    }
    Ok((codes, known.len()))
}

/// A load's answer, with the refusal's number.
fn numbered(answer: Result<usize, LoadFault>) -> Result<usize, (u8, Layer, usize)> {
    answer.map_err(|fault| (fault.refusal.number(), fault.layer, fault.place))
}

impl Comparisons {
    /// Loads a recording into a list of so many places, and stores it again.
    fn compare_recording<N: Recorded>(
        &mut self,
        list: &mut NameList<N>,
        places: usize,
        names: &[usize],
    ) -> Result<(), AllocError> {
        let bytes = recording_of::<N>(self.heap, names)?;
        let (codes, different) = codes_for(self.heap, names)?;
        let mut trial = Trial::new();
        let answer = numbered(trial.load(list, &bytes));
        if let Some(before) = codes.iter().position(|code| *code >= places) {
            self.recordings
                .compare(answer, Err((6, Layer::Names, before + 1)));
            self.recordings.compare((trial.len(), list.len()), (0, 0));
            return Ok(());
        }
        self.recordings
            .compare((answer, list.len()), (Ok(names.len()), different));
        let loaded = trial.codes().iter().map(|code| *code as usize);
        self.recordings.note(trial.len() == names.len() && loaded.eq(codes.iter().copied()));
        self.recordings
            .compare_written(self.heap, FILL, 2, &bytes, |memory| {
                trial.store(list, memory)
            })
    }

    /// Recordings of one kind of name, in provided memory.
    fn compare_kind<N: Recorded>(
        &mut self,
        memory: &mut [N],
        string: &[u8],
    ) -> Result<(), AllocError> {
        let places = memory.len();
        let names = names_for::<N>(self.heap, string)?;
        self.compare_recording(&mut NameList::over(memory), places, &names)
    }

    /// Recordings of both kinds, in enough memory and in little.
    pub fn compare_kinds(&mut self, string: &[u8]) -> Result<(), AllocError> {
        self.compare_kind(&mut [Page { page: 0 }; 256], string)?;
        self.compare_kind(&mut [Page { page: 9 }; 30], string)?;
        self.compare_kind(&mut [TaskPage { task: 0, page: 0 }; 300], string)?;
        self.compare_kind(&mut [TaskPage { task: 3, page: 9 }; 2], string)
    }
}

/// Bytes that are no recording, and how they are refused.
#[derive(Clone, Copy)]
struct Bad {
    /// The bytes.
    bytes: &'static [u8],
    // A number, since that is what callers see and what is compared.
    /// The refusal's number.
    number: u8,
    /// Where they are refused.
    place: usize,
}

/// Bytes that are no recording of bare page numbers.
const BAD_PAGES: [Bad; 10] = [
    Bad {
        bytes: b"",
        number: 1,
        place: 0,
    },
    Bad {
        bytes: b"\x20\xff",
        number: 1,
        place: 2,
    },
    Bad {
        bytes: b"\x20\xff\xff",
        number: 2,
        place: 0,
    },
    Bad {
        bytes: b"\x14\x00\x00",
        number: 2,
        place: 0,
    },
    Bad {
        bytes: b"\x11\x00\x00",
        number: 2,
        place: 0,
    },
    Bad {
        bytes: b"\x10\x10\x01",
        number: 3,
        place: 1,
    },
    Bad {
        bytes: b"\x10\x10\x00",
        number: 4,
        place: 3,
    },
    Bad {
        bytes: b"\x10\x00\x00\x00",
        number: 4,
        place: 3,
    },
    Bad {
        bytes: b"\x10\x00\x01\x00",
        number: 4,
        place: 4,
    },
    Bad {
        bytes: b"\x10\x00\x01\x00\x01",
        number: 5,
        place: 4,
    },
];

/// Bytes that are no recording of tasks' pages.
const BAD_TASKS: [Bad; 4] = [
    Bad {
        bytes: b"\x14\x00",
        number: 1,
        place: 2,
    },
    Bad {
        bytes: b"\x10\x00\x00",
        number: 2,
        place: 0,
    },
    Bad {
        bytes: b"\x14\xff\xff",
        number: 3,
        place: 1,
    },
    Bad {
        bytes: b"\x14\x00\x02\x00\x00\x00",
        number: 4,
        place: 6,
    },
];

impl Comparisons {
    /// Loads bytes that are no recording, and stores a string that has no names.
    fn compare_bad<N: Recorded>(&mut self, trial: &mut Trial, list: &mut NameList<N>, bad: Bad) {
        let answer = numbered(trial.load(list, bad.bytes));
        self.recordings
            .compare(answer, Err((bad.number, Layer::Bytes, bad.place)));
        self.recordings.compare((trial.len(), list.len()), (0, 0));
        let _ = trial.put(0);
        let mut memory = [FILL; 9];
        self.recordings
            .compare_answer(trial.store(list, &mut memory), Err(16));
        self.recordings.note(holds_then(&memory, &[], FILL));
    }

    /// A table of bytes that are no recording.
    fn compare_bad_table<N: Recorded>(&mut self, memory: &mut [N], table: &[Bad]) {
        let mut list = NameList::over(memory);
        let mut trial = Trial::new();
        for bad in table {
            self.compare_bad(&mut trial, &mut list, *bad);
        }
    }

    /// Bytes that are no recording of a kind.
    pub fn compare_bad_bytes(&mut self) {
        self.compare_bad_table(&mut [Page { page: 0 }; 4], &BAD_PAGES);
        self.compare_bad_table(&mut [TaskPage { task: 0, page: 0 }; 4], &BAD_TASKS);
    }
}
