//! A window that slides over a string.
ghost use Rattle.std.specs.Prelude.{◌≡◌, ℕ, ◌+◌, ◌<◌, ◌≤◌, length};
ghost use Rattle.evaluator.specs.WorkingSets.{Latest, Windowed};
ghost use Rattle.paging.specs.Sets.{pages};

use paging::set::PageSet;
use paging::string::References;

/// The last references of a string up to a place: their pages, and the latest place of each page.
#[derive(Drop)]
pub(super) struct Window<'s> {
    codes: &'s [u8],
    width: usize,
    place: usize,
    pub(super) set: PageSet,
    // The place from 1 of each page, or 0 for none, as everywhere: a table by code, since nothing here is allocated.
    places: [u16; 256],
    ghost few: { length codes.now ≤ 4096 },
    ghost some: { 1 ≤ width },
    ghost within: { place ≤ length codes.now },
    ghost wide: { length places ≡ 256 },
    ghost windowed: { Windowed width codes.now place (pages set) },
    ghost table: { Latest codes.now place places },
}

impl<'s> Window<'s> {
    /// The window before the first reference.
    pub(super) fn over(string: &References<'s>, width: usize) -> Window<'s>
        requires { 1 ≤ width }
        ensures codes { result.codes.now ≡ string.now }
        ensures width { result.width ≡ width }
        ensures place { result.place ≡ 0 }
    {
        Window {
            codes: string.codes(),
            width,
            place: 0,
            set: PageSet::new(),
            places: [0; 256],
        }
    }

    /// Moves on by a reference: its page comes in, and the page that the window leaves behind goes, unless it was referenced
    /// again.
    pub(super) fn slide(&mut self)
        requires { self.old.place < length self.old.codes.now }
        ensures codes { self.new.codes.now ≡ self.old.codes.now }
        ensures width { self.new.width ≡ self.old.width }
        ensures place { self.new.place ≡ self.old.place + 1 }
    {
        let t = self.place;
        let code = self.codes[t];
        self.place = t + 1;
        self.places[code as usize] = t as u16 + 1;
        slide_set(&mut self.set, &self.places, self.codes, t, self.width);
    }
}

/// Moves the set of a window on by the reference t, whose place is in the table already.
// A function of its own: where `slide` lends its set, the window's ghost fields have to hold again after the call.
fn slide_set(set: &mut PageSet, places: &[u16; 256], codes: &[u8], t: usize, width: usize)
    requires within { t < length codes.now }
    requires few { length codes.now ≤ 4096 }
    requires some { 1 ≤ width }
    requires before { Windowed width codes.now t (pages set.old) }
    requires table { Latest codes.now (t + 1) places.now }
    ensures { Windowed width codes.now (t + 1) (pages set.new) }
{
    set.insert(codes[t]);
    if t >= width {
        let left = codes[t - width];
        if places[left as usize] as usize == t - width + 1 {
            set.remove(left);
        }
    }
}
