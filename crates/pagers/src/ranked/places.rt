//! The places that a ranking is told.
ghost use Rattle.std.specs.Prelude.{◌≡◌, ◌+◌, ◌==◌, position};
ghost use Rattle.paging.specs.Rankings.{capped, next_place as at};

/// The place that is so much later; places stop at 65,535.
pub(super) fn later(place: u16, distance: usize) -> u16
    ensures { result ≡ capped (place + distance) }
{
    usize::from(place).saturating_add(distance).min(65535) as u16
}

/// How many references stand before the next one to a code, if there is one.
fn distance(code: u8, rest: &[u8]) -> Option<usize>
    ensures { result ≡ position (λ x. x == code) rest.now }
{
    rest.iter().position(|&next| next == code)
}

/// The place of the next reference to the code at `place`, before the rest of a row, or 0 for none.
// A place as rankings are told it, where 0 is none.
pub(super) fn next_place(place: u16, code: u8, rest: &[u8]) -> u16
    ensures { result ≡ at place code rest.now }
{
    match distance(code, rest) {
        Some(between) => later(place, between + 1),
        None => 0,
    }
}
