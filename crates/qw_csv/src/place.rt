//! Where a text ends that isn't whole yet: whether its last line end ends a record.

ghost use Rattle.std.specs.Prelude.{◌≡◌, ◌≢◌, ◌⊎◌, ◌<◌, ◌≤◌, ◌+◌, ◌-◌, ◌++◌, ◌∷◌, ℕ, [], length, take};
ghost use Rattle.csv.specs.Machine.{step};
ghost use Rattle.csv.specs.Reading.{default_config};
ghost use Rattle.csv.specs.declared.parser.State.{State};
ghost use Rattle.csv.specs.declared.parser.State.TheVariants.{StartRecord};
ghost use Rattle.qw_csv.specs.Inner.Place.{HasNoQuote, IsAt, after};

use memchr::{memchr, memrchr};

/// Where a text ends among the fields of its records.
#[derive(Clone, Copy, Debug, PartialEq, Eq)]
pub(crate) enum Place {
    /// Where a field begins.
    Fresh,
    /// In a field, after the first octet.
    Within,
    /// Between quotes.
    Quoted,
    /// Behind a quote that ends a quoted field, or is the first of two.
    Unquoted,
}

/// The place after one more octet.
fn next_place(place: Place, octet: u8) -> Place
    ensures { (state : State) → IsAt state place → IsAt (step default_config state octet).0 result }
{
    match place {
        Place::Quoted if octet == b'"' => Place::Unquoted,
        Place::Quoted => Place::Quoted,
        Place::Fresh | Place::Unquoted if octet == b'"' => Place::Quoted,
        _ if octet == b',' || octet == b'\n' || octet == b'\r' => Place::Fresh,
        _ => Place::Within,
    }
}

/// What came of a text: where it ends, and how much of it is whole records, up to the line end behind the last of them.
#[derive(Clone, Copy, Debug)]
pub(crate) struct Scanned {
    pub(crate) place: Place,
    pub(crate) whole: usize,
}

/// The same after one more octet, which is at this index of the text.
fn scanned_one(scanned: Scanned, index: usize, octet: u8) -> Scanned
    requires { index < 18446744073709551615 }
    ensures place { (state : State) → IsAt state scanned.place → IsAt (step default_config state octet).0 result.place }
    ensures whole { (result.whole ≡ scanned.whole) ⊎ ((result.whole ≡ index + 1) × (octet ≡ 10) × (scanned.place ≢ Place.Quoted)) }
{
    let place = next_place(scanned.place, octet);
    if octet == b'\n' && scanned.place != Place::Quoted {
        return Scanned {
            place,
            whole: index + 1,
        };
    }
    Scanned {
        place,
        whole: scanned.whole,
    }
}

/// Follows a text from a place on.
pub(crate) fn scan(place: Place, text: &[u8]) -> Scanned
    ensures place { (state : State) → IsAt state place → IsAt (after state text.now) result.place }
    ensures within { result.whole ≤ length text.now }
    ensures whole { (state : State) → IsAt state place → 0 < result.whole → after state (take result.whole text.now) ≡ StartRecord }
{
    if place != Place::Quoted && memchr(b'"', text).is_none() {
        return scan_plain(place, text);
    }
    scan_each(place, text)
}

/// The same, octet by octet.
fn scan_each(place: Place, text: &[u8]) -> Scanned
    ensures place { (state : State) → IsAt state place → IsAt (after state text.now) result.place }
    ensures within { result.whole ≤ length text.now }
    ensures whole { (state : State) → IsAt state place → 0 < result.whole → after state (take result.whole text.now) ≡ StartRecord }
{
    let mut scanned = Scanned { place, whole: 0 };
    for index in 0..text.len() {
        let octet = text[index];
        scanned = scanned_one(scanned, index, octet);
    }
    scanned
}

/// The same of a text that has no quote, from where none is open: each line end ends a record.
fn scan_plain(place: Place, text: &[u8]) -> Scanned
    requires free { place ≢ Place.Quoted }
    requires plain { HasNoQuote text.now }
    ensures place { (state : State) → IsAt state place → IsAt (after state text.now) result.place }
    ensures within { result.whole ≤ length text.now }
    ensures whole { (state : State) → IsAt state place → 0 < result.whole → after state (take result.whole text.now) ≡ StartRecord }
{
    let whole = line_ends(text);
    if text.is_empty() {
        return Scanned { place, whole };
    }
    let last = text[text.len() - 1];
    Scanned {
        place: next_place(Place::Within, last),
        whole,
    }
}

/// Where the last line end ends, 0 where there is none.
fn line_ends(text: &[u8]) -> usize
    ensures within { result ≤ length text.now }
    ensures line { 0 < result → take result text.now ≡ take (result - 1) text.now ++ 10 ∷ [] }
{
    match memrchr(b'\n', text) {
        Some(index) => index + 1,
        None => 0,
    }
}

/// How many fields of a record have ended behind a text that goes on with it from a place, where so many had before; none behind a
/// carriage return outside quotes, which may end the record.
pub(crate) fn fields_ended(start: Place, before: Option<usize>, text: &[u8]) -> Option<usize> {
    let mut place = start;
    let mut ended = before?;
    for octet in text {
        if place != Place::Quoted && *octet == b'\r' {
            return None;
        }
        if place != Place::Quoted && *octet == b',' {
            ended = ended.saturating_add(1);
        }
        place = next_place(place, *octet);
    }
    Some(ended)
}
