//! Whether a text matches a pattern (ISO/IEC 9075:1992, 8.5), by octets and without memory.

ghost use Rattle.std.specs.Prelude.{◌≡◌, ◌/◌, ◌==◌};
ghost use Rattle.std.specs.List.{list_any};
ghost use Rattle.qw_types.specs.Like.{ends, fits_pattern};
ghost use Rattle.qw_types.specs.Inner.Like.{Tells};

/// How far a text goes with a pattern, up to the pattern's next `%`.
enum Taken<'a> {
    /// A `%` is next: what is behind it, and what is left of the text.
    Run(&'a [u8], &'a [u8]),
    /// Both were taken to their ends.
    Whole,
    /// An octet of the text isn't the pattern's, or the text has more of them.
    Differs,
    /// The text ended before the pattern.
    Short,
}

/// Whether a text as a whole matches a pattern, in which `%` stands for any run of characters and `_` for any one.
///
/// Both are UTF-8. Takes time at most in proportion to the octets of the text times those of the pattern.
#[tactic(auto, using(crate::proofs::LikeTaking::short_end))]
pub fn is_like(text: &[u8], pattern: &[u8]) -> bool
    ensures { result ≡ fits_pattern pattern.now text.now }
{
    match take(pattern, text) {
        Taken::Run(rest, left) => is_end_like(left, rest),
        Taken::Whole => true,
        Taken::Differs | Taken::Short => false,
    }
}

/// Whether some end of a text matches a pattern. Where an end goes as far as a `%`, no later one goes farther, so it alone goes on.
#[tactic(auto, using(crate::proofs::LikeTaking::any_end, crate::proofs::LikeTaking::no_end, crate::proofs::LikeTaking::next_end, crate::proofs::LikeTaking::whole_end))]
fn is_end_like(text: &[u8], pattern: &[u8]) -> bool
    ensures { result ≡ list_any (fits_pattern pattern.now) (ends text.now) }
{
    let mut end = text;
    let mut behind_run = pattern;
    while !behind_run.is_empty() {
        match take(behind_run, end) {
            Taken::Run(rest, left) => {
                behind_run = rest;
                end = left;
            }
            Taken::Whole => return true,
            Taken::Short => return false,
            Taken::Differs => match end.split_first() {
                None => return false,
                Some((_, later)) => end = later,
            },
        }
    }
    true
}

/// Takes the octets of a pattern up to its next `%`, each from the text.
#[tactic(auto, using(crate::proofs::LikeTaking::goes_first, crate::proofs::LikeTaking::goes_apart, crate::proofs::LikeTaking::goes_short))]
fn take<'a>(pattern: &'a [u8], text: &'a [u8]) -> Taken<'a>
    ensures { Tells result pattern.now text.now }
{
    let mut pattern_left = pattern;
    let mut text_left = text;
    while let Some((wanted, rest)) = pattern_left.split_first() {
        if *wanted == b'%' {
            return Taken::Run(rest, text_left);
        }
        let Some((octet, left)) = text_left.split_first() else {
            return Taken::Short;
        };
        if !takes(*wanted, *octet) {
            return Taken::Differs;
        }
        pattern_left = rest;
        text_left = onward(*wanted, left);
    }
    if text_left.is_empty() {
        Taken::Whole
    } else {
        Taken::Differs
    }
}

/// Whether an octet of a pattern that isn't `%` takes one of a text.
fn takes(wanted: u8, octet: u8) -> bool
    ensures { result ≡ Rattle.qw_types.specs.Like.takes wanted octet }
{
    if wanted == b'_' {
        !continues(octet)
    } else {
        wanted == octet
    }
}

/// What is left of a text behind an octet that was taken.
fn onward(wanted: u8, text: &[u8]) -> &[u8]
    ensures { result.now ≡ Rattle.qw_types.specs.Like.onward wanted text.now }
{
    if wanted == b'_' { behind(text) } else { text }
}

/// What is left of a text behind the octets that continue a character.
#[tactic(auto, using(crate::proofs::LikeTaking::behind_next, crate::proofs::LikeTaking::behind_here, crate::proofs::LikeTaking::behind_none))]
fn behind(text: &[u8]) -> &[u8]
    ensures { result.now ≡ Rattle.qw_types.specs.Like.behind text.now }
{
    let mut rest = text;
    while let Some((octet, left)) = rest.split_first() {
        if !continues(*octet) {
            return rest;
        }
        rest = left;
    }
    rest
}

/// Whether an octet continues a character of UTF-8.
fn continues(octet: u8) -> bool
    ensures { result ≡ Rattle.qw_types.specs.Like.continues octet }
{
    octet / 64 == 2
}
