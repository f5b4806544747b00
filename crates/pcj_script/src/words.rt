ghost use Rattle.std.specs.Prelude.{◌≡◌, ◌∷◌, [], false, IfSome, IfNone};
ghost use Rattle.pcj_term.specs.Reading.{begins_with};
ghost use Rattle.pcj_script.specs.Words.{words_of};
ghost use Rattle.pcj_script.specs.Reading.{HasWords};

use memchr::memchr;

/// The words of a line, as far as any command has so many.
#[derive(Clone, Copy)]
pub(crate) enum Words<'a> {
    Zero,
    One(&'a [u8]),
    Two(&'a [u8], &'a [u8]),
    Three(&'a [u8], &'a [u8], &'a [u8]),
    More,
}

impl<'a> Words<'a> {
    /// The words of a line.
    pub(crate) fn of(line: &'a [u8]) -> Words<'a>
        ensures { HasWords (words_of line.now) result }
    {
        let Some((first, rest)) = first_word(line) else {
            return Words::Zero;
        };
        let Some((second, rest)) = first_word(rest) else {
            return Words::One(first);
        };
        let Some((third, rest)) = first_word(rest) else {
            return Words::Two(first, second);
        };
        match first_word(rest) {
            None => Words::Three(first, second, third),
            Some(_) => Words::More,
        }
    }
}

/// The first word of a line, and what follows it.
fn first_word(line: &[u8]) -> Option<(&[u8], &[u8])>
    ensures some { IfSome result (λ found. words_of line.now ≡ found.0.now ∷ words_of found.1.now) }
    ensures none { IfNone result (words_of line.now ≡ []) }
{
    let from = skip_spaces(line);
    if from.is_empty() {
        return None;
    }
    let end = memchr(b' ', from).unwrap_or(from.len());
    Some(from.split_at(end))
}

/// The line without the spaces at its front.
fn skip_spaces(line: &[u8]) -> &[u8]
    ensures words { words_of result.now ≡ words_of line.now }
    ensures past { begins_with 32 result.now ≡ false }
{
    let mut rest = line;
    while let [b' ', after @ ..] = rest {
        rest = after;
    }
    rest
}
