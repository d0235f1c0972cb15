ghost use Rattle.std.specs.Prelude.{◌≡◌, ◌≤◌, ℕ, IfOk, MatchOption, map};
ghost use Rattle.std.specs.Fmt.{decimal};
ghost use Rattle.cmdwords.specs.Asks.{Said, MayStand, word_of};
ghost use Rattle.cmdwords.specs.Given.{Fills, said};

use crate::place::Place;
use std::alloc::{AllocError, Global};

/// What a word says at its place.
#[derive(Clone, Copy, Debug, PartialEq, Eq)]
pub enum Value<'a> {
    File(&'a str),
    Number(u32),
}

/// The number from `least` to `most` that a word says in decimal, without sign or leading zeros.
fn number(alloc: Global, least: u32, most: u32, word: &str) -> Result<Option<u32>, AllocError>
    ensures { IfOk result (λ o. MatchOption o ((n : ℕ) → least ≤ n → n ≤ most → decimal n ≡ word.now → ⊥)
        (λ n. (least ≤ n) × (n ≤ most) × (decimal n ≡ word.now))) }
{
    let Ok(number) = word.parse::<u32>() else {
        return Ok(None);
    };
    if number < least {
        return Ok(None);
    }
    if number > most {
        return Ok(None);
    }
    // A sign or a leading zero is not printed again.
    let text = number.to_string(alloc)?;
    if text.as_str() != word {
        return Ok(None);
    }
    Ok(Some(number))
}

/// What the word says at the place, if it may stand there.
fn said_at<'a>(alloc: Global, place: Place, word: &'a str) -> Result<Option<Value<'a>>, AllocError>
    ensures { IfOk result (λ o. MatchOption o ((s : Said) → MayStand place s → word_of s ≡ word.entry.now → ⊥)
        (λ v. MayStand place (said v) × (word_of (said v) ≡ word.entry.now))) }
{
    match place {
        Place::File => Ok(Some(Value::File(word))),
        Place::Number { least, most } => match number(alloc, least, most, word)? {
            Some(number) => Ok(Some(Value::Number(number))),
            None => Ok(None),
        },
    }
}

/// What the words say at the places, if they have their number and each may stand at its place.
pub(crate) fn values<'a>(
    alloc: Global,
    places: &[Place],
    words: &[&'a str],
) -> Result<Option<Vec<Value<'a>>>, AllocError>
    ensures { IfOk result (Fills places.now (map (λ w. w.now) words.now)) }
{
    if places.len() != words.len() {
        return Ok(None);
    }
    let mut values = Vec::new(alloc);
    for (place, word) in places.iter().zip(words) {
        let Some(value) = said_at(alloc, *place, *word)? else {
            return Ok(None);
        };
        values.push(value)?;
    }
    Ok(Some(values))
}
