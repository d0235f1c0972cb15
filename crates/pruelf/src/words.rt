ghost use Rattle.std.specs.Prelude.{◌≡◌, ◌<◌, ◌^◌, is_some, None, option_and_then, slice_get};
ghost use Rattle.isa.specs.Decoded.{decoded};
ghost use Rattle.pruelf.specs.Fields.{Gives, many_in};
ghost use Rattle.pruelf.specs.Parts.{instruction, word_in};

use crate::fault::{LoadCause, LoadFault};
use crate::fields::{word, wrong};
use isa::{Inst, decode};
use std::alloc::Global;

/// An instruction's word.
#[tactic(auto, unfolding(crate::specs::Fields::judged_in))]
fn instruction_word(end: usize, bytes: &[u8]) -> Result<(u32, &[u8]), LoadFault>
    requires { end < 2 ^ 31 }
    ensures { Gives (λ x. (x.0, x.1.now)) result (word_in end 0 None bytes.now) }
{
    let (number, rest) = word(end, bytes)?;
    if decode(number).is_none() {
        return Err(wrong(LoadCause::Word, end, bytes));
    }
    Ok((number, rest))
}

/// So many words of instructions.
pub fn words(
    alloc: Global,
    count: u32,
    end: usize,
    bytes: &[u8],
) -> Result<(Vec<u32>, &[u8]), LoadFault>
    requires { end < 2 ^ 31 }
    ensures { Gives (λ x. (x.0.items, x.1.now)) result (many_in (word_in end) count None bytes.now) }
{
    let mut words = Vec::new(alloc);
    let mut rest = bytes;
    'words: for _ in 0..count {
        let (number, behind) = instruction_word(end, rest)?;
        words.push(number)?;
        rest = behind;
    }
    Ok((words, rest))
}

/// The instruction that is this word of the code.
pub fn instruction(words: &[u32], word: u16) -> Option<Inst>
    ensures { result ≡ instruction words.now word }
{
    decode(*words.get(usize::from(word))?)
}
