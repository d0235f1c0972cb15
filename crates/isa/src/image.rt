//! What a core is loaded with.

ghost use Rattle.std.specs.Prelude.{◌≡◌, ◌↔◌, IsTrue, All, IsSome, length};
ghost use Rattle.isa.specs.Decoded.{decoded};
ghost use Rattle.isa.specs.Image.{IsImage, IsPlaced};
ghost use Rattle.isa.specs.Note.{Stands, AreOrdered, is_before};

use crate::decoding::decode;
use crate::note::Note;
use std::marker::Model;

/// A core's words and data. The data stands in its own RAM from `data_at` on: the bytes of `init`, and then `zero`
/// bytes 0.
#[derive(Debug, Drop)]
pub struct Image {
    words: Vec<u32>,
    data_at: u32,
    init: Vec<u8>,
    zero: u32,
    notes: Vec<Note>,
}

impl Model for Image {
    ghost use Rattle.isa.specs.Image.{Contents, IsImage};

    ghost Value = { Contents };

    ghost view = { λ a. record { words = a.words.items; data_at = a.data_at; init = a.init.items; zero = a.zero; notes = a.notes.items } };

    ghost invariant = { λ a. IsImage (record {
      words = a.words.items;
      data_at = a.data_at;
      init = a.init.items;
      zero = a.zero;
      notes = a.notes.items;
    }) };
}

impl Image {
    /// The image of these parts.
    pub fn new(words: Vec<u32>, data_at: u32, init: Vec<u8>, zero: u32, notes: Vec<Note>) -> Image
        requires { IsImage (record { words = words.items; data_at = data_at; init = init.items; zero = zero; notes = notes.items }) }
        ensures { result ≡ record { words = words.items; data_at = data_at; init = init.items; zero = zero; notes = notes.items } }
    {
        Image {
            words,
            data_at,
            init,
            zero,
            notes,
        }
    }

    /// At most 2,048 words, each of which decodes.
    pub fn words(&self) -> &[u32]
        ensures value { result.now ≡ self.now.words }
        ensures image { IsImage self.now }
    {
        self.words.as_slice()
    }

    /// Where the data begins: a multiple of 4 from 0x10 to 0x1dfc.
    pub fn data_at(&self) -> u32
        ensures value { result ≡ self.now.data_at }
        ensures image { IsImage self.now }
    {
        self.data_at
    }

    /// The data's first bytes.
    pub fn init(&self) -> &[u8]
        ensures value { result.now ≡ self.now.init }
        ensures image { IsImage self.now }
    {
        self.init.as_slice()
    }

    /// How many bytes 0 follow them, to 0x1e00 at most.
    pub fn zero(&self) -> u32
        ensures value { result ≡ self.now.zero }
        ensures image { IsImage self.now }
    {
        self.zero
    }

    /// The notes, by word and then by kind.
    pub fn notes(&self) -> &[Note]
        ensures value { result.now ≡ self.now.notes }
        ensures image { IsImage self.now }
    {
        self.notes.as_slice()
    }
}

/// Whether these are the parts of an image.
pub fn is_image(words: &[u32], data_at: u32, init: &[u8], zero: u32, notes: &[Note]) -> bool
    ensures { IsTrue result ↔ IsImage (record { words = words.now; data_at = data_at; init = init.now; zero = zero; notes = notes.now }) }
{
    words.len() <= 2048
        && all_decode(words)
        && is_placed(data_at, init.len(), zero)
        && all_stand(words, notes)
        && are_ordered(notes)
}

/// Whether data of so many bytes, and zeros behind them, may begin at `at`.
pub fn is_placed(at: u32, init: usize, zero: u32) -> bool
    ensures { IsTrue result ↔ IsPlaced at init zero }
{
    let room = 0x1e00u32.saturating_sub(at) as usize;
    at % 4 == 0 && 0x10 <= at && at <= 0x1dfc && init <= room && zero as usize <= room - init
}

fn all_decode(words: &[u32]) -> bool
    ensures { IsTrue result ↔ All (λ w. IsSome (decoded w)) words.now }
{
    words.iter().all(|w| decode(*w).is_some())
}

fn all_stand(words: &[u32], notes: &[Note]) -> bool
    ensures { IsTrue result ↔ All (Stands words.now) notes.now }
{
    notes.iter().all(|n| stands(words, n))
}

/// Whether the note may stand where it does.
pub fn stands(words: &[u32], n: &Note) -> bool
    ensures { IsTrue result ↔ Stands words.now n.now }
{
    let Some(w) = words.get(usize::from(n.word)) else {
        return false;
    };
    n.kind.allows(n.value) && decode(*w).is_some_and(|i| n.kind.may_stand(n.word, &i))
}

/// Whether each note stands before the next.
pub fn are_ordered(notes: &[Note]) -> bool
    ensures { IsTrue result ↔ AreOrdered notes.now }
{
    let mut rest = notes;
    while let [m, behind @ ..] = rest {
        if let [n, ..] = behind
            && !is_before(m, n)
        {
            return false;
        }
        rest = behind;
    }
    true
}

fn is_before(m: &Note, n: &Note) -> bool
    ensures { result ≡ is_before m.now n.now }
{
    m.word < n.word || (m.word == n.word && m.kind.number() < n.kind.number())
}
