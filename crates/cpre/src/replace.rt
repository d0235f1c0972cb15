//! Names replaced by the tokens of their macros.
ghost use Rattle.std.specs.Prelude.{◌≡◌, ◌+◌, ◌≤◌, [], ◌∷◌, ◌++◌, length, Some, OnOk, IfErr, IsOkUnless};
ghost use Rattle.cpre.specs.Held as held;
ghost use Rattle.cpre.specs.Fate as fates;
ghost use Rattle.cpre.specs.Replacement.{at};
ghost use Rattle.cpre.specs.Replacing as replacing;
ghost use Rattle.cpre.specs.Standard.{typed};

use crate::copy::copy;
use crate::directive::name_of;
use crate::fault::ItemFault;
use crate::macros::{Macro, Macros, Stage};
use csyn::{Cause, MAX_TOKENS, Span, Token};
use std::alloc::Global;
use std::collections::LinkedList;

/// A name that is being replaced.
#[derive(Clone, Copy)]
pub struct Frame<'a> {
    pub name: &'a [u8],
    pub tokens: &'a [Token],
    /// Those of its tokens that are still to be taken.
    pub rest: &'a [Token],
}

/// Where a name stands in the source.
#[derive(Clone, Copy)]
pub struct Place {
    pub span: Span,
    /// Whether it stands behind an include of `<stdint.h>`.
    pub is_included: bool,
}

/// The names that are being replaced, the innermost first, and what has been made of tokens so far.
#[derive(Drop)]
pub struct Replacer<'a> {
    pub macros: Macros<'a>,
    pub frames: LinkedList<Frame<'a>>,
    pub made: Vec<Token>,
}

/// What becomes of a token.
#[derive(Clone, Copy)]
enum Fate<'a> {
    /// It stays.
    Stays,
    /// Nothing comes of it.
    Goes,
    /// It is a name, which is replaced by these tokens.
    Opens(&'a [u8], &'a [Token]),
}

impl<'a> Replacer<'a> {
    /// Adds a copy of a token.
    fn write(&mut self, alloc: Global, place: Place, token: &Token) -> Result<(), ItemFault>
        ensures made { OnOk result (self.new.made.items ≡ self.old.made.items ++ typed place.is_included (at place.span token.now) ∷ []) }
        ensures few { OnOk result (length self.new.made.items ≤ MAX_TOKENS) }
        ensures frames { self.new.frames ≡ self.old.frames }
        ensures macros { self.new.macros ≡ self.old.macros }
        ensures err { IfErr result (replacing.Overflows (length self.old.made.items + 1)) }
    {
        if self.made.len() >= MAX_TOKENS as usize {
            return Err(ItemFault::Broken(Cause::P7));
        }
        self.made
            .push(copy(alloc, token, place.span, place.is_included)?)?;
        Ok(())
    }

    fn fate(&self, token: &'a Token) -> Fate<'a>
        requires { replacing.IsSound self.now.macros self.now.frames }
        ensures { fates.Becomes self.now token.entry.now result }
    {
        match name_of(&token.kind) {
            None => Fate::Stays,
            Some(name) => match self.macros.get(name) {
                None => Fate::Stays,
                Some(known) => match known.stage {
                    Stage::Idle => Fate::Opens(name, known.tokens),
                    Stage::Open => Fate::Stays,
                    Stage::Nothing => Fate::Goes,
                },
            },
        }
    }

    fn enter(&mut self, name: &'a [u8], tokens: &'a [Token]) -> Result<(), ItemFault>
        requires sound { replacing.IsSound self.old.macros self.old.frames }
        requires idle { held.found self.old.macros name.now ≡ Some (record { tokens = tokens; stage = Stage.Idle }) }
        ensures keeps { OnOk result (replacing.Keeps self.old.macros self.new.macros self.new.frames) }
        ensures frames { OnOk result (self.new.frames
            ≡ record { name = name.entry; tokens = tokens.entry; rest = tokens.entry } ∷ self.old.frames) }
        ensures made { self.new.made ≡ self.old.made }
        ensures memory { IsOkUnless result ItemFault.Memory }
    {
        self.macros.set_stage(name, tokens, Stage::Open)?;
        self.frames.push_front(Frame {
            name,
            tokens,
            rest: tokens,
        })?;
        Ok(())
    }

    /// Takes a token: it goes to what is made, or is a name to be replaced.
    fn take(&mut self, alloc: Global, place: Place, token: &'a Token) -> Result<(), ItemFault>
        requires { replacing.IsSound self.old.macros self.old.frames }
        ensures takes { OnOk result (replacing.Takes place token.entry.now self.old self.new) }
        ensures few { OnOk result (length self.old.made.items ≤ MAX_TOKENS → length self.new.made.items ≤ MAX_TOKENS) }
        ensures err { IfErr result (replacing.Overflows (length self.old.made.items
            + length (replacing.become (replacing.hide (replacing.names self.old.frames) (held.macros_of self.old.macros)) place
            token.entry.now))) }
    {
        match self.fate(token) {
            Fate::Stays => self.write(alloc, place, token),
            Fate::Goes => Ok(()),
            Fate::Opens(name, tokens) => self.enter(name, tokens),
        }
    }

    fn is_nothing(&self, token: &Token) -> bool
        ensures { result ≡ replacing.is_nothing self.now.macros token.now }
    {
        let Some(name) = name_of(&token.kind) else {
            return false;
        };
        matches!(
            self.macros.get(name),
            Some(Macro {
                stage: Stage::Nothing,
                ..
            })
        )
    }

    /// Nothing comes of a macro all of whose tokens are names of which nothing comes. So they are not gone through again.
    fn stage_behind(&self, tokens: &[Token]) -> Stage
        ensures { result ≡ replacing.stage_behind self.now.macros tokens.now }
    {
        let mut rest = tokens;
        while let [token, behind @ ..] = rest {
            if !self.is_nothing(token) {
                return Stage::Idle;
            }
            rest = behind;
        }
        Stage::Nothing
    }

    fn leave(&mut self, frame: Frame<'a>) -> Result<(), ItemFault>
        requires { replacing.IsSound self.old.macros (frame ∷ self.old.frames) }
        ensures keeps { OnOk result (replacing.Keeps self.old.macros self.new.macros self.new.frames) }
        ensures frames { self.new.frames ≡ self.old.frames }
        ensures made { self.new.made ≡ self.old.made }
        ensures memory { IsOkUnless result ItemFault.Memory }
    {
        let stage = self.stage_behind(frame.tokens);
        self.macros.set_stage(frame.name, frame.tokens, stage)?;
        Ok(())
    }

    /// Takes the next token of a frame, or leaves the frame, if there is none.
    fn step(&mut self, alloc: Global, place: Place, frame: Frame<'a>) -> Result<(), ItemFault>
        requires { replacing.IsSound self.old.macros (frame ∷ self.old.frames) }
        ensures steps { OnOk result (replacing.Steps place frame.entry self.old self.new) }
        ensures few { OnOk result (length self.old.made.items ≤ MAX_TOKENS → length self.new.made.items ≤ MAX_TOKENS) }
        ensures err { IfErr result (replacing.Overflows (length (self.old.made.items
            ++ replacing.coming (held.macros_of self.old.macros) place (frame.entry ∷ self.old.frames)))) }
    {
        match frame.rest {
            [] => self.leave(frame),
            [first, rest @ ..] => {
                self.frames.push_front(Frame {
                    name: frame.name,
                    tokens: frame.tokens,
                    rest,
                })?;
                self.take(alloc, place, first)
            }
        }
    }

    /// Replaces a token of the source, if it is a name to be replaced, and adds what comes of it.
    pub fn replace(
        &mut self,
        alloc: Global,
        place: Place,
        token: &'a Token,
    ) -> Result<(), ItemFault>
        requires sound { replacing.IsSound self.old.macros [] }
        requires none { self.old.frames ≡ [] }
        requires few { length self.old.made.items ≤ MAX_TOKENS }
        ensures keeps { OnOk result (replacing.Keeps self.old.macros self.new.macros []) }
        ensures none { OnOk result (self.new.frames ≡ []) }
        ensures made { OnOk result (self.new.made.items
            ≡ self.old.made.items ++ replacing.become (held.macros_of self.old.macros) place token.entry.now) }
        ensures few { OnOk result (length self.new.made.items ≤ MAX_TOKENS) }
        ensures err { IfErr result (replacing.Overflows (length (self.old.made.items
            ++ replacing.become (held.macros_of self.old.macros) place token.entry.now))) }
    {
        self.take(alloc, place, token)?;
        while let Some(frame) = self.frames.pop_front() {
            self.step(alloc, place, frame)?;
        }
        Ok(())
    }
}
