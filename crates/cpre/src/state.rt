//! What is known at a place of a source.
ghost use Rattle.std.specs.Prelude.{◌≡◌, ◌∷◌, [], ◌++◌, IfOk, OnOk, Err};
ghost use Rattle.cpre.specs.Directive as directive;
ghost use Rattle.cpre.specs.Expansion as expansion;
ghost use Rattle.cpre.specs.Given.{Gives};
ghost use Rattle.cpre.specs.Standard.{typed};
ghost use Rattle.cpre.specs.Stated as stated;

use crate::copy::copy;
use crate::directive::{Directive, are_same, definition, directive_of, is_stdint, name_alone};
use crate::fault::ItemFault;
use crate::macros::Macros;
use crate::replace::{Place, Replacer};
use csyn::{Cause, Token};
use std::alloc::{AllocError, Global};
use std::collections::LinkedList;

/// A group that an `#ifdef` or `#ifndef` opens.
#[derive(Clone, Copy)]
pub struct Group {
    /// Whether the opening stands in a part that is kept.
    pub is_around_kept: bool,
    /// Whether this part of the group is to be kept, where what is around it is.
    pub is_chosen: bool,
    pub has_else: bool,
}

/// An `#else` or `#endif` without its opening.
fn stray(line: &[Token]) -> Result<(), ItemFault>
    ensures { (state : expansion.State) → Gives result state (expansion.stray line.now) }
{
    Err(ItemFault::Broken(if line.is_empty() {
        Cause::P5
    } else {
        Cause::P2
    }))
}

fn behind_word(line: &[Token]) -> &[Token]
    ensures { result.now ≡ expansion.behind_word line.now }
{
    match line {
        [] => line,
        [_, behind @ ..] => behind,
    }
}

#[derive(Drop)]
pub struct State<'a> {
    replacer: Replacer<'a>,
    /// Whether `<stdint.h>` is included.
    is_included: bool,
    /// The groups in which the place stands, the innermost first.
    groups: LinkedList<Group>,
}

impl<'a> State<'a> {
    pub fn new(alloc: Global) -> Self
        ensures view { stated.view result ≡ expansion.start }
        ensures settled { stated.IsSettled result }
    {
        State {
            replacer: Replacer {
                macros: Macros::new(alloc),
                frames: LinkedList::new(alloc),
                made: Vec::new(alloc),
            },
            is_included: false,
            groups: LinkedList::new(alloc),
        }
    }

    fn is_kept(&self) -> bool
        ensures { result ≡ expansion.is_kept self.now.groups }
    {
        match self.groups.front() {
            None => true,
            Some(group) => group.is_around_kept && group.is_chosen,
        }
    }

    fn define(&mut self, line: &'a [Token]) -> Result<(), ItemFault>
        requires { stated.IsSettled self.old }
        ensures gives { Gives result (stated.view self.new) (expansion.define (stated.view self.old) (directive.definition line.now)) }
        ensures settled { OnOk result (stated.IsSettled self.new) }
    {
        let Some((name, tokens)) = definition(line) else {
            return Err(ItemFault::Broken(Cause::P2));
        };
        let Some(known) = self.replacer.macros.get(name) else {
            self.replacer.macros.define(name, tokens)?;
            return Ok(());
        };
        if !are_same(known.tokens, tokens) {
            return Err(ItemFault::Broken(Cause::P3));
        }
        Ok(())
    }

    fn include(&mut self, line: &[Token]) -> Result<(), ItemFault>
        ensures gives { Gives result (stated.view self.new) (expansion.include (stated.view self.old) line.now) }
        ensures replacer { self.new.replacer ≡ self.old.replacer }
    {
        if line.is_empty() {
            return Err(ItemFault::Broken(Cause::P2));
        }
        if !is_stdint(line) {
            return Err(ItemFault::Broken(Cause::P4));
        }
        self.is_included = true;
        Ok(())
    }

    fn add_group(
        &mut self,
        is_around_kept: bool,
        is_chosen: bool,
        is_closed: bool,
    ) -> Result<(), ItemFault>
        ensures gives { expansion.is_kept self.old.groups ≡ is_around_kept
            → Gives result (stated.view self.new) (expansion.opened (stated.view self.old) is_closed is_chosen) }
        ensures replacer { self.new.replacer ≡ self.old.replacer }
    {
        if !is_closed {
            return Err(ItemFault::Broken(Cause::P6));
        }
        self.groups.push_front(Group {
            is_around_kept,
            is_chosen,
            has_else: false,
        })?;
        Ok(())
    }

    /// An opening, of which is known whether it has its `#endif`, and whether its name is to be defined or not.
    fn begin_group(
        &mut self,
        is_closed: bool,
        is_wanted: bool,
        line: &[Token],
    ) -> Result<(), ItemFault>
        ensures gives { Gives result (stated.view self.new) (expansion.begin_group (stated.view self.old) is_closed is_wanted line.now) }
        ensures replacer { self.new.replacer ≡ self.old.replacer }
    {
        if !self.is_kept() {
            return self.add_group(false, false, is_closed);
        }
        let Some(name) = name_alone(line) else {
            return Err(ItemFault::Broken(Cause::P2));
        };
        let is_defined = self.replacer.macros.get(name).is_some();
        self.add_group(
            true,
            if is_wanted { is_defined } else { !is_defined },
            is_closed,
        )
    }

    fn turn_group(&mut self, line: &[Token]) -> Result<(), ItemFault>
        ensures gives { Gives result (stated.view self.new) (expansion.turn_group (stated.view self.old) self.old.groups line.now) }
        ensures replacer { self.new.replacer ≡ self.old.replacer }
    {
        let Some(group) = self.groups.pop_front() else {
            return stray(line);
        };
        if group.is_around_kept && !line.is_empty() {
            return Err(ItemFault::Broken(Cause::P2));
        }
        if group.has_else {
            return Err(ItemFault::Broken(Cause::P5));
        }
        self.groups.push_front(Group {
            is_around_kept: group.is_around_kept,
            is_chosen: !group.is_chosen,
            has_else: true,
        })?;
        Ok(())
    }

    fn end_group(&mut self, line: &[Token]) -> Result<(), ItemFault>
        ensures gives { Gives result (stated.view self.new) (expansion.end_group (stated.view self.old) self.old.groups line.now) }
        ensures replacer { self.new.replacer ≡ self.old.replacer }
    {
        let Some(group) = self.groups.pop_front() else {
            return stray(line);
        };
        if group.is_around_kept && !line.is_empty() {
            return Err(ItemFault::Broken(Cause::P2));
        }
        Ok(())
    }

    /// A directive's line behind its `#`. Of an opening is known whether it has its `#endif`.
    pub fn directive(&mut self, line: &'a [Token], is_closed: bool) -> Result<(), ItemFault>
        requires { stated.IsSettled self.old }
        ensures gives { Gives result (stated.view self.new)
            (expansion.directed (stated.view self.old) (directive.directive_of line.now) (expansion.behind_word line.now) is_closed) }
        ensures settled { OnOk result (stated.IsSettled self.new) }
    {
        let behind = behind_word(line);
        match directive_of(line) {
            Some(Directive::Ifdef) => self.begin_group(is_closed, true, behind),
            Some(Directive::Ifndef) => self.begin_group(is_closed, false, behind),
            Some(Directive::Else) => self.turn_group(behind),
            Some(Directive::Endif) => self.end_group(behind),
            _ if !self.is_kept() => Ok(()),
            Some(Directive::Define) => self.define(behind),
            Some(Directive::Include) => self.include(behind),
            None => Err(ItemFault::Broken(Cause::P1)),
        }
    }

    /// A token outside of directives.
    pub fn token(&mut self, alloc: Global, token: &'a Token) -> Result<(), ItemFault>
        requires { stated.IsSettled self.old }
        ensures gives { Gives result (stated.view self.new) (expansion.written (stated.view self.old) token.now) }
        ensures settled { OnOk result (stated.IsSettled self.new) }
    {
        if !self.is_kept() {
            return Ok(());
        }
        let place = Place {
            span: token.span,
            is_included: self.is_included,
        };
        self.replacer.replace(alloc, place, token)
    }

    /// What has been made of the tokens, with the end token behind.
    pub fn finish(self, alloc: Global, token: &Token) -> Result<Vec<Token>, AllocError>
        ensures { IfOk result (λ made. made.items ≡ (stated.view self.entry).made ++ typed self.entry.is_included token.now ∷ []) }
    {
        let is_included = self.is_included;
        let mut made = self.into_made();
        made.push(copy(alloc, token, token.span, is_included)?)?;
        Ok(made)
    }

    /// What has been made of the tokens.
    pub fn into_made(self) -> Vec<Token>
        ensures { result.items ≡ (stated.view self.entry).made }
    {
        let State { replacer, .. } = self;
        replacer.made
    }
}
