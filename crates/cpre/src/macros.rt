//! The macros that are defined.
ghost use Rattle.std.specs.Prelude.{◌≡◌, ℕ, List, [], ◌∷◌, ◌++◌, None, Some, OnOk};
ghost use Rattle.std.specs.Option.{option_map};
ghost use Rattle.cpre.specs.Replacement.{definition_of};
ghost use Rattle.cpre.specs.Held as held;

use csyn::Token;
use indexmap::IndexMap;
use std::alloc::{AllocError, Global};

/// How far a macro's replacement is.
#[derive(Clone, Copy)]
pub enum Stage {
    Idle,
    /// It is being replaced, so its name stays.
    Open,
    /// Nothing comes of it, whatever else is defined.
    Nothing,
}

#[derive(Clone, Copy)]
pub struct Macro<'a> {
    pub tokens: &'a [Token],
    pub stage: Stage,
}

#[derive(Drop)]
pub struct Macros<'a> {
    by_name: IndexMap<&'a [u8], Macro<'a>>,
}

impl<'a> Macros<'a> {
    pub fn new(alloc: Global) -> Self
        ensures { held.macros_of result ≡ [] }
    {
        Macros {
            by_name: IndexMap::new(alloc),
        }
    }

    pub fn get(&self, name: &[u8]) -> Option<Macro<'a>>
        ensures found { result ≡ held.found self.now name.now }
        ensures definition { definition_of (held.macros_of self.now) name.now ≡ option_map (λ m. m.tokens.now) result }
    {
        self.by_name.get(name).copied()
    }

    /// Adds a macro.
    pub fn define(&mut self, name: &'a [u8], tokens: &'a [Token]) -> Result<(), AllocError>
        requires { held.found self.old name.now ≡ None }
        ensures macros { OnOk result (held.macros_of self.new ≡ held.macros_of self.old ++ (name.entry.now, tokens.entry.now) ∷ []) }
        ensures found { OnOk result (held.Sets self.old name.entry.now (record { tokens = tokens.entry; stage = Stage.Idle }) self.new) }
    {
        self.by_name.insert(
            name,
            Macro {
                tokens,
                stage: Stage::Idle,
            },
        )?;
        Ok(())
    }

    /// Sets how far a macro is that is defined by these tokens.
    pub fn set_stage(
        &mut self,
        name: &'a [u8],
        tokens: &'a [Token],
        stage: Stage,
    ) -> Result<(), AllocError>
        requires { held.IsDefinedAs self.old name.now tokens.now }
        ensures macros { OnOk result (held.macros_of self.new ≡ held.macros_of self.old) }
        ensures found { OnOk result (held.Sets self.old name.entry.now (record { tokens = tokens.entry; stage = stage }) self.new) }
    {
        self.by_name.insert(name, Macro { tokens, stage })?;
        Ok(())
    }
}
