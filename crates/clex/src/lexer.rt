//! The whole text.
ghost use Rattle.std.specs.Prelude.{◌≡◌, ◌<◌, ◌^◌, ◌++◌, ◌∷◌, [], List, ℕ, length, IfOk, IfErr, OnOk, IsOkUnless, Ok, Err};
ghost use Rattle.csyn.specs.declared.token.Token.{Token};
ghost use Rattle.csyn.specs.declared.span.Span.{Span};
ghost use Rattle.csyn.specs.declared.cause.Cause.{Cause};
ghost use Rattle.clex.specs.Text as text;

use crate::piece::piece;
use crate::place::Place;
use csyn::{SourceFault, Token, TokenKind};
use std::alloc::Global;

/// Adds the token, if the piece is one.
fn add(tokens: &mut Vec<Token>, place: Place, kind: Option<TokenKind>) -> Result<(), SourceFault>
    ensures added { OnOk result (tokens.new.items ≡ tokens.old.items ++ text.with_token place kind []) }
    ensures memory { IsOkUnless result SourceFault.Memory }
{
    if let Some(kind) = kind {
        tokens.push(place.token(kind))?;
    }
    Ok(())
}

fn read(alloc: Global, bytes: &[u8]) -> Result<Vec<Token>, SourceFault>
    requires { length bytes.now < 2 ^ 31 }
    ensures tokens { IfOk result (λ tokens. text.Spells tokens.items bytes.now) }
    ensures fault { IfErr result (text.IsFaultOf bytes.now) }
{
    let mut tokens = Vec::new(alloc);
    let mut place = Place::start();
    let mut rest = bytes;
    while !rest.is_empty() {
        let (kind, left) = match piece(alloc, rest) {
            Ok(found) => found,
            Err(fault) => return Err(fault.at(place.span)),
        };
        let (taken, _) = rest.split_at(rest.len() - left.len());
        let behind = place.after(&kind, taken);
        add(&mut tokens, place, kind)?;
        place = behind;
        rest = left;
    }
    tokens.push(place.token(TokenKind::End))?;
    Ok(tokens)
}

/// The tokens of a source, with the end token behind them; or the first rule of L1 to L4 that it breaks, and where.
pub fn tokens(alloc: Global, bytes: &[u8]) -> Result<Vec<Token>, SourceFault>
    requires { length bytes.now < 2 ^ 31 }

    // What is answered is spelled so, and what is spelled so is answered, unless memory is wanting.
    ensures spelled { IfOk result (λ tokens. text.Spells tokens.items bytes.now) }
    ensures read { (tokens : List Token) → text.Spells tokens bytes.now → text.Answers (λ tokens. tokens.items) result (Ok tokens) }

    // A fault that is named is the first, and the first is named, unless memory is wanting.
    ensures broken { IfErr result (text.IsFaultOf bytes.now) }
    ensures named { (span : Span) (cause : Cause) → text.IsFault bytes.now span cause
        → text.Answers (λ tokens. tokens.items) result (Err (SourceFault.Broken span cause)) }
{
    read(alloc, bytes)
}
