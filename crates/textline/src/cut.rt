ghost use Rattle.std.specs.Prelude.{◌≡◌, ◌∷◌, ◌++◌, MatchOption};
ghost use Rattle.textline.specs.Lines.{Lacks};

/// What stands before the first such byte, and what stands behind it. `None` where there is none.
pub fn split_once(text: &[u8], byte: u8) -> Option<(&[u8], &[u8])>
    ensures { MatchOption result (Lacks byte text.now)
        (λ parts. Lacks byte parts.0.now × (text.now ≡ parts.0.now ++ byte ∷ parts.1.now)) }
{
    for (place, b) in text.iter().enumerate() {
        if *b == byte {
            return Some((&text[..place], &text[place + 1..]));
        }
    }
    None
}
