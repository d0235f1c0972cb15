//! Blanks, and the words between them.

ghost use Rattle.std.specs.Prelude.{◌≡◌};
ghost use Rattle.asmword.specs.Blanks.{is_blank, behind_blanks, before_blanks, trimmed, first_word, behind_word};

#[tactic(auto, unfolding(crate::specs::Blanks::is_blank))]
fn is_blank(byte: u8) -> bool
    ensures { result ≡ is_blank byte }
{
    byte == b' ' || byte == b'\t'
}

/// The text without the spaces and tabs before it.
#[tactic(auto, using(crate::proofs::BlankLaws::skip, crate::proofs::BlankLaws::skip_stop, crate::proofs::BlankLaws::skip_none))]
pub fn behind_blanks(text: &[u8]) -> &[u8]
    ensures { result.now ≡ behind_blanks text.now }
{
    let mut rest = text;
    'blanks: while let Some((byte, behind)) = rest.split_first() {
        if !is_blank(*byte) {
            break;
        }
        rest = behind;
    }
    rest
}

#[tactic(auto, using(crate::proofs::BlankLaws::last, crate::proofs::BlankLaws::last_stop, crate::proofs::BlankLaws::last_none))]
fn before_blanks(text: &[u8]) -> &[u8]
    ensures { result.now ≡ before_blanks text.now }
{
    let mut rest = text;
    'blanks: while let Some((byte, before)) = rest.split_last() {
        if !is_blank(*byte) {
            break;
        }
        rest = before;
    }
    rest
}

/// The text without the spaces and tabs around it.
pub fn trimmed(text: &[u8]) -> &[u8]
    ensures { result.now ≡ trimmed text.now }
{
    before_blanks(behind_blanks(text))
}

#[tactic(auto, using(crate::proofs::BlankLaws::word_step, crate::proofs::BlankLaws::word_stop, crate::proofs::BlankLaws::word_none))]
fn behind_word(text: &[u8]) -> &[u8]
    ensures { result.now ≡ behind_word text.now }
{
    let mut rest = text;
    'bytes: while let Some((byte, behind)) = rest.split_first() {
        if is_blank(*byte) {
            break;
        }
        rest = behind;
    }
    rest
}

/// The first word, up to a blank, and what stands behind it.
#[tactic(auto, using(crate::proofs::BlankLaws::word_length, crate::proofs::BlankLaws::word_cut))]
pub fn split_word(text: &[u8]) -> (&[u8], &[u8])
    ensures word { result.0.now ≡ first_word text.now }
    ensures behind { result.1.now ≡ behind_word text.now }
{
    let behind = behind_word(text);
    (&text[..text.len() - behind.len()], behind)
}
