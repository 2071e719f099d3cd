//! Parses the words of a line.
ghost use Rattle.std.specs.Prelude.{◌≡◌, ◌==◌, ◌≤◌, ◌<◌, ℕ, List, ◌∷◌, ◌++◌, length, bytes_eq, IfOk, MatchOption, MatchResult};
ghost use Rattle.szg_build.specs.Fronts.{IsWord};
ghost use Rattle.hex.specs.Hex.{encode_lower};
ghost use Rattle.szg_build.specs.Grammar.{bytes_in, number_in};

use crate::dump::DumpFault;
use arrayvec::ArrayVec;
use itoa::Buffer;
use szg_file::typed::bytes_fit;

/// Returns the single word after `front`. Errors: `Field` if the text is not `front` and one word.
pub(crate) fn one_word<'a>(front: &[u8], text: &'a [u8]) -> Result<&'a [u8], DumpFault>
    ensures { MatchResult result (λ word. IsWord word.now × (text.now ≡ front.now ++ word.now))
        (λ fault. (fault ≡ DumpFault.Field) × ((word : List ℕ) → IsWord word → text.now ≡ front.now ++ word → ⊥)) }
{
    let Some(word) = text.strip_prefix(front) else {
        return Err(DumpFault::Field);
    };
    if word.contains(&b' ') {
        return Err(DumpFault::Field);
    }
    Ok(word)
}

/// Splits a text at its first space. None if it has no space.
pub(crate) fn split_word(text: &[u8]) -> Option<(&[u8], &[u8])>
    ensures { MatchOption result ((word : List ℕ) → (rest : List ℕ) → text.now ≡ word ++ 32 ∷ rest → ⊥)
        (λ parts. IsWord parts.0.now × (text.now ≡ parts.0.now ++ 32 ∷ parts.1.now)) }
{
    'bytes: for (i, byte) in text.iter().enumerate() {
        if *byte == b' ' {
            return Some((&text[..i], &text[i + 1..]));
        }
    }
    None
}

/// Returns the words of a text that is `front`, a word, a space, `middle` and a word. Errors: `Field` for another text.
pub(crate) fn two_words<'a>(
    front: &[u8],
    middle: &[u8],
    text: &'a [u8],
) -> Result<(&'a [u8], &'a [u8]), DumpFault>
    ensures { MatchResult result (λ words. IsWord words.0.now × IsWord words.1.now × (text.now ≡ front.now ++ (words.0.now ++ 32 ∷ (middle.now ++ words.1.now))))
        (λ fault. (fault ≡ DumpFault.Field) × ((first : List ℕ) → (second : List ℕ) → IsWord first → IsWord second → text.now ≡ front.now ++ (first ++ 32 ∷ (middle.now ++ second)) → ⊥)) }
{
    let Some(following) = text.strip_prefix(front) else {
        return Err(DumpFault::Field);
    };
    let Some((first, last)) = split_word(following) else {
        return Err(DumpFault::Field);
    };
    let second = one_word(middle, last)?;
    Ok((first, second))
}

/// Parses a decimal number up to `limit`. Errors: `Number` if the word is not the decimal text of such a number.
pub(crate) fn number_of(word: &[u8], limit: u64) -> Result<u64, DumpFault>
    ensures value { MatchResult result (λ number. number_in limit word.now ≡ Some number) (λ fault. (fault ≡ DumpFault.Number) × (number_in limit word.now ≡ None)) }
    ensures within { IfOk result (λ number. number ≤ limit) }
{
    let Ok(text) = str::from_utf8(word) else {
        return Err(DumpFault::Number);
    };
    let Ok(number) = text.parse::<u64>() else {
        return Err(DumpFault::Number);
    };
    if number > limit {
        return Err(DumpFault::Number);
    }
    let mut buffer = Buffer::new();
    if buffer.format(number).as_bytes() == word {
        Ok(number)
    } else {
        Err(DumpFault::Number)
    }
}

/// Returns whether a word is the lower-case hexadecimal text of these bytes.
fn is_spelled(bytes: &[u8], word: &[u8]) -> bool
    requires { length bytes.now ≤ 40 }
    ensures { result ≡ bytes_eq (encode_lower bytes.now) word.now }
{
    let mut room = [0; 80];
    let text = &mut room[..2 * bytes.len()];
    let Ok(()) = hex::encode_to_slice(bytes, text) else {
        unreachable!()
    };
    *text == *word
}

/// Parses the lower-case hexadecimal text of bytes. Errors: `Hex` for any other word.
pub(crate) fn hex_bytes(word: &[u8]) -> Result<ArrayVec<u8, 40>, DumpFault>
    requires { length word.now ≤ 80 }
    ensures { MatchResult result (λ bytes. bytes_in word.now ≡ Some bytes.items) (λ fault. (fault ≡ DumpFault.Hex) × (bytes_in word.now ≡ None)) }
{
    let mut room = [0; 40];
    let bytes = &mut room[..word.len() / 2];
    let Ok(()) = hex::decode_to_slice(word, bytes) else {
        return Err(DumpFault::Hex);
    };
    if !is_spelled(bytes, word) {
        return Err(DumpFault::Hex);
    }
    bytes_fit(bytes);
    let mut list = ArrayVec::new();
    let Ok(()) = list.try_extend_from_slice(bytes) else {
        unreachable!()
    };
    Ok(list)
}
