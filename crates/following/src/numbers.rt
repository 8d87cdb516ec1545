// The numbers of nodes that words say.
ghost use Rattle.std.specs.Prelude.{◌≡◌, map, IfOk};
ghost use Rattle.std.specs.String.{string_bytes};
ghost use Rattle.following.specs.Words.{number_in, numbers_in, numbers_of};

use std::alloc::{AllocError, Global};

// The number of 32 bits that a word says.
fn number(word: &str) -> Option<u32>
    ensures { result ≡ number_in word.now }
{
    word.parse().ok()
}

// The numbers that words say, or the place of the first that says none.
pub(crate) fn numbers(heap: Global, words: &[String]) -> Result<Result<Vec<u32>, usize>, AllocError>
    ensures { IfOk result (λ answer. numbers_of answer ≡ numbers_in (map string_bytes words.now)) }
{
    let mut numbers = Vec::new(heap);
    for (i, word) in words.iter().enumerate() {
        let Some(n) = number(word.as_str()) else {
            return Ok(Err(i));
        };
        numbers.push(n)?;
    }
    Ok(Ok(numbers))
}
