//! The check of a key.
ghost use Rattle.std.specs.Prelude.{⊤};
ghost use Rattle.vclock.specs.Answer.{AnswersAtOnce};
ghost use Rattle.vclock.specs.Bytes.{key_fault};

use crate::limits::KEY_LEN_MAX;
use crate::refusal::Refusal;

/// Checks that the bytes are a key: 1 to 255 bytes. Refused: BadKey.
pub fn check_key(key: &[u8]) -> Result<(), Refusal>
    ensures { AnswersAtOnce result (key_fault key.now) (λ _. ⊤) }
{
    if key.is_empty() || key.len() > KEY_LEN_MAX {
        return Err(Refusal::BadKey);
    }
    Ok(())
}
