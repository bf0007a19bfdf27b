//! The result of a search for ids.
ghost use Rattle.std.specs.{Prelude.◌≡◌, Prelude.MatchResult, Option.option_copied};

use qh_model::Id;
use std::alloc::AllocError;

/// The ids that a search found, or `None` if it cannot find them.
pub type FoundIds = Result<Option<Vec<Id>>, AllocError>;

/// Returns the result of a search, with the ids by reference.
pub fn told(found: &FoundIds) -> Result<Option<&Vec<Id>>, AllocError>
    ensures { MatchResult result (λ ids. found.now ≡ Ok (option_copied ids)) (λ e. found.now ≡ Err e) }
{
    match found {
        Ok(ids) => Ok(ids.as_ref()),
        Err(error) => Err(*error),
    }
}
