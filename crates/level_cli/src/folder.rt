//! Where the bundles of a level stand.

ghost use Rattle.std.specs.Prelude.{◌↔◌, IfOk, IfSome, IsNone, slice_get, string_bytes};
ghost use Rattle.level_cli.specs.Folders.{NamesFolder, NamesNoFolder};

use program_ends::{Arguments, word_at};
use std::alloc::{AllocError, Global};
use std::str::from_utf8;

/// The folder that the first word behind the program's name says, and `.` where there is no word.
/// None where it is empty or no UTF-8. Want of memory is its only error.
pub fn folder_at<A: Arguments>(alloc: Global, args: &A) -> Result<Option<String>, AllocError>
    ensures none { IfOk result (λ folder. IfSome (A.texts args.now)
        (λ texts. IsNone folder ↔ NamesNoFolder (slice_get texts 1))) }
    ensures some { IfOk result (λ folder. IfSome folder (λ f. IfSome (A.texts args.now)
        (λ texts. NamesFolder (slice_get texts 1) (string_bytes f)))) }
{
    let Some(word) = word_at(alloc, args, 1)? else {
        return Ok(Some(String::from_str(alloc, ".")?));
    };
    if word.as_slice().is_empty() {
        return Ok(None);
    }
    let Ok(text) = from_utf8(word.as_slice()) else {
        return Ok(None);
    };
    Ok(Some(String::from_str(alloc, text)?))
}
