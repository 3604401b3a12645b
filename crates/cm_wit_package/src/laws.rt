//! Laws of packages: each function here does nothing that is seen, and its contract is the law.

ghost use Rattle.std.specs.Prelude.{◌≡◌, ℕ, List, Ok, Result, MatchResult};
ghost use Rattle.cm_wit_tokens.specs.declared.fault.WitFault.{WitFault};
ghost use Rattle.cm_wit_tokens.specs.Whole.{IsMemory, text_reads};
ghost use Rattle.cm_wit_package.specs.Printed.{file_text};
ghost use Rattle.cm_wit_names.specs.FileMentions.{mentions};
ghost use Rattle.cm_wit_reading.specs.Files.{file};
ghost use Rattle.cm_wit_reading.specs.Trees.{File};
ghost use Rattle.cm_wit_package.specs.declared.package.Package.{Package};
ghost use Rattle.cm_wit_package.specs.Mentioned.{AreOf, name_texts};
ghost use Rattle.cm_wit_package.specs.PackageViews.{package_tree};
ghost use Rattle.cm_wit_package.specs.Packages.{IsParsed};
ghost use Rattle.cm_wit_package.specs.Texts.{IsPackage};

use crate::round_laws::{printed_file_is_read, words_are_kept};

/// The printed text of a package is read as that package. So whatever a function answers to it that
/// reads as `parse` does is that package, and no fault but want of memory.
pub fn printed_and_parsed()
    ensures printed { (p : File) (text : List ℕ) → IsPackage text p → IsPackage (file_text p) p }
    ensures parsed { (p : File) (text : List ℕ) → IsPackage text p
        → (result : Result Package WitFault) → IsParsed (file_text p) result
        → MatchResult result (λ read. package_tree read ≡ p) IsMemory }
{
    printed_file_is_read();
}

/// The mentions of a file and the names of its text correspond one for one, in order: so the place
/// of the n-th name is that of the n-th mention.
pub fn mentions_are_of_names()
    ensures { (f : File) (text : List ℕ) → text_reads file text ≡ Ok f
        → AreOf (mentions f) (name_texts text) }
{
    words_are_kept();
}
