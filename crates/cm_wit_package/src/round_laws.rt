//! Laws of printed files: each function here does nothing, and its contract is the law.

ghost use Rattle.std.specs.Prelude.{◌≡◌, ℕ, List, None, Ok, map};
ghost use Rattle.cm_wit_tokens.specs.Whole.{text_reads};
ghost use Rattle.cm_wit_package.specs.Printed.{file_text};
ghost use Rattle.cm_wit_reading.specs.Files.{file};
ghost use Rattle.cm_wit_reading.specs.Trees.{File};
ghost use Rattle.cm_wit_tokens.specs.Tokens.{lexed};
ghost use Rattle.cm_wit_package.specs.TreeTokens.{file_tokens};
ghost use Rattle.cm_wit_package.specs.Words.{words};

/// The printed text of a file that was read from some text is read as that file again: its tokens,
/// to its end, are those of the file's tree (WIT.md, "Lexical structure" and "Packages and
/// Worlds").
pub fn printed_file_is_read()
    ensures tokens { (f : File) (text : List ℕ) → text_reads file text ≡ Ok f
        → map (λ t. t.form) (lexed (file_text f)).tokens ≡ file_tokens f }
    ensures to_end { (f : File) (text : List ℕ) → text_reads file text ≡ Ok f
        → (lexed (file_text f)).stop ≡ None }
    ensures read { (f : File) (text : List ℕ) → text_reads file text ≡ Ok f
        → text_reads file (file_text f) ≡ Ok f }
{}

/// The tokens of a text that is read are, but for operators, those of the file's tree.
pub fn words_are_kept()
    ensures { (f : File) (text : List ℕ) → text_reads file text ≡ Ok f
        → words (map (λ t. t.form) (lexed text).tokens) ≡ words (file_tokens f) }
{}
