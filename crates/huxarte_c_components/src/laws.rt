//! What holds of what is handed out of a bundle, as laws: each function here does nothing, and its
//! contract is the law.

ghost use Rattle.std.specs.Prelude.{◌≡◌, [], List, Some, ℕ};
ghost use Rattle.cm_bundle_links.specs.Links.{AreLinks};
ghost use Rattle.cm_bundle_links.specs.cm_bundle.Trees.{BundleTree};
ghost use Rattle.cm_match_model.specs.Imports.{LinkSet, import_in};
ghost use Rattle.cm_match_model.specs.declared.component.Link.{Link};
ghost use Rattle.cm_types.specs.Signatures.{NamedExtern};
ghost use Rattle.cm_validate_model.specs.Spaces.{Spaces};
ghost use Rattle.huxarte_c_calls.specs.Spans.{AreWithin, parts_of};
ghost use Rattle.huxarte_c_components.specs.Choosing.{ArePlaced, IsSetBy};
ghost use Rattle.huxarte_c_components.specs.Unbundling.{SeesNamed, bytes_of, choices_from};
ghost use Rattle.huxarte_c_components.specs.Unbundling.{spans_from};

/// The parts of the bytes that stand one behind the other are the files.
pub fn files_are_read_back()
    ensures within { (files : List (List ℕ)) → AreWithin (bytes_of files) (spans_from 0 files) }
    ensures same { (files : List (List ℕ))
        → parts_of (bytes_of files) (spans_from 0 files) ≡ files }
{}

/// The choices of a bundle are of imports that are there, and no two are of one: none is refused.
pub fn choices_are_placed()
    ensures { (b : BundleTree) (set : List Spaces) (rows : List (List Link)) → AreLinks b set rows
        → ArePlaced set (choices_from 0 rows) }
{}

/// Where the files of a bundle are linked by its choices, each import sees the export that its
/// argument names, and no other.
pub fn imports_see_what_is_named()
    ensures { (b : BundleTree) (set : List Spaces) (rows : List (List Link)) → AreLinks b set rows
        → (linked : LinkSet) → IsSetBy set [] (choices_from 0 rows) linked
        → (importer number : ℕ) (item : NamedExtern)
        → import_in set importer number ≡ Some item
        → SeesNamed b set linked.sees importer number item }
{}
