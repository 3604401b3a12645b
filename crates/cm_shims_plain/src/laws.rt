//! Laws of files that may have shims.

ghost use Rattle.std.specs.Prelude.{◌≡◌, ◌<◌, ℕ, List, Ok, Some, length};
ghost use Rattle.cm_types.specs.DefTypes.{DefTypeTree};
ghost use Rattle.cm_binary_model.specs.Trees.{SectionTree};
ghost use Rattle.cm_binary_forms.specs.File.{Spells};
ghost use Rattle.cm_shims_plain.specs.Trees.{ShimSectionTree};
ghost use Rattle.cm_shims_plain.specs.declared.wants.Want.{Want};
ghost use Rattle.cm_shims_plain.specs.Instantiated.{Given, Instantiated, instantiated};
ghost use Rattle.cm_shims_plain.specs.Instantiated.{instantiating};
ghost use Rattle.cm_shims_plain.specs.Origins.{place_in};
ghost use Rattle.cm_shims_plain.specs.Reading.{IsReadAs};
ghost use Rattle.cm_shims_plain.specs.Renaming.{RenamesAll};
ghost use Rattle.cm_shims_plain.specs.Widened.{own_component, own_origins};

/// A file without shims is read as the component that it spells, within the limits of files;
/// nothing is wanted of it, and each section and item comes from itself.
pub fn nothing_old_changes()
    ensures read { (bytes : List ℕ) (c : List SectionTree) → Spells c bytes
        → IsReadAs bytes (own_component c) }
    ensures places { (c : List SectionTree) (section item : ℕ) → section < length c
        → place_in (own_origins 0 c) section item
        ≡ Some (record { section = section; item = item }) }
{}

/// An instance of a shim exports nothing but functions that it is given, types of the file, and
/// types that the shim defines, which stand behind those that the component had before.
pub fn shims_only_rename()
    ensures { (g : Given) (first : ℕ) (made : List DefTypeTree) (wants : List Want)
        (shim : List ShimSectionTree) (t : Instantiated)
        → instantiated g (instantiating first made wants) shim ≡ Ok t
        → RenamesAll g first t.types.count t.exports }
{}
