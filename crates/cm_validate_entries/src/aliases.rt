//! Aliases of what instances export.

ghost use Rattle.std.specs.Prelude.{◌≡◌, ℕ, IfSome, List, true};
ghost use Rattle.std.specs.Option.{option_map};
ghost use Rattle.cm_types.specs.Types.{FuncTy, Ty};
ghost use Rattle.cm_validate_entries.specs.Entries.{are_members_there, is_member_there};
ghost use Rattle.cm_validate_entries.specs.Entries.{item_member};
ghost use Rattle.cm_validate_entries.specs.Entries.{member_def, members_of, moved_number};
ghost use Rattle.cm_validate_entries.specs.Entries.{moved_place};

use crate::entries::{FuncEntry, InstanceEntry, MemberEntry};
use crate::spaces::ComponentSpaces;
use cm_binary_model::InstanceExportSort;
use cm_types::ResourceId;
use cm_types_arena::{ItemDesc, Move, Placed, Replacement};
use cm_validate_model::ValidReason;
use cm_validate_types::TypeEntry;
use std::alloc::AllocError;

/// What an alias of an instance's export comes to.
#[derive(Drop)]
pub enum Aliased {
    /// It violates this rule.
    Broken(ValidReason),
    /// A function, which was added.
    Func,
    /// A type, which is to be added to those of the component.
    Type(TypeEntry),
}

/// A type in an instance that is imported, by its place, with the move that stands for its
/// resources: the one of its own, and that of the import (`by`) where it has none.
pub fn moved_place(by: Move, ty: Placed) -> Placed
    ensures { result ≡ moved_place by ty }
{
    Placed {
        place: ty.place,
        by: ty.by.or(Some(by)),
    }
}

/// The number that a resource of such an instance gets, from 0: the one that the move of the import
/// puts in the place of its number in the type of the instance.
pub fn moved_number(by: Move, number: u64) -> u64
    ensures { result ≡ moved_number by number }
{
    by.replace(ResourceId {
        component: 0,
        number,
    })
    .number
}

/// The member that an item of an imported instance is.
fn item_member<'a>(import: usize, by: Move, number: usize, item: ItemDesc) -> MemberEntry<'a>
    ensures { result ≡ item_member import by number item }
{
    match item {
        ItemDesc::Func(ty) => MemberEntry::Func(FuncEntry::Imported {
            import,
            item: Some(number),
            ty: moved_place(by, ty),
        }),
        ItemDesc::EqualType(ty) => MemberEntry::Value(moved_place(by, ty)),
        ItemDesc::EqualResource(resource) => MemberEntry::Resource(moved_number(by, resource)),
        ItemDesc::FreshResource(resource) => MemberEntry::Resource(moved_number(by, resource)),
    }
}

impl<'a> InstanceEntry<'a> {
    ghost use Rattle.cm_validate_model.specs.Spaces.{member_named};

    /// What the instance has under a name, if anything. It costs one look-up.
    pub fn member(&self, name: &str) -> Option<MemberEntry<'a>>
        ensures def { (types : List Ty) (funcs : List FuncTy)
            → option_map (member_def types funcs) result
            ≡ member_named (members_of types funcs self.now) name.now }
        ensures there { (types funcs : ℕ) → are_members_there types funcs self.now ≡ true
            → IfSome result (λ m. is_member_there types funcs m ≡ true) }
    {
        match self {
            InstanceEntry::Imported { import, items, by } => {
                let (number, item) = items.find(name)?;
                Some(item_member(*import, *by, number, item))
            }
            InstanceEntry::Exporting(members) => members.get(name).copied(),
        }
    }
}

impl<'a> ComponentSpaces<'a> {
    ghost use Rattle.std.specs.Prelude.{IfOk, OnErr, length};
    ghost use Rattle.cm_binary_model.specs.Trees.{instance_export};
    ghost use Rattle.cm_validate_model.specs.Spaces.{Spaces, aliased_member};
    ghost use Rattle.cm_validate_entries.specs.ComponentSpaces.{AnswersAlias, IsComponentOf, Stays};

    /// What an instance has under a name, if the instance is there and has such a member.
    fn member(&self, instance: u32, name: &'a str) -> Option<MemberEntry<'a>>
        ensures def { (types : List Ty) (funcs : List FuncTy) (s : Spaces)
            → IsComponentOf types funcs self.now s
            → option_map (member_def types funcs) result ≡ aliased_member s instance name.now }
        ensures there { (types : List Ty) (funcs : List FuncTy) (s : Spaces)
            → IsComponentOf types funcs self.now s
            → IfSome result (λ m. is_member_there (length types) (length funcs) m ≡ true) }
    {
        self.instances.get(instance as usize)?.member(name)
    }

    /// Adds an alias of what an instance exports under a name: by one look-up, whether the instance
    /// was imported or made of definitions under names. Answers why it is refused: `NoSuchIndex`
    /// where there is no such instance or no such name in it, `WrongSort` where what is there is of
    /// another sort; the spaces then stay as they are. So they do with `AllocError`, which comes
    /// where there is no memory. A type is answered, and not added (Explainer.md, "Alias
    /// Definitions").
    pub fn alias(
        &mut self,
        sort: InstanceExportSort,
        instance: u32,
        name: &'a str,
    ) -> Result<Aliased, AllocError>
        ensures answer { IfOk result (λ r. AnswersAlias
            (instance_export sort instance name.now) self.old r self.new) }
        ensures kept { OnErr result (Stays self.old self.new) }
    {
        let Some(member) = self.member(instance, name) else {
            return Ok(Aliased::Broken(ValidReason::NoSuchIndex));
        };
        match (sort, member) {
            (InstanceExportSort::Func, MemberEntry::Func(func)) => {
                self.push_func(func)?;
                Ok(Aliased::Func)
            }
            (InstanceExportSort::Type, MemberEntry::Value(ty)) => {
                Ok(Aliased::Type(TypeEntry::Value(ty)))
            }
            (InstanceExportSort::Type, MemberEntry::Resource(number)) => {
                Ok(Aliased::Type(TypeEntry::Resource(number)))
            }
            _ => Ok(Aliased::Broken(ValidReason::WrongSort)),
        }
    }
}
