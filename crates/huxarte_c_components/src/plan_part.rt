//! A part of a plan.

ghost use Rattle.std.specs.Prelude.{◌≡◌, []};
ghost use Rattle.cm_binary_model.specs.Trees.{arg_tree, core_export_tree};
ghost use Rattle.huxarte_c_components.specs.Plans.{given_part, item_part, option_part};
ghost use Rattle.huxarte_c_components.specs.Plans.{part_tree, plan_part, row_of, sort_number};

use cm_binary_model::{CanonOption, CoreInlineExport, CoreInstantiationArg, CoreSort};

/// What a part of a plan is: a definition that an engine makes, or a word of one.
#[derive(Clone, Copy)]
pub enum HuxPlanKind {
    /// A core module, whose bytes stand in the texts.
    Module = 1,
    /// A core instance of core module `index`, which is given the next `count` parts.
    Instance = 2,
    /// Core instance `index`, under a name that the core module imports from.
    Given = 3,
    /// A core instance of the next `count` parts.
    Inline = 4,
    /// Core definition `index` of a sort, under a name.
    Item = 5,
    /// What core instance `index` exports under a name: one more core definition of the sort.
    Alias = 6,
    /// One more core function: a call of function `index`, which leaves the guest; the next `count`
    /// parts are its options.
    Lower = 7,
    /// One more core function: makes a handle of resource type `index`.
    New = 8,
    /// One more core function: drops one.
    Drop = 9,
    /// One more core function: tells the representation of one.
    Represent = 10,
    /// Core function `index` is the body of one more function; the next `count` parts are its
    /// options.
    Lift = 11,
    /// An option of a lower or a lift, by its code, which is the sort: 0 UTF-8, 1 UTF-16, 2
    /// Latin-1 or UTF-16, 3 the core memory `index`, 4 the core function `index` that allocates, 5
    /// the one that is called when a result was read (Binary.md, `canonopt`).
    CanonOption = 12,
}

/// A part of a plan, in the order of the component's definitions. Each core definition has the next
/// index of its sort, from 0.
#[repr(C)]
#[derive(Clone, Copy)]
pub struct HuxPlanPart {
    /// How many bytes it has in the texts, behind those of the parts before: a core module's, or a
    /// name.
    pub length: usize,
    /// How many of the next parts are words of it.
    pub count: usize,
    /// What it is: a `HuxPlanKind`.
    pub kind: u32,
    /// Of what it is made.
    pub index: u32,
    /// Of an item or an alias 0 a core function, 1 a table, 2 a memory, 3 a global; of an option
    /// its code; else 0.
    pub sort: u32,
}

/// How long a plan is.
#[repr(C)]
#[derive(Clone, Copy)]
pub struct HuxPlan {
    /// How many parts it has.
    pub parts: usize,
    /// How many bytes its texts have.
    pub bytes: usize,
}

/// A part of a plan, with its bytes.
#[derive(Clone, Copy)]
pub(crate) struct Part<'a> {
    pub(crate) kind: HuxPlanKind,
    pub(crate) index: u32,
    pub(crate) sort: u32,
    pub(crate) count: usize,
    pub(crate) bytes: &'a [u8],
}

impl<'a> Part<'a> {
    /// A part with no name.
    pub(crate) fn plain(kind: HuxPlanKind, index: u32, count: usize) -> Part<'a>
        ensures { part_tree result ≡ plan_part kind index 0 count [] }
    {
        Part {
            kind,
            index,
            sort: 0,
            count,
            bytes: &[],
        }
    }

    /// A part in numbers.
    pub(crate) fn row(&self) -> HuxPlanPart
        ensures { result ≡ row_of (part_tree self.now) }
    {
        HuxPlanPart {
            length: self.bytes.len(),
            count: self.count,
            kind: self.kind as u32,
            index: self.index,
            sort: self.sort,
        }
    }
}

/// The number of a sort.
pub(crate) fn sort_number(sort: CoreSort) -> u32
    ensures { result ≡ sort_number sort }
{
    match sort {
        CoreSort::Func => 0,
        CoreSort::Table => 1,
        CoreSort::Memory => 2,
        CoreSort::Global => 3,
    }
}

/// A core instance that a core module is given.
pub(crate) fn given_part(arg: &CoreInstantiationArg) -> Part<'_>
    ensures { part_tree result ≡ given_part (arg_tree arg.now) }
{
    Part {
        kind: HuxPlanKind::Given,
        index: arg.instance,
        sort: 0,
        count: 0,
        bytes: arg.name.as_bytes(),
    }
}

/// A core definition under a name.
pub(crate) fn item_part(export: &CoreInlineExport) -> Part<'_>
    ensures { part_tree result ≡ item_part (core_export_tree export.now) }
{
    Part {
        kind: HuxPlanKind::Item,
        index: export.index,
        sort: sort_number(export.sort),
        count: 0,
        bytes: export.name.as_bytes(),
    }
}

/// An option of a canonical definition.
pub(crate) fn option_part<'a>(option: CanonOption) -> Part<'a>
    ensures { part_tree result ≡ option_part option }
{
    let (sort, index) = match option {
        CanonOption::Utf8 => (0, 0),
        CanonOption::Utf16 => (1, 0),
        CanonOption::Latin1Utf16 => (2, 0),
        CanonOption::Memory(memory) => (3, memory),
        CanonOption::Realloc(func) => (4, func),
        CanonOption::PostReturn(func) => (5, func),
    };
    Part {
        kind: HuxPlanKind::CanonOption,
        index,
        sort,
        count: 0,
        bytes: &[],
    }
}
