//! The resources of a component.

ghost use Rattle.std.specs.Prelude.{◌≡◌, length, map, slice_get};
ghost use Rattle.std.specs.List.Sorted.{IsNonDecreasingBy};
ghost use Rattle.std.specs.Option.{option_map};
ghost use Rattle.cm_validate_items.specs.Ranges.{begun, range_defs, resource_def, source_defs};
ghost use Rattle.cm_validate_items.specs.Ranges.{starts_from};

use crate::items::InstanceItems;
use std::alloc::{AllocError, Global};
use std::rc::Rc;

/// What a resource of a component is.
#[derive(Clone, Copy)]
pub enum Resource {
    /// One that the component defines, with its destructor, if it has one: a core function, by its
    /// index.
    Defined { destructor: Option<u32> },
    /// One that an item of an imported instance brings, by the numbers of import and item, from 0.
    Brought { import: usize, item: usize },
}

/// Where resources of a range come from.
#[derive(Drop)]
pub(crate) enum Source {
    /// One that the component defines, with its destructor.
    Defined(Option<u32>),
    /// Those that an import brings, in the order of its items.
    Brought {
        import: usize,
        items: Rc<InstanceItems>,
    },
}

/// Resources that have numbers one after another.
#[derive(Drop)]
pub(crate) struct Range {
    /// The number of the first one.
    pub(crate) first: u64,
    pub(crate) source: Source,
}

/// The resources of a component, in the order of their numbers from 0: those that it defines, and
/// those that its imports bring. The latter are not written out one by one: an import costs one
/// range.
#[derive(Drop)]
pub struct Resources {
    ranges: Vec<Range>,
    count: u64,
    ghost follow: { map (λ r. r.first) ranges.items ≡ starts_from 0 ranges.items },
    ghost counted: { count ≡ length (range_defs ranges.items) },
}

impl Source {
    /// Its resource of this number, from 0.
    fn get(&self, index: u64) -> Option<Resource>
        ensures { option_map resource_def result ≡ slice_get (source_defs self.now) index }
    {
        match self {
            Source::Defined(destructor) => {
                if index == 0 {
                    Some(Resource::Defined {
                        destructor: *destructor,
                    })
                } else {
                    None
                }
            }
            Source::Brought { import, items } => {
                let item = *items.fresh().get(index as usize)?;
                Some(Resource::Brought {
                    import: *import,
                    item,
                })
            }
        }
    }

    /// How many resources there are.
    fn len(&self) -> usize
        ensures { result ≡ length (source_defs self.now) }
    {
        match self {
            Source::Defined(_) => 1,
            Source::Brought { items, .. } => items.fresh().len(),
        }
    }
}

/// The range that begins last at or before a number.
fn begun(ranges: &[Range], number: u64) -> Option<&Range>
    ensures { IsNonDecreasingBy (λ r. r.first) ranges.now
        → option_map (λ r. r.now) result ≡ begun ranges.now number }
{
    let after = ranges.partition_point(|range| range.first <= number);
    match after.checked_sub(1) {
        Some(last) => ranges.get(last),
        None => None,
    }
}

impl Resources {
    ghost use Rattle.std.specs.Prelude.{◌++◌, ◌∷◌, [], OnOk, OnErr};
    ghost use Rattle.cm_validate_model.specs.Definitions.{brought, defined};
    ghost use Rattle.cm_validate_items.specs.Items.{fresh_of};
    ghost use Rattle.cm_validate_items.specs.InstanceTypes.{instance_type_of};
    ghost use Rattle.cm_validate_items.specs.Resources.{resources_in};

    /// No resources.
    pub fn new(alloc: Global) -> Resources
        ensures { resources_in result ≡ [] }
    {
        Resources {
            ranges: Vec::new(alloc),
            count: 0,
        }
    }

    /// How many there are, which is the number of the next one.
    pub fn count(&self) -> u64
        ensures { result ≡ length (resources_in self.now) }
    {
        self.count
    }

    /// The resource of this number, if there is one. It is found by a binary search.
    pub fn get(&self, number: u64) -> Option<Resource>
        ensures { option_map resource_def result ≡ slice_get (resources_in self.now) number }
    {
        let range = begun(&self.ranges, number)?;
        range.source.get(number.checked_sub(range.first)?)
    }

    /// Adds resources behind the others.
    fn push(&mut self, source: Source) -> Result<(), AllocError>
        ensures added { OnOk result
            (resources_in self.new ≡ resources_in self.old ++ source_defs source) }
        ensures kept { OnErr result (resources_in self.new ≡ resources_in self.old) }
    {
        let first = self.count;
        let Some(count) = first.checked_add(source.len() as u64) else {
            return Err(AllocError);
        };
        self.ranges.push(Range { first, source })?;
        self.count = count;
        Ok(())
    }

    /// Adds one that the component defines. `AllocError` comes where there is no memory for it; the
    /// resources then stay as they are.
    pub fn define(&mut self, destructor: Option<u32>) -> Result<(), AllocError>
        ensures added { OnOk result
            (resources_in self.new ≡ resources_in self.old ++ defined destructor ∷ []) }
        ensures kept { OnErr result (resources_in self.new ≡ resources_in self.old) }
    {
        self.push(Source::Defined(destructor))
    }

    /// Adds those that an import of this number brings, in the order of its items. `AllocError`
    /// comes where there is no memory for it, or where the numbers pass 2^64; the resources then
    /// stay as they are.
    pub fn bring(&mut self, import: usize, items: Rc<InstanceItems>) -> Result<(), AllocError>
        ensures added { OnOk result (resources_in self.new ≡ resources_in self.old
            ++ map (brought import) (fresh_of (instance_type_of items.value))) }
        ensures kept { OnErr result (resources_in self.new ≡ resources_in self.old) }
    {
        self.push(Source::Brought { import, items })
    }
}
