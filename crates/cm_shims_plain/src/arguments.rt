//! What instances of shims are given.

ghost use Rattle.std.specs.Prelude.{◌≡◌, map};
ghost use Rattle.cm_names.specs.Listed.{listed};
ghost use Rattle.cm_shims_plain.specs.Names.{argument_key};

use crate::fault::ShimReason;
use crate::names::{argument_keys, first_twice, sort_key};
use crate::parts::Argument;
use crate::spaces::{TypeSpace, type_at};
use crate::stop::Stop;
use cm_binary_model::InstanceExportSort;
use cm_names::Keys;
use cm_types::ExternName;
use std::alloc::Global;

/// What an instance of a shim is given, found by sort and name, and where the types of the file
/// stand.
#[derive(Drop)]
pub(crate) struct Arguments<'a> {
    args: &'a [Argument],
    keys: Keys<'a>,
    outer: &'a TypeSpace,
    ghost keyed: { listed keys ≡ map argument_key args.now },
}

impl<'a> Arguments<'a> {
    ghost use Rattle.std.specs.Prelude.{◌≡◌};
    ghost use Rattle.cm_shims_plain.specs.Instantiated.{argument, given_by, type_argument};
    ghost use Rattle.cm_shims_plain.specs.Spaces.{types_of};
    ghost use Rattle.cm_shims_plain.specs.Steps.{Comes};
    ghost use Rattle.cm_shims_plain.specs.Views.{given_of};

    /// These arguments, where none stands twice.
    pub(crate) fn new(
        alloc: Global,
        args: &'a [Argument],
        outer: &'a TypeSpace,
    ) -> Result<Arguments<'a>, Stop<ShimReason>>
        ensures { Comes given_of result (given_by args.now (types_of outer.now).places) }
    {
        let keys = Keys::new(alloc, argument_keys(alloc, args)?)?;
        if first_twice(&keys, &argument_keys(alloc, args)?).is_some() {
            return Err(Stop::Fault(ShimReason::NameTwice));
        }
        Ok(Arguments { args, keys, outer })
    }

    /// The index of the first argument of this sort and name.
    pub(crate) fn find(
        &self,
        sort: InstanceExportSort,
        name: &ExternName,
    ) -> Result<u32, Stop<ShimReason>>
        ensures { Comes (λ i. i) result (argument (given_of self.now).args sort name.now) }
    {
        match self.keys.find(sort_key(sort), name.as_str()) {
            Some(place) => match self.args.get(place) {
                Some(arg) => Ok(arg.index),
                None => Err(Stop::Fault(ShimReason::MissingArgument)),
            },
            None => Err(Stop::Fault(ShimReason::MissingArgument)),
        }
    }

    /// Where the type stands that is given under this name.
    pub(crate) fn find_type(&self, name: &ExternName) -> Result<u32, Stop<ShimReason>>
        ensures { Comes (λ i. i) result (type_argument (given_of self.now) name.now) }
    {
        let index = self.find(InstanceExportSort::Type, name)?;
        type_at(self.outer, index)
    }
}
