//! The types that a signature names.

use cm_hux_show::{Key, Used, last_resources};
use cm_tool_show::Counting;
use cm_types_arena::{Desc, Externs, ItemDesc, Items, Move, Placed, Signature, Types};
use std::alloc::{AllocError, Global};
use std::collections::BTreeMap;

/// The types that a signature names, also within others: each once for each way in which its
/// resources are counted, behind those that it holds.
#[derive(Drop)]
pub(crate) struct Met<'t> {
    types: &'t Types,
    pub(crate) lasts: Vec<Option<u64>>,
    pub(crate) used: BTreeMap<Key, Used>,
    /// Those whose parts are to be met.
    open: Vec<Used>,
}

impl<'t> Met<'t> {
    /// Those of a signature. They cost its imports, exports and items, and their own nodes.
    pub(crate) fn of(alloc: Global, signature: &'t Signature) -> Result<Met<'t>, AllocError> {
        let types = signature.types();
        let mut met = Met {
            types,
            lasts: last_resources(alloc, types)?,
            used: BTreeMap::new(alloc),
            open: Vec::new(alloc),
        };
        met.meet_externs(signature.imports())?;
        met.meet_externs(signature.exports())?;
        met.meet_below()?;
        Ok(met)
    }

    /// Meets a type, if it was not met.
    fn meet(&mut self, used: Used) -> Result<(), AllocError> {
        let key = used.key(&self.lasts);
        if self.used.get(&key).is_none() {
            self.used.insert(key, used)?;
            self.open.push(used)?;
        }
        Ok(())
    }

    fn meet_externs(&mut self, externs: &Externs) -> Result<(), AllocError> {
        for place in 0..externs.len() {
            if let Some(each) = externs.at(place) {
                match each.desc {
                    Desc::Func(placed) => self.meet_func(placed, None)?,
                    Desc::Instance(items) => self.meet_items(items)?,
                }
            }
        }
        Ok(())
    }

    fn meet_items(&mut self, items: Items<'_>) -> Result<(), AllocError> {
        for place in 0..items.len() {
            if let Some(item) = items.at(place) {
                self.meet_item(item.desc, items.by())?;
            }
        }
        Ok(())
    }

    fn meet_item(&mut self, desc: ItemDesc, brought: Option<Move>) -> Result<(), AllocError> {
        match desc {
            ItemDesc::Func(placed) => self.meet_func(placed, brought),
            ItemDesc::EqualType(placed) => self.meet(used_at(placed, brought)),
            ItemDesc::EqualResource(_) | ItemDesc::FreshResource(_) => Ok(()),
        }
    }

    fn meet_func(&mut self, placed: Placed, brought: Option<Move>) -> Result<(), AllocError> {
        let types = self.types;
        if placed.place >= types.func_count() {
            return Ok(());
        }
        let func = used_at(placed, brought);
        if let Some(place) = types.func_result(placed.place) {
            self.meet(func.at(place))?;
        }
        for place in types.func_params(placed.place) {
            self.meet(func.at(*place))?;
        }
        Ok(())
    }

    /// Meets what those hold that were met, and what that holds.
    fn meet_below(&mut self) -> Result<(), AllocError> {
        for _ in 0..u64::MAX {
            match self.open.pop() {
                Some(used) => self.meet_parts(used)?,
                None => return Ok(()),
            }
        }
        Ok(())
    }

    fn meet_parts(&mut self, used: Used) -> Result<(), AllocError> {
        let types = self.types;
        if used.place >= types.len() {
            return Ok(());
        }
        for place in types.parts(used.place) {
            self.meet(used.at(*place))?;
        }
        Ok(())
    }
}

/// A type, or the type of a function, where an import or export brings it so.
pub(crate) fn used_at(placed: Placed, brought: Option<Move>) -> Used {
    Used {
        place: placed.place,
        by: Counting::new(placed.by, brought),
    }
}
