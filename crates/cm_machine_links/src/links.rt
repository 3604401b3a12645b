//! The links of a set.

use crate::core_funcs::CoreFunc;

/// What each core function of each instance of a linked set stands for, by the place of the
/// instance in the set and the index of the core function, both from 0.
#[derive(Drop)]
pub struct Links {
    pub(crate) rows: Vec<Vec<CoreFunc>>,
}

impl Links {
    ghost use Rattle.std.specs.Prelude.{◌≡◌, length};
    ghost use Rattle.std.specs.Option.{option_map};
    ghost use Rattle.cm_machine_model.specs.Plan.{Plan, core_func_at};
    ghost use Rattle.cm_machine_links.specs.Planned.{ArePlanned, IsFound, rows_in};

    /// How many instances there are.
    pub fn instances(&self) -> usize
        ensures { result ≡ length (rows_in self.now) }
    {
        self.rows.len()
    }

    /// What a core function of an instance stands for, if it has one of this index.
    pub fn get(&self, instance: u32, func: u32) -> Option<&CoreFunc>
        ensures { (p : Plan) → ArePlanned p self.now
            → IsFound (core_func_at p instance func) (option_map (λ f. f.now) result) }
    {
        self.rows.get(instance as usize)?.get(func as usize)
    }
}
