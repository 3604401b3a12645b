//! Core instances and instances.

ghost use Rattle.std.specs.Prelude.{◌≡◌, List, Ok, map};
ghost use Rattle.cm_binary_grammar.specs.Faults.{Gives};
ghost use Rattle.cm_binary_grammar.specs.Reading.{Reads};
ghost use Rattle.cm_binary_model.specs.declared.instances.InlineExport.{InlineExport};
ghost use Rattle.cm_binary_model.specs.Trees.{ArgTree, arg_tree, CoreExportTree, core_export_tree};
ghost use Rattle.cm_binary_model.specs.Trees.{CoreInstanceTree, core_instance_tree, instance_tree};
ghost use Rattle.cm_binary_forms.specs.Texts.{vector};
ghost use Rattle.cm_binary_forms.specs.Instances.{core_arg, core_export, core_instance};
ghost use Rattle.cm_binary_forms.specs.Instances.{core_instance_of, inline_export, instance_item};

use crate::indices::read_index;
use crate::sections::Items;
use crate::{CoreInstanceForm, DecodeReason, InstanceForm, read_extern_name, read_text};
use cm_binary_grammar::{Cursor, Form, ReadError, read_vec};
use cm_binary_model::{
    CoreInlineExport, CoreInstance, CoreInstantiationArg, InlineExport, Instance,
};
use std::alloc::Global;

impl Form<DecodeReason, Items> for CoreInstantiationArg {
    ghost Tree = { ArgTree };

    ghost tree = { arg_tree };

    ghost grammar = { core_arg };

    #[tactic(auto, unfolding(crate::specs::Instances::core_arg))]
    fn read(
        alloc: Global,
        bytes: &mut Cursor<'_, DecodeReason>,
    ) -> Result<Self, ReadError<DecodeReason>> {
        let name = read_text(alloc, bytes)?;
        bytes.byte(0x12, DecodeReason::UnknownCode)?;
        let instance = read_index(bytes)?;
        Ok(CoreInstantiationArg { name, instance })
    }
}

impl Form<DecodeReason, Items> for CoreInlineExport {
    ghost Tree = { CoreExportTree };

    ghost tree = { core_export_tree };

    ghost grammar = { core_export };

    #[tactic(auto, unfolding(crate::specs::Instances::core_export))]
    fn read(
        alloc: Global,
        bytes: &mut Cursor<'_, DecodeReason>,
    ) -> Result<Self, ReadError<DecodeReason>> {
        let name = read_text(alloc, bytes)?;
        let sort = bytes.code()?;
        let index = read_index(bytes)?;
        Ok(CoreInlineExport { name, sort, index })
    }
}

impl Form<DecodeReason, Items> for CoreInstance {
    ghost Tree = { CoreInstanceTree };

    ghost tree = { core_instance_tree };

    ghost grammar = { core_instance };

    #[tactic(auto, unfolding(crate::specs::Instances::core_instance, crate::specs::Instances::core_instance_of))]
    fn read(
        alloc: Global,
        bytes: &mut Cursor<'_, DecodeReason>,
    ) -> Result<Self, ReadError<DecodeReason>> {
        match bytes.code()? {
            CoreInstanceForm::Instantiate => {
                let module = read_index(bytes)?;
                let args = read_vec::<_, Items, _>(alloc, bytes, DecodeReason::BadNumber)?;
                Ok(CoreInstance::Instantiate { module, args })
            }
            CoreInstanceForm::Exports => {
                let exports = read_vec::<_, Items, _>(alloc, bytes, DecodeReason::BadNumber)?;
                Ok(CoreInstance::Exports(exports))
            }
        }
    }
}

impl Form<DecodeReason, Items> for InlineExport {
    ghost Tree = { InlineExport };

    ghost tree = { λ e. e };

    ghost grammar = { inline_export };

    #[tactic(auto, unfolding(crate::specs::Instances::inline_export))]
    fn read(
        alloc: Global,
        bytes: &mut Cursor<'_, DecodeReason>,
    ) -> Result<Self, ReadError<DecodeReason>> {
        let name = read_extern_name(alloc, bytes)?;
        let sort = bytes.code()?;
        let index = read_index(bytes)?;
        Ok(InlineExport { name, sort, index })
    }
}

impl Form<DecodeReason, Items> for Instance {
    ghost Tree = { List InlineExport };

    ghost tree = { instance_tree };

    ghost grammar = { instance_item };

    #[tactic(auto, unfolding(crate::specs::Instances::instance_item))]
    fn read(
        alloc: Global,
        bytes: &mut Cursor<'_, DecodeReason>,
    ) -> Result<Self, ReadError<DecodeReason>> {
        let InstanceForm::Exports = bytes.code()?;
        let exports = read_vec::<_, Items, _>(alloc, bytes, DecodeReason::BadNumber)?;
        Ok(Instance { exports })
    }
}
