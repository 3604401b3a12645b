//! The numbers of the faults of texts, worlds, tables, signatures and of what is shown.

use cm_rows::Line;
use cm_tool_show::ShowFault;
use cm_wit_conforms::ConformReason;
use cm_wit_reading::WitReason;
use cm_wit_tables::TableFault;
use cm_wit_worlds::WorldFault;

/// Writes each fault of a kind with its number.
pub fn answer(kind: &str, line: &mut Line) {
    match kind {
        "reading" => write_reasons(line),
        "world" => write_world_faults(line),
        "table" => write_table_faults(line),
        "conforms" => write_conform_reasons(line),
        "shows" => write_show_faults(line),
        _ => line.refuse(),
    }
}

fn write_reasons(line: &mut Line) {
    for reason in [
        WitReason::BadToken,
        WitReason::Unexpected,
        WitReason::Duplicate,
        WitReason::UnknownName,
        WitReason::Cycle,
        WitReason::Unsupported,
        WitReason::TooDeep,
        WitReason::Memory,
    ] {
        line.number_of(reason.name(), reason.number());
    }
}

fn write_world_faults(line: &mut Line) {
    for fault in [
        WorldFault::NoSuchWorld,
        WorldFault::NoSuchInterface,
        WorldFault::NoSuchType,
        WorldFault::Cycle,
        WorldFault::TooLarge,
        WorldFault::Memory,
    ] {
        line.number_of_debug(&fault, fault.number());
    }
}

fn write_table_faults(line: &mut Line) {
    for fault in [
        TableFault::NoSuchType,
        TableFault::Cycle,
        TableFault::TooLarge,
        TableFault::NotSpellable,
        TableFault::Memory,
    ] {
        line.number_of_debug(&fault, fault.number());
    }
}

fn write_conform_reasons(line: &mut Line) {
    for reason in [
        ConformReason::Missing,
        ConformReason::NotInWorld,
        ConformReason::DifferentType,
        ConformReason::Memory,
    ] {
        line.number_of_debug(&reason, reason.number());
    }
}

fn write_show_faults(line: &mut Line) {
    for fault in [ShowFault::TooLong, ShowFault::Memory] {
        line.number_of_debug(&fault, fault.number());
    }
}
