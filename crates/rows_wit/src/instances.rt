//! Instances of interfaces, as rows name them.

use cm_rows::Line;
use cm_wit_tables::Instance;
use std::alloc::Global;

/// An interface by its number, behind `i` where it is imported, and `e` where it is exported.
fn read_instance(word: &str, line: &mut Line) -> Instance {
    let (exported, number) = match word.strip_prefix('e') {
        Some(number) => (true, number),
        None => (false, word.strip_prefix('i').unwrap_or("")),
    };
    Instance {
        exported,
        interface: line.number(number),
    }
}

/// Instances, with commas between them.
pub fn read_instances(alloc: Global, word: &str, line: &mut Line) -> Vec<Instance> {
    let mut instances = Vec::new(alloc);
    for part in word.split(',') {
        let instance = read_instance(part, line);
        line.push(&mut instances, instance);
    }
    instances
}
