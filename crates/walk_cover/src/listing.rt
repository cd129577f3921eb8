//! A list of prefixes that cover a program: those of the least length at which there are as many as
//! asked for.

ghost use Rattle.std.specs.Prelude.{◌≡◌, IfOk};
ghost use Rattle.std.specs.{Arc.arc_value, List.flat_map};
ghost use Rattle.walk_items.specs.Items.{root_of};
ghost use Rattle.walk_cover.specs.{Covers.IsCover, Prefixes.{IsListOf, prefix_line}};

use crate::children::next_layer;
use guest_code::laws::programs_are_well_formed;
use guest_code::program::Program;
use replay::schedule_text;
use semantics_schedules::limits::STEPS;
use std::alloc::{AllocError, Global};
use std::sync::Arc;
use walk_items::item::Item;
use walk_items::mode::Mode;

/// The items of a program's prefixes of one length, the least at which there are at least
/// `at_least` of them, in the rising order of schedules; a complete schedule that is shorter is
/// there as it is. Where no length has this many, all prefixes are complete schedules, with at most
/// `STEPS` steps. Prefixes with more preemptions than the mode's bound are there, too. With sleep
/// sets (`Reduced`) only those are there that the search enters, each with the threads that sleep
/// after it. A mode with equal threads once counts as the one with all.
///
/// The memory used is that of the list, of the list one step shorter, and of one state. Fails where
/// memory runs out.
pub fn prefixes(
    alloc: Global,
    program: Arc<Program>,
    mode: Mode,
    at_least: usize,
) -> Result<Vec<Item>, AllocError>
    ensures list { IfOk result (λ v. IsListOf mode (arc_value program) at_least v.items) }
    ensures cover { IfOk result (λ v. IsCover mode (root_of (arc_value program)) v.items) }
{
    programs_are_well_formed(&program);
    let mut items = Vec::new(alloc);
    items.push(Item::root(alloc, program)?)?;
    for _n in 0..STEPS {
        if items.len() >= at_least {
            return Ok(items);
        }
        let longer = next_layer(alloc, mode, items.as_slice())?;
        items = longer.items;
        if longer.is_last {
            return Ok(items);
        }
    }
    Ok(items)
}

/// The text of the prefixes of these items: a line for each, with its printed spelling. Fails where
/// memory runs out.
pub fn prefix_lines(alloc: Global, items: &[Item]) -> Result<Vec<u8>, AllocError>
    ensures { IfOk result (λ text. text.items ≡ flat_map prefix_line items.now) }
{
    let mut text = Vec::new(alloc);
    for item in items {
        text.extend_from_slice(schedule_text(alloc, item.prefix())?.as_slice())?;
        text.push(b'\n')?;
    }
    Ok(text)
}
