//! Where the instructions of a program come from. Those that only skip others are told nowhere.

use guest_code::lowering::lower;
use guest_code::source_map::SourceMap;
use guest_syntax::parse;
use std::alloc::Global;
use std::test::*;

/// A text whose first thread has a choice and copies.
const PLACED: &str =
    "var x;\nthread A {\n  if r == 0 {\n    store x 1;\n  } else {\n    repeat 2 { add old x 1; leave; }\n  }\n  assert r;\n}";

// In one line, the places of the instructions of a text's first thread as LINE:COLUMN, and the
// names of its locals as lists of bytes. `keeps_limits` does nothing; its contract puts the indices
// in range.
fn places_and_locals(alloc: Global, text: &str) -> Result<String, Fail> {
    let tree = parse(alloc, text.as_bytes())?;
    let program = lower(alloc, &tree)?;
    let map = SourceMap::new(alloc, &tree)?;
    program.keeps_limits();
    let mut shown = String::new(alloc);
    for i in 0..program.code(0).len() {
        write!(shown, "{} ", map.place(0, i))?;
    }
    for i in 0..program.locals(0) {
        write!(shown, "{:?}", map.local_name(0, i))?;
    }
    Ok(shown)
}

// The `if` of `PLACED` has two instructions (3:3), around its `store`; each copy of the `repeat` an
// `add` (6:16) and a `leave` (6:29). The locals are `r` and `old`.
#[test]
fn instructions_have_places(rt: HostRuntime) -> Result<(), Fail> {
    let shown = places_and_locals(rt.alloc(), PLACED)?;
    assert_eq!(rt;
        shown.as_str(),
        "3:3 4:5 3:3 6:16 6:29 6:16 6:29 8:3 [114][111, 108, 100]"
    );
    Ok(())
}
