//! Laws of the definitions. A law is what its function ensures; the functions do nothing.

pub mod independence;
pub mod order;
pub mod reachable;
pub mod schedules;
pub mod symmetry;
pub mod worked;
