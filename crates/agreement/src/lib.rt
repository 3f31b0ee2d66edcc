//! The theorem on a plant that is drawn, issued and checked: what its equations say of the readings, what verdict is
//! answered, and that neither hangs on how the plant was drawn.
#![tactic(auto)]

mod accepting;
mod requests;

pub use accepting::{Acceptance, Buffers, accept};
pub use requests::{Request, accept_both};
